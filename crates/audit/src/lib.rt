// Document 01, "The audit".
#![tactic(auto)]

ghost use Rattle.std.specs.Prelude.{◌≡◌, ◌≤◌, length};
ghost use Rattle.facts.specs.Fact.{Tells};
ghost use Rattle.reading_rules.specs.Reading.{reading};
ghost use Rattle.audit_count.specs.Differences.{entries, counts_of};
ghost use Rattle.audit.specs.Audit.{reference, told_by, differing, refused_audit, carried, tally, auditing, listing, AuditsIn, Audits, AuditsBytes};
ghost use Rattle.audit.specs.AuditLaws.{Paired};

use answers::{Audited, Reading};
use audit_count::Counts;
use audit_places::Unit;

// A refusal that carries no counts.
pub fn refused(number: u32, index: usize) -> Audited
    ensures { result ≡ refused_audit number index }
{
    Audited {
        number,
        index,
        base: 0,
        settings: 0,
        strays: 0,
        bits: 0,
        explained: false,
    }
}

// An answer that carries counts.
pub fn carry(number: u32, base: u64, t: Counts, explained: bool) -> Audited
    ensures { result ≡ carried number base t explained }
{
    Audited {
        number,
        index: 0,
        base,
        settings: t.settings,
        strays: t.strays,
        bits: t.bits,
        explained,
    }
}

// What the edition counts: of edition 1 every difference is a stray (request #109).
fn measure(vendor: &[u8], shipped: &[u8], r: Reading, base: u64) -> Counts
    requires { Paired vendor.now shipped.now r base }
    ensures { result ≡ counts_of (reference vendor.now shipped.now) shipped.now (told_by vendor.now) }
{
    if r.component == 0 {
        return Counts {
            settings: 0,
            strays: audit_plain::count(vendor, shipped),
            bits: 0,
        };
    }
    let d = move_image::shift_between(r.base, base);
    audit_count::count_all(vendor, shipped, r, d)
}

// The pair is one, and its base legal: the counts, and whether `room` places are enough.
fn tell(vendor: &[u8], shipped: &[u8], r: Reading, base: u64, room: usize) -> Audited
    requires { Paired vendor.now shipped.now r base }
    ensures { result ≡ tally vendor.now shipped.now room }
{
    let t = measure(vendor, shipped, r, base);
    if room < t.settings + t.strays {
        return carry(20, base, t, false);
    }
    carry(0, base, t, t.strays == 0)
}

// The whole answer for a list of `room` places, before anything is listed.
fn survey(vendor: &[u8], shipped: &[u8], r: Reading, room: usize) -> Audited
    requires { r ≡ reading vendor.now }
    ensures { result ≡ auditing vendor.now shipped.now room }
{
    if r.number != 0 {
        return refused(r.number, r.index);
    }
    if shipped.len() != vendor.len() {
        return refused(19, 0);
    }
    let base = words::le32(shipped, r.H + 28) as u64;
    if !header::legal(base, vendor.len()) {
        return refused(18, 0);
    }
    tell(vendor, shipped, r, base, room)
}

// Whether an accepted answer has anything to list: equal files aren't walked a second time.
pub fn lists(a: Audited) -> bool
    ensures { Tells result (listing a) }
{
    if a.number != 0 {
        return false;
    }
    if a.settings != 0 {
        return true;
    }
    if a.strays != 0 {
        return true;
    }
    false
}

// Lists what differs, as the edition has it.
fn list<U: Unit>(vendor: &[u8], shipped: &[u8], places: &mut [U], r: Reading, base: u64)
    requires paired { Paired vendor.now shipped.now r base }
    requires shipped_in_bounds { length (differing vendor.now shipped.now) ≤ U.places (length places.old) }
    ensures { places.new
        ≡ U.writing.all places.old 0 (entries (told_by vendor.now) (differing vendor.now shipped.now)) }
{
    if r.component == 0 {
        audit_plain::list(vendor, shipped, places);
        return;
    }
    let d = move_image::shift_between(r.base, base);
    audit_list::fill_all(vendor, shipped, places, r, d);
}

// Audits a shipped file against the maker's image, whatever both are, with a list of words or of bytes: what differs, listed in `places`,
// or a refusal that changes nothing.
pub fn audit_in<U: Unit>(vendor: &[u8], shipped: &[u8], places: &mut [U]) -> Audited
    ensures { AuditsIn U.writing (U.places (length places.old)) vendor.now shipped.now places.old result places.new }
{
    let r = reading::read(vendor);
    let a = survey(vendor, shipped, r, U::room(places));
    if !lists(a) {
        return a;
    }
    list(vendor, shipped, places, r, a.base);
    a
}

// The same with a list of words.
pub fn audit(vendor: &[u8], shipped: &[u8], places: &mut [u32]) -> Audited
    ensures { Audits vendor.now shipped.now places.old result places.new }
{
    audit_in(vendor, shipped, places)
}

// The same with a list in which a place is four bytes; bytes after the last whole place are kept.
pub fn audit_bytes(vendor: &[u8], shipped: &[u8], places: &mut [u8]) -> Audited
    ensures { AuditsBytes vendor.now shipped.now places.old result places.new }
{
    audit_in(vendor, shipped, places)
}
