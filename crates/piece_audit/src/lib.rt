// Document 01, "The audit", over the reference piece by piece; `audit` is the one that C calls.
#![tactic(auto)]

ghost use Rattle.std.specs.Prelude.{true, false, ◌⊎◌, ◌≡◌, ◌≤◌, length};
ghost use Rattle.reading_rules.specs.Reading.{parted, reading};
ghost use Rattle.audit_count.specs.Differences.{entries, counts_of};
ghost use Rattle.audit.specs.Audit.{reference, told_by, differing, tally, auditing, Audits, AuditsBytes};
ghost use Rattle.audit.specs.AuditLaws.{Paired};

use answers::{Audited, Reading};
use audit_count::Counts;
use audit_places::Unit;

// Whether the shipped file is compared with the vendor image as it is: one of edition 1 (request #109), or one at its own base.
fn is_plain(r: Reading, base: u64) -> bool
    ensures { (result ≡ true → (r.component ≡ 0) ⊎ (r.base ≡ base)) × (result ≡ false → r.component ≡ 0 → ⊥) }
{
    if r.component == 0 {
        return true;
    }
    r.base == base
}

// The reading by which settings are told from strays: an edition 1 image has no settings part that is known.
fn told(r: Reading) -> Reading
    ensures { (r.component ≡ 0 → result ≡ parted r 0 0) × ((r.component ≡ 0 → ⊥) → result ≡ r) }
{
    if r.component != 0 {
        return r;
    }
    Reading { c: 0, z: 0, ..r }
}

// What is counted of the differences.
fn measure(vendor: &[u8], shipped: &[u8], r: Reading, base: u64) -> Counts
    requires { Paired vendor.now shipped.now r base }
    ensures { result ≡ counts_of (reference vendor.now shipped.now) shipped.now (told_by vendor.now) }
{
    if is_plain(r, base) {
        let none = Counts {
            settings: 0,
            strays: 0,
            bits: 0,
        };
        return piece_count::count_part(vendor, 0, shipped, 0, shipped.len(), told(r), none);
    }
    let d = move_image::shift_between(r.base, base);
    piece_count::count_moved(vendor, shipped, r, d)
}

// The pair is one, and its base legal: the counts, and whether `room` places are enough.
fn tell(vendor: &[u8], shipped: &[u8], r: Reading, base: u64, room: usize) -> Audited
    requires { Paired vendor.now shipped.now r base }
    ensures { result ≡ tally vendor.now shipped.now room }
{
    let t = measure(vendor, shipped, r, base);
    if room < t.settings + t.strays {
        return audit::carry(20, base, t, false);
    }
    audit::carry(0, base, t, t.strays == 0)
}

// The whole answer for a list of `room` places, before anything is listed.
fn survey(vendor: &[u8], shipped: &[u8], r: Reading, room: usize) -> Audited
    requires { r ≡ reading vendor.now }
    ensures { result ≡ auditing vendor.now shipped.now room }
{
    if r.number != 0 {
        return audit::refused(r.number, r.index);
    }
    if shipped.len() != vendor.len() {
        return audit::refused(19, 0);
    }
    let base = words::le32(shipped, r.H + 28) as u64;
    if !header::legal(base, vendor.len()) {
        return audit::refused(18, 0);
    }
    tell(vendor, shipped, r, base, room)
}

// Lists what differs.
fn list<U: Unit>(vendor: &[u8], shipped: &[u8], places: &mut [U], r: Reading, base: u64)
    requires paired { Paired vendor.now shipped.now r base }
    requires shipped_in_bounds { length (differing vendor.now shipped.now) ≤ U.places (length places.old) }
    ensures { places.new
        ≡ U.writing.all places.old 0 (entries (told_by vendor.now) (differing vendor.now shipped.now)) }
{
    if is_plain(r, base) {
        piece_list::list_part(vendor, 0, shipped, 0, shipped.len(), told(r), places, 0);
        return;
    }
    let d = move_image::shift_between(r.base, base);
    piece_list::list_moved(vendor, shipped, r, d, places);
}

// The audit with a list of words or of bytes.
fn audit_in<U: Unit>(vendor: &[u8], shipped: &[u8], places: &mut [U]) -> Audited
    ensures told { result ≡ auditing vendor.now shipped.now (U.places (length places.old)) }
    ensures listed { result.number ≡ 0
        → places.new ≡ U.writing.all places.old 0 (entries (told_by vendor.now) (differing vendor.now shipped.now)) }
    ensures kept { (result.number ≡ 0 → ⊥) → places.new ≡ places.old }
{
    let r = reading::read(vendor);
    let a = survey(vendor, shipped, r, U::room(places));
    if !audit::lists(a) {
        return a;
    }
    list(vendor, shipped, places, r, a.base);
    a
}

// Audits a shipped file against the maker's image, whatever both are: what differs, listed in `places`, or a refusal that changes nothing.
pub fn audit(vendor: &[u8], shipped: &[u8], places: &mut [u32]) -> Audited
    ensures { Audits vendor.now shipped.now places.old result places.new }
{
    audit_in(vendor, shipped, places)
}

// The same with a list in which a place is four bytes; bytes after the last whole place are kept.
pub fn audit_bytes(vendor: &[u8], shipped: &[u8], places: &mut [u8]) -> Audited
    ensures { AuditsBytes vendor.now shipped.now places.old result places.new }
{
    audit_in(vendor, shipped, places)
}
