// Document 01, "The audit": the walk over a vendor image and a shipped file, from word to word, and what it counts.
#![tactic(auto)]

ghost use Rattle.std.specs.Prelude.{◌≡◌, ◌+◌, ◌*◌, ◌^◌, ◌≤◌, ◌<◌, length};
ghost use Rattle.facts.specs.Fact.{Tells};
ghost use Rattle.reading_rules.specs.Reading.{entries_at};
ghost use Rattle.reading_rules.specs.Guarantee.{Guaranteed};
ghost use Rattle.table_order.specs.Ranks.{Ranked};
ghost use Rattle.audit_count.specs.Differences.{setting, entry, flips, counts_of};
ghost use Rattle.audit_step.specs.Stride.{Coming, by};
ghost use Rattle.audit_count.specs.Windows.{Within, Stands, spent};
ghost use Rattle.audit_count.specs.Counting.{counted_at, went_to, Standing, Counted, Left, Totals};

use answers::Reading;
use audit_fill_window::{Mark, Window};
use audit_step::Step;
use audit_tables::Ahead;
use moves::Shift;

// Whether a position is in the settings part.
pub fn is_setting(r: Reading, k: usize) -> bool
    requires { r.c + r.z < 2 ^ 32 }
    ensures { Tells result (setting r k) }
{
    if k < r.c + 32 {
        return false;
    }
    if r.c + r.z <= k {
        return false;
    }
    true
}

// How many bits of the two bytes differ.
pub fn byte_flips(x: u8, y: u8) -> u32
    ensures value { result ≡ flips 8 x y }
    ensures upper_bound { result ≤ 8 }
{
    u8::count_ones(x ^ y)
}

// What is counted so far, and where the walk stands: no difference before `at` is left to count.
#[derive(Clone, Copy)]
pub struct Tally {
    pub at: usize,
    pub ahead: Ahead,
    pub settings: usize,
    pub strays: usize,
    pub bits: usize,
}

// One difference more, at k.
fn counted(vendor: &[u8], shipped: &[u8], r: Reading, past: Tally, k: usize, ahead: Ahead) -> Tally
    requires { Guaranteed vendor.now r × (k < length vendor.now) × (length shipped.now ≡ length vendor.now)
        × (past.settings + past.strays ≤ k) × (past.bits ≤ 8 * k) }
    ensures { result ≡ counted_at vendor.now shipped.now r past k ahead }
{
    let flips = byte_flips(shipped[k], vendor[k]) as usize;
    if is_setting(r, k) {
        return Tally {
            at: k + 1,
            ahead,
            settings: past.settings + 1,
            bits: past.bits + flips,
            ..past
        };
    }
    Tally {
        at: k + 1,
        ahead,
        strays: past.strays + 1,
        ..past
    }
}

// No difference before k.
fn went(t: Tally, k: usize, ahead: Ahead) -> Tally
    ensures { result ≡ went_to t k ahead }
{
    Tally { at: k, ahead, ..t }
}

// One step of the walk, with what it counts; the modules' next word is the one of m bytes at p.
fn count_step(
    vendor: &[u8],
    shipped: &[u8],
    ranks: &[u32],
    r: Reading,
    d: Shift,
    t: Tally,
    p: usize,
    m: usize,
) -> Tally
    requires { Guaranteed vendor.now r × (length shipped.now ≡ length vendor.now) × (t.at < length vendor.now)
        × Standing vendor.now r ranks.now t × Coming vendor.now r t.at p m }
    ensures counted { Counted (by vendor.now r d.four d.eight) shipped.now r t result }
    ensures standing { Standing vendor.now r ranks.now result }
{
    let known = t.ahead;
    let ahead = audit_tables::current_words(vendor, r, ranks, t.at, known);
    let k = audit_step::pass(vendor, shipped, r, d, t.at, ahead.first, p, m);
    if t.at < k {
        return went(t, k, ahead);
    }
    match audit_step::advance(vendor, shipped, r, d, t.at, ahead.first, p, m) {
        Step::Differs(k) => counted(vendor, shipped, r, t, k, ahead),
        Step::Passes(k) => went(t, k, ahead),
    }
}

// The walk up to the end of that word.
fn count_until(
    vendor: &[u8],
    shipped: &[u8],
    ranks: &[u32],
    r: Reading,
    d: Shift,
    t: Tally,
    p: usize,
    m: usize,
) -> Tally
    requires guaranteed { Guaranteed vendor.now r × (length shipped.now ≡ length vendor.now) × (t.at < length vendor.now)
        × Standing vendor.now r ranks.now t × Coming vendor.now r t.at p m }
    requires left { Left (by vendor.now r d.four d.eight) shipped.now r t }
    ensures { Left (by vendor.now r d.four d.eight) shipped.now r result × Standing vendor.now r ranks.now result
        × (t.at < result.at) }
{
    let end = audit_step::end_of(p, m, vendor.len());
    let mut u = t;
    while u.at < end {
        u = count_step(vendor, shipped, ranks, r, d, u, p, m);
    }
    u
}

// The walk past the modules' next word and all others of its window q.
fn count_window(
    vendor: &[u8],
    shipped: &[u8],
    ranks: &[u32],
    marks: &[u8],
    r: Reading,
    d: Shift,
    t: Tally,
    q: Window,
) -> Tally
    requires guaranteed { Guaranteed vendor.now r × (length shipped.now ≡ length vendor.now) × Standing vendor.now r ranks.now t
        × Within vendor.now r marks.now t.at q }
    requires left { Left (by vendor.now r d.four d.eight) shipped.now r t }
    ensures { Left (by vendor.now r d.four d.eight) shipped.now r result × Standing vendor.now r ranks.now result
        × (t.at < result.at) × Stands vendor.now r marks.now result.at (spent q) }
{
    let mut u = t;
    let mut m = Mark {
        at: q.at,
        width: q.width,
    };
    loop {
        u = count_until(vendor, shipped, ranks, r, d, u, m.at, m.width);
        m = audit_windows::next_in(marks, q.from, q.to, m, u.at);
        if q.to <= m.at {
            return u;
        }
    }
}

// The whole walk, from one window of the modules' words to the next; the marks are `audit_fill_window`'s, the ranks the patch words in order.
fn walk_all(
    vendor: &[u8],
    shipped: &[u8],
    ranks: &[u32],
    r: Reading,
    d: Shift,
    marks: &mut [u8],
) -> Tally
    requires { Guaranteed vendor.now r × (length shipped.now ≡ length vendor.now) × (length marks.old ≡ 65536)
        × Ranked vendor.now (entries_at r) r.n ranks.now }
    ensures { Totals (by vendor.now r d.four d.eight) shipped.now r result }
{
    let v = words::le64(vendor, 32);
    let f = r.H - 28;
    let mut q = audit_windows::open(vendor, v, f);
    let mut t = Tally {
        at: 0,
        ahead: audit_tables::start(r),
        settings: 0,
        strays: 0,
        bits: 0,
    };
    while t.at < vendor.len() {
        q = audit_windows::current(vendor, v, f, marks, t.at, q);
        t = count_window(vendor, shipped, ranks, marks, r, d, t, q);
        q.at = q.to;
        q.width = 0;
    }
    t
}

// What is counted of all differences.
#[derive(Clone, Copy)]
pub struct Counts {
    pub settings: usize,
    pub strays: usize,
    pub bits: usize,
}

// All counts.
pub fn count_all(vendor: &[u8], shipped: &[u8], r: Reading, d: Shift) -> Counts
    requires { Guaranteed vendor.now r × (length shipped.now ≡ length vendor.now) }
    ensures { result ≡ counts_of (by vendor.now r d.four d.eight) shipped.now r }
{
    let mut marks = [0u8; 65536];
    let mut list = [0u32; 1024];
    audit_tables::rank_words(vendor, r, &mut list);
    let t = walk_all(vendor, shipped, &list, r, d, &mut marks);
    Counts {
        settings: t.settings,
        strays: t.strays,
        bits: t.bits,
    }
}

// How a difference at k is written.
pub fn entry_of(r: Reading, k: usize) -> u32
    requires { (r.c + r.z < 2 ^ 32) × (k < 16777216) }
    ensures { result ≡ entry r k }
{
    if is_setting(r, k) {
        return k as u32;
    }
    k as u32 + 16777216
}
