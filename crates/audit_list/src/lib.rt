// Document 01, "The audit": the walk that lists every difference, in a list of words or of bytes.
#![tactic(auto)]

ghost use Rattle.std.specs.Prelude.{◌≡◌, ◌≤◌, ◌<◌, length};
ghost use Rattle.reading_rules.specs.Reading.{entries_at};
ghost use Rattle.reading_rules.specs.Guarantee.{Guaranteed};
ghost use Rattle.table_order.specs.Ranks.{Ranked};
ghost use Rattle.audit_tables.specs.Ahead.{Known};
ghost use Rattle.audit_count.specs.Differences.{differences, entries};
ghost use Rattle.audit_count.specs.Windows.{Within, Stands, spent};
ghost use Rattle.audit_step.specs.Stride.{Coming, by};
ghost use Rattle.audit_list.specs.Filling.{Room, Filled, went_to};

use answers::Reading;
use audit_fill_window::{Mark, Window};
use audit_places::Unit;
use audit_step::Step;
use audit_tables::Ahead;
use moves::Shift;

// How many places are filled, and where the walk stands.
#[derive(Clone, Copy)]
pub struct Fill {
    pub at: usize,
    pub ahead: Ahead,
    pub count: usize,
}

// Nothing to list before k.
pub fn went(f: Fill, k: usize, ahead: Ahead) -> Fill
    ensures { result ≡ went_to f k ahead }
{
    Fill { at: k, ahead, ..f }
}

// One step of the walk, with what it lists; the modules' next word is the one of m bytes at p.
fn fill_step<U: Unit>(
    vendor: &[u8],
    shipped: &[u8],
    places: &mut [U],
    ranks: &[u32],
    r: Reading,
    d: Shift,
    f: Fill,
    p: usize,
    m: usize,
) -> Fill
    requires { Guaranteed vendor.now r × (length shipped.now ≡ length vendor.now) × (f.at < length vendor.now)
        × Known vendor.now r ranks.now f.at f.ahead × Coming vendor.now r f.at p m
        × Room (by vendor.now r d.four d.eight) shipped.now (U.places (length places.old)) f }
    ensures filled { Filled U.writing (by vendor.now r d.four d.eight) shipped.now r places.old places.new f result }
    ensures known { Known vendor.now r ranks.now result.at result.ahead × (f.at < result.at) }
{
    let known = f.ahead;
    let ahead = audit_tables::current_words(vendor, r, ranks, f.at, known);
    let k = audit_step::pass(vendor, shipped, r, d, f.at, ahead.first, p, m);
    if f.at < k {
        return went(f, k, ahead);
    }
    match audit_step::advance(vendor, shipped, r, d, f.at, ahead.first, p, m) {
        Step::Differs(k) => {
            U::put(places, f.count, audit_count::entry_of(r, k));
            Fill {
                at: k + 1,
                ahead,
                count: f.count + 1,
            }
        }
        Step::Passes(k) => went(f, k, ahead),
    }
}

// The walk up to the end of that word.
fn fill_until<U: Unit>(
    vendor: &[u8],
    shipped: &[u8],
    places: &mut [U],
    ranks: &[u32],
    r: Reading,
    d: Shift,
    f: Fill,
    p: usize,
    m: usize,
) -> Fill
    requires { Guaranteed vendor.now r × (length shipped.now ≡ length vendor.now) × (f.at < length vendor.now)
        × Known vendor.now r ranks.now f.at f.ahead × Coming vendor.now r f.at p m
        × Room (by vendor.now r d.four d.eight) shipped.now (U.places (length places.old)) f }
    ensures filled { Filled U.writing (by vendor.now r d.four d.eight) shipped.now r places.old places.new f result }
    ensures known { Known vendor.now r ranks.now result.at result.ahead × (f.at < result.at) }
{
    let end = audit_step::end_of(p, m, vendor.len());
    let mut g = f;
    while g.at < end {
        g = fill_step(vendor, shipped, places, ranks, r, d, g, p, m);
    }
    g
}

// The walk past the modules' next word and all others of its window q.
fn fill_window<U: Unit>(
    vendor: &[u8],
    shipped: &[u8],
    places: &mut [U],
    ranks: &[u32],
    marks: &[u8],
    r: Reading,
    d: Shift,
    f: Fill,
    q: Window,
) -> Fill
    requires { Guaranteed vendor.now r × (length shipped.now ≡ length vendor.now) × Known vendor.now r ranks.now f.at f.ahead
        × Within vendor.now r marks.now f.at q
        × Room (by vendor.now r d.four d.eight) shipped.now (U.places (length places.old)) f }
    ensures filled { Filled U.writing (by vendor.now r d.four d.eight) shipped.now r places.old places.new f result }
    ensures known { Known vendor.now r ranks.now result.at result.ahead × (f.at < result.at)
        × Stands vendor.now r marks.now result.at (spent q) }
{
    let mut g = f;
    let mut m = Mark {
        at: q.at,
        width: q.width,
    };
    loop {
        let w = m.width;
        g = fill_until(vendor, shipped, places, ranks, r, d, g, m.at, w);
        m = audit_windows::next_in(marks, q.from, q.to, m, g.at);
        if q.to <= m.at {
            return g;
        }
    }
}

// The whole walk, from one window of the modules' words to the next; the marks are `audit_fill_window`'s, the ranks the patch words in order.
fn fill_walk<U: Unit>(
    vendor: &[u8],
    shipped: &[u8],
    places: &mut [U],
    ranks: &[u32],
    r: Reading,
    d: Shift,
    marks: &mut [u8],
)
    requires { Guaranteed vendor.now r × (length shipped.now ≡ length vendor.now)
        × (length (differences (by vendor.now r d.four d.eight) shipped.now 0 (length shipped.now)) ≤ U.places (length places.old))
        × (length marks.old ≡ 65536) × Ranked vendor.now (entries_at r) r.n ranks.now }
    ensures { places.new
        ≡ U.writing.all places.old 0 (entries r (differences (by vendor.now r d.four d.eight) shipped.now 0 (length shipped.now))) }
{
    let v = words::le64(vendor, 32);
    let h = r.H - 28;
    let mut q = audit_windows::open(vendor, v, h);
    let mut f = Fill {
        at: 0,
        ahead: audit_tables::start(r),
        count: 0,
    };
    while f.at < vendor.len() {
        q = audit_windows::current(vendor, v, h, marks, f.at, q);
        f = fill_window(vendor, shipped, places, ranks, marks, r, d, f, q);
        q.at = q.to;
        q.width = 0;
    }
}

// Lists every difference.
pub fn fill_all<U: Unit>(vendor: &[u8], shipped: &[u8], places: &mut [U], r: Reading, d: Shift)
    requires { Guaranteed vendor.now r × (length shipped.now ≡ length vendor.now)
        × (length (differences (by vendor.now r d.four d.eight) shipped.now 0 (length shipped.now)) ≤ U.places (length places.old)) }
    ensures { places.new
        ≡ U.writing.all places.old 0 (entries r (differences (by vendor.now r d.four d.eight) shipped.now 0 (length shipped.now))) }
{
    let mut marks = [0u8; 65536];
    let mut list = [0u32; 1024];
    audit_tables::rank_words(vendor, r, &mut list);
    fill_walk(vendor, shipped, places, &list, r, d, &mut marks);
}
