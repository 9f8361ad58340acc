// Request #107, rule 26: whether each word of the modules shares no byte with another word, nor with what is looked at. The bytes at which
// words can lie are gone through in windows of 65,536, each with a mark for each byte.
#![tactic(auto)]

ghost use Rattle.std.specs.Prelude.{◌≡◌, ◌∷◌, ◌+◌, ◌*◌, ◌≤◌, ◌<◌, length};
ghost use Rattle.facts.specs.Fact.{Tells};
ghost use Rattle.items.specs.Items.{apart_from};
ghost use Rattle.inside_modules.specs.ModulesFit.{Fits};
ghost use Rattle.inside_blocks.specs.Blocks.{entries_from};
ghost use Rattle.inside_walk.specs.Whole.{walked};
ghost use Rattle.inside_walk.specs.Entries.{past_of, entries_of};
ghost use Rattle.inside_judge.specs.Rules.{patch_items};
ghost use Rattle.apart_windows.specs.Runs.{AtHand, Reached};
ghost use Rattle.apart_windows.specs.Windows.{Ready, past, done, Followed, Open, Shut};

use inside_blocks::Cursor;
use inside_rows::Module;
use inside_walk::Spot;
use items::{Item, Kind};

// The spot up to which all that is passed ends by the window's end; and the highest end of what is passed.
#[derive(Clone, Copy)]
pub struct Trail {
    pub spot: Spot,
    pub high: usize,
}

// Whether the module at hand is done.
fn is_done(m: Module, c: Cursor) -> bool
    ensures { Tells result (done m c) }
{
    c.heads == 0 && c.left == 0 && m.size <= c.used
}

// Whether nothing from s on starts below k.
fn is_past(s: Spot, k: usize) -> bool
    ensures { Tells result (past k s) }
{
    let p = s.place;
    k <= p.file && (p.end <= p.at || k <= p.at) && (k <= s.m.lo || is_done(s.m, s.c))
}

// Marks the n entries at `at`, of a block with this page: the highest end of what is passed, or none where one of them isn't apart.
fn mark_entries(
    image: &[u8],
    m: Module,
    page: usize,
    at: usize,
    n: usize,
    marks: &mut [u8],
    w: usize,
    high: usize,
) -> Option<usize>
    requires { Fits image.now m × (page < 4294967296) × (at + 2 * n ≤ length image.now) × (length marks.old ≡ 65536) }
    ensures { Reached marks.old marks.new w high (entries_from image.now m page at n) result }
{
    let q = inside_pages::page_of(image, m, page);
    let mut top = high;
    for i in 0..n {
        let x = inside_blocks::entry_on(image, m, q, at + 2 * i);
        if !apart_marks::mark_item(marks, w, x) {
            return None;
        }
        top = top.max(x.at + x.len);
    }
    Some(top)
}

// The same for x and the entries that are at hand after it, at s.
fn mark_run(
    image: &[u8],
    marks: &mut [u8],
    w: usize,
    x: Item,
    s: Spot,
    high: usize,
) -> Option<usize>
    requires { AtHand image.now s × (length marks.old ≡ 65536) × (x.at + x.len < 1099511627776) }
    ensures { Reached marks.old marks.new w high (x ∷ entries_of image.now s) result }
{
    if !apart_marks::mark_item(marks, w, x) {
        return None;
    }
    let top = high.max(x.at + x.len);
    let n = inside_walk::entries(s);
    let c = s.c;
    mark_entries(image, s.m, c.page, c.at, n, marks, w, top)
}

// The spot after the entries at hand.
fn pass(s: Spot) -> Spot
    ensures { result ≡ past_of s }
{
    let n = inside_walk::entries(s);
    inside_walk::past(s, n)
}

// All up to s is passed, and the highest end is now `high`.
fn follow(r: Trail, high: usize, s: Spot, k: usize) -> Trail
    ensures { Followed k r high s result }
{
    let spot = if high <= k { s } else { r.spot };
    Trail { spot, high }
}

// Goes through all items as far as the bytes of the window at w go, what lies before `from` ending by w: the spot at which the next window can
// start, or none where some items aren't apart.
fn scan_window(
    image: &[u8],
    v: usize,
    f: usize,
    t: usize,
    n: usize,
    w: usize,
    from: Spot,
) -> Option<Spot>
    requires { Open image.now v f t n w from }
    ensures { Shut image.now v f t n w result }
{
    let mut marks = [0u8; 65536];
    apart_marks::mark_patch(image, t, n, &mut marks, w);
    let k = w + 65536;
    let mut s = from;
    let mut r = Trail {
        spot: from,
        high: w,
    };
    loop {
        if is_past(s, k) {
            return Some(r.spot);
        }
        let u = inside_walk::step(image, v, s);
        let x = u.item;
        if x.kind == Kind::End {
            return Some(r.spot);
        }
        let on = u.next;
        let high = mark_run(image, &mut marks, w, x, on, r.high)?;
        s = pass(on);
        r = follow(r, high, s, k);
    }
}

// Rule 26's apartness: each item is apart from every earlier one, the patch words standing before all. (The volume, v and f, and the table, t and
// n, are handed on as numbers, since the rooms below take them so.)
pub fn words_apart(
    image: &[u8],
    v: usize,
    f: usize,
    t: usize,
    n: usize,
    E: usize,
    top: usize,
) -> bool
    requires { Ready image.now v f t n E top }
    ensures { Tells result (apart_from (patch_items image.now t n) (walked image.now v f)) }
{
    let mut s = inside_walk::first(image, f);
    for w in (E..top).step_by(65536) {
        let Some(next) = scan_window(image, v, f, t, n, w, s) else {
            return false;
        };
        s = next;
    }
    true
}
