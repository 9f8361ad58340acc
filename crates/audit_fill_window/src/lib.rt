// Request #107: the next word of the modules, for a walk that goes up through the image. A module's words may come in any order, and there
// is no memory to sort them in: a window of marks, which the caller lends, tells those that start in a stretch of the image, and is filled
// by a walk over the modules.
#![tactic(auto)]

ghost use Rattle.std.specs.Prelude.{true, false, ◌⊎◌, ◌≡◌, ℕ, ◌+◌, ◌-◌, ◌*◌, ◌≤◌, ◌<◌, [], length, get_or};
ghost use Rattle.facts.specs.Fact.{Tells, ◌≤?◌, ◌and◌};
ghost use Rattle.inside_pages.specs.Pages.{Paged};
ghost use Rattle.inside_walk.specs.WholeWalk.{ahead, Valid};
ghost use Rattle.inside_modules.specs.ModulesFit.{Fits};
ghost use Rattle.inside_blocks.specs.Blocks.{entries_from};
ghost use Rattle.audit_fill_window.specs.Near.{Has, Telling, Done, Low, Passed, Sought, Noting, Filled};
ghost use Rattle.items.specs.Items.{word_kind, kind_number};

use inside_blocks::Cursor;
use inside_files::Place;
use inside_pages::Page;
use inside_rows::Module;
use inside_walk::Spot;
use items::{Item, Kind};

// The marks tell the words that start in from..to-1. The next one stands at `at` and has `width` bytes; at `to` the window is used up. The
// walk that fills the next window starts at `spot`.
#[derive(Clone, Copy)]
pub struct Window {
    pub from: usize,
    pub to: usize,
    pub at: usize,
    pub width: usize,
    pub spot: Spot,
}

// Where the next word stands, and how many bytes it has.
#[derive(Clone, Copy)]
pub struct Mark {
    pub at: usize,
    pub width: usize,
}

// Where a window's walk starts, and a place below which no word ahead of it starts.
#[derive(Clone, Copy)]
pub struct Found {
    pub spot: Spot,
    pub low: usize,
}

// Whether all of the module is passed.
fn is_done(m: Module, c: Cursor) -> bool
    ensures { result ≡ true → Done m c }
{
    if c.heads != 0 {
        return false;
    }
    if c.left != 0 {
        return false;
    }
    if c.used < m.size {
        return false;
    }
    true
}

// The next section's place, or the next file's.
fn next_part(p: Place) -> usize
    ensures { (p.at < p.end → result ≤ p.at) × (result ≤ p.file) }
{
    if p.at < p.end {
        return p.at.min(p.file);
    }
    p.file
}

// A place below which nothing ahead of s starts.
pub fn low_of(s: Spot) -> usize
    ensures { Low s result }
{
    let p = s.place;
    let m = s.m;
    let c = s.c;
    let n = next_part(p);
    if is_done(m, c) {
        return n;
    }
    m.lo.min(n)
}

// The same, from `from` on and up to `end`.
pub fn start_of(s: Spot, from: usize, end: usize) -> usize
    requires { from ≤ end }
    ensures { (from ≤ result) × (result ≤ end) × ((result ≡ from) ⊎ Low s result) }
{
    low_of(s).clamp(from, end)
}

// Whether x is a word that is yet to come.
fn is_new(x: Item, least: usize) -> bool
    ensures { result ≡ false → kind_number x.kind ≡ word_kind → x.at < least }
{
    if x.kind != Kind::Word {
        return false;
    }
    if x.at < least {
        return false;
    }
    true
}

// Whether one of the k entries at `at` is such a word.
fn any_new(image: &[u8], m: Module, page: usize, at: usize, k: usize, least: usize) -> bool
    requires { Fits image.now m × (page < 4294967296) × (at + 2 * k ≤ length image.now) × (length image.now ≤ 16777216) }
    ensures { result ≡ false → (i w : ℕ) → Has (entries_from image.now m page at k) i w → i < least }
{
    let q = inside_pages::page_of(image, m, page);
    for i in 0..k {
        let x = inside_blocks::entry_on(image, m, q, at + 2 * i);
        if is_new(x, least) {
            return true;
        }
    }
    false
}

// On to the first word that starts at or after `from`, or to the block in which it is.
pub fn seek(image: &[u8], v: usize, s: Spot, from: usize) -> Found
    requires v_in_bounds { (v ≤ length image.now) × (length image.now ≤ 16777216) × Valid image.now v s × Telling (ahead image.now v s) }
    requires from_in_bounds { from ≤ length image.now }
    ensures { Sought image.now v s from result }
{
    let mut spot = s;
    loop {
        let t = inside_walk::step(image, v, spot);
        let x = t.item;
        let next = t.next;
        if x.kind == Kind::End {
            return Found {
                spot,
                low: image.len(),
            };
        }
        if is_new(x, from) {
            let low = start_of(spot, from, image.len());
            return Found { spot, low };
        }
        let k = inside_walk::entries(next);
        let m = next.m;
        let c = next.c;
        if any_new(image, m, c.page, c.at, k, from) {
            let least = start_of(next, from, image.len());
            return Found {
                spot: next,
                low: least,
            };
        }
        spot = inside_walk::past(next, k);
    }
}

// Whether each word that an entry of the page can name lies in its room, as in the middle of its data.
pub fn is_whole(q: Page) -> bool
    ensures { Tells result (q.floor ≤? 0 and 4104 ≤? q.room) }
{
    if q.floor != 0 {
        return false;
    }
    if q.room < 4104 {
        return false;
    }
    true
}

// Marks those of the k entries at `at` of this page that are words and start in the n places from `from` on; whether one starts after them.
fn mark_each(
    image: &[u8],
    m: Module,
    q: Page,
    at: usize,
    k: usize,
    from: usize,
    n: usize,
    marks: &mut [u8],
) -> bool
    requires fits { Fits image.now m × Paged image.now m q.page q × (q.page < 4294967296) × (at + 2 * k ≤ length image.now)
        × (length image.now ≤ 16777216) }
    requires n_in_bounds { (n ≤ length marks.old) × (from + n ≤ 16777216) }
    ensures noting { Noting (entries_from image.now m q.page at k) [] from n marks.old marks.new }
    ensures marks_len_unchanged { length marks.new ≡ length marks.old }
    ensures i_bound { result ≡ false → (i w : ℕ) → Has (entries_from image.now m q.page at k) i w → i < from + n }
{
    let to = from + n;
    let mut late = false;
    for i in 0..k {
        let x = inside_blocks::entry_on(image, m, q, at + 2 * i);
        late |= is_new(x, to);
        audit_marks::mark(marks, from, n, x);
    }
    late
}

// The same of a block with this page: one that lies off these places is passed at once, so that a large module costs its blocks for each
// window and not its words.
fn mark_entries(
    image: &[u8],
    m: Module,
    page: usize,
    at: usize,
    k: usize,
    from: usize,
    n: usize,
    marks: &mut [u8],
) -> bool
    requires fits { Fits image.now m × (page < 4294967296) × (at + 2 * k ≤ length image.now) × (length image.now ≤ 16777216) }
    requires n_in_bounds { (n ≤ length marks.old) × (from + n ≤ 16777216) }
    ensures noting { Noting (entries_from image.now m page at k) [] from n marks.old marks.new }
    ensures marks_len_unchanged { length marks.new ≡ length marks.old }
    ensures i_bound { result ≡ false → (i w : ℕ) → Has (entries_from image.now m page at k) i w → i < from + n }
{
    let q = inside_pages::page_of(image, m, page);
    if is_whole(q) {
        if q.at + 4096 <= from {
            return false;
        }
        if from + n <= q.at {
            return true;
        }
    }
    mark_each(image, m, q, at, k, from, n, marks)
}

// The spot s, unless something that is passed before it starts too late.
fn follow(late: bool, kept: Spot, s: Spot) -> Spot
    ensures { (late ≡ true → result ≡ kept) × (late ≡ false → result ≡ s) }
{
    if late {
        return kept;
    }
    s
}

// Marks all words ahead of s that start in the n places from `from` on: the walk stops where all that is ahead starts past them. Gives the
// spot up to which all that is passed starts before the last of these places or in it.
pub fn fill(image: &[u8], v: usize, s: Spot, from: usize, n: usize, marks: &mut [u8]) -> Spot
    requires v_in_bounds { (v ≤ length image.now) × (length image.now ≤ 16777216) × Valid image.now v s × Telling (ahead image.now v s) }
    requires n_bound { (from + n ≤ 16777216) × (n ≤ length marks.old) × ((i : ℕ) → i < n → get_or marks.old i 0 ≡ 0) }
    ensures filled { Filled (ahead image.now v s) from n marks.new }
    ensures marks_len_unchanged { length marks.new ≡ length marks.old }
    ensures passed { Passed image.now v s (from + n) result }
{
    let to = from + n;
    let mut spot = s;
    let mut kept = s;
    let mut late = false;
    loop {
        if to <= low_of(spot) {
            return kept;
        }
        let t = inside_walk::step(image, v, spot);
        let x = t.item;
        let next = t.next;
        if x.kind == Kind::End {
            return kept;
        }
        let first = is_new(x, to);
        audit_marks::mark(marks, from, n, x);
        let k = inside_walk::entries(next);
        let m = next.m;
        let c = next.c;
        let others = mark_entries(image, m, c.page, c.at, k, from, n, marks);
        spot = inside_walk::past(next, k);
        late |= first | others;
        kept = follow(late, kept, spot);
    }
}
