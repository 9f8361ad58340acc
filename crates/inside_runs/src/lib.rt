// Request #107: the entries of a relocation block that are words of one page, passed in loops over plain numbers, since a module has thousands
// of them.
#![tactic(auto)]

ghost use Rattle.std.specs.Prelude.{◌⊎◌, ◌≡◌, ℕ, ◌+◌, ◌*◌, ◌≤◌, ◌<◌, length};
ghost use Rattle.facts.specs.Fact.{Tells, ◌≤?◌, ◌and◌};
ghost use Rattle.apart_strokes.specs.Strokes.{Painted};
ghost use Rattle.inside_runs.specs.Runs.{width_of, entry, AnyIn, Lain};

use inside_pages::Page;

// How many entries are passed, and where the last of their words ends.
#[derive(Clone, Copy)]
pub struct Passed {
    pub count: usize,
    pub low: usize,
}

// How many bytes the word of the entry e has, 0 where it names none: no Option, since the loops test it among bounds, as a number.
pub fn width(e: usize) -> usize
    ensures { (result ≡ width_of e) × (result ≤ 8) }
{
    let t = e / 4096;
    if t == 3 {
        return 4;
    }
    if t == 10 {
        return 8;
    }
    0
}

// Whether a word of w bytes at o of the page is found by one sum: it starts from the floor on and ends in the room.
pub fn is_sure(q: Page, o: usize, w: usize) -> bool
    requires { (o < 4096) × (w ≤ 8) }
    ensures { Tells result (1 ≤? w and q.floor ≤? o and o + w ≤? q.room) }
{
    if w == 0 {
        return false;
    }
    if o < q.floor {
        return false;
    }
    if q.room < o + w {
        return false;
    }
    true
}

// How many of the k entries from `at` on are words in the page's room that come in order into low..high, which is nearly always all of them.
fn run(image: &[u8], q: Page, at: usize, k: usize, low: usize, high: usize) -> Passed
    requires { (at + 2 * k ≤ length image.now) × (q.at + q.room < 1099511627776) }
    ensures { (result.count ≤ k) × Lain image.now q low high at result.count result.low }
{
    let cap = high.min(q.at + q.room);
    let mut end = low;
    for i in 0..k {
        let e = words::le16(image, at + 2 * i);
        let w = width(e);
        let o = e % 4096;
        let from = q.at + o;
        if w == 0 {
            return Passed { count: i, low: end };
        }
        if o < q.floor {
            return Passed { count: i, low: end };
        }
        if from < end {
            return Passed { count: i, low: end };
        }
        if cap < from + w {
            return Passed { count: i, low: end };
        }
        end = from + w;
    }
    Passed { count: k, low: end }
}

// Marks the w bytes at o, unless one of them is marked.
fn mark(marks: &mut [u8], o: usize, w: usize) -> bool
    requires { (o + w ≤ length marks.old) × ((w ≡ 4) ⊎ (w ≡ 8)) }
    ensures { Painted marks.old marks.new o (o + w) 0 2 result }
{
    if w == 4 {
        return apart_strokes::paint_word::<4>(marks, o);
    }
    apart_strokes::paint_word::<8>(marks, o)
}

// The same in whatever order: a mark for each byte of the page, and of the last word that can start in it, tells that a word shares none with
// those before it.
fn strewn(
    image: &[u8],
    q: Page,
    at: usize,
    k: usize,
    low: usize,
    high: usize,
    marks: &mut [u8],
) -> Passed
    requires k_in_bounds { (at + 2 * k ≤ length image.now) × (q.at + q.room < 1099511627776) }
    requires marks_len { length marks.old ≡ 4104 }
    ensures { (result.count ≤ k) × Lain image.now q low high at result.count result.low }
{
    let mut end = low;
    for i in 0..k {
        let e = words::le16(image, at + 2 * i);
        let w = width(e);
        let o = e % 4096;
        let from = q.at + o;
        if !is_sure(q, o, w) {
            return Passed { count: i, low: end };
        }
        if from < low {
            return Passed { count: i, low: end };
        }
        if high < from + w {
            return Passed { count: i, low: end };
        }
        if !mark(marks, o, w) {
            return Passed { count: i, low: end };
        }
        end = end.max(from + w);
    }
    Passed { count: k, low: end }
}

// Whether entry i of the k from `at` on is there and names a word.
fn is_word(image: &[u8], at: usize, k: usize, i: usize) -> bool
    requires { (at + 2 * k ≤ length image.now) × (i ≤ k) }
    ensures { Tells result (i + 1 ≤? k and 1 ≤? width_of (entry image.now at i)) }
{
    if i == k {
        return false;
    }
    if width(words::le16(image, at + 2 * i)) == 0 {
        return false;
    }
    true
}

// How many of the k entries from `at` on are words in the page's room and in low..high that share no byte: in order, or else in whatever order.
pub fn pass_words(image: &[u8], q: Page, at: usize, k: usize, low: usize, high: usize) -> Passed
    requires { (at + 2 * k ≤ length image.now) × (q.at + q.room < 1099511627776) }
    ensures { (result.count ≤ k) × Lain image.now q low high at result.count result.low }
{
    let r = run(image, q, at, k, low, high);
    if !is_word(image, at, k, r.count) {
        return r;
    }
    let mut marks = [0u8; 4104];
    strewn(image, q, at, k, low, high, &mut marks)
}

// How many of the k entries from `at` on are words in the page's room, wherever they lie.
pub fn any(image: &[u8], q: Page, at: usize, k: usize) -> usize
    requires { at + 2 * k ≤ length image.now }
    ensures { (result ≤ k) × AnyIn image.now q at result }
{
    for i in 0..k {
        let e = words::le16(image, at + 2 * i);
        let w = width(e);
        if !is_sure(q, e % 4096, w) {
            return i;
        }
    }
    k
}
