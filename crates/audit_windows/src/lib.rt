// Request #107: the next word of the modules from a window of marks; where one is used up, the next window is filled.
#![tactic(auto)]

ghost use Rattle.std.specs.Prelude.{◌≡◌, ℕ, ◌+◌, ◌-◌, ◌≤◌, ◌<◌, List, length};
ghost use Rattle.inside_walk.specs.WholeWalk.{ahead, Valid};
ghost use Rattle.inside_walk.specs.Walkable.{Walkable};
ghost use Rattle.audit_fill_window.specs.Near.{Ordered, Next, Telling, Settled, Refilled, Standing};
ghost use Rattle.audit_fill_window.specs.Near.{Fitting, Onward, WentOn};

use audit_fill_window::{Mark, Window};

// The first mark from the i-th place of a window on, or the window's end: a place in both cases and no Option, since what the walk has passed
// ends there.
fn settle(marks: &[u8], from: usize, to: usize, i: usize) -> Mark
    requires { (from + i ≤ to) × (to ≤ from + length marks.now) × (to ≤ 16777216) }
    ensures { Settled marks.now from to i result }
{
    match audit_marks::first_mark(marks, i, to - from) {
        Some(j) => Mark {
            at: from + j,
            width: audit_marks::width_at(marks, j),
        },
        None => Mark { at: to, width: 0 },
    }
}

// At the image's start: no window yet.
pub fn open(image: &[u8], v: usize, f: usize) -> Window
    requires { Walkable image.now v f }
    ensures { (ms : List ℕ) → Standing image.now v f 0 result ms }
{
    Window {
        from: 0,
        to: 0,
        at: 0,
        width: 0,
        spot: inside_walk::first(image, f),
    }
}

// From the word p of a window on, the first one that ends past `at`, or the window's end.
pub fn next_in(marks: &[u8], from: usize, to: usize, p: Mark, at: usize) -> Mark
    requires { Fitting marks.now from to p.at p.width }
    ensures { Onward marks.now from to at p result × (result.at ≤ to) × (result.at < to → at < result.at + result.width) }
{
    let mut m = p;
    while m.at < to {
        if at < m.at + m.width {
            return m;
        }
        let i = m.at - from + 1;
        m = settle(marks, from, to, i);
    }
    m
}

// The window after q, whose words are all passed.
fn refill(image: &[u8], v: usize, marks: &mut [u8], q: Window) -> Window
    requires v_in_bounds { (v ≤ length image.now) × (length image.now ≤ 16777216) × (q.to < length image.now) × (0 < length marks.old) }
    requires valid { Valid image.now v q.spot × Telling (ahead image.now v q.spot) }
    ensures refilled { Refilled image.now v q result marks.new }
    ensures marks_len_unchanged { length marks.new ≡ length marks.old }
{
    let u = audit_fill_window::seek(image, v, q.spot, q.to);
    let from = u.low;
    let to = image.len().min(from + marks.len());
    let n = to - from;
    audit_marks::clear(marks, n);
    let spot = audit_fill_window::fill(image, v, u.spot, from, n, marks);
    let m = settle(marks, from, to, 0);
    Window {
        from,
        to,
        at: m.at,
        width: m.width,
        spot,
    }
}

// q with its next word from `at` on, or at its end.
fn go_on(marks: &[u8], at: usize, q: Window) -> Window
    requires { Fitting marks.now q.from q.to q.at q.width }
    ensures { WentOn marks.now at q result }
{
    let p = Mark {
        at: q.at,
        width: q.width,
    };
    let m = next_in(marks, q.from, q.to, p, at);
    Window {
        at: m.at,
        width: m.width,
        ..q
    }
}

// The same where the words of q are all passed: on from window to window.
fn renew(image: &[u8], v: usize, f: usize, marks: &mut [u8], at: usize, q: Window) -> Window
    requires { Ordered image.now v f × Standing image.now v f at q marks.old × (0 < length marks.old) × (q.to ≤ q.at) }
    ensures standing { Standing image.now v f at result marks.new × Next image.now v f at result }
    ensures marks_len_unchanged { length marks.new ≡ length marks.old }
{
    let end = image.len();
    let mut r = q;
    while r.to < end {
        let w = refill(image, v, marks, r);
        r = go_on(marks, at, w);
        if r.at < r.to {
            return r;
        }
    }
    r
}

// The next word from `at` on, where q had it before.
pub fn current(image: &[u8], v: usize, f: usize, marks: &mut [u8], at: usize, q: Window) -> Window
    requires { Ordered image.now v f × Standing image.now v f at q marks.old × (0 < length marks.old) }
    ensures standing { Standing image.now v f at result marks.new × Next image.now v f at result }
    ensures marks_len_unchanged { length marks.new ≡ length marks.old }
{
    let r = go_on(marks, at, q);
    if r.at < r.to {
        return r;
    }
    renew(image, v, f, marks, at, r)
}
