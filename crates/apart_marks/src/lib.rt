// Request #107, rule 26: marks of a window of 65,536 bytes, one for each byte: 2 where a word lies, 1 where only other items do.
#![tactic(auto)]

ghost use Rattle.std.specs.Prelude.{◌≡◌, [], ◌+◌, ◌≤◌, ◌<◌, length};
ghost use Rattle.inside_judge.specs.Rules.{patch_items};
ghost use Rattle.apart_marks.specs.Marks.{PaintedIn, Clipped, Added, Marks, Patch};

use items::{Item, Kind};

// Where k lies from w on, at most a window's length.
fn clip(k: usize, w: usize) -> usize
    ensures { Clipped k w result }
{
    k.saturating_sub(w).min(65536)
}

// Marks those of the bytes at..end that lie in the window at w.
fn paint_in(marks: &mut [u8], w: usize, at: usize, end: usize, limit: u8, mark: u8) -> bool
    requires { (length marks.old ≡ 65536) × (at ≤ end) }
    ensures { PaintedIn marks.old marks.new w at end limit mark result }
{
    let a = clip(at, w);
    let e = clip(end, w);
    apart_strokes::paint(marks, a, e, limit, mark)
}

// Marks a word where nothing is: in one go where it lies whole in the window.
fn mark_word(marks: &mut [u8], w: usize, at: usize, len: usize) -> bool
    requires { (length marks.old ≡ 65536) × (at + len < 1099511627776) }
    ensures { PaintedIn marks.old marks.new w at (at + len) 0 2 result }
{
    let end = at + len;
    if w <= at {
        let a = at - w;
        if a <= 65528 {
            if len == 4 {
                return apart_strokes::paint_word::<4>(marks, a);
            }
            if len == 8 {
                return apart_strokes::paint_word::<8>(marks, a);
            }
        }
    }
    paint_in(marks, w, at, end, 0, 2)
}

// Marks an item: a word goes where nothing is, anything else where no word is.
pub fn mark_item(marks: &mut [u8], w: usize, x: Item) -> bool
    requires { (length marks.old ≡ 65536) × (x.at + x.len < 1099511627776) }
    ensures { Added marks.old marks.new w x result }
{
    if x.kind == Kind::Word {
        return mark_word(marks, w, x.at, x.len);
    }
    paint_in(marks, w, x.at, x.at + x.len, 1, 1)
}

// Marks the patch words, which other rules keep apart from each other.
pub fn mark_patch(image: &[u8], t: usize, n: usize, marks: &mut [u8], w: usize)
    requires { Patch image.now t n × Marks [] w marks.old }
    ensures { Marks (patch_items image.now t n) w marks.new }
{
    for i in 0..n {
        let p = table::spot_at(image, t, i);
        paint_in(marks, w, p, p + 4, 2, 2);
    }
}
