// Marks of bytes, one byte for each: a stretch is marked unless one of its bytes is marked already.
#![tactic(auto)]

ghost use Rattle.std.specs.Prelude.{◌≡◌, ◌+◌, ◌≤◌, max, length};
ghost use Rattle.std.specs.List.{fold};
ghost use Rattle.apart_strokes.specs.Strokes.{Within, Stroked, Painted};

// The highest of them, without a jump for each: so several are compared in one go.
fn highest(marks: &[u8]) -> u8
    ensures { result ≡ fold max 0 marks.now }
{
    marks.iter().fold(0, |top: u8, m| top.max(*m))
}

// Whether none of them is past the limit. Of a word's 4 or 8 bytes, where none may be marked at all, one number tells. (Inlined, so that a limit
// and a length that are known where it is compiled choose there.)
#[inline(always)]
fn is_within(marks: &[u8], limit: u8) -> bool
    ensures { Within marks.now limit result }
{
    match (limit, marks.len()) {
        (0, 4) => words::le32(marks, 0) == 0,
        (0, 8) => words::le64(marks, 0) == 0,
        _ => highest(marks) <= limit,
    }
}

// Marks all of the stretch, unless a byte of it is marked past the limit.
#[inline(always)]
fn stroke(stretch: &mut [u8], limit: u8, mark: u8) -> bool
    ensures { Stroked stretch.old stretch.new limit mark result }
{
    if !is_within(stretch, limit) {
        return false;
    }
    stretch.fill(mark);
    true
}

// Marks a..e, unless one of them is marked past the limit.
pub fn paint(marks: &mut [u8], a: usize, e: usize, limit: u8, mark: u8) -> bool
    requires { (a ≤ e) × (e ≤ length marks.old) }
    ensures { Painted marks.old marks.new a e limit mark result }
{
    stroke(&mut marks[a..e], limit, mark)
}

// Marks the N bytes at a, unless one of them is marked: N is known where it is compiled, so that the bytes of a word are looked at in one go.
pub fn paint_word<const N: usize>(marks: &mut [u8], a: usize) -> bool
    requires { a + N ≤ length marks.old }
    ensures { Painted marks.old marks.new a (a + N) 0 2 result }
{
    stroke(&mut marks[a..a + N], 0, 2)
}
