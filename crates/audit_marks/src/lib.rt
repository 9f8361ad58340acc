// Marks of places: a window of bytes, one for each place of a stretch of the image, in which a word is marked where it starts.
#![tactic(auto)]

ghost use Rattle.std.specs.Prelude.{◌≡◌, ℕ, ◌+◌, ◌≤◌, ◌<◌, length, get_or};
ghost use Rattle.words.specs.Le.{le};
ghost use Rattle.audit_marks.specs.Marks.{Marked, Clear, First, FirstMark};
ghost use Rattle.items.specs.Items.{word_kind, kind_number};

use items::{Item, Kind};

// No mark in the first n places.
pub fn clear(marks: &mut [u8], n: usize)
    requires { n ≤ length marks.old }
    ensures { (length marks.new ≡ length marks.old) × ((i : ℕ) → i < n → get_or marks.new i 0 ≡ 0) }
{
    marks[..n].fill(0);
}

// A word that starts in the n places from `from` on is marked with the count of its bytes.
pub fn mark(marks: &mut [u8], from: usize, n: usize, x: Item)
    requires { (n ≤ length marks.old) × (kind_number x.kind ≡ word_kind → x.len < 256) }
    ensures { Marked marks.old from n x marks.new }
{
    if x.kind != Kind::Word {
        return;
    }
    if x.at < from {
        return;
    }
    let i = x.at - from;
    if n <= i {
        return;
    }
    marks[i] = x.len as u8;
}

// Passes places without a mark, eight at a time.
fn skip_eights(marks: &[u8], i: usize, n: usize) -> usize
    requires { (i ≤ n) × (n ≤ length marks.now) }
    ensures lower_bound { (i ≤ result) × (result ≤ n) × Clear marks.now i result }
    ensures fact { result + 8 ≤ n → le 8 marks.now result ≡ 0 → ⊥ }
{
    // No `step_by`: where fewer than eight places are left it would still hand out one.
    let mut k = i;
    while n - k >= 8 {
        if words::le64(marks, k) != 0 {
            return k;
        }
        k += 8;
    }
    k
}

// The first mark of the eight places from k on, or k + 8: bytes below the lowest set bit of the number that they hold are 0.
fn first_of_eight(marks: &[u8], k: usize) -> usize
    requires { k + 8 ≤ length marks.now }
    ensures { First marks.now k (k + 8) result }
{
    let x = words::le64(marks, k) as u64;
    k + (u64::trailing_zeros(x) / 8) as usize
}

// The first mark from i on in the first n places.
pub fn first_mark(marks: &[u8], i: usize, n: usize) -> Option<usize>
    requires { (i ≤ n) × (n ≤ length marks.now) }
    ensures { FirstMark marks.now i n result }
{
    let j = skip_eights(marks, i, n);
    if n - j >= 8 {
        return Some(first_of_eight(marks, j));
    }
    for k in j..n {
        if marks[k] != 0 {
            return Some(k);
        }
    }
    None
}

// The mark at i, as a count of bytes.
pub fn width_at(marks: &[u8], i: usize) -> usize
    requires { i < length marks.now }
    ensures { result ≡ get_or marks.now i 0 }
{
    marks[i] as usize
}
