// Document 01, "The audit": one step of the walk over a vendor image and a shipped file, to the next difference or from word to word.
#![tactic(auto)]

ghost use Rattle.std.specs.Prelude.{◌≡◌, ◌+◌, ◌%◌, ◌^◌, ◌<◌, ◌≤◌, true, ◌⊎◌, length, if◌then◌else◌, nat_lt};
ghost use Rattle.words.specs.Le.{le};
ghost use Rattle.reading_rules.specs.Guarantee.{Guaranteed};
ghost use Rattle.audit_tables.specs.Ahead.{Foremost};
ghost use Rattle.audit_step.specs.Stride.{Reach, Coming, ending, by, InWord, Alike, Stepped};

use answers::Reading;
use moves::Shift;

// How a step of the walk ends: with all bytes up to a position passed, or at the first byte that isn't the reference's.
#[derive(Clone, Copy)]
pub enum Step {
    Passes(usize),
    Differs(usize),
}

// Whether the word of m bytes at p is w; one of neither 4 bytes nor 8 is left open.
fn is_word(shipped: &[u8], p: usize, m: usize, w: u64) -> bool
    requires { p + m ≤ length shipped.now }
    ensures { result ≡ true → le m shipped.now p ≡ w }
{
    if m == 8 {
        return words::le64(shipped, p) as u64 == w;
    }
    if m != 4 {
        return false;
    }
    words::le32(shipped, p) as u64 == w
}

// The first position from `from` on in the word of m bytes at p at which the shipped byte isn't that of w.
fn first_in_word(shipped: &[u8], p: usize, m: usize, w: u64, from: usize) -> Option<usize>
    requires { (p ≤ from) × (from < p + m) × (p + m ≤ length shipped.now) × (m ≤ 8) }
    ensures { InWord shipped.now p m w from result }
{
    let bytes = w.to_le_bytes();
    for k in from..p + m {
        if shipped[k] != bytes[k - p] {
            return Some(k);
        }
    }
    None
}

// Up to where all bytes from `at` on are those of the reference: past the usual stretch before the next word, or past that word; `at` where more is to be looked at.
fn pass_equal(
    vendor: &[u8],
    shipped: &[u8],
    r: Reading,
    d: Shift,
    at: usize,
    w: usize,
    m: usize,
) -> usize
    requires { Guaranteed vendor.now r × Reach vendor.now r at w m × (at < length vendor.now)
        × (length shipped.now ≡ length vendor.now) }
    ensures { Alike (by vendor.now r d.four d.eight) shipped.now at result }
{
    if at < w {
        if audit_stretch::is_same(vendor, shipped, at, w) {
            return w;
        }
        return at;
    }
    let value = move_modules::moved_word(vendor, w, m, d);
    if is_word(shipped, w, m, value) {
        return w + m;
    }
    at
}

// One step of the walk from `at` on: to the next difference, the next word at w, or the end of its m bytes.
fn step_to(
    vendor: &[u8],
    shipped: &[u8],
    r: Reading,
    d: Shift,
    at: usize,
    w: usize,
    m: usize,
) -> Step
    requires { Guaranteed vendor.now r × Reach vendor.now r at w m × (at < length vendor.now)
        × (length shipped.now ≡ length vendor.now) }
    ensures { Stepped (by vendor.now r d.four d.eight) shipped.now at result }
{
    if at < w {
        if let Some(k) = audit_stretch::first_difference(vendor, shipped, at, w) {
            return Step::Differs(k);
        }
        return Step::Passes(w);
    }
    let value = move_modules::moved_word(vendor, w, m, d);
    match first_in_word(shipped, w, m, value, at) {
        Some(k) => Step::Differs(k),
        None => Step::Passes(w + m),
    }
}

// How many bytes the nearer of the tables' next word at `first` and the modules' next at p has, where the modules' has m: the tables' has 4.
fn width_of(first: usize, p: usize, m: usize) -> usize
    ensures { result ≡ (if nat_lt p first then m else 4) }
{
    if p < first {
        return m;
    }
    4
}

// Where the tables' next word stands at `first` and the modules' next, of m bytes, at p, the nearer of the two is next. Up to where all bytes from
// `at` on are those of the reference, which is nearly always up to that word or past it; `at` where more is to be looked at. A number alone:
// a step with its kind would go through memory at each word.
pub fn pass(
    vendor: &[u8],
    shipped: &[u8],
    r: Reading,
    d: Shift,
    at: usize,
    first: usize,
    p: usize,
    m: usize,
) -> usize
    requires guaranteed { Guaranteed vendor.now r × (at < length vendor.now) × (length shipped.now ≡ length vendor.now) }
    requires foremost { Foremost vendor.now r at first × (first < length vendor.now → at < first + 4) × Coming vendor.now r at p m }
    ensures { Alike (by vendor.now r d.four d.eight) shipped.now at result }
{
    let w = p.min(first);
    let n = width_of(first, p, m);
    pass_equal(vendor, shipped, r, d, at, w, n)
}

// One step of the walk from `at` on, whatever the bytes are.
pub fn advance(
    vendor: &[u8],
    shipped: &[u8],
    r: Reading,
    d: Shift,
    at: usize,
    first: usize,
    p: usize,
    m: usize,
) -> Step
    requires guaranteed { Guaranteed vendor.now r × (at < length vendor.now) × (length shipped.now ≡ length vendor.now) }
    requires foremost { Foremost vendor.now r at first × (first < length vendor.now → at < first + 4) × Coming vendor.now r at p m }
    ensures { Stepped (by vendor.now r d.four d.eight) shipped.now at result }
{
    let w = p.min(first);
    let n = width_of(first, p, m);
    step_to(vendor, shipped, r, d, at, w, n)
}

// Up to where the modules' next word is the one of m bytes at p.
pub fn end_of(p: usize, m: usize, long: usize) -> usize
    requires { p < long → p + m ≤ long }
    ensures { result ≡ ending long p m }
{
    if p < long {
        return p + m;
    }
    long
}
