// Document 01, "The audit": two stretches of bytes compared, 32 or eight at a time where they are the same.
#![tactic(auto)]

ghost use Rattle.std.specs.Prelude.{true, ◌≡◌, ◌+◌, ◌≤◌, length};
ghost use Rattle.audit_stretch.specs.Stretch.{SameBytes, Differs};

// The bits at which the words at k differ.
fn turned(a: &[u8], b: &[u8], k: usize) -> usize
    requires { (k + 8 ≤ length a.now) × (k + 8 ≤ length b.now) }
    ensures { result ≡ 0 → SameBytes a.now b.now k (k + 8) }
{
    words::le64(a, k) ^ words::le64(b, k)
}

// The same of the words of four bytes at k.
fn turned_half(a: &[u8], b: &[u8], k: usize) -> usize
    requires { (k + 4 ≤ length a.now) × (k + 4 ≤ length b.now) }
    ensures { result ≡ 0 → SameBytes a.now b.now k (k + 4) }
{
    words::le32(a, k) ^ words::le32(b, k)
}

// Whether the bytes from `from` on up to `to`, 16 to 32 of them, are the same in both: the first 16 and the last, which may overlap.
fn same_block(a: &[u8], b: &[u8], from: usize, to: usize) -> bool
    requires { (from + 16 ≤ to) × (to ≤ from + 32) × (to ≤ length a.now) × (to ≤ length b.now) }
    ensures { result ≡ true → SameBytes a.now b.now from to }
{
    let w = turned(a, b, from);
    let x = turned(a, b, from + 8);
    let y = turned(a, b, to - 16);
    let z = turned(a, b, to - 8);
    w | x | y | z == 0
}

// The same of 8 to 16 bytes: the first eight and the last.
fn same_pair(a: &[u8], b: &[u8], from: usize, to: usize) -> bool
    requires { (from + 8 ≤ to) × (to ≤ from + 16) × (to ≤ length a.now) × (to ≤ length b.now) }
    ensures { result ≡ true → SameBytes a.now b.now from to }
{
    turned(a, b, from) | turned(a, b, to - 8) == 0
}

// The same of 4 to 8 bytes: the first four and the last.
fn same_halves(a: &[u8], b: &[u8], from: usize, to: usize) -> bool
    requires { (from + 4 ≤ to) × (to ≤ from + 8) × (to ≤ length a.now) × (to ≤ length b.now) }
    ensures { result ≡ true → SameBytes a.now b.now from to }
{
    turned_half(a, b, from) | turned_half(a, b, to - 4) == 0
}

// The same of any stretch up to 32 bytes; one of fewer than four is left open.
fn same_short(a: &[u8], b: &[u8], from: usize, to: usize) -> bool
    requires { (from ≤ to) × (to ≤ from + 32) × (to ≤ length a.now) × (to ≤ length b.now) }
    ensures { result ≡ true → SameBytes a.now b.now from to }
{
    let n = to - from;
    if n >= 16 {
        return same_block(a, b, from, to);
    }
    if n >= 8 {
        return same_pair(a, b, from, to);
    }
    if n >= 4 {
        return same_halves(a, b, from, to);
    }
    false
}

// Passes equal bytes from `from` on, 32 at a time; never past `to`, nor past a difference.
fn skip_blocks(a: &[u8], b: &[u8], from: usize, to: usize) -> usize
    requires { (from ≤ to) × (to ≤ length a.now) × (to ≤ length b.now) }
    ensures { (from ≤ result) × (result ≤ to) × SameBytes a.now b.now from result }
{
    // No `step_by`: where fewer than 32 bytes are left it would still hand out a position.
    let mut k = from;
    while to - k >= 32 {
        if !same_block(a, b, k, k + 32) {
            return k;
        }
        k += 32;
    }
    k
}

// The same, eight at a time.
fn skip_words(a: &[u8], b: &[u8], from: usize, to: usize) -> usize
    requires { (from ≤ to) × (to ≤ length a.now) × (to ≤ length b.now) }
    ensures { (from ≤ result) × (result ≤ to) × SameBytes a.now b.now from result }
{
    // No `step_by`, for the same reason.
    let mut k = from;
    while to - k >= 8 {
        if turned(a, b, k) != 0 {
            return k;
        }
        k += 8;
    }
    k
}

// Whether the bytes left from k on, fewer than a block, are the same: what is compared may overlap bytes that were passed.
fn same_rest(a: &[u8], b: &[u8], from: usize, k: usize, to: usize) -> bool
    requires { (from ≤ k) × (k ≤ to) × (to ≤ length a.now) × (to ≤ length b.now) }
    ensures { result ≡ true → SameBytes a.now b.now k to }
{
    if to - k >= 32 {
        return false;
    }
    if to - from >= 32 {
        return same_block(a, b, to - 32, to);
    }
    same_short(a, b, from, to)
}

// Passes equal bytes, as many as can be passed in such steps.
fn skip(a: &[u8], b: &[u8], from: usize, to: usize) -> usize
    requires { (from ≤ to) × (to ≤ length a.now) × (to ≤ length b.now) }
    ensures { (from ≤ result) × (result ≤ to) × SameBytes a.now b.now from result }
{
    let k = skip_blocks(a, b, from, to);
    if same_rest(a, b, from, k, to) {
        return to;
    }
    skip_words(a, b, k, to)
}

// Whether a stretch of the usual length, 4 to 32 bytes, is the same in both; any other is left open.
pub fn is_same(a: &[u8], b: &[u8], from: usize, to: usize) -> bool
    requires { (from ≤ to) × (to ≤ length a.now) × (to ≤ length b.now) }
    ensures { result ≡ true → SameBytes a.now b.now from to }
{
    if to - from > 32 {
        return false;
    }
    same_short(a, b, from, to)
}

// The first position from `from` on and below `to` at which the two differ.
pub fn first_difference(a: &[u8], b: &[u8], from: usize, to: usize) -> Option<usize>
    requires { (from ≤ to) × (to ≤ length a.now) × (to ≤ length b.now) }
    ensures { Differs a.now b.now from to result }
{
    for k in skip(a, b, from, to)..to {
        if b[k] != a[k] {
            return Some(k);
        }
    }
    None
}

// The same where the first byte is likely to differ too: it is looked at by itself.
pub fn next(a: &[u8], b: &[u8], from: usize, to: usize) -> Option<usize>
    requires { (from ≤ to) × (to ≤ length a.now) × (to ≤ length b.now) }
    ensures { Differs a.now b.now from to result }
{
    if from == to {
        return None;
    }
    if b[from] != a[from] {
        return Some(from);
    }
    first_difference(a, b, from, to)
}
