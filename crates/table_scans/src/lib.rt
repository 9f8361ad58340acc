// Rules 12 to 14 of document 01 and 22 of document 02 over all entries: the first that is refused, and the first whose word isn't clear.
#![tactic(auto)]

ghost use Rattle.std.specs.Prelude.{true, ◌⊎◌, ◌≡◌, ℕ, ◌+◌, ◌*◌, ◌≤◌, ◌<◌, length};
ghost use Rattle.facts.specs.Fact.{Holds, Tells};
ghost use Rattle.table.specs.Passes.{place, unrefused, outside, apart, clear};
ghost use Rattle.table_order.specs.Ranks.{all_apart};
ghost use Rattle.table_scans.specs.FirstAt.{FirstAt};

// The first of n entries that is refused with this number.
pub fn first_refused(image: &[u8], t: usize, n: usize, number: u32) -> Option<usize>
    requires { t + 4 * n ≤ length image.now }
    ensures { FirstAt (unrefused number image.now t) n result }
{
    for i in 0..n {
        if table::point_at(image, t, i).number == number {
            return Some(i);
        }
    }
    None
}

// Whether the word at `at` lies at or above E and outside the configuration region.
fn is_outside(at: usize, E: usize, c: usize, z: usize) -> bool
    requires { (at < 9223372036854775808) × (c + z < 9223372036854775808) }
    ensures { Tells result (outside at E c z) }
{
    if at < E {
        return false;
    }
    if at + 4 <= c {
        return true;
    }
    if c + z <= at {
        return true;
    }
    false
}

// Whether the words at a and b share no byte.
fn is_apart(a: usize, b: usize) -> bool
    requires { (a < 9223372036854775808) × (b < 9223372036854775808) }
    ensures { Tells result (apart a b) }
{
    if a + 4 <= b {
        return true;
    }
    if b + 4 <= a {
        return true;
    }
    false
}

// How many of the i words before the word at a need no look: all, where it is sure that no two share a byte or none ends above `high`; else
// none.
fn skipped(sure: bool, a: usize, high: usize, i: usize) -> usize
    ensures { (result ≤ i) × (0 < result → (sure ≡ true) ⊎ (high ≤ a)) }
{
    if sure {
        return i;
    }
    if a < high {
        return 0;
    }
    i
}

// Whether no two of n words share a byte, by their places in order.
fn all_apart(image: &[u8], t: usize, n: usize) -> bool
    requires { (t + 4 * n ≤ length image.now) × (length image.now ≤ 16777216) × (n ≤ 1024)
        × ((i : ℕ) → i < n → (place image.now t i).number ≡ 0) }
    ensures { Tells result (all_apart image.now t n) }
{
    let mut list = [0u32; 1024];
    table_order::rank(image, t, n, &mut list)
}

// Whether it is sure that no two of n words share a byte: few are sooner held against each other than put in order.
fn surely_apart(image: &[u8], t: usize, n: usize) -> bool
    requires { (t + 4 * n ≤ length image.now) × (length image.now ≤ 16777216) × (n ≤ 1024)
        × ((i : ℕ) → i < n → (place image.now t i).number ≡ 0) }
    ensures { result ≡ true → Holds (all_apart image.now t n) }
{
    if n <= 16 {
        return false;
    }
    all_apart(image, t, n)
}

// Rule 14, where 12, 22 and 13 are passed: the first of n entries whose word isn't clear. The nested scan answers for every table; a word
// is held against each before it, but where all are known to lie apart or it starts at or above the highest end so far.
pub fn first_overlap(image: &[u8], t: usize, n: usize, c: usize, z: usize) -> Option<usize>
    requires { (t + 4 * n ≤ length image.now) × (c + z ≤ length image.now) × ((i : ℕ) → i < n → (place image.now t i).number ≡ 0)
        × (length image.now ≤ 16777216) × (n ≤ 1024) }
    ensures { FirstAt (clear image.now t (t + 4 * n) c z) n result }
{
    let sure = surely_apart(image, t, n);
    let E = t + 4 * n;
    let mut high = 0;
    'entries: {
        for i in 0..n {
            let a = table::spot_at(image, t, i);
            if !is_outside(a, E, c, z) {
                break 'entries Some(i);
            }
            for j in skipped(sure, a, high, i)..i {
                if !is_apart(a, table::spot_at(image, t, j)) {
                    break 'entries Some(i);
                }
            }
            high = high.max(a + 4);
        }
        None
    }
}
