// Document 02, #112: whether a record stands in a text.
#![tactic(auto)]

ghost use Rattle.std.specs.Prelude.{MatchOption, ◌≡◌, [], ◌∷◌, ◌+◌, ◌*◌, ◌≤◌, ◌<◌, length};
ghost use Rattle.facts.specs.Fact.{Holds, Tells};
ghost use Rattle.hex_text.specs.Hex.{pairs, line};
ghost use Rattle.hex_text.specs.Splits.{front_line, back_line};
ghost use Rattle.hex_judge.specs.Stands.{stands, value_of, byte_at, bytes_at, Summed};

// What a capital hex digit stands for.
fn value(c: u8) -> u8
    ensures { result ≡ value_of c }
{
    (c % 16 + 9 * (c / 64)) % 16
}

// The byte that two digits stand for.
pub fn byte_at(text: &[u8], at: usize) -> u8
    requires { at + 2 ≤ length text.now }
    ensures { result ≡ byte_at text.now at }
{
    16 * value(text[at]) + value(text[at + 1])
}

// Whether these two digits stand there.
fn is_pair(text: &[u8], at: usize, b: u8) -> bool
    requires { at + 2 ≤ length text.now }
    ensures { Tells result (stands text.now at (pairs (b ∷ []))) }
{
    if text[at] != hex_text::digit(b / 16) {
        return false;
    }
    if text[at + 1] != hex_text::digit(b % 16) {
        return false;
    }
    true
}

// The sum of d bytes, if their digits stand there.
fn sum_of(text: &[u8], at: usize, d: usize) -> Option<usize>
    requires { (at + 2 * d ≤ length text.now) × (d ≤ 16) }
    ensures { MatchOption result (Holds (stands text.now at (pairs (bytes_at text.now at d))) → ⊥) (Summed text.now at d) }
{
    let mut sum = 0;
    for j in 0..d {
        let b = byte_at(text, at + 2 * j);
        if !is_pair(text, at + 2 * j, b) {
            return None;
        }
        sum += b as usize;
    }
    Some(sum)
}

// A record up to its data.
fn front_stands(text: &[u8], at: usize, kind: u8, address: usize, d: usize) -> bool
    requires { (at + 9 ≤ length text.now) × (address < 65536) × (d ≤ 16) }
    ensures { Tells result (stands text.now at (front_line kind address d)) }
{
    if text[at] != b':' {
        return false;
    }
    if !is_pair(text, at + 1, d as u8) {
        return false;
    }
    if !is_pair(text, at + 3, (address / 256) as u8) {
        return false;
    }
    if !is_pair(text, at + 5, (address % 256) as u8) {
        return false;
    }
    if !is_pair(text, at + 7, kind) {
        return false;
    }
    true
}

// A record after its data.
fn back_stands(text: &[u8], at: usize, sum: usize) -> bool
    requires { at + 3 ≤ length text.now }
    ensures { Tells result (stands text.now at (back_line sum)) }
{
    if !is_pair(text, at, ((256 - sum % 256) % 256) as u8) {
        return false;
    }
    if text[at + 2] != b'\n' {
        return false;
    }
    true
}

// A record with d bytes of data, whichever they are.
pub fn line_stands(text: &[u8], at: usize, kind: u8, address: usize, d: usize) -> bool
    requires { (at + 12 + 2 * d ≤ length text.now) × (address < 65536) × (d ≤ 16) }
    ensures { Tells result (stands text.now at (line kind address (bytes_at text.now (at + 9) d))) }
{
    if !front_stands(text, at, kind, address, d) {
        return false;
    }
    let Some(sum) = sum_of(text, at + 9, d) else {
        return false;
    };
    back_stands(
        text,
        at + 9 + 2 * d,
        d + address / 256 + address % 256 + kind as usize + sum,
    )
}
