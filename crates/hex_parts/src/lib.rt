// Document 02, #112: whether a text is that of n bytes at a base.
#![tactic(auto)]

ghost use Rattle.std.specs.Prelude.{◌+◌, ◌*◌, ◌/◌, ◌^◌, ◌≤◌, ◌<◌, length};
ghost use Rattle.facts.specs.Fact.{Tells};
ghost use Rattle.hex_text.specs.Hex.{upper_line, data_line, part, parts, exported};
ghost use Rattle.hex_judge.specs.Stands.{stands, bytes_at};
ghost use Rattle.hex_parts.specs.Decoded.{data_at, decoded_all, Reaches, Sized};

// The upper 16 bits of an address.
fn upper_stands(text: &[u8], at: usize, a: u64) -> bool
    requires { (at + 16 ≤ length text.now) × (a < 2 ^ 32) }
    ensures { Tells result (stands text.now at (upper_line a)) }
{
    if hex_judge::byte_at(text, at + 9) != (a / 16777216) as u8 {
        return false;
    }
    if hex_judge::byte_at(text, at + 11) != (a / 65536 % 256) as u8 {
        return false;
    }
    if !hex_judge::line_stands(text, at, 4, 0, 2) {
        return false;
    }
    true
}

// Data at an address.
fn data_stands(text: &[u8], at: usize, a: u64, d: usize) -> bool
    requires { (at + 12 + 2 * d ≤ length text.now) × (d ≤ 16) }
    ensures { Tells result (stands text.now at (data_line a (bytes_at text.now (at + 9) d))) }
{
    hex_judge::line_stands(text, at, 0, (a % 65536) as usize, d)
}

// The part of d bytes from byte i on.
fn part_stands(text: &[u8], at: usize, base: u64, i: usize, d: usize) -> bool
    requires { Reaches text.now at base i d }
    ensures { Tells result (stands text.now at (part base i (bytes_at text.now (data_at base i at) d))) }
{
    let a = base + i as u64;
    if !hex_text::turns_at(base, i) {
        return data_stands(text, at, a, d);
    }
    if !upper_stands(text, at, a) {
        return false;
    }
    data_stands(text, at + 16, a, d)
}

// The upper 16 bits of the base, and all parts.
fn parts_stand(text: &[u8], base: u64, n: usize) -> bool
    requires { Sized text.now base n }
    ensures { Tells result (stands text.now 0 (parts base (decoded_all text.now base n) ((n + 15) / 16))) }
{
    if !upper_stands(text, 0, base) {
        return false;
    }
    let mut at = 16;
    for i in (0..n).step_by(16) {
        let d = hex_text::part_length(n, i);
        if !part_stands(text, at, base, i, d) {
            return false;
        }
        at = hex_text::text_length(base, i + d) - 12;
    }
    true
}

// The whole text.
pub fn text_stands(text: &[u8], base: u64, n: usize) -> bool
    requires { Sized text.now base n }
    ensures { Tells result (stands text.now 0 (exported base (decoded_all text.now base n))) }
{
    if !parts_stand(text, base, n) {
        return false;
    }
    if !hex_judge::line_stands(text, text.len() - 12, 1, 0, 0) {
        return false;
    }
    true
}
