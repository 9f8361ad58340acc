// Document 02, #112: the bytes that a text has, written into a lent buffer.
#![tactic(auto)]

ghost use Rattle.std.specs.Prelude.{◌≡◌, ◌+◌, ◌*◌, ◌≤◌, ◌<◌, ◌^◌, length};
ghost use Rattle.text_lines.specs.Lines.{Wrote};
ghost use Rattle.hex_text.specs.Hex.{over};
ghost use Rattle.hex_judge.specs.Stands.{bytes_at};
ghost use Rattle.hex_parts.specs.Decoded.{data_at, decoded_all, Sized};

// Where the digits of the data from byte i on begin.
fn data_at(base: u64, i: usize, at: usize) -> usize
    requires { (base + i < 2 ^ 64) × (at + 25 < 2 ^ 64) }
    ensures { result ≡ data_at base i at }
{
    if hex_text::turns_at(base, i) {
        at + 16 + 9
    } else {
        at + 9
    }
}

// The d bytes whose digits begin at `at`.
fn put_bytes(text: &[u8], at: usize, out: &mut [u8], i: usize, d: usize) -> usize
    requires { (at + 2 * d ≤ length text.now) × (i + d ≤ length out.old) }
    ensures { Wrote out.old out.new i (bytes_at text.now at d) result }
{
    for j in 0..d {
        out[i + j] = hex_judge::byte_at(text, at + 2 * j);
    }
    i + d
}

// All of the n bytes.
pub fn put_all(text: &[u8], base: u64, n: usize, out: &mut [u8])
    requires { Sized text.now base n × (n ≤ length out.old) }
    ensures { out.new ≡ over (decoded_all text.now base n) out.old }
{
    let mut at = 16;
    for i in (0..n).step_by(16) {
        let d = hex_text::part_length(n, i);
        let p = data_at(base, i, at);
        put_bytes(text, p, out, i, d);
        at = hex_text::text_length(base, i + d) - 12;
    }
}
