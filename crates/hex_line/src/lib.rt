// Document 02, #112: one record written.
#![tactic(auto)]

ghost use Rattle.std.specs.Prelude.{[], ◌∷◌, ◌+◌, ◌*◌, ◌≤◌, ◌<◌, length};
ghost use Rattle.text_lines.specs.Lines.{Wrote};
ghost use Rattle.hex_text.specs.Hex.{pairs, line};
ghost use Rattle.hex_text.specs.Splits.{front_line, back_line};
ghost use Rattle.hex_line.specs.Written.{WrotePairs};

// A byte.
fn put_pair(out: &mut [u8], at: usize, b: u8) -> usize
    requires { at + 2 ≤ length out.old }
    ensures { Wrote out.old out.new at (pairs (b ∷ [])) result }
{
    out[at] = hex_text::digit(b / 16);
    out[at + 1] = hex_text::digit(b % 16);
    at + 2
}

// Bytes, of which it hands back the sum.
fn put_pairs(out: &mut [u8], at: usize, bytes: &[u8]) -> u16
    requires { (at + 2 * length bytes.now ≤ length out.old) × (length bytes.now ≤ 16) }
    ensures { WrotePairs out.old out.new at bytes.now result × (result ≤ 4080) }
{
    let mut sum: u16 = 0;
    for (j, b) in bytes.iter().enumerate() {
        put_pair(out, at + 2 * j, *b);
        sum += *b as u16;
    }
    sum
}

// A record up to its data.
fn put_front(out: &mut [u8], at: usize, kind: u8, address: usize, d: usize) -> usize
    requires { (at + 9 ≤ length out.old) × (address < 65536) × (d ≤ 16) }
    ensures { Wrote out.old out.new at (front_line kind address d) result }
{
    out[at] = b':';
    let p = put_pair(out, at + 1, d as u8);
    let q = put_pair(out, p, (address / 256) as u8);
    let r = put_pair(out, q, (address % 256) as u8);
    put_pair(out, r, kind)
}

// A record after its data.
fn put_back(out: &mut [u8], at: usize, sum: usize) -> usize
    requires { at + 3 ≤ length out.old }
    ensures { Wrote out.old out.new at (back_line sum) result }
{
    let p = put_pair(out, at, ((256 - sum % 256) % 256) as u8);
    out[p] = b'\n';
    p + 1
}

// A record with these bytes. (Inlined: where it isn't, an export takes a quarter more.)
#[inline(always)]
pub fn put_line(out: &mut [u8], at: usize, kind: u8, address: usize, bytes: &[u8]) -> usize
    requires { (at + 12 + 2 * length bytes.now ≤ length out.old) × (address < 65536) × (length bytes.now ≤ 16) }
    ensures { Wrote out.old out.new at (line kind address bytes.now) result }
{
    let d = bytes.len();
    let p = put_front(out, at, kind, address, d);
    let sum = put_pairs(out, p, bytes);
    put_back(
        out,
        p + 2 * d,
        d + address / 256 + address % 256 + kind as usize + sum as usize,
    )
}
