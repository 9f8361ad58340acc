// Document 02, #112: text read back, which is taken exactly where export writes it.
#![tactic(auto)]

ghost use Rattle.std.specs.Prelude.{◌≡◌, ◌+◌, ◌≤◌, length};
ghost use Rattle.hex_import.specs.Import.{refused_import, Imports};
ghost use Rattle.hex_import.specs.Found.{base_of, LengthOf};

// The answer of import: a refusal, or number 0, the base and how many bytes there are. `pajurenda_hex` writes it to C field by field.
#[derive(Clone, Copy)]
pub struct Imported {
    pub number: u32,
    pub base: u64,
    pub length: usize,
}

fn refused(number: u32) -> Imported
    ensures { result ≡ refused_import number }
{
    Imported {
        number,
        base: 0,
        length: 0,
    }
}

// The base that the first two records name.
fn base_of(text: &[u8]) -> u64
    requires { 44 ≤ length text.now }
    ensures { result ≡ base_of text.now }
{
    let upper = hex_judge::byte_at(text, 9) as u64 * 256 + hex_judge::byte_at(text, 11) as u64;
    let lower = hex_judge::byte_at(text, 19) as u64 * 256 + hex_judge::byte_at(text, 21) as u64;
    upper * 65536 + lower
}

// How many bytes at this base have a text of this size: more bytes have more text, so halving finds them. The library's `partition_point`
// halves a slice, and here is none.
fn length_of(size: usize, base: u64) -> Option<usize>
    ensures { LengthOf size base result }
{
    let mut low = 72;
    let mut high = 16777217;
    while 1 < high - low {
        let mid = low + (high - low) / 2;
        if hex_text::text_length(base, mid) <= size {
            low = mid;
        } else {
            high = mid;
        }
    }
    if hex_text::text_length(base, low) != size {
        return None;
    }
    Some(low)
}

// Reads a text, whatever it is, or refuses and changes nothing.
pub fn import(text: &[u8], out: &mut [u8]) -> Imported
    ensures { Imports text.now out.old result out.new }
{
    if text.len() < 44 {
        return refused(50);
    }
    let base = base_of(text);
    let Some(n) = length_of(text.len(), base) else {
        return refused(50);
    };
    if !header::legal(base, n) {
        return refused(50);
    }
    if !hex_parts::text_stands(text, base, n) {
        return refused(50);
    }
    if out.len() < n {
        return refused(53);
    }
    hex_bytes::put_all(text, base, n, out);
    Imported {
        number: 0,
        base,
        length: n,
    }
}
