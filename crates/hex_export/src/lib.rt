// Document 02, #112: bytes at a base written as Intel HEX text.
#![tactic(auto)]

ghost use Rattle.std.specs.Prelude.{◌≡◌, ◌+◌, ◌*◌, ◌^◌, ◌≤◌, ◌<◌, length};
ghost use Rattle.text_lines.specs.Lines.{Wrote};
ghost use Rattle.hex_text.specs.Hex.{sixteen, upper_line, data_line, part, all_parts, exported, over};
ghost use Rattle.hex_text.specs.Sizes.{part_length};
ghost use Rattle.hex_export.specs.Export.{refused_export, Exports, Roomy};

// The answer of export: a refusal, or number 0 and the length of the text. `pajurenda_hex` writes it to C field by field.
#[derive(Clone, Copy)]
pub struct Exported {
    pub number: u32,
    pub length: usize,
}

// The upper 16 bits of an address.
fn put_upper(out: &mut [u8], at: usize, a: u64) -> usize
    requires { (at + 16 ≤ length out.old) × (a < 2 ^ 32) }
    ensures { Wrote out.old out.new at (upper_line a) result }
{
    let upper = [(a / 16777216) as u8, (a / 65536 % 256) as u8];
    hex_line::put_line(out, at, 4, 0, &upper)
}

// The data from byte i on. (Inlined, as a record is: it stands in two places below, each of which does a record's whole work.)
#[inline(always)]
fn put_data(out: &mut [u8], at: usize, base: u64, bytes: &[u8], i: usize) -> usize
    requires { (at + 12 + 2 * part_length (length bytes.now) i ≤ length out.old) × (i ≤ length bytes.now) × (base + i < 2 ^ 32) }
    ensures { Wrote out.old out.new at (data_line (base + i) (sixteen bytes.now i)) result }
{
    let d = hex_text::part_length(bytes.len(), i);
    let address = ((base + i as u64) % 65536) as usize;
    hex_line::put_line(out, at, 0, address, &bytes[i..i + d])
}

// The same with the upper 16 bits before them where they are new.
fn put_part(out: &mut [u8], at: usize, base: u64, bytes: &[u8], i: usize) -> usize
    requires { (at + length (part base i (sixteen bytes.now i)) ≤ length out.old) × (i ≤ length bytes.now) × (base + i < 2 ^ 32) }
    ensures { Wrote out.old out.new at (part base i (sixteen bytes.now i)) result }
{
    if !hex_text::turns_at(base, i) {
        return put_data(out, at, base, bytes, i);
    }
    let p = put_upper(out, at, base + i as u64);
    put_data(out, p, base, bytes, i)
}

// The upper 16 bits of the base, and all parts.
fn put_parts(out: &mut [u8], base: u64, bytes: &[u8]) -> usize
    requires { Roomy bytes.now base out.old }
    ensures { Wrote out.old out.new 0 (all_parts base bytes.now) result }
{
    let mut at = put_upper(out, 0, base);
    for i in (0..bytes.len()).step_by(16) {
        at = put_part(out, at, base, bytes, i);
    }
    at
}

// The whole text.
fn put_text(out: &mut [u8], base: u64, bytes: &[u8])
    requires { Roomy bytes.now base out.old }
    ensures { out.new ≡ over (exported base bytes.now) out.old }
{
    let at = put_parts(out, base, bytes);
    hex_line::put_line(out, at, 1, 0, &[]);
}

fn refused(number: u32) -> Exported
    ensures { result ≡ refused_export number 0 }
{
    Exported { number, length: 0 }
}

// Writes bytes at a base as text, whatever they are, or refuses and changes nothing.
pub fn export(bytes: &[u8], base: u64, out: &mut [u8]) -> Exported
    ensures { Exports bytes.now base out.old result out.new }
{
    if !volume::length_fits(bytes) {
        return refused(1);
    }
    if !header::legal(base, bytes.len()) {
        return refused(18);
    }
    let length = hex_text::text_length(base, bytes.len());
    if out.len() < length {
        return refused(53);
    }
    put_text(out, base, bytes);
    Exported { number: 0, length }
}
