// Text into a lent buffer: each function writes from `at` on and hands back the place after what it wrote.
#![tactic(auto)]

ghost use Rattle.std.specs.Prelude.{◌≡◌, ◌+◌, ◌≤◌, ◌<◌, [], ◌∷◌, length};
ghost use Rattle.text_lines.specs.Text.{decimal, hex_digit, hex_digits};
ghost use Rattle.text_lines.specs.Lines.{line, hex_line, Wrote};

// A text as it is.
pub fn put_text(out: &mut [u8], at: usize, text: &[u8]) -> usize
    requires { at + length text.now ≤ length out.old }
    ensures { Wrote out.old out.new at text.now result }
{
    let end = at + text.len();
    out[at..end].copy_from_slice(text);
    end
}

fn put_byte(out: &mut [u8], at: usize, v: u8) -> usize
    requires { at < length out.old }
    ensures { Wrote out.old out.new at (v ∷ []) result }
{
    out[at] = v;
    at + 1
}

// A number in decimal.
fn put_decimal(out: &mut [u8], at: usize, n: u64) -> usize
    requires { at + length (decimal n) ≤ length out.old }
    ensures { Wrote out.old out.new at (decimal n) result }
{
    if n < 10 {
        return put_byte(out, at, 48 + n as u8);
    }
    let p = put_decimal(out, at, n / 10);
    put_byte(out, p, 48 + (n % 10) as u8)
}

// A capital letter above 9, which `char::from_digit` would give as a small one and as an Option of a char.
fn hex_digit(d: u64) -> u8
    requires { d < 16 }
    ensures { result ≡ hex_digit d }
{
    if d < 10 {
        return 48 + d as u8;
    }
    55 + d as u8
}

// The k last hex digits of a number.
fn put_hex(out: &mut [u8], at: usize, k: usize, n: u64) -> usize
    requires { at + k ≤ length out.old }
    ensures { Wrote out.old out.new at (hex_digits k n) result }
{
    if k == 0 {
        return at;
    }
    let p = put_hex(out, at, k - 1, n / 16);
    put_byte(out, p, hex_digit(n % 16))
}

// A word, a number in decimal, and the line feed.
fn put_number(out: &mut [u8], at: usize, word: &[u8], n: u64) -> usize
    requires { at + length word.now + length (decimal n) + 1 ≤ length out.old }
    ensures wrote { Wrote out.old out.new at (line word.now n) result }
    ensures value { result ≡ at + length word.now + length (decimal n) + 1 }
{
    let p = put_text(out, at, word);
    let q = put_decimal(out, p, n);
    put_byte(out, q, b'\n')
}

// The same with the room that any number of 64 bits needs, and one of 32.
pub fn put_line(out: &mut [u8], at: usize, word: &[u8], n: u64) -> usize
    requires { at + length word.now + 21 ≤ length out.old }
    ensures wrote { Wrote out.old out.new at (line word.now n) result }
    ensures upper_bound { result ≤ at + length word.now + 21 }
{
    put_number(out, at, word, n)
}

pub fn put_short_line(out: &mut [u8], at: usize, word: &[u8], n: u32) -> usize
    requires { at + length word.now + 11 ≤ length out.old }
    ensures wrote { Wrote out.old out.new at (line word.now n) result }
    ensures upper_bound { result ≤ at + length word.now + 11 }
{
    put_number(out, at, word, n as u64)
}

// A word, a number in eight hex digits, and the line feed.
pub fn put_hex_line(out: &mut [u8], at: usize, word: &[u8], n: u64) -> usize
    requires { at + length word.now + 9 ≤ length out.old }
    ensures wrote { Wrote out.old out.new at (hex_line word.now n) result }
    ensures value { result ≡ at + length word.now + 9 }
{
    let p = put_text(out, at, word);
    let h = put_hex(out, p, 8, n);
    put_byte(out, h, b'\n')
}
