// Document 02, #112: a digit, the length of the text and of its parts.
#![tactic(auto)]

ghost use Rattle.std.specs.Prelude.{◌≡◌, ◌+◌, ◌≤◌, ◌<◌, ◌^◌};
ghost use Rattle.facts.specs.Fact.{Tells};
ghost use Rattle.text_lines.specs.Text.{hex_digit};
ghost use Rattle.hex_text.specs.Hex.{turns};
ghost use Rattle.hex_text.specs.Sizes.{text_length, part_length};

// The character of a capital hex digit: 7 more from ten on, without a branch.
pub fn digit(d: u8) -> u8
    requires { d < 16 }
    ensures { result ≡ hex_digit d }
{
    48 + d + 7 * ((d + 6) / 16)
}

// How long the text of n bytes at a base is.
pub fn text_length(base: u64, n: usize) -> usize
    requires { (1 ≤ n) × (n ≤ 16777216) }
    ensures { result ≡ text_length base n }
{
    let low = (base % 65536) as usize;
    28 + 12 * ((n + 15) / 16) + 2 * n + 16 * ((low + n - 1) / 65536)
}

// How many bytes the part from byte i on has, of n.
pub fn part_length(n: usize, i: usize) -> usize
    requires { i ≤ n }
    ensures { result ≡ part_length n i }
{
    (n - i).min(16)
}

// Whether byte i begins a new 64 KiB of address.
pub fn turns_at(base: u64, i: usize) -> bool
    requires { base + i < 2 ^ 64 }
    ensures { Tells result (turns base i) }
{
    i != 0 && (base + i as u64) % 65536 == 0
}
