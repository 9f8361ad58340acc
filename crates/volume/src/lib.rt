// Rules 1 and 2 of document 01 but for the extension: the image's length and its volume. Rules 3 and 4 are in `volume_file`.
#![tactic(auto)]

ghost use Rattle.std.specs.Prelude.{◌≡◌, ◌+◌, ◌*◌, ◌≤◌, ◌<◌, length};
ghost use Rattle.facts.specs.Fact.{Tells};
ghost use Rattle.volume.specs.Volume.{length_fits, sum_words, volume_fits};
ghost use Rattle.volume.specs.SumLaws.{sum_from, Halves};

// Rule 1.
pub fn length_fits(image: &[u8]) -> bool
    ensures { Tells result (length_fits image.now) }
{
    if image.len() < 72 {
        return false;
    }
    if 16777216 < image.len() {
        return false;
    }
    true
}

// One turn: the four words from word i on, the first two summed in the lower 32 bits and the last two in the upper.
fn four_words(image: &[u8], i: usize) -> usize
    requires { 2 * i + 8 ≤ length image.now }
    ensures { Halves 1 (sum_from image.now i 4) result }
{
    let w = words::le64(image, 2 * i);
    let even = w % 65536 + 4294967296 * (w / 4294967296 % 65536);
    let odd = w / 65536 % 65536 + 4294967296 * (w / 281474976710656);
    even + odd
}

// The odd rest: the k words from word i on.
fn rest_words(image: &[u8], i: usize, k: usize) -> usize
    requires { (2 * (i + k) ≤ length image.now) × (k < 4) }
    ensures { (result ≡ sum_from image.now i k) × (result ≤ 65535 * k) }
{
    let mut sum = 0;
    for j in 0..k {
        sum += words::le16(image, 2 * (i + j));
    }
    sum
}

// The sum of the first n words of 16 bits: four a turn, then the rest. Neither half of `both` comes to 2^32, as n is below 32,768.
fn sum_words(image: &[u8], n: usize) -> usize
    requires { (2 * n ≤ length image.now) × (n < 32768) }
    ensures { result ≡ sum_words image.now n }
{
    let turns = n / 4;
    let mut both = 0;
    for t in 0..turns {
        both += four_words(image, 4 * t);
    }
    both % 4294967296 + both / 4294967296 + rest_words(image, 4 * turns, n % 4)
}

// Rule 2, but for the extension.
pub fn volume_fits(image: &[u8], h: usize, v: usize) -> bool
    requires { (72 ≤ length image.now) × (h < 65536) }
    ensures { Tells result (volume_fits image.now h v) }
{
    if words::le32(image, 40) != 0x4856465F {
        return false;
    }
    if h < 72 {
        return false;
    }
    if v < h {
        return false;
    }
    if image.len() < v {
        return false;
    }
    if h % 2 != 0 {
        return false;
    }
    if sum_words(image, h / 2) % 65536 != 0 {
        return false;
    }
    true
}
