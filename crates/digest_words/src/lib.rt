// FIPS 180-4, section 4.1.2: the six functions on words of 32 bits, each as the standard writes it, and sums of such words.
#![tactic(auto)]

ghost use Rattle.std.specs.Prelude.{◌≡◌, ◌+◌, ◌%◌, ◌^◌};
ghost use Rattle.digest_words.specs.Functions.{Ch, Maj, Σ₀, Σ₁, σ₀, σ₁};

// Where x has a 1 the digit of y, elsewhere that of z.
pub fn ch(x: u32, y: u32, z: u32) -> u32
    ensures { result ≡ Ch x y z }
{
    (x & y) ^ (!x & z)
}

// The digit that at least two of the three have.
pub fn maj(x: u32, y: u32, z: u32) -> u32
    ensures { result ≡ Maj x y z }
{
    (x & y) ^ (x & z) ^ (y & z)
}

pub fn big0(x: u32) -> u32
    ensures { result ≡ Σ₀ x }
{
    x.rotate_right(2) ^ x.rotate_right(13) ^ x.rotate_right(22)
}

pub fn big1(x: u32) -> u32
    ensures { result ≡ Σ₁ x }
{
    x.rotate_right(6) ^ x.rotate_right(11) ^ x.rotate_right(25)
}

pub fn small0(x: u32) -> u32
    ensures { result ≡ σ₀ x }
{
    x.rotate_right(7) ^ x.rotate_right(18) ^ (x >> 3)
}

pub fn small1(x: u32) -> u32
    ensures { result ≡ σ₁ x }
{
    x.rotate_right(17) ^ x.rotate_right(19) ^ (x >> 10)
}

// Sums of words, of which the lowest 32 bits are kept.
pub fn sum2(a: u32, b: u32) -> u32
    ensures { result ≡ (a + b) % 2 ^ 32 }
{
    a.wrapping_add(b)
}

pub fn sum4(a: u32, b: u32, c: u32, d: u32) -> u32
    ensures { result ≡ (a + b + c + d) % 2 ^ 32 }
{
    a.wrapping_add(b).wrapping_add(c).wrapping_add(d)
}

pub fn sum5(a: u32, b: u32, c: u32, d: u32, e: u32) -> u32
    ensures { result ≡ (a + b + c + d + e) % 2 ^ 32 }
{
    a.wrapping_add(b)
        .wrapping_add(c)
        .wrapping_add(d)
        .wrapping_add(e)
}
