// FIPS 180-4, sections 5.1.1, 5.3.3 and 6.2.2: a message of whole bytes is padded to whole blocks and hashed block by block. Four functions
// ask that it is shorter than 2^61 bytes: a struct around the slice would say so once, but each caller would have to make one of its bytes.
#![tactic(auto)]

ghost use Rattle.std.specs.Prelude.{◌≡◌, ◌+◌, ◌*◌, ◌/◌, ◌^◌, ◌≤◌, ◌<◌, length, get_or};
ghost use Rattle.digest_rounds.specs.Rounds.{K};
ghost use Rattle.digest_blocks.specs.Blocks.{chained};
ghost use Rattle.digest_message.specs.Message.{padded, H₀, hashed};
ghost use Rattle.digest_message.specs.PaddedLaws.{blocks, Holding};

use digest_rounds::Eight;

// Byte p of the padded message.
fn padded_byte(s: &[u8], p: usize) -> u8
    requires { (length s.now < 2 ^ 61) × (p < 64 * blocks (length s.now)) }
    ensures { result ≡ get_or (padded s.now) p 0 }
{
    let n = s.len();
    if p < n {
        return s[p];
    }
    if p == n {
        return 128;
    }
    let e = ((n + 8) / 64 + 1) * 64;
    if p < e - 8 {
        return 0;
    }
    (((8 * n as u64) >> (8 * (e - 1 - p))) % 256) as u8
}

// The block of the padded message at `at`.
fn block(s: &[u8], at: usize) -> [u8; 64]
    requires { (length s.now < 2 ^ 61) × (at + 64 ≤ 64 * blocks (length s.now)) }
    ensures { (length result ≡ 64) × Holding s.now at result 64 }
{
    let mut t = [0u8; 64];
    for (i, byte) in t.iter_mut().enumerate() {
        *byte = padded_byte(s, at + i);
    }
    t
}

// The last blocks, those with the padding; v is the hash value after the others.
fn finish(k: &[u32; 64], v: Eight, s: &[u8]) -> Eight
    requires { (k.now ≡ K) × (length s.now < 2 ^ 61) × (v ≡ chained H₀ (padded s.now) (length s.now / 64)) }
    ensures { result ≡ hashed s.now }
{
    let n = (s.len() + 8) / 64 + 1;
    let mut x = v;
    for i in s.len() / 64..n {
        let t = block(s, 64 * i);
        x = digest_blocks::compress(k, x, &t, 0);
    }
    x
}

// The hash value to begin with.
fn start() -> Eight
    ensures { result ≡ H₀ }
{
    Eight {
        a: 0x6a09e667,
        b: 0xbb67ae85,
        c: 0x3c6ef372,
        d: 0xa54ff53a,
        e: 0x510e527f,
        f: 0x9b05688c,
        g: 0x1f83d9ab,
        h: 0x5be0cd19,
    }
}

// The hash value of the message.
pub fn hash(s: &[u8]) -> Eight
    requires { length s.now < 2 ^ 61 }
    ensures { result ≡ hashed s.now }
{
    let k = digest_rounds::constants();
    let v = digest_blocks::chain(&k, start(), s, s.len() / 64);
    finish(&k, v, s)
}
