// FIPS 180-4, sections 4.2.2 and 6.2.2 (step 3): the constants and the 64 rounds.
#![tactic(auto)]

ghost use Rattle.std.specs.Prelude.{◌≡◌, ◌+◌, ◌≤◌};
ghost use Rattle.digest_rounds.specs.Rounds.{T₁, T₂, turned, K, rounds, plus};
ghost use Rattle.digest_rounds.specs.RoundsLaws.{four_turned};

// The eight working variables, and the eight words of a hash value, by the standard's own letters: in an array they would have numbers, and
// a round and the definitions of specs/ would no longer read as the standard does.
#[derive(Clone, Copy)]
pub struct Eight {
    pub a: u32,
    pub b: u32,
    pub c: u32,
    pub d: u32,
    pub e: u32,
    pub f: u32,
    pub g: u32,
    pub h: u32,
}

fn first(s: Eight, k: u32, w: u32) -> u32
    ensures { result ≡ T₁ s k w }
{
    digest_words::sum5(
        s.h,
        digest_words::big1(s.e),
        digest_words::ch(s.e, s.f, s.g),
        k,
        w,
    )
}

fn second(s: Eight) -> u32
    ensures { result ≡ T₂ s }
{
    digest_words::sum2(digest_words::big0(s.a), digest_words::maj(s.a, s.b, s.c))
}

// One round.
fn turn(s: Eight, k: u32, w: u32) -> Eight
    ensures { result ≡ turned s k w }
{
    let t1 = first(s, k, w);
    let t2 = second(s);
    Eight {
        a: digest_words::sum2(t1, t2),
        b: s.a,
        c: s.b,
        d: s.c,
        e: digest_words::sum2(s.d, t1),
        f: s.e,
        g: s.f,
        h: s.g,
    }
}

// The constants, made once for a whole message: a table that is named where it is read would be made anew at each reading.
pub fn constants() -> [u32; 64]
    ensures { result ≡ K }
{
    [
        0x428a2f98, 0x71374491, 0xb5c0fbcf, 0xe9b5dba5, 0x3956c25b, 0x59f111f1, 0x923f82a4,
        0xab1c5ed5, 0xd807aa98, 0x12835b01, 0x243185be, 0x550c7dc3, 0x72be5d74, 0x80deb1fe,
        0x9bdc06a7, 0xc19bf174, 0xe49b69c1, 0xefbe4786, 0x0fc19dc6, 0x240ca1cc, 0x2de92c6f,
        0x4a7484aa, 0x5cb0a9dc, 0x76f988da, 0x983e5152, 0xa831c66d, 0xb00327c8, 0xbf597fc7,
        0xc6e00bf3, 0xd5a79147, 0x06ca6351, 0x14292967, 0x27b70a85, 0x2e1b2138, 0x4d2c6dfc,
        0x53380d13, 0x650a7354, 0x766a0abb, 0x81c2c92e, 0x92722c85, 0xa2bfe8a1, 0xa81a664b,
        0xc24b8b70, 0xc76c51a3, 0xd192e819, 0xd6990624, 0xf40e3585, 0x106aa070, 0x19a4c116,
        0x1e376c08, 0x2748774c, 0x34b0bcb5, 0x391c0cb3, 0x4ed8aa4a, 0x5b9cca4f, 0x682e6ff3,
        0x748f82ee, 0x78a5636f, 0x84c87814, 0x8cc70208, 0x90befffa, 0xa4506ceb, 0xbef9a3f7,
        0xc67178f2,
    ]
}

// Four rounds from t on: the loop's turn, so that the eight words are moved from place to place once in four rounds.
fn four(k: &[u32; 64], s: Eight, w: &[u32; 64], t: usize) -> Eight
    requires { t + 4 ≤ 64 }
    ensures { result ≡ four_turned k.now s w.now t }
{
    let s1 = turn(s, k[t], w[t]);
    let s2 = turn(s1, k[t + 1], w[t + 1]);
    let s3 = turn(s2, k[t + 2], w[t + 2]);
    turn(s3, k[t + 3], w[t + 3])
}

// All 64 rounds.
pub fn all(k: &[u32; 64], s: Eight, w: &[u32; 64]) -> Eight
    ensures { result ≡ rounds k.now s w.now 64 }
{
    let mut v = s;
    for t in (0..64).step_by(4) {
        v = four(k, v, w, t);
    }
    v
}

// Word by word, the sum.
pub fn add(x: Eight, y: Eight) -> Eight
    ensures { result ≡ plus x y }
{
    Eight {
        a: digest_words::sum2(x.a, y.a),
        b: digest_words::sum2(x.b, y.b),
        c: digest_words::sum2(x.c, y.c),
        d: digest_words::sum2(x.d, y.d),
        e: digest_words::sum2(x.e, y.e),
        f: digest_words::sum2(x.f, y.f),
        g: digest_words::sum2(x.g, y.g),
        h: digest_words::sum2(x.h, y.h),
    }
}
