// FIPS 180-4, section 6.2: SHA-256 of a message of whole bytes, into a lent buffer.
#![tactic(auto)]

ghost use Rattle.std.specs.Prelude.{◌≡◌, ◌+◌, ◌≤◌, length};
ghost use Rattle.text_lines.specs.Lines.{Wrote};
ghost use Rattle.digest_message.specs.Message.{big};
ghost use Rattle.digest.specs.Digest.{bytes_of, refusal_number, outcome_number, Digests};

use digest_rounds::Eight;

// A word, its highest byte first.
fn put_word(out: &mut [u8], at: usize, w: u32) -> usize
    requires { at + 4 ≤ length out.old }
    ensures { Wrote out.old out.new at (big 4 w) result × (result ≡ at + 4) }
{
    out[at..at + 4].copy_from_slice(&w.to_be_bytes());
    at + 4
}

// The eight words.
fn put_words(out: &mut [u8], v: Eight) -> usize
    requires { 32 ≤ length out.old }
    ensures { Wrote out.old out.new 0 (bytes_of v) result }
{
    let b = put_word(out, 0, v.a);
    let c = put_word(out, b, v.b);
    let d = put_word(out, c, v.c);
    let e = put_word(out, d, v.d);
    let f = put_word(out, e, v.e);
    let g = put_word(out, f, v.f);
    let h = put_word(out, g, v.g);
    put_word(out, h, v.h)
}

// How many bytes a digest has.
const DIGEST_LEN: usize = 32;

// The most that a message may have, 2^61 - 1.
const LONGEST: usize = 2305843009213693951;

// Why there is no digest.
#[derive(Clone, Copy, Debug, PartialEq, Eq)]
pub enum Refusal {
    // The lent buffer is shorter than 32 bytes.
    NoRoom,
    // The message is longer than the longest that the standard has a digest for.
    TooLong,
}

impl Refusal {
    // Its number in include/pajurenda.h.
    pub fn number(self) -> u32
        ensures { result ≡ refusal_number self }
    {
        match self {
            Refusal::NoRoom => 100,
            Refusal::TooLong => 1,
        }
    }
}

// The digest of the bytes, into the first 32 of `out`; or a refusal, and nothing is changed.
pub fn sha256(bytes: &[u8], out: &mut [u8]) -> Result<(), Refusal>
    ensures { Digests bytes.now out.old (outcome_number result) out.new }
{
    if out.len() < DIGEST_LEN {
        return Err(Refusal::NoRoom);
    }
    if LONGEST < bytes.len() {
        return Err(Refusal::TooLong);
    }
    let v = digest_message::hash(bytes);
    put_words(out, v);
    Ok(())
}
