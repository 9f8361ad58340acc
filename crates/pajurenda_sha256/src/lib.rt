// SHA-256 for C: the digest goes into the first 32 bytes of the answer's buffer.
#![tactic(auto)]

ghost use Rattle.digest.specs.Digest.{Digests};

pub fn pajurenda_sha256(bytes: &[u8], answer: &mut [u8]) -> u32
    ensures { Digests bytes.now answer.old result answer.new }
{
    match digest::sha256(bytes, answer) {
        Ok(()) => 0,
        Err(refusal) => refusal.number(),
    }
}
