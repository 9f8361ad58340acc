// FIPS 180-4, section 6.2.2: one block after the other.
#![tactic(auto)]

ghost use Rattle.std.specs.Prelude.{◌≡◌, ◌+◌, ◌*◌, ◌≤◌, length};
ghost use Rattle.digest_blocks.specs.Blocks.{compressed, chained};
ghost use Rattle.digest_rounds.specs.Rounds.{K};

use digest_rounds::Eight;

// The hash value after the block at `at`; k are the constants.
pub fn compress(k: &[u32; 64], v: Eight, s: &[u8], at: usize) -> Eight
    requires { (k.now ≡ K) × (at + 64 ≤ length s.now) }
    ensures { result ≡ compressed v s.now at }
{
    let w = digest_schedule::schedule(s, at);
    digest_rounds::add(digest_rounds::all(k, v, &w), v)
}

// The hash value after the first n blocks.
pub fn chain(k: &[u32; 64], v: Eight, s: &[u8], n: usize) -> Eight
    requires { (k.now ≡ K) × (64 * n ≤ length s.now) }
    ensures { result ≡ chained v s.now n }
{
    let mut x = v;
    for i in 0..n {
        x = compress(k, x, s, 64 * i);
    }
    x
}
