// FIPS 180-4, section 6.2.2 (step 1): the message schedule of a block.
#![tactic(auto)]

ghost use Rattle.std.specs.Prelude.{◌≡◌, ◌+◌, ◌≤◌, ◌<◌, length};
ghost use Rattle.digest_schedule.specs.Schedule.{word, loaded, next, expanded, scheduled};

// The word at `at`, its highest byte first.
fn load(s: &[u8], at: usize) -> u32
    requires { at + 4 ≤ length s.now }
    ensures { result ≡ word s.now at }
{
    u32::from_be_bytes([s[at], s[at + 1], s[at + 2], s[at + 3]])
}

// The block's 16 words into the first places.
fn fill(w: &mut [u32; 64], s: &[u8], at: usize)
    requires { at + 64 ≤ length s.now }
    ensures { w.new ≡ loaded w.old s.now at 16 }
{
    for t in 0..16 {
        w[t] = load(s, at + 4 * t);
    }
}

// The word of place t, of those before it.
fn grow(w: &[u32; 64], t: usize) -> u32
    requires { (16 ≤ t) × (t < 64) }
    ensures { result ≡ next w.now t }
{
    digest_words::sum4(
        digest_words::small1(w[t - 2]),
        w[t - 7],
        digest_words::small0(w[t - 15]),
        w[t - 16],
    )
}

// The other 48 places, in order.
fn expand(w: &mut [u32; 64])
    ensures { w.new ≡ expanded w.old 48 }
{
    for t in 16..64 {
        w[t] = grow(w, t);
    }
}

// The 64 words of the block at `at`.
pub fn schedule(s: &[u8], at: usize) -> [u32; 64]
    requires { at + 64 ≤ length s.now }
    ensures { result ≡ scheduled s.now at }
{
    let mut w = [0u32; 64];
    fill(&mut w, s, at);
    expand(&mut w);
    w
}
