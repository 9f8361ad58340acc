// The answer of a reading: what document 01 gives for an image, and the refusals. The rules in their order are in `reading` and
// `reading_entries`.
#![tactic(auto)]

ghost use Rattle.std.specs.Prelude.{◌≡◌, ◌+◌, ◌*◌, ◌≤◌, length};
ghost use Rattle.facts.specs.Fact.{Holds};
ghost use Rattle.words.specs.Le.{le};
ghost use Rattle.header.specs.Header.{has_extended, older};
ghost use Rattle.reading_rules.specs.Reading.{refusal, identity_at, accepted, older_accepted};

use answers::{Identity, Reading};

pub fn refused(number: u32, index: usize) -> Reading
    ensures { result ≡ refusal number index }
{
    Reading {
        number,
        index,
        H: 0,
        component: 0,
        identity: Identity {
            image: 0,
            revision: 0,
            extended: 0,
        },
        base: 0,
        c: 0,
        z: 0,
        n: 0,
        E: 0,
    }
}

fn identity_at(image: &[u8], H: usize) -> Identity
    requires { (H + 24 ≤ length image.now) × (Holds (has_extended (le 1 image.now (H + 11))) → H + 78 ≤ length image.now) }
    ensures { result ≡ identity_at image.now H }
{
    Identity {
        image: words::le64(image, H + 16) as u64,
        revision: words::le32(image, H + 12) as u32,
        extended: header::extended_number(image, H),
    }
}

pub fn accept(image: &[u8], H: usize, t: usize, n: usize, c: usize, z: usize) -> Reading
    requires { (H + 80 ≤ length image.now) × (t + 4 * n ≤ length image.now) }
    ensures { result ≡ accepted image.now H t n c z }
{
    let identity = identity_at(image, H);
    Reading {
        number: 0,
        index: 0,
        H,
        component: header::component_at(image, H),
        identity,
        base: words::le32(image, H + 28) as u64,
        c,
        z,
        n,
        E: t + 4 * n,
    }
}

// The answer for an edition 1 image: c and z as they stand, which nobody judges.
pub fn accept_older(image: &[u8], H: usize) -> Reading
    requires { (H + 60 ≤ length image.now) × Holds (older image.now H) }
    ensures { result ≡ older_accepted image.now H }
{
    let identity = identity_at(image, H);
    Reading {
        number: 0,
        index: 0,
        H,
        component: 0,
        identity,
        base: words::le32(image, H + 28) as u64,
        c: words::le32(image, H + 36),
        z: words::le32(image, H + 40),
        n: 0,
        E: 0,
    }
}
