// Rules 10 and 11 of document 01: the configuration region.
#![tactic(auto)]

ghost use Rattle.std.specs.Prelude.{◌+◌, ◌≤◌, ◌≡◌, length};
ghost use Rattle.facts.specs.Fact.{Tells};
ghost use Rattle.region.specs.Region.{region_fits, letter, marks_fit};

// The letters of the components 1, 2, 3 and 4.
const LETTERS: [u8; 4] = [b'T', b'M', b'S', b'I'];

// Rule 10.
pub fn region_fits(image: &[u8], E: usize, c: usize, z: usize) -> bool
    requires { c ≤ 4294967295 }
    ensures { Tells result (region_fits image.now E c z) }
{
    if z < 32 {
        return false;
    }
    if 65536 < z {
        return false;
    }
    if c < E {
        return false;
    }
    if image.len() < c + z {
        return false;
    }
    true
}

fn letter_of(component: usize) -> u8
    requires { (1 ≤ component) × (component ≤ 4) }
    ensures { result ≡ letter component }
{
    let i = component - 1;
    LETTERS[i]
}

// Rule 11.
pub fn marks_fit(image: &[u8], c: usize, component: usize) -> bool
    requires { (c + 32 ≤ length image.now) × (1 ≤ component) × (component ≤ 4) }
    ensures { Tells result (marks_fit image.now c component) }
{
    if image[c + 6] != b'_' {
        return false;
    }
    if image[c + 7] != letter_of(component) {
        return false;
    }
    true
}
