// Rule 2 of document 01: the volume header's extension, and where the file after it starts.
#![tactic(auto)]

ghost use Rattle.std.specs.Prelude.{◌≡◌, ◌≤◌, ◌<◌, length};
ghost use Rattle.words.specs.Round.{round8};
ghost use Rattle.facts.specs.Fact.{Tells};
ghost use Rattle.volume.specs.Volume.{extension_fits};

// Rule 2, where x is not 0.
pub fn extension_fits(image: &[u8], h: usize, v: usize, x: usize) -> bool
    requires { (v ≤ length image.now) × (x < 65536) }
    ensures { Tells result (extension_fits image.now h v x) }
{
    if x < h {
        return false;
    }
    if v < x + 20 {
        return false;
    }
    let e = words::le32(image, x + 16);
    if e < 20 {
        return false;
    }
    if v < x + e {
        return false;
    }
    true
}

// n rounded up to a multiple of 8.
pub fn round_8(n: usize) -> usize
    requires { n ≤ 16777216 }
    ensures { result ≡ round8 n }
{
    (n + 7) / 8 * 8
}
