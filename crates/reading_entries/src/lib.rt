// Document 01, "Reading an image", from the configuration region on: rules 10 to 14, document 02's 22 after 12, and its 25 to 27 after 14.
#![tactic(auto)]

ghost use Rattle.std.specs.Prelude.{◌≡◌, ◌+◌, ◌-◌, ◌*◌, ◌≤◌, length};
ghost use Rattle.facts.specs.Fact.{Holds};
ghost use Rattle.facts.specs.Rules.{run};
ghost use Rattle.words.specs.Le.{le};
ghost use Rattle.header.specs.Header.{component, component_fits};
ghost use Rattle.inside_walk.specs.Walkable.{Walkable};
ghost use Rattle.inside_rules.specs.Contents.{Entries};
ghost use Rattle.reading_rules.specs.Reading.{refusal};
ghost use Rattle.reading_rules.specs.Stages.{from_modules, from_entries, from_region};

use answers::Reading;

// 25, 26 and 27, each of all that the walk over the modules meets.
fn from_modules(image: &[u8], H: usize, t: usize, n: usize, c: usize, z: usize) -> Reading
    requires { (H + 80 ≤ length image.now) × (c + z ≤ length image.now) × (28 ≤ H) × Walkable image.now (le 8 image.now 32) (H - 28) × Entries image.now t n c z }
    ensures { result ≡ run refusal (from_modules image.now H t n c z) }
{
    let v = words::le64(image, 32);
    let k = inside_rules::contents_number(image, v, H - 28, t, n, c, z);
    if k != 0 {
        return reading_rules::refused(k, 0);
    }
    reading_rules::accept(image, H, t, n, c, z)
}

// 12, 22, 13 and 14, one pass over all entries after the other.
fn from_entries(image: &[u8], H: usize, t: usize, n: usize, c: usize, z: usize) -> Reading
    requires { (H + 80 ≤ length image.now) × (t + 4 * n ≤ length image.now) × (c + z ≤ length image.now) × (28 ≤ H) × Walkable image.now (le 8 image.now 32) (H - 28) × (n ≤ 1024) }
    ensures { result ≡ run refusal (from_entries image.now H t n c z) }
{
    if let Some(a) = table_scans::first_refused(image, t, n, 12) {
        return reading_rules::refused(12, a);
    }
    if let Some(b) = table_scans::first_refused(image, t, n, 22) {
        return reading_rules::refused(22, b);
    }
    if let Some(d) = table_scans::first_refused(image, t, n, 13) {
        return reading_rules::refused(13, d);
    }
    if let Some(o) = table_scans::first_overlap(image, t, n, c, z) {
        return reading_rules::refused(14, o);
    }
    from_modules(image, H, t, n, c, z)
}

// 10 and 11.
pub fn from_region(image: &[u8], H: usize, t: usize, n: usize) -> Reading
    requires { (H + 80 ≤ length image.now) × (t + 4 * n ≤ length image.now) × Holds (component_fits (component image.now H)) × (28 ≤ H) × Walkable image.now (le 8 image.now 32) (H - 28) × (n ≤ 1024) }
    ensures { result ≡ run refusal (from_region image.now H t n) }
{
    let c = words::le32(image, H + 36);
    let z = words::le32(image, H + 40);
    if !region::region_fits(image, t + 4 * n, c, z) {
        return reading_rules::refused(10, 0);
    }
    if !region::marks_fit(image, c, header::component_at(image, H)) {
        return reading_rules::refused(11, 0);
    }
    from_entries(image, H, t, n, c, z)
}
