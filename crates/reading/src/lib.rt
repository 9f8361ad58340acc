// Document 01, "Reading an image": rules 1 to 9 in their order, each stage a check or two and then the next; the rules after 9 are in
// `reading_entries`.
#![tactic(auto)]

ghost use Rattle.std.specs.Prelude.{◌≡◌, ◌+◌, ◌-◌, ◌≤◌, ◌<◌, length};
ghost use Rattle.facts.specs.Fact.{Holds};
ghost use Rattle.facts.specs.Rules.{run};
ghost use Rattle.words.specs.Le.{le};
ghost use Rattle.volume.specs.Volume.{length_fits, file_fits};
ghost use Rattle.header.specs.Header.{older, header_fits, component, component_fits};
ghost use Rattle.inside_walk.specs.Walkable.{Walkable};
ghost use Rattle.reading_rules.specs.Reading.{refusal, Reads, Reads2};
ghost use Rattle.reading_rules.specs.Stages.{from_patch, from_table, from_component, from_older, from_edition, from_header, from_section, from_file, from_extension, from_volume};

use answers::Reading;

// 9, at the patch table.
fn from_patch(image: &[u8], H: usize, p: usize, end: usize) -> Reading
    requires { (H + 72 ≤ p) × (end ≤ length image.now) × (p ≤ 33554432) × Holds (component_fits (component image.now H)) × (28 ≤ H) × Walkable image.now (le 8 image.now 32) (H - 28) }
    ensures { result ≡ run refusal (from_patch image.now H p end) }
{
    if !table_found::patch_fits(image, p, end) {
        return reading_rules::refused(9, 0);
    }
    reading_entries::from_region(image, H, p + 12, words::le32(image, p + 8))
}

// 9, where `FSPE` may stand before the patch table.
fn from_table(image: &[u8], H: usize, p: usize, end: usize) -> Reading
    requires { (H + 72 ≤ p) × (end ≤ length image.now) × (length image.now ≤ 16777216) × (p ≤ 33554432) × Holds (component_fits (component image.now H)) × (28 ≤ H) × Walkable image.now (le 8 image.now 32) (H - 28) }
    ensures { result ≡ run refusal (from_table image.now H p end) }
{
    if !table_found::is_extended(image, p, end) {
        return from_patch(image, H, p, end);
    }
    if !table_found::extended_fits(image, p, end) {
        return reading_rules::refused(9, 0);
    }
    let k = words::le32(image, p + 4);
    from_patch(image, H, table::round_4(p + k), end)
}

// 7 and 8.
fn from_component(image: &[u8], H: usize, p: usize, end: usize) -> Reading
    requires { (H + 72 ≤ length image.now) × (end ≤ length image.now) × (length image.now ≤ 16777216) × (H + 72 ≤ p) × (p ≤ 33554432) × (28 ≤ H) × Walkable image.now (le 8 image.now 32) (H - 28) }
    ensures { result ≡ run refusal (from_component image.now H p end) }
{
    if !header::component_fits(header::component_at(image, H)) {
        return reading_rules::refused(7, 0);
    }
    let base = words::le32(image, H + 28) as u64;
    if !header::legal(base, image.len()) {
        return reading_rules::refused(8, 0);
    }
    from_table(image, H, p, end)
}

// 8, of an edition 1 image (request #109).
fn from_older(image: &[u8], H: usize) -> Reading
    requires { (H + 60 ≤ length image.now) × Holds (older image.now H) }
    ensures { result ≡ run refusal (from_older image.now H) }
{
    let base = words::le32(image, H + 28) as u64;
    if !header::legal(base, image.len()) {
        return reading_rules::refused(8, 0);
    }
    reading_rules::accept_older(image, H)
}

// What follows 6, by the edition.
fn from_edition(image: &[u8], f: usize, size: usize) -> Reading
    requires { (64 ≤ size) × Holds (header_fits image.now (f + 28) size) × (f + 24 + size ≤ length image.now) × (length image.now ≤ 16777216) × Walkable image.now (le 8 image.now 32) f }
    ensures { result ≡ run refusal (from_edition image.now f size) }
{
    let H = f + 28;
    if header::is_older(image, H) {
        return from_older(image, H);
    }
    let L = words::le32(image, H + 4);
    from_component(image, H, table::round_4(H + L), f + 24 + size)
}

// 5 and 6.
fn from_header(image: &[u8], f: usize, size: usize) -> Reading
    requires { (64 ≤ size) × (f + 24 + size ≤ length image.now) × (length image.now ≤ 16777216) × Walkable image.now (le 8 image.now 32) f }
    ensures { result ≡ run refusal (from_header image.now f size) }
{
    let H = f + 28;
    if !header::header_fits(image, H, size) {
        return reading_rules::refused(5, 0);
    }
    if !header::size_fits(image, H) {
        return reading_rules::refused(6, 0);
    }
    from_edition(image, f, size)
}

// 4.
fn from_section(image: &[u8], f: usize, s: usize) -> Reading
    requires { (s ≡ le 3 image.now (f + 20)) × Holds (length_fits image.now) × (le 8 image.now 32 ≤ length image.now) × Holds (file_fits image.now (le 8 image.now 32) f) }
    ensures { result ≡ run refusal (from_section image.now f s) }
{
    if !volume_file::section_fits(image, f, s) {
        return reading_rules::refused(4, 0);
    }
    from_header(image, f, words::le24(image, f + 24))
}

// 3.
fn from_file(image: &[u8], v: usize, f: usize) -> Reading
    requires { (v ≡ le 8 image.now 32) × (v ≤ length image.now) × (f ≤ 33554432) × Holds (length_fits image.now) }
    ensures { result ≡ run refusal (from_file image.now v f) }
{
    if !volume_file::file_fits(image, v, f) {
        return reading_rules::refused(3, 0);
    }
    from_section(image, f, words::le24(image, f + 20))
}

// 2, where x says that the volume has an extension.
fn from_extension(image: &[u8], h: usize, v: usize, x: usize) -> Reading
    requires { (h < 65536) × (v ≡ le 8 image.now 32) × (v ≤ length image.now) × (x < 65536) × Holds (length_fits image.now) }
    ensures { result ≡ run refusal (from_extension image.now h v x) }
{
    if x == 0 {
        return from_file(image, v, volume_extension::round_8(h));
    }
    if !volume_extension::extension_fits(image, h, v, x) {
        return reading_rules::refused(2, 0);
    }
    let e = words::le32(image, x + 16);
    from_file(image, v, volume_extension::round_8(x + e))
}

// 2.
fn from_volume(image: &[u8]) -> Reading
    requires { Holds (length_fits image.now) }
    ensures { result ≡ run refusal (from_volume image.now) }
{
    let h = words::le16(image, 48);
    let v = words::le64(image, 32);
    let x = words::le16(image, 52);
    if !volume::volume_fits(image, h, v) {
        return reading_rules::refused(2, 0);
    }
    from_extension(image, h, v, x)
}

// The reading of an image, whatever its bytes are.
pub fn read(image: &[u8]) -> Reading
    ensures { Reads image.now result }
{
    if !volume::length_fits(image) {
        return reading_rules::refused(1, 0);
    }
    from_volume(image)
}

// Request #109: the reading for a call that needs an edition 2 image, 28 for one of edition 1.
pub fn read_2(image: &[u8]) -> Reading
    ensures { Reads2 image.now result }
{
    let r = read(image);
    if r.number != 0 {
        return r;
    }
    if r.component == 0 {
        return reading_rules::refused(28, 0);
    }
    r
}
