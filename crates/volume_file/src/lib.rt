// Rules 3 and 4 of document 01: the header file, with its GUID and its header's sum, and its section.
#![tactic(auto)]

ghost use Rattle.std.specs.Prelude.{◌≡◌, ◌+◌, ◌*◌, ◌≤◌, length, sum};
ghost use Rattle.facts.specs.Fact.{Tells};
ghost use Rattle.volume.specs.Volume.{same_at, guid, file_sum, file_held, file_fits, section_held, room_fits, section_fits};

// The header file's GUID, as it is stored.
const GUID: [u8; 16] = [
    0xBE, 0x40, 0x27, 0x91, 0x84, 0x22, 0x34, 0x47, 0xB9, 0x71, 0x84, 0xB0, 0x27, 0x35, 0x3F, 0x0C,
];

// Whether it stands at `at`.
fn is_guid(image: &[u8], at: usize) -> bool
    requires { at + 16 ≤ length image.now }
    ensures { Tells result (same_at image.now at guid) }
{
    image[at..at + 16] == GUID[..]
}

// The sum of a few bytes.
fn sum_of(s: &[u8]) -> usize
    requires { length s.now ≤ 24 }
    ensures { result ≡ sum s.now }
{
    s.iter().map(|b| *b as usize).sum()
}

// The sum of a file's header but for the body's check byte and the state.
pub fn file_sum(image: &[u8], f: usize) -> usize
    requires { f + 24 ≤ length image.now }
    ensures { result ≡ file_sum image.now f }
{
    sum_of(&image[f..f + 17]) + sum_of(&image[f + 18..f + 23])
}

// What rule 3 and request #107 want of any file, of at least so many bytes.
pub fn file_held(image: &[u8], v: usize, f: usize, least: usize) -> bool
    requires { (v ≤ length image.now) × (f ≤ 33554432) }
    ensures { Tells result (file_held image.now v f least) }
{
    if v < f + 24 {
        return false;
    }
    if words::byte(image, f + 19) % 2 != 0 {
        return false;
    }
    if file_sum(image, f) % 256 != 0 {
        return false;
    }
    let s = words::le24(image, f + 20);
    if s < least {
        return false;
    }
    if v < f + s {
        return false;
    }
    true
}

// Rule 3.
pub fn file_fits(image: &[u8], v: usize, f: usize) -> bool
    requires { (v ≤ length image.now) × (f ≤ 33554432) }
    ensures { Tells result (file_fits image.now v f) }
{
    if !file_held(image, v, f, 28) {
        return false;
    }
    if !is_guid(image, f) {
        return false;
    }
    true
}

// What rule 4 and request #107 want of any section, of at least so many bytes.
pub fn section_held(image: &[u8], end: usize, p: usize, least: usize) -> bool
    requires { (end ≤ length image.now) × (p ≤ 33554432) }
    ensures { Tells result (section_held image.now end p least) }
{
    if end < p + 4 {
        return false;
    }
    let size = words::le24(image, p);
    if size < least {
        return false;
    }
    if end < p + size {
        return false;
    }
    true
}

// Rule 4 for the room that the header's edition wants, where 64 bytes are there.
fn has_room(image: &[u8], f: usize) -> bool
    requires { (f + 40 ≤ length image.now) × (f ≤ 16777216) }
    ensures { Tells result (room_fits image.now f) }
{
    if 76 <= words::le24(image, f + 24) {
        return true;
    }
    if words::byte(image, f + 39) != 1 {
        return false;
    }
    true
}

// Rule 4.
pub fn section_fits(image: &[u8], f: usize, s: usize) -> bool
    requires { (28 ≤ s) × (f + s ≤ length image.now) × (f ≤ 16777216) }
    ensures { Tells result (section_fits image.now f s) }
{
    if words::byte(image, f + 27) != 0x19 {
        return false;
    }
    if !section_held(image, f + s, f + 24, 64) {
        return false;
    }
    if !has_room(image, f) {
        return false;
    }
    true
}
