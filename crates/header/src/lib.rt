// Rules 5 to 8 of document 01: the header, its size, the component and the base; and the extended number of request #102.
#![tactic(auto)]

ghost use Rattle.std.specs.Prelude.{◌≡◌, ◌+◌, ◌≤◌, ◌<◌, length};
ghost use Rattle.facts.specs.Fact.{◌≡?◌, ◌and◌, ◌or◌, Holds, Tells};
ghost use Rattle.words.specs.Le.{le};
ghost use Rattle.header.specs.Header.{has_extended, reaches, older, older_length, later_length, header_fits, size_fits, component, extended_number, component_fits};
ghost use Rattle.header.specs.Base.{SaysLegal};

// Whether a header of this revision has the extended number.
fn has_extended(revision: usize) -> bool
    ensures { Tells result (has_extended revision) }
{
    if revision < 6 {
        return false;
    }
    true
}

// Rule 5 for the end of the extended number.
fn reaches_far(revision: usize, L: usize) -> bool
    ensures { Tells result (reaches revision L) }
{
    if !has_extended(revision) {
        return true;
    }
    if L < 80 {
        return false;
    }
    true
}

// Request #109: whether the header is of edition 1.
pub fn is_older(image: &[u8], H: usize) -> bool
    requires { H + 12 ≤ length image.now }
    ensures { Tells result (older image.now H) }
{
    if words::byte(image, H + 11) != 1 {
        return false;
    }
    true
}

// Rule 5 for the length of an edition 1 header.
fn older_fits(L: usize) -> bool
    ensures { Tells result (older_length L) }
{
    if L == 60 {
        return true;
    }
    if L != 64 {
        return false;
    }
    true
}

// Rule 5 for revision and length of an edition 2 header.
fn later_fits(revision: usize, L: usize) -> bool
    ensures { Tells result (later_length revision L) }
{
    if revision < 3 {
        return false;
    }
    if L < 72 {
        return false;
    }
    if 256 < L {
        return false;
    }
    if !reaches_far(revision, L) {
        return false;
    }
    true
}

// Rule 5 for the edition.
fn edition_fits(revision: usize, L: usize) -> bool
    ensures { Tells result ((revision ≡? 1 and older_length L) or later_length revision L) }
{
    if revision == 1 {
        return older_fits(L);
    }
    later_fits(revision, L)
}

// Rule 5, the section being `size` bytes long.
pub fn header_fits(image: &[u8], H: usize, size: usize) -> bool
    requires { H + 12 ≤ length image.now }
    ensures { Tells result (header_fits image.now H size) }
{
    if words::le32(image, H) != 0x48505346 {
        return false;
    }
    let L = words::le32(image, H + 4);
    if size < 4 + L {
        return false;
    }
    if !edition_fits(words::byte(image, H + 11), L) {
        return false;
    }
    true
}

// Rule 6.
pub fn size_fits(image: &[u8], H: usize) -> bool
    requires { H + 28 ≤ length image.now }
    ensures { Tells result (size_fits image.now H) }
{
    if words::le32(image, H + 24) != image.len() {
        return false;
    }
    true
}

// The component, whatever it is.
pub fn component_at(image: &[u8], H: usize) -> usize
    requires { H + 36 ≤ length image.now }
    ensures { result ≡ component image.now H }
{
    words::le16(image, H + 34) / 4096
}

// The extended number, or 0; below revision 6 the image may end before H+76.
pub fn extended_number(image: &[u8], H: usize) -> u32
    requires { (H + 12 ≤ length image.now) × (Holds (has_extended (le 1 image.now (H + 11))) → H + 78 ≤ length image.now) }
    ensures { result ≡ extended_number image.now H }
{
    if !has_extended(words::byte(image, H + 11)) {
        return 0;
    }
    words::le16(image, H + 76) as u32
}

// Rule 7.
pub fn component_fits(k: usize) -> bool
    ensures { Tells result (component_fits k) }
{
    if k < 1 {
        return false;
    }
    if 4 < k {
        return false;
    }
    true
}

// Whether an image of `size` bytes may stand at `base`: rules 8 and 18.
pub fn legal(base: u64, size: usize) -> bool
    ensures { SaysLegal base size result }
{
    if u64::trailing_zeros(base) < 12 {
        return false;
    }
    if 4294967296 < base {
        return false;
    }
    if 4294967296 - base < size as u64 {
        return false;
    }
    true
}
