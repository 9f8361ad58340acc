// Document 01, "One setting".
#![tactic(auto)]

ghost use Rattle.std.specs.Prelude.{◌≡◌};
ghost use Rattle.facts.specs.Fact.{Tells};
ghost use Rattle.setting.specs.Finding.{Finds};
ghost use Rattle.setting.specs.Setting.{setting_fits, FoundIn, HandsBack, NumberOf};

use answers::Found;

// Rule 17 for one setting.
fn setting_fits(offset: usize, size: usize, z: usize) -> bool
    ensures { Tells result (setting_fits offset size z) }
{
    if size < 1 {
        return false;
    }
    if offset < 32 {
        return false;
    }
    if z < offset {
        return false;
    }
    if z - offset < size {
        return false;
    }
    true
}

// The setting's bytes in the region, or the empty part.
fn in_region(region: &[u8], offset: usize, size: usize) -> &[u8]
    ensures { FoundIn region.entry offset size result }
{
    if !setting_fits(offset, size, region.len()) {
        return &region[0..0];
    }
    let end = offset + size;
    &region[offset..end]
}

// The part of the image that holds a setting, or the empty part.
pub fn setting(image: &[u8], offset: u64, size: u64) -> &[u8]
    ensures { HandsBack image.entry offset size result }
{
    let r = reading::read_2(image);
    if r.number != 0 {
        return &image[0..0];
    }
    let c = r.c;
    let end = r.c + r.z;
    in_region(&image[c..end], offset as usize, size as usize)
}

// The number that goes with it: 0, the image's refusal, or 17. A number, since NumberOf promises just that and C is handed it.
pub fn setting_number(image: &[u8], offset: u64, size: u64) -> u32
    ensures { NumberOf image.now offset size result }
{
    let r = reading::read_2(image);
    if r.number != 0 {
        return r.number;
    }
    if !setting_fits(offset as usize, size as usize, r.z) {
        return 17;
    }
    0
}

// Where in the image the setting stands: the place of its part, for who has the image and no part of it.
pub fn find(image: &[u8], offset: u64, size: u64) -> Found
    ensures { Finds image.now offset size result }
{
    let number = setting_number(image, offset, size);
    if number != 0 {
        return Found {
            number,
            place: 0,
            length: 0,
        };
    }
    let r = reading::read_2(image);
    Found {
        number,
        place: r.c as u64 + offset,
        length: size,
    }
}
