// Document 01, "The release sheet": the bodies of its entries set in an image.
#![tactic(auto)]

ghost use Rattle.std.specs.Prelude.{◌≡◌, ◌+◌, ◌-◌, ◌≤◌, ◌<◌, length};
ghost use Rattle.reading_rules.specs.Guarantee.{Guaranteed};
ghost use Rattle.sheet.specs.Sheet.{Sound, count, offset, size, position};
ghost use Rattle.sheet_bodies.specs.Set.{copied, written, set_by};

use answers::Reading;
use sheet::Sheet;

// Copies n bytes of `from` from `start` on to `at`. A loop: by `copy_from_slice` the C archive would need `memmove` from outside.
pub fn copy_body(part: &mut [u8], at: usize, from: &[u8], start: usize, n: usize)
    requires { (at + n ≤ length part.old) × (start + n ≤ length from.now) }
    ensures { part.new ≡ copied part.old at from.now start n }
{
    for k in 0..n {
        part[at + k] = from[start + k];
    }
}

// Sets the bodies of all entries in the settings part, which starts at 32 in the region; it sees no other byte of the image.
fn write_sheet(part: &mut [u8], sheet: &Sheet)
    requires { Sound sheet.now (length part.old + 32) }
    ensures { part.new ≡ written part.old sheet.now (count sheet.now) }
{
    let bytes = sheet.bytes();
    for i in 0..sheet.count() {
        let w = sheet.entry(i);
        copy_body(part, w.offset - 32, bytes, w.position, w.size);
    }
}

// Sets the bytes of a sheet that was judged.
pub fn set_by(image: &mut [u8], r: Reading, sheet: &Sheet)
    requires { Guaranteed image.old r × Sound sheet.now r.z }
    ensures { image.new ≡ set_by image.old r sheet.now }
{
    let from = r.c + 32;
    let end = r.c + r.z;
    write_sheet(&mut image[from..end], sheet);
}
