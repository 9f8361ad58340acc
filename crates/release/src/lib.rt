// Document 02, #105 and #106: one call to release, by one owner.
#![tactic(auto)]

ghost use Rattle.release.specs.Release.{Releases};

use answers::Moved;
use sheet::Sheet;

// Sets the bytes of an owner's sheet in an image and moves it to a base, whatever all of these are, or refuses and changes nothing.
pub fn release(image: &mut [u8], sheet: &[u8], base: u64, owners: &[u8], owner: u64) -> Moved
    ensures { Releases image.old sheet.now base owners.now owner result image.new }
{
    let r = reading::read_2(image);
    if r.number != 0 {
        return move_answer::refused(r.number, r.index);
    }
    let v = release_judge::judge(r, image.len(), sheet, base, owners, owner as usize);
    if v.number != 0 {
        return v;
    }
    sheet_bodies::set_by(image, r, &Sheet::known(sheet));
    move_image::move_to(image, r, base);
    v
}
