// Document 02, #110: the stray bytes of a file put back, of which the audit has judged that it belongs to the vendor image.
#![tactic(auto)]

ghost use Rattle.std.specs.Prelude.{◌≡◌, ◌+◌, ◌^◌, ◌≤◌, ◌<◌, length};
ghost use Rattle.reading_rules.specs.Reading.{reading2, Read2};
ghost use Rattle.move_image.specs.Moving.{move_to};
ghost use Rattle.mend_file.specs.PutBack.{restored};
ghost use Rattle.mend_file.specs.Laid.{laid};

use answers::Reading;

// Copies all of the vendor image over the file but the settings part.
fn lay_over(vendor: &[u8], file: &mut [u8], r: Reading)
    requires { (length file.old ≡ length vendor.now) × (length vendor.now ≤ 16777216) × (32 ≤ r.z) × (r.c + r.z ≤ length vendor.now) }
    ensures { file.new ≡ laid vendor.now file.old r }
{
    let from = r.c + 32;
    let end = r.c + r.z;
    sheet_bodies::copy_body(file, 0, vendor, 0, from);
    sheet_bodies::copy_body(file, end, vendor, end, vendor.len() - end);
}

// Puts back every byte that isn't a setting's: the vendor's bytes, then these moved to the file's base.
pub fn put_back(vendor: &[u8], file: &mut [u8], r: Reading, base: u64)
    requires { (r ≡ reading2 vendor.now) × Read2 vendor.now × (length file.old ≡ length vendor.now) × (base < 2 ^ 32) }
    ensures { file.new ≡ restored (move_to vendor.now r base) r file.old }
{
    lay_over(vendor, file, r);
    move_image::move_to(file, r, base);
}
