// Rule 9 of document 01: the extended header and the patch table, each whole before the section's end.
#![tactic(auto)]

ghost use Rattle.std.specs.Prelude.{◌≤◌, length};
ghost use Rattle.facts.specs.Fact.{Tells};
ghost use Rattle.table.specs.Table.{extended, extended_fits, patch_fits};

// Whether `FSPE` stands at p, whole before the section's end.
pub fn is_extended(image: &[u8], p: usize, end: usize) -> bool
    requires { (end ≤ length image.now) × (p ≤ 33554432) }
    ensures { Tells result (extended image.now p end) }
{
    if end < p + 4 {
        return false;
    }
    if words::le32(image, p) != 0x45505346 {
        return false;
    }
    true
}

// Rule 9 for the extended header at p.
pub fn extended_fits(image: &[u8], p: usize, end: usize) -> bool
    requires { (end ≤ length image.now) × (p ≤ 33554432) }
    ensures { Tells result (extended_fits image.now p end) }
{
    if end < p + 8 {
        return false;
    }
    let k = words::le32(image, p + 4);
    if k < 24 {
        return false;
    }
    if end < p + k {
        return false;
    }
    true
}

// Rule 9 for the patch table at p.
pub fn patch_fits(image: &[u8], p: usize, end: usize) -> bool
    requires { (end ≤ length image.now) × (p ≤ 33554432) }
    ensures { Tells result (patch_fits image.now p end) }
{
    if end < p + 12 {
        return false;
    }
    if words::le32(image, p) != 0x50505346 {
        return false;
    }
    if words::byte(image, p + 6) != 1 {
        return false;
    }
    let n = words::le32(image, p + 8);
    if 1024 < n {
        return false;
    }
    if end < p + 12 + 4 * n {
        return false;
    }
    true
}
