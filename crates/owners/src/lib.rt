// Document 02, #106: the owner list and its rule. Whether a sheet's bytes are all of one owner's is `owners_check`.
#![tactic(auto)]

ghost use Rattle.std.specs.Prelude.{◌≡◌, ◌+◌, ◌-◌, ◌*◌, ◌≤◌, ◌<◌, length};
ghost use Rattle.facts.specs.Fact.{Tells};
ghost use Rattle.owners.specs.Owners.{range_at, known_owner, range_fits, list_fits, owners_fit};

// A range of the list.
#[derive(Clone, Copy)]
pub struct Range {
    pub offset: usize,
    pub size: usize,
    pub owner: usize,
}

// Range i of the list.
pub fn range_at(owners: &[u8], i: usize) -> Range
    requires { (i < 64) × (8 * i + 8 ≤ length owners.now) }
    ensures value { result ≡ range_at owners.now i }
    ensures offset_bound { (result.offset < 4294967296) × (result.size < 65536) }
{
    let at = 8 * i;
    Range {
        offset: words::le32(owners, at),
        size: words::le16(owners, at + 4),
        owner: words::le16(owners, at + 6),
    }
}

// The owners are 1 and 2.
fn known_owner(owner: usize) -> bool
    ensures { Tells result (known_owner owner) }
{
    if owner == 1 {
        return true;
    }
    if owner == 2 {
        return true;
    }
    false
}

// Rule 23 for one range, which may begin at `from`.
fn range_fits(w: Range, from: usize, z: usize) -> bool
    requires { (w.offset < 4294967296) × (w.size < 65536) }
    ensures { Tells result (range_fits w from z) }
{
    if w.size < 1 {
        return false;
    }
    if w.offset < from {
        return false;
    }
    if z < w.offset + w.size {
        return false;
    }
    if !known_owner(w.owner) {
        return false;
    }
    true
}

// Rule 23 for the list.
fn list_fits(owners: &[u8], z: usize) -> bool
    ensures { Tells result (list_fits owners.now z) }
{
    if owners.len() % 8 != 0 {
        return false;
    }
    let n = owners.len() / 8;
    if 64 < n {
        return false;
    }
    let mut from = 32;
    for i in 0..n {
        let w = range_at(owners, i);
        if !range_fits(w, from, z) {
            return false;
        }
        from = w.offset + w.size;
    }
    true
}

// Rule 23.
pub fn owners_fit(owners: &[u8], owner: usize, z: usize) -> bool
    ensures { Tells result (owners_fit owners.now owner z) }
{
    if !list_fits(owners, z) {
        return false;
    }
    if !known_owner(owner) {
        return false;
    }
    true
}
