// Request #109: two files compared byte for byte, and every position where they differ counted and listed as a stray.
#![tactic(auto)]

ghost use Rattle.std.specs.Prelude.{◌≡◌, ◌≤◌, length};
ghost use Rattle.audit_count.specs.Differences.{differences};
ghost use Rattle.audit_plain.specs.Plain.{strayed};

use audit_places::Unit;

// How many positions differ.
pub fn count(vendor: &[u8], shipped: &[u8]) -> usize
    requires { length shipped.now ≡ length vendor.now }
    ensures { result ≡ length (differences vendor.now shipped.now 0 (length shipped.now)) }
{
    let mut k = 0;
    let mut n = 0;
    while let Some(at) = audit_stretch::next(vendor, shipped, k, shipped.len()) {
        n += 1;
        k = at + 1;
    }
    n
}

// Lists them all.
pub fn list<U: Unit>(vendor: &[u8], shipped: &[u8], places: &mut [U])
    requires { (length shipped.now ≡ length vendor.now) × (length vendor.now ≤ 16777216)
        × (length (differences vendor.now shipped.now 0 (length shipped.now)) ≤ U.places (length places.old)) }
    ensures { places.new
        ≡ U.writing.all places.old 0
        (strayed (differences vendor.now shipped.now 0 (length shipped.now))) }
{
    let mut k = 0;
    let mut i = 0;
    while let Some(at) = audit_stretch::next(vendor, shipped, k, shipped.len()) {
        U::put(places, i, at as u32 + 16777216);
        i += 1;
        k = at + 1;
    }
}
