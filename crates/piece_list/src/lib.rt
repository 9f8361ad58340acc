// Document 01, "The audit": every difference listed, in a list of words or of bytes.
#![tactic(auto)]

ghost use Rattle.std.specs.Prelude.{◌≡◌, ◌+◌, ◌^◌, ◌≤◌, ◌<◌, length};
ghost use Rattle.reading_rules.specs.Guarantee.{Guaranteed};
ghost use Rattle.piece_stretch.specs.Stretch.{after};
ghost use Rattle.audit_pieces.specs.Pieces.{by};
ghost use Rattle.audit_count.specs.Differences.{differences, entries};
ghost use Rattle.piece_count.specs.Counting.{between};
ghost use Rattle.piece_list.specs.Filling.{Lists};

use answers::Reading;
use audit_places::Unit;
use moves::Shift;

// Lists the differences from `from` up to `to` from the i-th place on, where the reference stands in a from position o on. Gives the place after them.
pub fn list_part<U: Unit>(
    a: &[u8],
    o: usize,
    shipped: &[u8],
    from: usize,
    to: usize,
    r: Reading,
    places: &mut [U],
    i: usize,
) -> usize
    requires from_le_to { (from ≤ to) × (o ≤ from) × (to ≤ o + length a.now) × (to ≤ length shipped.now) × (to ≤ 16777216) × (r.c + r.z < 2 ^ 32) }
    requires i_le_from { (i ≤ from) × (i + length (between (after o a.now) shipped.now from to) ≤ U.places (length places.old)) }
    ensures { Lists U.writing (after o a.now) shipped.now r from to places.old i places.new result }
{
    let mut j = i;
    let mut k = from;
    while let Some(at) = piece_stretch::next(a, o, shipped, k, to) {
        U::put(places, j, audit_count::entry_of(r, at));
        j += 1;
        k = at + 1;
    }
    j
}

// The same over all pieces; their bytes are made in the window.
fn list_pieces<U: Unit>(
    vendor: &[u8],
    shipped: &[u8],
    r: Reading,
    d: Shift,
    places: &mut [U],
    window: &mut [u8],
)
    requires guaranteed { Guaranteed vendor.now r × (length shipped.now ≡ length vendor.now) × (length window.old ≡ 65536) }
    requires shipped_in_bounds { length (differences (by vendor.now r d.four d.eight) shipped.now 0 (length shipped.now)) ≤ U.places (length places.old) }
    ensures { places.new
        ≡ U.writing.all places.old 0
        (entries r (differences (by vendor.now r d.four d.eight) shipped.now 0 (length shipped.now))) }
{
    let v = words::le64(vendor, 32);
    let mut p = audit_pieces::start(vendor, r);
    let mut i = 0;
    while p.to < vendor.len() {
        let at = p.to;
        p = audit_pieces::next(vendor, v, r, d, window, p);
        let from = p.from;
        let j = list_part(vendor, 0, shipped, at, from, r, places, i);
        i = list_part(window, from, shipped, from, p.to, r, places, j);
    }
}

// Lists every difference, where the reference is the vendor image moved by d.
pub fn list_moved<U: Unit>(vendor: &[u8], shipped: &[u8], r: Reading, d: Shift, places: &mut [U])
    requires { Guaranteed vendor.now r × (length shipped.now ≡ length vendor.now)
        × (length (differences (by vendor.now r d.four d.eight) shipped.now 0 (length shipped.now)) ≤ U.places (length places.old)) }
    ensures { places.new
        ≡ U.writing.all places.old 0
        (entries r (differences (by vendor.now r d.four d.eight) shipped.now 0 (length shipped.now))) }
{
    let mut window = [0u8; 65536];
    list_pieces(vendor, shipped, r, d, places, &mut window);
}
