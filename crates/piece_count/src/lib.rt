// Document 01, "The audit": what is counted of the differences between the reference and a shipped file.
#![tactic(auto)]

ghost use Rattle.std.specs.Prelude.{◌≡◌, ◌+◌, ◌^◌, ◌≤◌, ◌<◌, length};
ghost use Rattle.reading_rules.specs.Guarantee.{Guaranteed};
ghost use Rattle.piece_stretch.specs.Stretch.{after};
ghost use Rattle.audit_pieces.specs.Pieces.{by};
ghost use Rattle.audit_count.specs.Differences.{counts_of};
ghost use Rattle.piece_count.specs.Counting.{counted_at, Few, Adds};

use answers::Reading;
use audit_count::Counts;
use moves::Shift;

// One difference more, at k, where the shipped file has y and the reference x.
fn counted(r: Reading, t: Counts, k: usize, y: u8, x: u8) -> Counts
    requires { (r.c + r.z < 2 ^ 32) × (k < 16777216) × Few t k }
    ensures { result ≡ counted_at r t k y x }
{
    if audit_count::is_setting(r, k) {
        let turned = audit_count::byte_flips(y, x) as usize;
        return Counts {
            settings: t.settings + 1,
            bits: t.bits + turned,
            ..t
        };
    }
    Counts {
        strays: t.strays + 1,
        ..t
    }
}

// What the positions from `from` up to `to` add to t, where the reference stands in a from position o on.
pub fn count_part(
    a: &[u8],
    o: usize,
    shipped: &[u8],
    from: usize,
    to: usize,
    r: Reading,
    t: Counts,
) -> Counts
    requires from_le_to { (from ≤ to) × (o ≤ from) × (to ≤ o + length a.now) × (to ≤ length shipped.now) × (to ≤ 16777216) }
    requires z_bound { (r.c + r.z < 2 ^ 32) × Few t from }
    ensures { Adds (after o a.now) shipped.now r from to t result }
{
    let mut u = t;
    let mut k = from;
    while let Some(at) = piece_stretch::next(a, o, shipped, k, to) {
        u = counted(r, u, at, shipped[at], a[at - o]);
        k = at + 1;
    }
    u
}

// The same over all pieces; their bytes are made in the window.
fn count_pieces(vendor: &[u8], shipped: &[u8], r: Reading, d: Shift, window: &mut [u8]) -> Counts
    requires { Guaranteed vendor.now r × (length shipped.now ≡ length vendor.now) × (length window.old ≡ 65536) }
    ensures { result ≡ counts_of (by vendor.now r d.four d.eight) shipped.now r }
{
    let v = words::le64(vendor, 32);
    let mut p = audit_pieces::start(vendor, r);
    let mut t = Counts {
        settings: 0,
        strays: 0,
        bits: 0,
    };
    while p.to < vendor.len() {
        let at = p.to;
        p = audit_pieces::next(vendor, v, r, d, window, p);
        let from = p.from;
        let u = count_part(vendor, 0, shipped, at, from, r, t);
        t = count_part(window, from, shipped, from, p.to, r, u);
    }
    t
}

// All counts, where the reference is the vendor image moved by d.
pub fn count_moved(vendor: &[u8], shipped: &[u8], r: Reading, d: Shift) -> Counts
    requires { Guaranteed vendor.now r × (length shipped.now ≡ length vendor.now) }
    ensures { result ≡ counts_of (by vendor.now r d.four d.eight) shipped.now r }
{
    let mut window = [0u8; 65536];
    count_pieces(vendor, shipped, r, d, &mut window)
}
