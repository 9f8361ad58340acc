// Rules 12 and 13 of document 01 and 22 of document 02: where an entry of the patch table points. The rules over the whole table are
// `table_found` and `table_scans`.
#![tactic(auto)]

ghost use Rattle.std.specs.Prelude.{◌⊎◌, ◌≡◌, ◌+◌, ◌-◌, ◌*◌, ◌/◌, ◌%◌, ◌^◌, ◌≤◌, ◌<◌, length, MatchOption};
ghost use Rattle.words.specs.Round.{round4};
ghost use Rattle.facts.specs.Fact.{Tells};
ghost use Rattle.table.specs.Entry.{type_fits, reserved_fits, refused_place, fitted, place_of, Points};
ghost use Rattle.table.specs.Passes.{place};

// n rounded up to a multiple of 4.
pub fn round_4(n: usize) -> usize
    requires { n ≤ 33554432 }
    ensures { result ≡ round4 n }
{
    (n + 3) / 4 * 4
}

// Where an entry points: a place with number 0, or the number of its refusal with place 0. No Result: `place_of` and `place`, on which the
// rules from 12 to 14 and the theorems above them stand, are of this record, and they speak of the place of an entry that is refused, too.
#[derive(Clone, Copy)]
pub struct Place {
    pub number: u32,
    pub at: usize,
}

fn refused_place(number: u32) -> Place
    ensures { result ≡ refused_place number }
{
    Place { number, at: 0 }
}

// Rule 12.
fn type_fits(entry: usize) -> bool
    ensures { Tells result (type_fits entry) }
{
    let kind = entry / 16777216 % 16;
    if kind == 0 {
        return true;
    }
    if kind == 15 {
        return true;
    }
    false
}

// Rule 22.
fn reserved_fits(entry: usize) -> bool
    ensures { Tells result (reserved_fits entry) }
{
    if entry / 268435456 % 8 != 7 * (entry / 2147483648 % 2) {
        return false;
    }
    true
}

// Four bytes must fit.
fn fit(at: usize, size: usize) -> Place
    ensures { result ≡ fitted size at }
{
    if size < 4 {
        return refused_place(13);
    }
    if size - 4 < at {
        return refused_place(13);
    }
    Place { number: 0, at }
}

// Where an entry's low bits lead: up from the image's start, or back from its end where that isn't before the start.
fn counted(entry: usize, size: usize) -> Option<usize>
    ensures { MatchOption result
        ((entry / 2 ^ 31 % 2 ≡ 0 → ⊥) × (size < 2 ^ 24 - entry % 2 ^ 24))
        (λ at. ((entry / 2 ^ 31 % 2 ≡ 0) × (at ≡ entry % 2 ^ 24))
        ⊎ ((entry / 2 ^ 31 % 2 ≡ 0 → ⊥) × (2 ^ 24 - entry % 2 ^ 24 ≤ size) × (at ≡ size - (2 ^ 24 - entry % 2 ^ 24)))) }
{
    let low = entry % 16777216;
    if entry / 2147483648 % 2 == 0 {
        return Some(low);
    }
    size.checked_sub(16777216 - low)
}

// Where an entry points in an image of `size` bytes; refusals 12, 22 and 13 are said here and nowhere else.
pub fn point(entry: usize, size: usize) -> Place
    ensures { Points entry size result }
{
    if !type_fits(entry) {
        return refused_place(12);
    }
    if !reserved_fits(entry) {
        return refused_place(22);
    }
    let Some(at) = counted(entry, size) else {
        return refused_place(13);
    };
    fit(at, size)
}

// Where entry i of the table at t points.
pub fn point_at(image: &[u8], t: usize, i: usize) -> Place
    requires { t + 4 * i + 4 ≤ length image.now }
    ensures { result ≡ place image.now t i }
{
    point(words::le32(image, t + 4 * i), image.len())
}

// Where an entry points that isn't refused, with nothing left to judge: what the scans over pairs of entries ask. (`counted` would judge again
// whether the place lies before the image's start.)
fn spot(entry: usize, size: usize) -> usize
    requires { (place_of size entry).number ≡ 0 }
    ensures { result ≡ (place_of size entry).at }
{
    let low = entry % 16777216;
    let back = entry / 2147483648 % 2;
    if back == 0 {
        return low;
    }
    size - (16777216 - low)
}

// Where entry i of the table at t points, if it isn't refused.
pub fn spot_at(image: &[u8], t: usize, i: usize) -> usize
    requires { (t + 4 * i + 4 ≤ length image.now) × ((place image.now t i).number ≡ 0) }
    ensures { result ≡ (place image.now t i).at }
{
    spot(words::le32(image, t + 4 * i), image.len())
}
