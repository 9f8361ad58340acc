// Document 01, "The audit": the reference, piece by piece. A piece is a stretch in which no word of a move lies, where the reference is the
// vendor image itself, and after it a stretch whose bytes are made in a window that is lent.
#![tactic(auto)]

ghost use Rattle.std.specs.Prelude.{◌⊎◌, ◌≡◌, ℕ, suc, ◌+◌, ◌-◌, ◌≤◌, ◌<◌, length, get_or};
ghost use Rattle.words.specs.Le.{le};
ghost use Rattle.reading_rules.specs.Guarantee.{Guaranteed};
ghost use Rattle.move_image.specs.Fixed.{fixed_at};
ghost use Rattle.inside_walk.specs.WholeWalk.{ahead, Valid};
ghost use Rattle.audit_lay.specs.Lay.{value};
ghost use Rattle.audit_window.specs.Window.{Apart, Sought};
ghost use Rattle.audit_pieces.specs.Pieces.{FixedLaid, Past, Standing, Onward};

use answers::Reading;
use audit_window::Found;
use inside_walk::Spot;
use items::{Item, Kind};
use moves::Shift;

// The positions from the last piece's end up to `from` are the vendor's own; those from there up to `to` stand in the window. The walk over the
// modules goes on at `spot`; where `low` is past `to`, no word that is ahead of it starts below `low`. A number as in `Found`, which is compared
// with `to` where it is known too.
#[derive(Clone, Copy)]
pub struct Piece {
    pub from: usize,
    pub to: usize,
    pub low: usize,
    pub spot: Spot,
}

// Before the first one.
pub fn start(image: &[u8], r: Reading) -> Piece
    requires { Guaranteed image.now r }
    ensures { (result.from ≡ 0) × (result.to ≡ 0) × Standing image.now r result }
{
    Piece {
        from: 0,
        to: 0,
        low: 0,
        spot: inside_walk::first(image, r.H - 28),
    }
}

// Of k and the word of 4 bytes at p the nearer, unless that word ends by `at`.
fn nearer(k: usize, p: usize, at: usize) -> usize
    requires { p ≤ 16777216 }
    ensures { (result ≤ k) × ((p + 4 ≤ at) ⊎ (result ≤ p)) }
{
    if p + 4 <= at {
        return k;
    }
    k.min(p)
}

// Up to where no word that the tables name, and that ends past `at`, starts.
fn first_fixed(image: &[u8], r: Reading, at: usize) -> usize
    requires { Guaranteed image.now r }
    ensures { (result ≤ length image.now)
        × ((j : ℕ) → j < suc r.n → (fixed_at image.now r j + 4 ≤ at) ⊎ (result ≤ fixed_at image.now r j)) }
{
    let mut k = image.len();
    for i in 0..r.n + 1 {
        let p = move_image::word_place(image, r, i);
        k = nearer(k, p, at);
    }
    k
}

// The words that the tables name laid into the window, which stands for the positions from `from` on.
fn lay_fixed(image: &[u8], r: Reading, d: Shift, window: &mut [u8], from: usize)
    requires { Guaranteed image.now r × (from + length window.old ≤ 16777216) }
    ensures { FixedLaid image.now r (value image.now d.four d.eight) from (length window.old) (suc r.n) window.old window.new }
{
    for i in 0..r.n + 1 {
        let at = move_image::word_place(image, r, i);
        let x = Item {
            kind: Kind::Word,
            at,
            len: 4,
        };
        audit_lay::lay_item(image, x, d, window, from);
    }
}

// Where the next window's walk starts: it is looked for unless it is known.
fn found(image: &[u8], v: usize, p: Piece) -> Found
    requires v_in_bounds { (v ≤ length image.now) × (length image.now ≤ 16777216) × Valid image.now v p.spot × Apart (ahead image.now v p.spot) }
    requires to_in_bounds { (p.to ≤ length image.now) × (p.low ≤ length image.now) × Past image.now v p }
    ensures { Sought image.now v p.spot p.to result }
{
    if p.to < p.low {
        let spot = p.spot;
        return Found { spot, low: p.low };
    }
    audit_window::seek(image, v, p.spot, p.to)
}

// How long a window may be: of few words of the tables that stand by themselves only what is near is copied.
fn size_of(n: usize, from: usize, low: usize, size: usize) -> usize
    requires { from ≤ 16777216 }
    ensures { (result ≤ size) × (0 < size → 0 < result) }
{
    if n > 16 {
        return size;
    }
    if low < from + 256 {
        return size;
    }
    if size < 256 {
        return size;
    }
    256
}

// The piece after p; v is the volume's length.
pub fn next(image: &[u8], v: usize, r: Reading, d: Shift, window: &mut [u8], p: Piece) -> Piece
    requires { Guaranteed image.now r × (v ≡ le 8 image.now 32) × Standing image.now r p × (p.to < length image.now)
        × (0 < length window.old) }
    ensures onward { Onward image.now r d.four d.eight p result window.new }
    ensures window_len_unchanged { length window.new ≡ length window.old }
{
    let u = found(image, v, p);
    let k = first_fixed(image, r, p.to);
    let from = u.low.min(k).max(p.to);
    let n = size_of(r.n, from, u.low, window.len()).min(image.len() - from);
    let to = from + n;
    let part = &mut window[..n];
    part.copy_from_slice(&image[from..to]);
    lay_fixed(image, r, d, part, from);
    if to <= u.low {
        let low = u.low;
        let ahead = u.spot;
        return Piece {
            from,
            to,
            low,
            spot: ahead,
        };
    }
    let spot = audit_window::fill(image, v, u.spot, d, part, from);
    Piece {
        from,
        to,
        low: to,
        spot,
    }
}
