// Request #107: the modules' words, for a walk that goes up through the image. They may come in any order within a module, and there is no
// memory to sort them in: those of a stretch of the image are laid into a window of its bytes, which the caller lends, by a walk over the
// modules.
#![tactic(auto)]

ghost use Rattle.std.specs.Prelude.{true, false, ◌⊎◌, ◌≡◌, ℕ, ◌+◌, ◌-◌, ◌*◌, ◌≤◌, ◌<◌, [], length};
ghost use Rattle.items.specs.Items.{word_kind, kind_number};
ghost use Rattle.inside_pages.specs.Pages.{Paged};
ghost use Rattle.inside_walk.specs.WholeWalk.{ahead, Valid};
ghost use Rattle.inside_modules.specs.ModulesFit.{Fits};
ghost use Rattle.inside_blocks.specs.Blocks.{entries_from};
ghost use Rattle.audit_lay.specs.Lay.{value};
ghost use Rattle.audit_fill_window.specs.Near.{Has};
ghost use Rattle.audit_window.specs.Window.{Apart, Fitting, Passed, Sought, Draws, Drawn};

use inside_pages::Page;
use inside_rows::Module;
use inside_walk::Spot;
use items::{Item, Kind};
use moves::Shift;

// Where a window's walk starts, and from where on words may stand that are ahead of it. A number and no Option: where nothing is known it is the
// window's own start, from which the reader goes on alike.
#[derive(Clone, Copy)]
pub struct Found {
    pub spot: Spot,
    pub low: usize,
}

// Whether x is a word that ends past `to`.
fn ends_past(x: Item, to: usize) -> bool
    requires { x.at + x.len < 1099511627776 }
    ensures { result ≡ false → kind_number x.kind ≡ word_kind → x.at + x.len ≤ to }
{
    if x.kind != Kind::Word {
        return false;
    }
    if x.at + x.len <= to {
        return false;
    }
    true
}

// Whether one of the k entries at `at` is such a word.
fn any_past(image: &[u8], m: Module, page: usize, at: usize, k: usize, to: usize) -> bool
    requires { Fits image.now m × (page < 4294967296) × (at + 2 * k ≤ length image.now) × (length image.now ≤ 16777216) }
    ensures { result ≡ false → (i w : ℕ) → Has (entries_from image.now m page at k) i w → i + w ≤ to }
{
    let q = inside_pages::page_of(image, m, page);
    for i in 0..k {
        let x = inside_blocks::entry_on(image, m, q, at + 2 * i);
        if ends_past(x, to) {
            return true;
        }
    }
    false
}

// On to the first word that ends past `from`, or to the block in which it is.
pub fn seek(image: &[u8], v: usize, s: Spot, from: usize) -> Found
    requires v_in_bounds { (v ≤ length image.now) × (length image.now ≤ 16777216) × Valid image.now v s × Apart (ahead image.now v s) }
    requires from_in_bounds { from ≤ length image.now }
    ensures { Sought image.now v s from result }
{
    let mut spot = s;
    loop {
        let t = inside_walk::step(image, v, spot);
        let x = t.item;
        let next = t.next;
        if x.kind == Kind::End {
            return Found {
                spot,
                low: image.len(),
            };
        }
        if ends_past(x, from) {
            let low = audit_fill_window::start_of(spot, from, image.len());
            return Found { spot, low };
        }
        let k = inside_walk::entries(next);
        let m = next.m;
        let c = next.c;
        if any_past(image, m, c.page, c.at, k, from) {
            let least = audit_fill_window::start_of(next, from, image.len());
            return Found {
                spot: next,
                low: least,
            };
        }
        spot = inside_walk::past(next, k);
    }
}

// Lays those of the k entries at `at` of this page that are words into the window, which stands for the positions from `from` on; whether one of
// them ends past these.
fn lay_each(
    image: &[u8],
    m: Module,
    q: Page,
    at: usize,
    k: usize,
    d: Shift,
    window: &mut [u8],
    from: usize,
) -> bool
    requires fits { Fits image.now m × Paged image.now m q.page q × (q.page < 4294967296) × (at + 2 * k ≤ length image.now)
        × (length image.now ≤ 16777216) }
    requires window_in_bounds { from + length window.old ≤ 16777216 }
    ensures draws { Draws (value image.now d.four d.eight) (entries_from image.now m q.page at k) [] from (length window.old) window.old window.new }
    ensures window_len_unchanged { length window.new ≡ length window.old }
    ensures w_bound { result ≡ false → (i w : ℕ) → Has (entries_from image.now m q.page at k) i w → i + w ≤ from + length window.old }
{
    let to = from + window.len();
    let mut late = false;
    for i in 0..k {
        let x = inside_blocks::entry_on(image, m, q, at + 2 * i);
        late |= ends_past(x, to);
        audit_lay::lay_item(image, x, d, window, from);
    }
    late
}

// The same of a block with this page: one that lies off these positions is passed at once, so that a large module costs its blocks for each
// window and not its words.
fn lay_entries(
    image: &[u8],
    m: Module,
    page: usize,
    at: usize,
    k: usize,
    d: Shift,
    window: &mut [u8],
    from: usize,
) -> bool
    requires fits { Fits image.now m × (page < 4294967296) × (at + 2 * k ≤ length image.now) × (length image.now ≤ 16777216) }
    requires window_in_bounds { from + length window.old ≤ 16777216 }
    ensures draws { Draws (value image.now d.four d.eight) (entries_from image.now m page at k) [] from (length window.old) window.old window.new }
    ensures window_len_unchanged { length window.new ≡ length window.old }
    ensures w_bound { result ≡ false → (i w : ℕ) → Has (entries_from image.now m page at k) i w → i + w ≤ from + length window.old }
{
    let q = inside_pages::page_of(image, m, page);
    if audit_fill_window::is_whole(q) {
        if q.at + 4104 <= from {
            return false;
        }
        if from + window.len() <= q.at {
            return true;
        }
    }
    lay_each(image, m, q, at, k, d, window, from)
}

// Lays all words ahead of s into the window, which stands for the positions from `from` on: the walk stops where all that is ahead starts past
// them. Gives the spot up to which all words that are passed end by the last of these positions.
pub fn fill(image: &[u8], v: usize, s: Spot, d: Shift, window: &mut [u8], from: usize) -> Spot
    requires v_in_bounds { (v ≤ length image.now) × (length image.now ≤ 16777216) × Valid image.now v s × Apart (ahead image.now v s)
        × Fitting (length image.now) (ahead image.now v s) }
    requires window_in_bounds { from + length window.old ≤ 16777216 }
    ensures drawn { Drawn (value image.now d.four d.eight) (ahead image.now v s) from (length window.old) window.old window.new }
    ensures window_len_unchanged { length window.new ≡ length window.old }
    ensures passed { Passed image.now v s (from + length window.old) result }
{
    let to = from + window.len();
    let mut spot = s;
    // The spot before what ends past these positions, once such is passed.
    let mut kept: Option<Spot> = None;
    loop {
        if to <= audit_fill_window::low_of(spot) {
            return kept.unwrap_or(spot);
        }
        let t = inside_walk::step(image, v, spot);
        let x = t.item;
        let next = t.next;
        if x.kind == Kind::End {
            return kept.unwrap_or(spot);
        }
        let first = ends_past(x, to);
        audit_lay::lay_item(image, x, d, window, from);
        let k = inside_walk::entries(next);
        let m = next.m;
        let c = next.c;
        let others = lay_entries(image, m, c.page, c.at, k, d, window, from);
        if first | others {
            kept = Some(kept.unwrap_or(spot));
        }
        spot = inside_walk::past(next, k);
    }
}
