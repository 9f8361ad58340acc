// Document 02, #114: what a pile sets, in windows of cells: a cell for each position, 0 where nothing is set and the last byte plus 1 where one is.
#![tactic(auto)]

ghost use Rattle.std.specs.Prelude.{◌≡◌, ℕ, ◌+◌, ◌≤◌, ◌<◌, length, get_or};
ghost use Rattle.sheet.specs.ByteAt.{byte_at};
ghost use Rattle.fold_pile.specs.Pile.{sheets};
ghost use Rattle.fold_cells.specs.SetAt.{set_at};
ghost use Rattle.fold_cells.specs.Cells.{last, Reaches, Unset, celled, Entered, Over, Shows};

use fold_pile::Pile;
use sheet::{Entry, Sheet};

// The lower of `low` and the entry's first byte from `from` on.
fn lower(w: Entry, from: usize, low: usize) -> usize
    requires { (w.offset < 4294967296) × (w.size < 65536) × (from ≤ low) }
    ensures { (from ≤ result) × (result ≤ low) × ((k : ℕ) → from ≤ k → k < result → Reaches w k → ⊥) }
{
    if w.offset + w.size <= from {
        return low;
    }
    w.offset.max(from).min(low)
}

// The lower of `low` and the sheet's first byte from `from` on.
fn lowest(sheet: &Sheet, from: usize, low: usize) -> usize
    requires { from ≤ low }
    ensures { Unset (byte_at sheet.now) from result × (result ≤ low) }
{
    let m = sheet.count();
    let mut r = low;
    for i in 0..m {
        r = lower(sheet.entry(i), from, r);
    }
    r
}

// The first position from `from` on that the pile sets, or `last` where there is none: a bound that goes down from there, which callers compare
// with other positions, so it is no Option.
pub fn next_set(pile: &Pile, from: usize) -> usize
    requires { from ≤ last }
    ensures { Unset (set_at (sheets pile.now.bytes.now)) from result × (result ≤ last) }
{
    let mut low = 4295032831;
    for sheet in pile.sheets() {
        low = lowest(&Sheet::known(sheet), from, low);
    }
    low
}

// Sets n cells from `to` on to the bytes of the sheet from `from` on.
fn set_cells(cells: &mut [u16], to: usize, sheet: &[u8], from: usize, n: usize)
    requires { (to + n ≤ length cells.old) × (from + n ≤ length sheet.now) }
    ensures { cells.new ≡ celled cells.old to sheet.now from n }
{
    for k in 0..n {
        cells[to + k] = u16::from(sheet[from + k]) + 1;
    }
}

// Sets the cells that an entry of the sheet reaches, the first cell standing for the position `base`.
fn enter(cells: &mut [u16], base: usize, sheet: &[u8], w: Entry)
    requires offset_bound { (w.offset < 4294967296) × (w.size < 65536) × (w.position + w.size ≤ length sheet.now) × (base ≤ last) }
    requires cells_len_bound { length cells.old ≤ 65536 }
    ensures { Entered cells.old cells.new base sheet.now w }
{
    let end = w.offset + w.size;
    let top = base + cells.len();
    let a = w.offset.max(base);
    let e = end.min(top);
    if e <= a {
        return;
    }
    set_cells(cells, a - base, sheet, w.position + (a - w.offset), e - a);
}

// Sets the cells that the sheet reaches.
fn enter_sheet(cells: &mut [u16], base: usize, sheet: &Sheet)
    requires { (base ≤ last) × (length cells.old ≤ 65536) }
    ensures { Over cells.old cells.new base (byte_at sheet.now) }
{
    let m = sheet.count();
    let bytes = sheet.bytes();
    for i in 0..m {
        enter(cells, base, bytes, sheet.entry(i));
    }
}

// What the pile sets from the position `base` on, a cell for each.
pub fn fill(cells: &mut [u16], base: usize, pile: &Pile)
    requires { (base ≤ last) × (length cells.old ≤ 65536) }
    ensures shows { Shows cells.new base (set_at (sheets pile.now.bytes.now)) }
    ensures cells_len_unchanged { length cells.new ≡ length cells.old }
{
    cells.fill(0);
    for sheet in pile.sheets() {
        enter_sheet(cells, base, &Sheet::known(sheet));
    }
}
