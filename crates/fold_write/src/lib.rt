// Document 02, #114: the entries and bodies of the folded sheet, written window by window.
#![tactic(auto)]

ghost use Rattle.std.specs.Prelude.{◌≡◌, ◌≤◌, ◌<◌, length};
ghost use Rattle.fold_pile.specs.Pile.{sheets, pile_identity};
ghost use Rattle.fold_cells.specs.SetAt.{set_at};
ghost use Rattle.fold_cells.specs.Cells.{last};
ghost use Rattle.fold_tally.specs.Tally.{through, Small};
ghost use Rattle.fold_sheet.specs.Folded.{sheet_of, onto};
ghost use Rattle.fold_sheet.specs.Placing.{out_to, placed_cells, Safe, Room};
ghost use Rattle.fold_write.specs.Write.{AllSafe, Gap};

use fold_pile::Pile;
use fold_tally::Tally;

// All positions of a window, which starts at `base`; `past` moves the index over many at once, so it isn't a `for`.
fn write_cells(out: &mut [u8], m: usize, base: usize, cells: &[u16], t: Tally) -> Tally
    requires { AllSafe (length out.old) m base cells.now t }
    ensures value { result ≡ through cells.now (length cells.now) t }
    ensures out_after { out.new ≡ placed_cells m base cells.now (length cells.now) t out.old }
{
    let mut u = t;
    let mut i = 0;
    while i < cells.len() {
        i = fold_tally::past(cells, i, u.run);
        let c = cells[i];
        fold_sheet::place(out, m, base + i, c, u);
        u = u.step(c);
        i += 1;
    }
    u
}

// The positions from `at` up to `base`, at none of which anything is set.
fn write_gap(out: &mut [u8], m: usize, at: usize, base: usize, t: Tally) -> Tally
    requires { (at < base → Safe (length out.old) m at 0 t) × Small t 1099511627776 }
    ensures { Gap m at base t out.old result out.new }
{
    if base <= at {
        return t;
    }
    fold_sheet::place(out, m, at, 0, t);
    t.step(0)
}

// All positions. A window begins where something is set, so no range has them.
pub fn write(out: &mut [u8], m: usize, pile: &Pile, cells: &mut [u16])
    requires room { Room m (set_at (sheets pile.now.bytes.now)) (length out.old) }
    requires in_bounds { (1 ≤ length cells.old) × (length cells.old ≤ 65536) }
    ensures out_after { out.new ≡ out_to m (set_at (sheets pile.now.bytes.now)) last out.old }
    ensures cells_len_unchanged { length cells.new ≡ length cells.old }
{
    let mut t = Tally::default();
    let mut at = 0;
    while at < 4295032831 {
        let base = fold_cells::next_set(pile, at);
        t = write_gap(out, m, at, base, t);
        if base == 4295032831 {
            return;
        }
        fold_cells::fill(cells, base, pile);
        t = write_cells(out, m, base, cells, t);
        at = base + cells.len();
    }
}

// The folded sheet, which has m entries.
pub fn write_sheet(out: &mut [u8], m: usize, pile: &Pile, cells: &mut [u16])
    requires room { Room m (set_at (sheets pile.now.bytes.now)) (length out.old) }
    requires in_bounds { (1 ≤ length cells.old) × (length cells.old ≤ 65536) }
    ensures { out.new ≡ onto (sheet_of (pile_identity pile.now.bytes.now) (set_at (sheets pile.now.bytes.now))) out.old }
{
    fold_sheet::put_header(out, pile.first, m);
    write(out, m, pile, cells);
}
