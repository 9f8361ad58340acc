// Document 02, #114: the folded sheet by its runs: the bodies sheet by sheet, a later byte over an earlier one, each at its place in its run.
#![tactic(auto)]

ghost use Rattle.std.specs.Prelude.{true, ◌≡◌, ℕ, ◌+◌, ◌*◌, ◌≤◌, ◌<◌, length, get_or};
ghost use Rattle.sheet.specs.ByteAt.{byte_at};
ghost use Rattle.fold_pile.specs.Pile.{sheets};
ghost use Rattle.fold_cells.specs.SetAt.{set_at};
ghost use Rattle.fold_bodies.specs.Bodies.{Copied, Rooms, LaidBy, LaidSheetBy, LaidPile, runs_to};

use fold_pile::Pile;
use sheet::{Entry, Sheet};

// n bytes of the sheet from `from` on, to `to`.
fn copy(out: &mut [u8], to: usize, sheet: &[u8], from: usize, n: usize)
    requires { (to + n ≤ length out.old) × (from + n ≤ length sheet.now) }
    ensures { Copied out.old to sheet.now from n out.new }
{
    out[to..to + n].copy_from_slice(&sheet[from..from + n]);
}

// An entry's bytes to their places in its run, and the run, if one is found.
fn lay(
    out: &mut [u8],
    words: &[usize],
    ranks: &[usize],
    seat: usize,
    from: usize,
    sheet: &[u8],
    w: Entry,
) -> Option<usize>
    requires rooms { Rooms words.now (length words.now) ranks.now (length out.old) × (w.offset < 4294967296) × (w.size < 65536) }
    requires size_in_bounds { w.position + w.size ≤ length sheet.now }
    ensures { LaidBy words.now (length words.now) ranks.now w sheet.now result out.old out.new }
{
    let r = fold_runs::find(words, seat, from, w.offset, w.offset + w.size)?;
    let start = fold_words::start_of(words[r]);
    let n = words.len();
    copy(
        out,
        16 + 8 * n + ranks[r] + (w.offset - start),
        sheet,
        w.position,
        w.size,
    );
    Some(r)
}

// The bytes of a sheet; where a run is found for each entry, how many were met with its own, of 1,024.
fn lay_sheet(
    out: &mut [u8],
    words: &[usize],
    seats: &[u16],
    ranks: &[usize],
    met: usize,
    sheet: &Sheet,
) -> Option<usize>
    requires { Rooms words.now (length words.now) ranks.now (length out.old) × (length seats.now ≡ 1024) × (met < 1024) }
    ensures { LaidSheetBy words.now (length words.now) ranks.now (byte_at sheet.now) out.old result out.new }
{
    let m = sheet.count();
    let bytes = sheet.bytes();
    let mut at = met;
    let mut from = 0;
    for i in 0..m {
        let seat = usize::from(seats[at]);
        from = lay(out, words, ranks, seat, from, bytes, sheet.entry(i))?;
        at = (at + 1) % 1024;
    }
    Some(at)
}

// The bytes of all sheets; false where an entry's run wasn't found.
pub fn lay_pile(
    out: &mut [u8],
    pile: &Pile,
    words: &[usize],
    seats: &[u16],
    ranks: &[usize],
) -> bool
    requires { Rooms words.now (length words.now) ranks.now (length out.old) × (length seats.now ≡ 1024) }
    ensures { LaidPile words.now (length words.now) ranks.now (set_at (sheets pile.now.bytes.now)) out.old result out.new }
{
    let mut met = 0;
    for sheet in pile.sheets() {
        let Some(next) = lay_sheet(out, words, seats, ranks, met, &Sheet::known(sheet)) else {
            return false;
        };
        met = next;
    }
    true
}

// The entries of the runs.
pub fn put_runs(out: &mut [u8], words: &[usize], ranks: &[usize])
    requires { Rooms words.now (length words.now) ranks.now (length out.old) }
    ensures { out.new ≡ runs_to words.now ranks.now (length words.now) (length words.now) out.old }
{
    let bodies = 16 + 8 * words.len();
    for (i, w) in words.iter().enumerate() {
        fold_sheet::put_entry(
            out,
            16 + 8 * i,
            fold_words::start_of(*w),
            fold_words::size_of(*w),
            bodies + ranks[i],
        );
    }
}
