// Document 02, #114: whether every entry of a pile lies in one of its runs.
#![tactic(auto)]

ghost use Rattle.std.specs.Prelude.{true, ◌≡◌, ℕ, ◌<◌, length, IfSome};
ghost use Rattle.sheet.specs.ByteAt.{byte_at};
ghost use Rattle.fold_pile.specs.Pile.{sheets};
ghost use Rattle.fold_cells.specs.SetAt.{set_at};
ghost use Rattle.fold_cells.specs.Cells.{Reaches};
ghost use Rattle.fold_runs.specs.Runs.{Out};

use fold_pile::Pile;
use sheet::{Entry, Sheet};

// The run that has an entry's positions below `top`; the first one where it has none there.
fn seat_of(
    words: &[usize],
    seats: &[u16],
    top: usize,
    met: usize,
    from: usize,
    w: Entry,
) -> Option<usize>
    requires { (met < length seats.now) × (w.offset < 4294967296) × (w.size < 65536) }
    ensures { IfSome result (λ _. (k : ℕ) → Out words.now (length words.now) top k → Reaches w k → ⊥) }
{
    if top <= w.offset {
        return Some(0);
    }
    let e = fold_runs::clip(w, top);
    fold_runs::find(words, usize::from(seats[met]), from, w.offset, e)
}

// Where all of a sheet's positions below `top` lie in runs, how many entries were met with its own, of 1,024.
fn sheet_held(
    sheet: &Sheet,
    words: &[usize],
    seats: &[u16],
    top: usize,
    met: usize,
) -> Option<usize>
    requires { (length seats.now ≡ 1024) × (met < 1024) }
    ensures { IfSome result (λ next. (next < 1024) × ((k : ℕ) → Out words.now (length words.now) top k → byte_at sheet.now k ≡ 0)) }
{
    let m = sheet.count();
    let mut at = met;
    let mut from = 0;
    for i in 0..m {
        from = seat_of(words, seats, top, at, from, sheet.entry(i))?;
        at = (at + 1) % 1024;
    }
    Some(at)
}

// Whether all positions below `top` that the pile sets lie in the runs.
pub fn all_held(pile: &Pile, words: &[usize], seats: &[u16], top: usize) -> bool
    requires { length seats.now ≡ 1024 }
    ensures { result ≡ true → (k : ℕ) → Out words.now (length words.now) top k → set_at (sheets pile.now.bytes.now) k ≡ 0 }
{
    let mut met = 0;
    for sheet in pile.sheets() {
        let Some(next) = sheet_held(&Sheet::known(sheet), words, seats, top, met) else {
            return false;
        };
        met = next;
    }
    true
}
