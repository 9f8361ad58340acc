// Document 02, #114: a pile of sheets folded into one.
#![tactic(auto)]

ghost use Rattle.std.specs.Prelude.{◌≡◌, ◌+◌, ◌*◌, ◌≤◌};
ghost use Rattle.facts.specs.Fact.{Tells};
ghost use Rattle.fold.specs.Fold.{refused_fold, Folds};
ghost use Rattle.fold_room.specs.RoomBy.{room_by};

use fold_pile::Pile;
use fold_tally::Tally;

// The answer of a fold: number 0, the sheet's length and its entries; or the refusal's number and zeros.
#[derive(Clone, Copy)]
pub struct Folded {
    pub number: u32,
    pub size: usize,
    pub entries: usize,
}

impl Folded {
    // A refusal.
    pub fn refused(number: u32) -> Folded
        ensures { result ≡ refused_fold number 0 }
    {
        Folded {
            number,
            size: 0,
            entries: 0,
        }
    }

    // The answer where there is room for what was counted.
    pub fn counted(t: Tally) -> Folded
        requires { (t.runs ≤ 256) × (16 + 8 * t.runs + t.bytes ≤ 65535) }
        ensures { result ≡ record { number = 0; size = 16 + 8 * t.runs + t.bytes; entries = t.runs } }
    {
        Folded {
            number: 0,
            size: 16 + 8 * t.runs + t.bytes,
            entries: t.runs,
        }
    }
}

// Rule 29, for a buffer of this length.
fn has_room(t: Tally, room: usize) -> bool
    ensures { Tells result (room_by t room) }
{
    fold_room::has_room(t, room)
}

// Folds the sheets of a pile, each after its 32-bit length, into one sheet at the start of `out`.
pub fn fold(pile: &[u8], out: &mut [u8]) -> Folded
    ensures { Folds pile.now out.old result out.new }
{
    let whole = match Pile::check(pile) {
        Ok(whole) => whole,
        Err(refusal) => return Folded::refused(refusal.number()),
    };
    let mut cells = [0u16; 4096];
    let t = fold_tally::count(&whole, &mut cells);
    if !has_room(t, out.len()) {
        return Folded::refused(29);
    }
    fold_write::write_sheet(out, t.runs, &whole, &mut cells);
    Folded::counted(t)
}
