// Document 02, #114: a pile of sheets folded into one, by sorted runs; `fold` is the one that C calls.
#![tactic(auto)]

ghost use Rattle.fold.specs.Fold.{Folds};

use fold::Folded;
use fold_pile::Pile;

// Folds the sheets of a pile, each after its 32-bit length, into one sheet at the start of `out`.
pub fn fold(pile: &[u8], out: &mut [u8]) -> Folded
    ensures { Folds pile.now out.old result out.new }
{
    let whole = match Pile::check(pile) {
        Ok(whole) => whole,
        Err(refusal) => return Folded::refused(refusal.number()),
    };
    let room = out.len();
    let t = fold_ways::fold_counted(&whole, out);
    if !fold_room::has_room(t, room) {
        return Folded::refused(29);
    }
    Folded::counted(t)
}
