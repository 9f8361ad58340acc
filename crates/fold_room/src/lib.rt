// Document 02, #114, rule 29: whether a folded sheet of so many runs and bytes can be, and has room.
#![tactic(auto)]

ghost use Rattle.facts.specs.Fact.{Tells};
ghost use Rattle.fold_room.specs.RoomBy.{room_by};

use fold_tally::Tally;

// Rule 29, for a buffer of this length.
pub fn has_room(t: Tally, room: usize) -> bool
    ensures { Tells result (room_by t room) }
{
    if 256 < t.runs {
        return false;
    }
    if 65535 < t.bytes {
        return false;
    }
    let size = 16 + 8 * t.runs + t.bytes;
    if 65535 < size {
        return false;
    }
    if room < size {
        return false;
    }
    true
}
