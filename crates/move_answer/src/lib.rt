// Document 01, "Moving": the answer of a release, and how far it went.
#![tactic(auto)]

ghost use Rattle.std.specs.Prelude.{◌≡◌, ◌^◌, ◌≤◌, pos, ◌-ℤ◌};
ghost use Rattle.move_answer.specs.MoveAnswer.{refused_move, accepted_move, Magnitude};

use answers::{Moved, Reading};

// A refusal.
pub fn refused(number: u32, index: usize) -> Moved
    ensures { result ≡ refused_move number index }
{
    Moved {
        number,
        index,
        distance: 0,
    }
}

// new minus old.
fn distance(old: u64, new: u64) -> i64
    requires { (old ≤ 2 ^ 32) × (new ≤ 2 ^ 32) }
    ensures { result ≡ pos new -ℤ pos old }
{
    new as i64 - old as i64
}

// The answer where an image that reads so goes to a base.
pub fn accepted(r: Reading, base: u64) -> Moved
    requires { (r.base ≤ 2 ^ 32) × (base ≤ 2 ^ 32) }
    ensures { result ≡ accepted_move r base }
{
    Moved {
        number: 0,
        index: 0,
        distance: distance(r.base, base),
    }
}

// How far a move goes, up or down.
pub fn magnitude(distance: i64) -> u64
    ensures { Magnitude distance result }
{
    if distance < 0 {
        return (-1 - distance) as u64 + 1;
    }
    distance as u64
}
