// Document 01, "Moving": the words of a move. The release calls these.
#![tactic(auto)]

ghost use Rattle.std.specs.Prelude.{◌≡◌, ◌+◌, ◌*◌, ◌^◌, ◌<◌, ◌≤◌, length, pos, ◌-ℤ◌};
ghost use Rattle.reading_rules.specs.Guarantee.{Guaranteed};
ghost use Rattle.moves.specs.Moves.{difference, moved};
ghost use Rattle.reading_rules.specs.Words.{words_of};
ghost use Rattle.move_modules.specs.Relocate.{shift};
ghost use Rattle.move_image.specs.Fixed.{fixed_at, fixed_of};
ghost use Rattle.move_image.specs.Moving.{move_to};
ghost use Rattle.move_answer.specs.MoveAnswer.{refused_move, accepted_move, Magnitude};

use answers::Reading;
use moves::Shift;

// Where the i-th of the tables' words stands: the base word, then each patch word.
pub fn word_place(image: &[u8], r: Reading, i: usize) -> usize
    requires { (r.E ≤ length image.now) × (r.H + 84 + 4 * r.n ≤ r.E) × (i ≤ r.n) }
    ensures { result ≡ fixed_at image.now r i }
{
    if i == 0 {
        return r.H + 28;
    }
    table::point_at(image, r.E - 4 * r.n, i - 1).at
}

// Adds d, with wraparound, to each of the tables' words.
fn move_fixed(image: &mut [u8], r: Reading, d: u32)
    requires { Guaranteed image.old r }
    ensures { image.new ≡ moved image.old (fixed_of image.old r) (λ w. d) }
{
    for i in 0..r.n + 1 {
        let p = word_place(image, r, i);
        words::add32(image, p, d);
    }
}

// Adds its part of d to each word of a move: the tables' words, then the modules'.
fn move_words(image: &mut [u8], r: Reading, d: Shift)
    requires { Guaranteed image.old r }
    ensures { image.new ≡ moved image.old (words_of image.old r) (shift d.four d.eight) }
{
    move_fixed(image, r, d.four);
    let v = words::le64(image, 32);
    move_modules::words(image, v, r.H - 28, d);
}

// new minus old, modulo 2^32.
pub fn modular_difference(old: u64, new: u64) -> u32
    requires { (old < 2 ^ 32) × (new < 2 ^ 32) }
    ensures { result ≡ difference old new 4 }
{
    std::num::wrapping_sub_u32(new as u32, old as u32)
}

// What a move from one base to another adds.
pub fn shift_between(old: u64, new: u64) -> Shift
    requires { (old < 2 ^ 32) × (new < 2 ^ 32) }
    ensures { (result.four ≡ difference old new 4) × (result.eight ≡ difference old new 8) }
{
    Shift {
        four: modular_difference(old, new),
        eight: move_modules::wide_difference(old, new),
    }
}

// Moves an image that reads so to a base.
pub fn move_to(image: &mut [u8], r: Reading, base: u64)
    requires { Guaranteed image.old r × (base < 2 ^ 32) }
    ensures { image.new ≡ move_to image.old r base }
{
    let d = shift_between(r.base, base);
    move_words(image, r, d);
}
