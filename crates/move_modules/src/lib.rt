// Request #107: the words of a volume's modules moved, while the walk goes over them.
#![tactic(auto)]

ghost use Rattle.std.specs.Prelude.{◌≡◌, ◌⊎◌, ◌+◌, ◌%◌, ◌^◌, ◌<◌, ◌≤◌, length};
ghost use Rattle.facts.specs.Fact.{Holds};
ghost use Rattle.words.specs.Le.{le};
ghost use Rattle.moves.specs.Moves.{difference, moved};
ghost use Rattle.items.specs.Items.{inside, words_in, listed};
ghost use Rattle.inside_blocks.specs.Blocks.{entries_from};
ghost use Rattle.inside_walk.specs.Whole.{walked};
ghost use Rattle.inside_walk.specs.Entries.{count_of, entries_of, past_of};
ghost use Rattle.move_modules.specs.Relocate.{shift, add_item, moved_by, Movable, AtHand};

use inside_rows::Module;
use inside_walk::Spot;
use items::{Item, Kind};
use moves::Shift;

// new minus old, modulo 2^64.
pub fn wide_difference(old: u64, new: u64) -> u64
    requires { (old < 2 ^ 32) × (new < 2 ^ 32) }
    ensures { result ≡ difference old new 8 }
{
    std::num::wrapping_sub_u64(new, old)
}

// The item's word moved, if it is one.
fn add_item(image: &mut [u8], x: Item, d: Shift)
    requires { Holds (inside (length image.old) x) }
    ensures { image.new ≡ add_item image.old x (shift d.four d.eight) }
{
    if x.kind == Kind::Word {
        if x.len == 4 {
            words::add32(image, x.at, d.four);
        } else {
            words::add64(image, x.at, d.eight);
        }
    }
}

// The words of the `count` entries at `at` moved, which a block with this page has.
fn add_entries(image: &mut [u8], m: Module, page: usize, at: usize, count: usize, d: Shift)
    requires { AtHand image.old m page at count }
    ensures { image.new
        ≡ moved_by image.old (entries_from image.old m page at count) (shift d.four d.eight) }
{
    let q = inside_pages::page_of(image, m, page);
    for i in 0..count {
        let x = inside_blocks::entry_on(image, m, q, at + 2 * i);
        add_item(image, x, d);
    }
}

// The words of the entries at hand moved: the loop over them needs no spot. Gives the spot after them.
fn pass_entries(image: &mut [u8], s: Spot, d: Shift) -> Spot
    requires { AtHand image.old s.m s.c.page s.c.at (count_of s) }
    ensures { (result ≡ past_of s)
        × (image.new ≡ moved_by image.old (entries_of image.old s) (shift d.four d.eight)) }
{
    let k = inside_walk::entries(s);
    let m = s.m;
    let c = s.c;
    add_entries(image, m, c.page, c.at, k, d);
    inside_walk::past(s, k)
}

// Adds its part of d to each word, while walking the image that changes.
pub fn words(image: &mut [u8], v: usize, f: usize, d: Shift)
    requires { Movable image.old v f }
    ensures { image.new
        ≡ moved image.old (listed (words_in (walked image.old v f))) (shift d.four d.eight) }
{
    let mut s = inside_walk::first(image, f);
    loop {
        let t = inside_walk::step(image, v, s);
        let x = t.item;
        if x.kind == Kind::End {
            return;
        }
        add_item(image, x, d);
        let on = t.next;
        s = pass_entries(image, on, d);
    }
}

// The moved value of the word of m bytes at p.
pub fn moved_word(image: &[u8], p: usize, m: usize, d: Shift) -> u64
    requires { (p + m ≤ length image.now) × ((m ≡ 4) ⊎ (m ≡ 8)) }
    ensures { result ≡ (le m image.now p + shift d.four d.eight m) % 256 ^ m }
{
    if m == 4 {
        return (words::le32(image, p) as u32).wrapping_add(d.four) as u64;
    }
    (words::le64(image, p) as u64).wrapping_add(d.eight)
}
