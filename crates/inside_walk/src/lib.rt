// Request #107: the walk over the files, sections and modules of a volume as one cursor.
#![tactic(auto)]

ghost use Rattle.std.specs.Prelude.{◌≡◌, ◌+◌, ◌≤◌, ◌<◌, length};
ghost use Rattle.inside_walk.specs.Entries.{count_of, past_of};
ghost use Rattle.inside_walk.specs.Whole.{module_in, item_kind, item_for};
ghost use Rattle.inside_walk.specs.WholeWalk.{first_spot, Valid, Stepped, Ended};
ghost use Rattle.items.specs.Items.{end_kind, kind_number};
ghost use Rattle.inside_files.specs.Parts.{no_part, section_part, part_number};
ghost use Rattle.items.specs.Shapes.{Small};

use inside_blocks::Cursor;
use inside_files::{Part, PartKind, Place};
use inside_rows::{Module, ModuleKind};
use items::{Item, Kind};

// Where the walk stands: among the files, and in a module.
#[derive(Clone, Copy)]
pub struct Spot {
    pub place: Place,
    pub m: Module,
    pub c: Cursor,
}

#[derive(Clone, Copy)]
pub struct Move {
    pub item: Item,
    pub next: Spot,
}

// The module of a part, if it is a section that holds one.
pub fn module_in(image: &[u8], p: Part) -> Module
    requires { (length image.now ≤ 16777216) × (part_number p.kind ≡ section_part → (4 ≤ p.len) × (p.at + p.len ≤ length image.now)) }
    ensures { result ≡ module_in image.now p }
{
    if p.kind == PartKind::Section {
        let lo = p.at + 4;
        let hi = p.at + p.len;
        return inside_modules::module_of(image, p.sort, lo, hi);
    }
    inside_rows::none()
}

// The kind of the item of a part, where it is no section with a module that doesn't fit.
fn item_kind(k: PartKind) -> Kind
    ensures { result ≡ item_kind k }
{
    match k {
        PartKind::End => Kind::End,
        PartKind::Header => Kind::Kept,
        PartKind::Section => Kind::Kept,
        PartKind::Broken => Kind::Broken,
    }
}

// The item of a part with this module.
pub fn item_for(p: Part, m: Module) -> Item
    requires { p.at + p.len ≤ 33554432 }
    ensures { (result ≡ item_for p m) × (kind_number result.kind ≡ end_kind → part_number p.kind ≡ no_part) × Small result }
{
    if p.kind == PartKind::Section {
        if m.kind == ModuleKind::Bad {
            return Item {
                kind: Kind::Broken,
                at: p.at,
                len: 4,
            };
        }
        return Item {
            kind: Kind::Kept,
            at: p.at,
            len: 4,
        };
    }
    Item {
        kind: item_kind(p.kind),
        at: p.at,
        len: p.len,
    }
}

// Where the walk starts: in the header file, at f.
pub fn first(image: &[u8], f: usize) -> Spot
    requires { (f + 28 ≤ length image.now) × (length image.now ≤ 16777216) }
    ensures { result ≡ first_spot image.now f }
{
    let place = inside_files::first(image, f);
    let m = inside_rows::none();
    Spot {
        place,
        m,
        c: inside_blocks::start(m),
    }
}

// On to the next part, where the module at hand is done.
fn part_step(image: &[u8], v: usize, s: Spot, x: Item) -> Move
    requires { (v ≤ length image.now) × (length image.now ≤ 16777216) × Valid image.now v s × Ended image.now s x }
    ensures { Stepped image.now v s result }
{
    let place = s.place;
    let u = inside_files::step(image, v, place);
    let part = u.part;
    let on = u.next;
    if part.kind == PartKind::End {
        return Move { item: x, next: s };
    }
    let m = module_in(image, part);
    let item = item_for(part, m);
    Move {
        item,
        next: Spot {
            place: on,
            m,
            c: inside_blocks::start(m),
        },
    }
}

// The next item of the whole volume, with the spot after it; the last is `End`.
pub fn step(image: &[u8], v: usize, s: Spot) -> Move
    requires { (v ≤ length image.now) × (length image.now ≤ 16777216) × Valid image.now v s }
    ensures { Stepped image.now v s result }
{
    let place = s.place;
    let m = s.m;
    let t = inside_blocks::step(image, m, s.c);
    let item = t.item;
    let c = t.next;
    if item.kind != Kind::End {
        return Move {
            item,
            next: Spot { place, m, c },
        };
    }
    part_step(image, v, s, item)
}

// How many entries are left in the block at hand, which a loop can go through without a spot; none while headers are to come.
pub fn entries(s: Spot) -> usize
    ensures { result ≡ count_of s }
{
    let c = s.c;
    if c.heads == 0 {
        return c.left;
    }
    0
}

// The spot after k of them, k being how many there are.
pub fn past(s: Spot, k: usize) -> Spot
    requires { (k ≡ count_of s) × (k ≤ s.c.left) }
    ensures { result ≡ past_of s }
{
    Spot {
        c: Cursor {
            left: s.c.left - k,
            ..s.c
        },
        ..s
    }
}
