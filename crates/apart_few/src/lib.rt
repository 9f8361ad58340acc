// Request #107, rule 26: few patch words, each held against every item of a volume without modules. No window is needed then.
#![tactic(auto)]

ghost use Rattle.std.specs.Prelude.{true, ◌≡◌, ◌+◌, ◌≤◌, ◌<◌, length};
ghost use Rattle.facts.specs.Fact.{Holds, Tells};
ghost use Rattle.items.specs.Items.{apart_from};
ghost use Rattle.inside_walk.specs.Whole.{walked};
ghost use Rattle.inside_walk.specs.Walkable.{Walkable};
ghost use Rattle.inside_judge.specs.Parts.{part_items};
ghost use Rattle.inside_judge.specs.Rules.{patch_items};
ghost use Rattle.apart_marks.specs.Marks.{Patch};
ghost use Rattle.apart_few.specs.Few.{besides, Bare, Past};
ghost use Rattle.inside_files.specs.Parts.{section_part, part_number};

use apart_front::Front;
use inside_files::{Part, PartKind};
use inside_rows::Module;
use items::Item;

// Whether x lies apart from each of n patch words.
fn is_beside(image: &[u8], t: usize, n: usize, x: Item) -> bool
    requires { Patch image.now t n × (x.at + x.len < 1099511627776) }
    ensures { result ≡ true → Holds (besides (patch_items image.now t n) x) }
{
    for i in 0..n {
        let p = table::spot_at(image, t, i);
        if !apart_front::is_off(x, p, 4) {
            return false;
        }
    }
    true
}

// Whether a module is none, or has nothing that is looked at.
fn is_bare(m: Module) -> bool
    ensures { result ≡ true → Bare m }
{
    let c = inside_blocks::start(m);
    c.heads == 0 && m.size == 0
}

// The frontier after a part; nothing is known any more where it meets one of n patch words or has a module.
fn pass_part(image: &[u8], t: usize, n: usize, p: Part, front: Front) -> Front
    requires { Patch image.now t n × (p.at + p.len ≤ 33554432) × (part_number p.kind ≡ section_part → (4 ≤ p.len) × (p.at + p.len ≤ length image.now)) }
    ensures { Past (patch_items image.now t n) (part_items image.now p) front result }
{
    let m = inside_walk::module_in(image, p);
    if !is_bare(m) {
        return Front::lost();
    }
    let x = inside_walk::item_for(p, m);
    if !is_beside(image, t, n, x) {
        return Front::lost();
    }
    front.pass(x)
}

// Whether all items of a volume without modules come in order and lie apart from each of n patch words; no where that isn't known.
fn are_beside(image: &[u8], v: usize, f: usize, t: usize, n: usize) -> bool
    requires { Walkable image.now v f × Patch image.now t n }
    ensures { result ≡ true → Holds (apart_from (patch_items image.now t n) (walked image.now v f)) }
{
    let mut s = inside_files::first(image, f);
    let mut front = Front {
        low: 0,
        high: 0,
        top: 0,
    };
    loop {
        let u = inside_files::step(image, v, s);
        let p = u.part;
        if p.kind == PartKind::End {
            return true;
        }
        front = pass_part(image, t, n, p, front);
        if !front.is_ordered() {
            return false;
        }
        s = u.next;
    }
}

// Whether it is known that all items lie apart from each other and from n patch words: few of these, no module, and items in order.
pub fn surely_apart(image: &[u8], v: usize, f: usize, t: usize, n: usize) -> bool
    requires { Walkable image.now v f × Patch image.now t n }
    ensures { result ≡ true → Holds (apart_from (patch_items image.now t n) (walked image.now v f)) }
{
    n <= 64 && are_beside(image, v, f, t, n)
}
