// Request #107: what is judged of each item of a volume, in one walk over all of them.
#![tactic(auto)]

ghost use Rattle.std.specs.Prelude.{◌&&◌, [], ◌∷◌, ◌≡◌, ◌+◌, ◌*◌, ◌≤◌, ◌<◌, length};
ghost use Rattle.facts.specs.Fact.{Holds, Tells};
ghost use Rattle.apart_front.specs.Fronts.{Fronts};
ghost use Rattle.inside_files.specs.Parts.{section_part, part_number};
ghost use Rattle.items.specs.Judged.{off, sound, placed, known};
ghost use Rattle.inside_modules.specs.ModulesFit.{Fits};
ghost use Rattle.inside_blocks.specs.Blocks.{heads_from, head_count, blocks_from, entries_from};
ghost use Rattle.inside_pages.specs.Pages.{Paged};
ghost use Rattle.inside_walk.specs.Whole.{walked};
ghost use Rattle.inside_judge.specs.Parts.{part_items};
ghost use Rattle.inside_walk.specs.Walkable.{Walkable};
ghost use Rattle.inside_judge.specs.Judges.{Judges, JudgesOn, Noted};
ghost use Rattle.inside_judge.specs.Runs.{clear_page, Later, AstrayBy};
ghost use Rattle.items.specs.Items.{word_kind, kind_number};

mod limits;

use apart_front::Front;
use inside_files::{Part, PartKind};
use inside_pages::Page;
use inside_rows::Module;
use items::{Item, Kind};
pub use limits::Limits;

// Whether rule 25, 26 (but for apartness) and 27 is passed; the highest end of a word; and the frontier, which tells of apartness where all
// comes in order.
#[derive(Clone, Copy)]
pub struct Judged {
    pub whole: bool,
    pub placed: bool,
    pub known: bool,
    pub top: usize,
    pub front: Front,
}

impl Limits {
    // Rule 25.
    fn is_sound(self, x: Item) -> bool
        requires { x.at + x.len < 1099511627776 }
        ensures { Tells result (sound self.c self.z x) }
    {
        x.kind != Kind::Broken && (x.kind != Kind::Kept || apart_front::is_off(x, self.c, self.z))
    }

    // Rule 26, but for apartness.
    fn is_placed(self, x: Item) -> bool
        requires { x.at + x.len < 1099511627776 }
        ensures { Tells result (placed self.E self.c self.z x) }
    {
        if x.kind == Kind::Lost {
            return false;
        }
        x.kind != Kind::Word || self.E <= x.at && apart_front::is_off(x, self.c, self.z)
    }

    // Whether a word may stand wherever one can start in the page, from its floor on.
    fn is_clear(self, q: Page) -> bool
        requires { q.at < 1099511627776 }
        ensures { Tells result (clear_page q self) }
    {
        if 4096 < q.floor {
            return false;
        }
        let from = q.at + q.floor;
        self.E <= from && (q.at + 4104 <= self.c || self.c + self.z <= from)
    }
}

// Rule 27.
fn is_known(x: Item) -> bool
    ensures { Tells result (known x) }
{
    x.kind != Kind::Alien
}

// The highest end of a word, x being one more item.
fn highest(top: usize, x: Item) -> usize
    requires { x.at + x.len < 1099511627776 }
    ensures { (top ≤ result) × ((kind_number x.kind ≡ word_kind) → x.at + x.len ≤ result) }
{
    if x.kind != Kind::Word {
        return top;
    }
    top.max(x.at + x.len)
}

impl Judged {
    // x is counted, the frontier after it being at hand.
    fn note(self, limits: Limits, front: Front, x: Item) -> Judged
        requires { (x.at + x.len < 1099511627776) × Fronts self.front (x ∷ []) front }
        ensures { Noted limits self x result }
    {
        let whole = self.whole && limits.is_sound(x);
        let placed = self.placed && limits.is_placed(x);
        let known = self.known && is_known(x);
        let top = highest(self.top, x);
        Judged {
            whole,
            placed,
            known,
            top,
            front,
        }
    }

    // Words that lie in the gap are passed, which end by `end`.
    fn later(self, end: usize) -> Judged
        ensures { Later self end result }
    {
        Judged {
            top: self.top.max(end),
            front: Front {
                low: end,
                ..self.front
            },
            ..self
        }
    }

    // Some words of the page are passed that may lie anywhere, n of them: nothing is known of apartness any more, and they end by its last
    // reach.
    fn astray(self, q: Page, n: usize) -> Judged
        requires { q.at < 1099511627776 }
        ensures { AstrayBy q n self result }
    {
        if n == 0 {
            return self;
        }
        Judged {
            top: self.top.max(q.at + 4104),
            front: Front::lost(),
            ..self
        }
    }
}

// The frontier after x, which k entries follow: only a block has some.
fn advance(f: Front, x: Item, k: usize) -> Front
    requires { x.at + x.len < 1099511627776 }
    ensures { Fronts f (x ∷ []) result }
{
    if k == 0 {
        return f.pass(x);
    }
    f.open(x)
}

// Entry by entry: any may come next. (The page, its entries' place and their count stay apart, as inside_runs takes them.)
fn judge_rest(
    image: &[u8],
    m: Module,
    q: Page,
    at: usize,
    k: usize,
    judged: Judged,
    limits: Limits,
) -> Judged
    requires { Fits image.now m × Paged image.now m q.page q × (q.page < 4294967296) × (at + 2 * k ≤ length image.now) }
    ensures { JudgesOn (entries_from image.now m q.page at k) limits judged result }
{
    let mut r = judged;
    for i in 0..k {
        let x = inside_blocks::entry_on(image, m, q, at + 2 * i);
        let front = r.front.pass(x);
        r = r.note(limits, front, x);
    }
    r
}

// The k entries from `at` on that are left, on a clear page: words that may lie anywhere, then entry by entry.
fn judge_unordered(
    image: &[u8],
    m: Module,
    q: Page,
    at: usize,
    k: usize,
    judged: Judged,
    limits: Limits,
) -> Judged
    requires fits { Fits image.now m × Paged image.now m q.page q × (q.page < 4294967296) × (at + 2 * k ≤ length image.now) }
    requires holds { Holds (clear_page q limits) × (q.at < 1099511627776) }
    ensures { JudgesOn (entries_from image.now m q.page at k) limits judged result }
{
    let n = inside_runs::any(image, q, at, k);
    let r = judged.astray(q, n);
    judge_rest(image, m, q, at + 2 * n, k - n, r, limits)
}

// The k entries from `at` on of a block with this page: loops with no spot, since a module has thousands of them.
fn judge_entries(
    image: &[u8],
    m: Module,
    page: usize,
    at: usize,
    k: usize,
    judged: Judged,
    limits: Limits,
) -> Judged
    requires { Fits image.now m × (page < 4294967296) × (at + 2 * k ≤ length image.now) }
    ensures { JudgesOn (entries_from image.now m page at k) limits judged result }
{
    let q = inside_pages::page_of(image, m, page);
    if !limits.is_clear(q) {
        return judge_rest(image, m, q, at, k, judged, limits);
    }
    let front = judged.front;
    let passed = inside_runs::pass_words(image, q, at, k, front.low, front.high);
    let r = judged.later(passed.low);
    judge_unordered(
        image,
        m,
        q,
        at + 2 * passed.count,
        k - passed.count,
        r,
        limits,
    )
}

// The headers of a module.
fn judge_heads(image: &[u8], m: Module, judged: Judged, limits: Limits) -> Judged
    requires { Fits image.now m }
    ensures { JudgesOn (heads_from m (head_count m)) limits judged result }
{
    let mut r = judged;
    let heads = inside_blocks::start(m).heads;
    for k in (0..heads).rev() {
        let x = inside_blocks::head_item(m, k);
        let front = r.front.pass(x);
        r = r.note(limits, front, x);
    }
    r
}

// The relocation blocks of a module. Only how many bytes of the directory are used goes from turn to turn: a cursor costs more than a block.
fn judge_blocks(image: &[u8], m: Module, judged: Judged, limits: Limits) -> Judged
    requires { Fits image.now m }
    ensures { JudgesOn (blocks_from image.now m m.size 0) limits judged result }
{
    let mut r = judged;
    let mut used = 0;
    while used < m.size {
        let t = inside_blocks::block_at(image, m, used);
        let x = t.item;
        let next = t.next;
        let front = advance(r.front, x, next.left);
        let s = r.note(limits, front, x);
        r = judge_entries(image, m, next.page, next.at, next.left, s, limits);
        used = next.used;
    }
    r
}

// A part of the volume, and the module in it.
fn judge_part(image: &[u8], p: Part, judged: Judged, limits: Limits) -> Judged
    requires image_len_bound { (length image.now ≤ 16777216) × (p.at + p.len ≤ 33554432) }
    requires le_len { part_number p.kind ≡ section_part → (4 ≤ p.len) × (p.at + p.len ≤ length image.now) }
    ensures { JudgesOn (part_items image.now p) limits judged result }
{
    let m = inside_walk::module_in(image, p);
    let x = inside_walk::item_for(p, m);
    let front = judged.front.pass(x);
    let r = judged.note(limits, front, x);
    let s = judge_heads(image, m, r, limits);
    judge_blocks(image, m, s, limits)
}

// One walk over all items, from a frontier of what stands before them. (A loop, since the next part is found from the one before it.)
pub fn judge(image: &[u8], v: usize, f: usize, limits: Limits, front: Front) -> Judged
    requires { Walkable image.now v f }
    ensures { Judges front (walked image.now v f) limits result }
{
    let mut s = inside_files::first(image, f);
    let mut r = Judged {
        whole: true,
        placed: true,
        known: true,
        top: 0,
        front,
    };
    loop {
        let t = inside_files::step(image, v, s);
        let p = t.part;
        if p.kind == PartKind::End {
            return r;
        }
        r = judge_part(image, p, r, limits);
        s = t.next;
    }
}
