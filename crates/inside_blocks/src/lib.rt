// Request #107: the items of one module, one after the other.
#![tactic(auto)]

ghost use Rattle.std.specs.Prelude.{◌≡◌, ◌+◌, ◌*◌, ◌≤◌, ◌<◌, length};
ghost use Rattle.facts.specs.Fact.{Tells};
ghost use Rattle.words.specs.Le.{le};
ghost use Rattle.inside_modules.specs.ModulesFit.{Fits};
ghost use Rattle.inside_pages.specs.Pages.{Paged};
ghost use Rattle.inside_blocks.specs.Blocks.{head_item, head_count, word_of, item_of, block_fits};
ghost use Rattle.inside_blocks.specs.BlocksWalk.{start_of, Valid, Stepped, Met};
ghost use Rattle.inside_blocks.specs.BlocksPaged.{module_from};
ghost use Rattle.items.specs.Items.{kind_number};
ghost use Rattle.items.specs.Shapes.{Small};

use inside_pages::Page;
use inside_places::Span;
use inside_rows::{Module, ModuleKind};
use items::{Item, Kind};

// Where the walk stands in a module: headers to come, bytes of the directory that are used, the next entry, entries left in its block, and
// that block's page.
#[derive(Clone, Copy)]
pub struct Cursor {
    pub heads: usize,
    pub used: usize,
    pub at: usize,
    pub left: usize,
    pub page: usize,
}

#[derive(Clone, Copy)]
pub struct Turn {
    pub item: Item,
    pub next: Cursor,
}

// The item k before the last of the headers.
pub fn head_item(m: Module, k: usize) -> Item
    requires { (m.pe ≤ m.base) × (m.base + m.width ≤ m.table) × (m.table + 40 * m.rows ≤ 16777216) × (m.lo ≤ m.pe) }
    ensures { (result ≡ head_item m k) × Small result × (1 ≤ kind_number result.kind) }
{
    if k == 3 {
        return Item {
            kind: Kind::Kept,
            at: m.lo,
            len: 64,
        };
    }
    if k == 2 {
        return Item {
            kind: Kind::Kept,
            at: m.pe,
            len: m.base - m.pe,
        };
    }
    if k == 1 {
        return Item {
            kind: Kind::Word,
            at: m.base,
            len: m.width,
        };
    }
    let from = m.base + m.width;
    let end = m.table + 40 * m.rows;
    Item {
        kind: Kind::Kept,
        at: from,
        len: end - from,
    }
}

fn head_step(image: &[u8], m: Module, c: Cursor) -> Turn
    requires { Fits image.now m × Valid image.now c × (1 ≤ c.heads) }
    ensures { Stepped image.now m c result }
{
    let k = c.heads - 1;
    let item = head_item(m, k);
    Turn {
        item,
        next: Cursor { heads: k, ..c },
    }
}

// A word of w bytes that lies so.
fn word_of(m: Module, s: Span, w: usize) -> Item
    requires { (s.at < 68719476736) × (w ≤ 8) }
    ensures { (result ≡ word_of m s w) × Small result × (1 ≤ kind_number result.kind) }
{
    if m.hi < s.at + w {
        return Item {
            kind: Kind::Lost,
            at: 0,
            len: 0,
        };
    }
    Item {
        kind: Kind::Word,
        at: s.at,
        len: w,
    }
}

fn item_of(image: &[u8], m: Module, page: usize, e: usize) -> Item
    requires { Fits image.now m × (page < 4294967296) }
    ensures { (result ≡ item_of image.now m page e) × Small result × (1 ≤ kind_number result.kind) }
{
    let kind = e / 4096;
    let rva = page + e % 4096;
    if kind == 0 {
        return Item {
            kind: Kind::Skipped,
            at: 0,
            len: 0,
        };
    }
    if kind == 3 {
        return word_of(m, inside_places::find(image, m, rva, 4), 4);
    }
    if kind == 10 {
        return word_of(m, inside_places::find(image, m, rva, 8), 8);
    }
    Item {
        kind: Kind::Alien,
        at: 0,
        len: 0,
    }
}

// The item of the entry at `at`, in a block with this page.
pub fn entry(image: &[u8], m: Module, page: usize, at: usize) -> Item
    requires { Fits image.now m × (page < 4294967296) × (at + 2 ≤ length image.now) }
    ensures { (result ≡ item_of image.now m page (le 2 image.now at)) × Small result × (1 ≤ kind_number result.kind) }
{
    item_of(image, m, page, words::le16(image, at))
}

// The same of a module by its fields: a loop that seldom comes here then copies no module for each entry.
fn entry_apart(
    image: &[u8],
    kind: ModuleKind,
    lo: usize,
    hi: usize,
    pe: usize,
    base: usize,
    width: usize,
    table: usize,
    rows: usize,
    stripped: usize,
    dir: usize,
    size: usize,
    page: usize,
    at: usize,
) -> Item
    requires { Fits image.now (module_from kind lo hi pe base width table rows stripped dir size) × (page < 4294967296) × (at + 2 ≤ length image.now) }
    ensures { (result ≡ item_of image.now (module_from kind lo hi pe base width table rows stripped dir size) page (le 2 image.now at)) × Small result × (1 ≤ kind_number result.kind) }
{
    let m = Module {
        kind,
        lo,
        hi,
        pe,
        base,
        width,
        table,
        rows,
        stripped,
        dir,
        size,
    };
    entry(image, m, page, at)
}

// The same for a page whose place is known: a word in its room is one sum away, and only another entry is searched for.
pub fn entry_on(image: &[u8], m: Module, q: Page, at: usize) -> Item
    requires { Fits image.now m × Paged image.now m q.page q × (q.page < 4294967296) × (at + 2 ≤ length image.now) }
    ensures { (result ≡ item_of image.now m q.page (le 2 image.now at)) × Small result × (1 ≤ kind_number result.kind) }
{
    let e = words::le16(image, at);
    let w = inside_runs::width(e);
    let o = e % 4096;
    if inside_runs::is_sure(q, o, w) {
        return Item {
            kind: Kind::Word,
            at: q.at + o,
            len: w,
        };
    }
    entry_apart(
        image, m.kind, m.lo, m.hi, m.pe, m.base, m.width, m.table, m.rows, m.stripped, m.dir,
        m.size, q.page, at,
    )
}

fn entry_step(image: &[u8], m: Module, c: Cursor) -> Turn
    requires { Fits image.now m × Valid image.now c × (1 ≤ c.left) × (c.heads ≡ 0) }
    ensures { Stepped image.now m c result }
{
    let item = entry(image, m, c.page, c.at);
    Turn {
        item,
        next: Cursor {
            at: c.at + 2,
            left: c.left - 1,
            ..c
        },
    }
}

fn block_fits(image: &[u8], m: Module, s: Span) -> bool
    requires { Fits image.now m × (s.at < 68719476736) × (s.end < 68719476736) }
    ensures { Tells result (block_fits image.now m s) }
{
    if m.hi < s.at + 8 {
        return false;
    }
    let k = words::le32(image, s.at + 4);
    if k < 8 {
        return false;
    }
    if k % 4 != 0 {
        return false;
    }
    if s.end < s.at + k {
        return false;
    }
    if m.hi < s.end {
        return false;
    }
    true
}

fn block_step(image: &[u8], m: Module, c: Cursor) -> Turn
    requires { Fits image.now m × (c.used < m.size) × (c.left ≡ 0) × (c.heads ≡ 0) }
    ensures { Stepped image.now m c result × (result.next.heads ≡ 0) × (1 ≤ kind_number result.item.kind) }
{
    let s = inside_places::find(image, m, m.dir + c.used, 8);
    if !block_fits(image, m, s) {
        return Turn {
            item: Item {
                kind: Kind::Broken,
                at: s.at,
                len: 8,
            },
            next: Cursor {
                heads: 0,
                used: m.size,
                at: 0,
                left: 0,
                page: 0,
            },
        };
    }
    let k = words::le32(image, s.at + 4);
    Turn {
        item: Item {
            kind: Kind::Kept,
            at: s.at,
            len: k,
        },
        next: Cursor {
            heads: 0,
            used: c.used + k,
            at: s.at + 8,
            left: (k - 8) / 2,
            page: words::le32(image, s.at),
        },
    }
}

// The block at `used` bytes of the directory, with the cursor before its entries.
pub fn block_at(image: &[u8], m: Module, used: usize) -> Turn
    requires { Fits image.now m × (used < m.size) }
    ensures { Met image.now m used result }
{
    block_step(
        image,
        m,
        Cursor {
            heads: 0,
            used,
            at: 0,
            left: 0,
            page: 0,
        },
    )
}

fn head_count(m: Module) -> usize
    ensures { result ≡ head_count m }
{
    if m.kind == ModuleKind::Pe32 {
        return 4;
    }
    if m.kind == ModuleKind::Te {
        return 3;
    }
    0
}

// Where the walk starts in a module.
pub fn start(m: Module) -> Cursor
    ensures { result ≡ start_of m }
{
    Cursor {
        heads: head_count(m),
        used: 0,
        at: 0,
        left: 0,
        page: 0,
    }
}

// The next item, with the cursor after it; the last is `End`.
pub fn step(image: &[u8], m: Module, c: Cursor) -> Turn
    requires { Fits image.now m × Valid image.now c }
    ensures { Stepped image.now m c result }
{
    if 0 < c.heads {
        return head_step(image, m, c);
    }
    if 0 < c.left {
        return entry_step(image, m, c);
    }
    if c.used < m.size {
        return block_step(image, m, c);
    }
    Turn {
        item: Item {
            kind: Kind::End,
            at: 0,
            len: 0,
        },
        next: c,
    }
}
