// Request #107: what is known of a module, and its section headers.
#![tactic(auto)]

ghost use Rattle.std.specs.Prelude.{◌≡◌, ◌+◌, ◌*◌, ◌≤◌, ◌<◌, length};
ghost use Rattle.facts.specs.Fact.{Tells};
ghost use Rattle.inside_rows.specs.Rows.{bare_module, no_module, bad_module, row_at, data_fits, rows_fit, judged};

#[derive(Clone, Copy, PartialEq, Eq)]
pub enum ModuleKind {
    // No module.
    Absent,
    Pe32,
    Te,
    // One whose headers don't fit.
    Bad,
}

// What the walk needs of a module: its kind (all else is 0 where it is none or bad); its bytes lo..hi-1;
// where its second header and its image base stand, and the base's width; place and count of its section headers; the bytes that were
// stripped (40 for PE32); the relocation directory's address and size.
#[derive(Clone, Copy)]
pub struct Module {
    pub kind: ModuleKind,
    pub lo: usize,
    pub hi: usize,
    pub pe: usize,
    pub base: usize,
    pub width: usize,
    pub table: usize,
    pub rows: usize,
    pub stripped: usize,
    pub dir: usize,
    pub size: usize,
}

// A section header: address, size of its data, place of its data.
#[derive(Clone, Copy)]
pub struct Row {
    pub va: usize,
    pub raw: usize,
    pub ptr: usize,
}

// One that has nothing but its kind.
fn bare(kind: ModuleKind) -> Module
    ensures { result ≡ bare_module kind }
{
    Module {
        kind,
        lo: 0,
        hi: 0,
        pe: 0,
        base: 0,
        width: 0,
        table: 0,
        rows: 0,
        stripped: 0,
        dir: 0,
        size: 0,
    }
}

// No module.
pub fn none() -> Module
    ensures { result ≡ no_module }
{
    bare(ModuleKind::Absent)
}

// A module whose headers don't fit.
pub fn refused() -> Module
    ensures { result ≡ bad_module }
{
    bare(ModuleKind::Bad)
}

// Section header i of those at t.
pub fn row_at(image: &[u8], t: usize, i: usize) -> Row
    requires { t + 40 * i + 40 ≤ length image.now }
    ensures { (result ≡ row_at image.now t i) × (result.va < 4294967296) × (result.raw < 4294967296) × (result.ptr < 4294967296) }
{
    let p = t + 40 * i;
    Row {
        va: words::le32(image, p + 12),
        raw: words::le32(image, p + 16),
        ptr: words::le32(image, p + 20),
    }
}

fn data_fits(lo: usize, hi: usize, s: usize, w: Row) -> bool
    requires { (lo ≤ 16777216) × (w.raw < 4294967296) × (w.ptr < 4294967296) }
    ensures { Tells result (data_fits lo hi s w) }
{
    if w.raw == 0 {
        return true;
    }
    if w.ptr + 40 < s {
        return false;
    }
    if hi < lo + (w.ptr + 40 - s) + w.raw {
        return false;
    }
    true
}

fn rows_fit(image: &[u8], m: Module) -> bool
    requires { (m.lo ≤ 16777216) × (m.table + 40 * m.rows ≤ length image.now) }
    ensures { Tells result (rows_fit image.now m) }
{
    for i in 0..m.rows {
        let w = row_at(image, m.table, i);
        if !data_fits(m.lo, m.hi, m.stripped, w) {
            return false;
        }
    }
    true
}

// The module, once its section headers are judged too.
pub fn judge(image: &[u8], m: Module) -> Module
    requires { (m.lo ≤ 16777216) × (m.table + 40 * m.rows ≤ length image.now) }
    ensures { result ≡ judged image.now m }
{
    if !rows_fit(image, m) {
        return refused();
    }
    m
}
