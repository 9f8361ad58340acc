// Request #107: where a page of a module lies, found once for all entries of a relocation block.
#![tactic(auto)]

ghost use Rattle.std.specs.Prelude.{◌≡◌, ◌+◌, ◌*◌, ◌≤◌, ◌<◌, length, MatchOption};
ghost use Rattle.facts.specs.Fact.{Tells};
ghost use Rattle.inside_modules.specs.ModulesFit.{Fits};
ghost use Rattle.inside_pages.specs.Pages.{reaches, FirstRow, Paged};
ghost use Rattle.inside_rows.specs.Rows.{te_kind, module_number};

use inside_rows::{Module, ModuleKind, Row};

// A block's page, and where it would lie in the image: what starts at `floor` or after and ends in `room` is found by adding its offset. No room
// where that isn't sure: no Option, since a loop over entries would then test twice what one test of the room tells.
#[derive(Clone, Copy)]
pub struct Page {
    pub page: usize,
    pub at: usize,
    pub floor: usize,
    pub room: usize,
}

// A page of which no byte is found so.
fn unsure(page: usize) -> Page
    ensures { (result.page ≡ page) × (result.at ≡ 0) × (result.room ≡ 0) }
{
    Page {
        page,
        at: 0,
        floor: 0,
        room: 0,
    }
}

// How far into the page data starts.
fn floor_of(page: usize, start: usize) -> usize
    ensures { (start ≤ page + result) × (result ≤ start) }
{
    if start <= page {
        return 0;
    }
    start - page
}

fn row_reaches(w: Row, page: usize) -> bool
    requires { (w.va < 4294967296) × (w.raw < 4294967296) × (page < 4294967296) }
    ensures { Tells result (reaches w page) }
{
    if w.va + w.raw <= page {
        return false;
    }
    if page + 4096 <= w.va {
        return false;
    }
    true
}

// The first section header that can hold a byte of the page.
fn first_row(image: &[u8], m: Module, page: usize) -> Option<usize>
    requires { Fits image.now m × (page < 4294967296) }
    ensures { MatchOption result (FirstRow image.now m page m.rows) (λ i. (i < m.rows) × FirstRow image.now m page i) }
{
    for i in 0..m.rows {
        if row_reaches(inside_rows::row_at(image, m.table, i), page) {
            return Some(i);
        }
    }
    None
}

// By the section headers: sure where the first data that the page meets lies in the module.
fn page_in(image: &[u8], m: Module, page: usize) -> Page
    requires { Fits image.now m × (page < 4294967296) × (module_number m.kind ≡ te_kind → ⊥) }
    ensures { Paged image.now m page result }
{
    let Some(i) = first_row(image, m, page) else {
        return unsure(page);
    };
    let w = inside_rows::row_at(image, m.table, i);
    if m.lo + w.ptr + page < w.va {
        return unsure(page);
    }
    if m.hi < m.lo + w.ptr + w.raw {
        return unsure(page);
    }
    Page {
        page,
        at: m.lo + w.ptr + page - w.va,
        floor: floor_of(page, w.va),
        room: w.va + w.raw - page,
    }
}

// By the shift of a TE module.
fn page_shifted(image: &[u8], m: Module, page: usize) -> Page
    requires { Fits image.now m × (page < 4294967296) × (module_number m.kind ≡ te_kind) }
    ensures { Paged image.now m page result }
{
    if m.lo + page + 40 < m.stripped {
        return unsure(page);
    }
    let at = m.lo + page + 40 - m.stripped;
    if m.hi < at {
        return unsure(page);
    }
    Page {
        page,
        at,
        floor: floor_of(page + 40, m.stripped),
        room: m.hi - at,
    }
}

// Where this page lies.
pub fn page_of(image: &[u8], m: Module, page: usize) -> Page
    requires { Fits image.now m × (page < 4294967296) }
    ensures { Paged image.now m page result }
{
    if m.kind == ModuleKind::Te {
        return page_shifted(image, m, page);
    }
    page_in(image, m, page)
}
