// Request #107: where a relative address lies in a module.
#![tactic(auto)]

ghost use Rattle.std.specs.Prelude.{◌≡◌, ◌+◌, ◌*◌, ◌≤◌, ◌<◌, length};
ghost use Rattle.facts.specs.Fact.{Tells};
ghost use Rattle.inside_modules.specs.ModulesFit.{Fits};
ghost use Rattle.inside_places.specs.Places.{covers, found_in, te_holds, shifted, found};

use inside_rows::{Module, ModuleKind, Row};

// The place of an address, and where the data ends in which it lies. Both are the module's end where it lies in none: no Option,
// since whoever asks refuses what ends past the module by the same test.
#[derive(Clone, Copy)]
pub struct Span {
    pub at: usize,
    pub end: usize,
}

fn row_holds(w: Row, rva: usize, k: usize) -> bool
    requires { (w.va < 4294967296) × (w.raw < 4294967296) × (rva < 17179869184) × (k ≤ 8) }
    ensures { Tells result (covers w rva k) }
{
    if rva < w.va {
        return false;
    }
    if w.va + w.raw < rva + k {
        return false;
    }
    true
}

// By the section headers: in the first whose data holds them.
fn find_in(image: &[u8], m: Module, rva: usize, k: usize) -> Span
    requires { Fits image.now m × (rva < 17179869184) × (k ≤ 8) }
    ensures { (result ≡ found_in image.now m rva k) × (result.at < 68719476736) × (result.end < 68719476736) }
{
    for i in 0..m.rows {
        let w = inside_rows::row_at(image, m.table, i);
        if row_holds(w, rva, k) {
            return Span {
                at: m.lo + w.ptr + (rva - w.va),
                end: m.lo + w.ptr + w.raw,
            };
        }
    }
    Span {
        at: m.hi,
        end: m.hi,
    }
}

fn te_holds(m: Module, rva: usize, k: usize) -> bool
    requires { (m.lo ≤ 16777216) × (rva < 17179869184) × (k ≤ 8) }
    ensures { Tells result (te_holds m rva k) }
{
    if rva + 40 < m.stripped {
        return false;
    }
    if m.hi < m.lo + (rva + 40 - m.stripped) + k {
        return false;
    }
    true
}

// By the shift of a TE module.
fn shift(m: Module, rva: usize, k: usize) -> Span
    requires { (m.lo ≤ 16777216) × (m.hi ≤ 16777216) × (rva < 17179869184) × (k ≤ 8) }
    ensures { (result ≡ shifted m rva k) × (result.at < 68719476736) × (result.end < 68719476736) }
{
    if !te_holds(m, rva, k) {
        return Span {
            at: m.hi,
            end: m.hi,
        };
    }
    Span {
        at: m.lo + (rva + 40 - m.stripped),
        end: m.hi,
    }
}

// Where the k bytes at rva lie.
pub fn find(image: &[u8], m: Module, rva: usize, k: usize) -> Span
    requires { Fits image.now m × (rva < 17179869184) × (k ≤ 8) }
    ensures { (result ≡ found image.now m rva k) × (result.at < 68719476736) × (result.end < 68719476736) }
{
    if m.kind == ModuleKind::Te {
        return shift(m, rva, k);
    }
    find_in(image, m, rva, k)
}
