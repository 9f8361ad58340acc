// Request #107: the headers of a PE32 or TE module.
#![tactic(auto)]

ghost use Rattle.std.specs.Prelude.{◌≡◌, ◌+◌, ◌*◌, ◌≤◌, ◌<◌, length};
ghost use Rattle.facts.specs.Fact.{Tells};
ghost use Rattle.inside_modules.specs.Modules.{counted, kind_fits, from_kind};
ghost use Rattle.inside_modules.specs.Modules.{room_fits, from_optional, pe_fits, from_pe, dos_fits, pe_of, te_fits, te_of, module_of};

use inside_rows::{Module, ModuleKind};

fn counted_at(image: &[u8], count: usize, at: usize) -> usize
    requires { 5 < count → at + 4 ≤ length image.now }
    ensures { result ≡ counted image.now count at }
{
    if 5 < count {
        return words::le32(image, at);
    }
    0
}

fn kind_fits(image: &[u8], opt: usize, soh: usize, fixed: usize) -> bool
    requires { (4 ≤ fixed) × (fixed ≤ 112) × (opt + soh ≤ length image.now) }
    ensures { Tells result (kind_fits image.now opt soh fixed) }
{
    if soh < fixed {
        return false;
    }
    if soh < fixed + 8 * words::le32(image, opt + (fixed - 4)) {
        return false;
    }
    true
}

fn from_kind(
    image: &[u8],
    lo: usize,
    hi: usize,
    opt: usize,
    soh: usize,
    rows: usize,
    fixed: usize,
    b: usize,
    w: usize,
) -> Module
    requires { (4 ≤ fixed) × (fixed ≤ 112) × (b ≤ 112) × (24 ≤ opt) × (lo ≤ 16777216) × (opt + soh + 40 * rows ≤ length image.now) }
    ensures { result ≡ from_kind image.now lo hi opt soh rows fixed b w }
{
    if !kind_fits(image, opt, soh, fixed) {
        return inside_rows::refused();
    }
    let count = words::le32(image, opt + (fixed - 4));
    let dir = counted_at(image, count, opt + fixed + 40);
    let size = counted_at(image, count, opt + fixed + 44);
    let m = Module {
        kind: ModuleKind::Pe32,
        lo,
        hi,
        pe: opt - 24,
        base: opt + b,
        width: w,
        table: opt + soh,
        rows,
        stripped: 40,
        dir,
        size,
    };
    inside_rows::judge(image, m)
}

fn from_optional(image: &[u8], lo: usize, hi: usize, opt: usize, soh: usize, rows: usize) -> Module
    requires { (hi ≤ length image.now) × (24 ≤ opt) × (opt < 8589934592) × (soh < 65536) × (rows < 65536) × (lo ≤ 16777216) }
    ensures { result ≡ from_optional image.now lo hi opt soh rows }
{
    if soh < 2 {
        return inside_rows::refused();
    }
    if hi < opt + soh + 40 * rows {
        return inside_rows::refused();
    }
    let magic = words::le16(image, opt);
    if magic == 0x10B {
        return from_kind(image, lo, hi, opt, soh, rows, 96, 28, 4);
    }
    if magic == 0x20B {
        return from_kind(image, lo, hi, opt, soh, rows, 112, 24, 8);
    }
    inside_rows::refused()
}

fn from_pe(image: &[u8], lo: usize, hi: usize, pe: usize) -> Module
    requires { (hi ≤ length image.now) × (pe < 8589934000) × (lo ≤ 16777216) }
    ensures { result ≡ from_pe image.now lo hi pe }
{
    if hi < pe + 24 {
        return inside_rows::refused();
    }
    if words::le32(image, pe) != 0x4550 {
        return inside_rows::refused();
    }
    let soh = words::le16(image, pe + 20);
    let rows = words::le16(image, pe + 6);
    from_optional(image, lo, hi, pe + 24, soh, rows)
}

fn pe_of(image: &[u8], lo: usize, hi: usize) -> Module
    requires { (hi ≤ length image.now) × (lo ≤ hi) × (hi ≤ 16777216) }
    ensures { result ≡ pe_of image.now lo hi }
{
    if hi < lo + 64 {
        return inside_rows::refused();
    }
    if words::le16(image, lo) != 0x5A4D {
        return inside_rows::refused();
    }
    let e = words::le32(image, lo + 60);
    from_pe(image, lo, hi, lo + e)
}

fn te_fits(image: &[u8], lo: usize, hi: usize) -> bool
    requires { (hi ≤ length image.now) × (lo ≤ hi) × (hi ≤ 16777216) }
    ensures { Tells result (te_fits image.now lo hi) }
{
    if hi < lo + 40 {
        return false;
    }
    if words::le16(image, lo) != 0x5A56 {
        return false;
    }
    if hi < lo + 40 + 40 * words::byte(image, lo + 4) {
        return false;
    }
    true
}

fn te_of(image: &[u8], lo: usize, hi: usize) -> Module
    requires { (hi ≤ length image.now) × (lo ≤ hi) × (hi ≤ 16777216) }
    ensures { result ≡ te_of image.now lo hi }
{
    if !te_fits(image, lo, hi) {
        return inside_rows::refused();
    }
    let rows = words::byte(image, lo + 4);
    let stripped = words::le16(image, lo + 6);
    let dir = words::le32(image, lo + 24);
    let size = words::le32(image, lo + 28);
    let m = Module {
        kind: ModuleKind::Te,
        lo,
        hi,
        pe: lo,
        base: lo + 16,
        width: 8,
        table: lo + 40,
        rows,
        stripped,
        dir,
        size,
    };
    inside_rows::judge(image, m)
}

// The module at lo..hi-1, in a section of type t.
pub fn module_of(image: &[u8], t: usize, lo: usize, hi: usize) -> Module
    requires { (hi ≤ length image.now) × (lo ≤ hi) × (hi ≤ 16777216) }
    ensures { result ≡ module_of image.now t lo hi }
{
    if t == 0x10 {
        return pe_of(image, lo, hi);
    }
    if t == 0x12 {
        return te_of(image, lo, hi);
    }
    inside_rows::none()
}
