// Request #111: a place for an image in the free memory of a hand-off list.
#![tactic(auto)]

ghost use Rattle.std.specs.Prelude.{◌≡◌, ◌≤◌, ◌<◌};
ghost use Rattle.map_free.specs.Free.{span};
ghost use Rattle.map_free.specs.Look.{Table};
ghost use Rattle.map_place.specs.Place.{refused_place, Places};
ghost use Rattle.map_place.specs.PlaceLaws.{BaseIn, Finds};

use map_ranges::Range;

// Number 0 and the base, or a refusal's number and 0. `pajurenda_map` writes it to C field by field.
#[derive(Clone, Copy)]
pub struct Placed {
    pub number: u32,
    pub base: u64,
}

fn refused(number: u32) -> Placed
    ensures { result ≡ refused_place number 0 }
{
    Placed { number, base: 0 }
}

// The lowest base for `size` bytes in one run.
fn base_in(first: u64, last: u64, size: u64) -> Option<u64>
    requires { (1 ≤ size) × (size ≤ 16777216) }
    ensures { BaseIn size (span first last) result }
{
    if 4294967296 <= first {
        return None;
    }
    let base = (first + 4095) / 4096 * 4096;
    if !header::legal(base, size as usize) {
        return None;
    }
    if last < base + (size - 1) {
        return None;
    }
    Some(base)
}

// The lowest base in all free memory.
fn find(rows: &[Range], size: u64) -> Option<u64>
    requires { Table rows.now × (1 ≤ size) × (size ≤ 16777216) }
    ensures { Finds rows.now size result }
{
    let mut at = 0;
    let mut sweep = map_free::start();
    while let Some(s) = map_free::next_span(rows, sweep, at) {
        if let Some(base) = base_in(s.first, s.last, size) {
            return Some(base);
        }
        if s.last == u64::MAX {
            return None;
        }
        at = s.last + 1;
        sweep = s.sweep;
    }
    None
}

// The lowest legal base at which an image of `size` bytes lies whole in one run of free bytes of the dump, whatever its bytes are.
pub fn place(dump: &[u8], size: u64) -> Placed
    ensures { Places dump.now size result }
{
    let mut table = [map_ranges::EMPTY; 128];
    let n = match map_order::collect(dump, &mut table) {
        Ok(n) => n,
        Err(number) => return refused(number),
    };
    if size == 0 {
        return refused(36);
    }
    if 16777216 < size {
        return refused(36);
    }
    match find(&table[..n], size) {
        Some(base) => Placed { number: 0, base },
        None => refused(37),
    }
}
