// Request #111: the memory map of a hand-off list.
#![tactic(auto)]

ghost use Rattle.std.specs.Prelude.{◌≡◌, ◌+◌, ◌*◌, ◌≤◌, length};
ghost use Rattle.words.specs.Put.{put};
ghost use Rattle.map_free.specs.Look.{Table};
ghost use Rattle.map_list.specs.Map.{refused_map, Maps};
ghost use Rattle.map_list.specs.MapLaws.{Written};

use map_ranges::Range;

// Number 0 and how many runs of free bytes there are, or a refusal's number and 0. `pajurenda_map` writes it to C field by field.
#[derive(Clone, Copy)]
pub struct Mapped {
    pub number: u32,
    pub count: usize,
}

fn refused(number: u32) -> Mapped
    ensures { result ≡ refused_map number 0 }
{
    Mapped { number, count: 0 }
}

// Run i of the map, in 16 bytes.
fn put_span(out: &mut [u8], i: usize, first: u64, last: u64)
    requires { 16 * i + 16 ≤ length out.old }
    ensures { out.new ≡ put 8 (put 8 out.old (16 * i) first) (16 * i + 8) last }
{
    words::put64(out, 16 * i, first);
    words::put64(out, 16 * i + 8, last);
}

// Each run of free bytes by its first and its last byte, and how many there are.
fn write_spans(rows: &[Range], out: &mut [u8]) -> usize
    requires { Table rows.now × (2048 ≤ length out.old) }
    ensures { Written rows.now out.old result out.new }
{
    let mut at = 0;
    let mut count = 0;
    let mut sweep = map_free::start();
    while let Some(s) = map_free::next_span(rows, sweep, at) {
        put_span(out, count, s.first, s.last);
        count += 1;
        if s.last == u64::MAX {
            return count;
        }
        at = s.last + 1;
        sweep = s.sweep;
    }
    count
}

// The memory map of a dump, whatever its bytes are; or a refusal that changes nothing.
pub fn map(dump: &[u8], out: &mut [u8]) -> Mapped
    ensures { Maps dump.now out.old result out.new }
{
    if out.len() < 2048 {
        return refused(100);
    }
    let mut table = [map_ranges::EMPTY; 128];
    match map_order::collect(dump, &mut table) {
        Err(number) => refused(number),
        Ok(n) => Mapped {
            number: 0,
            count: write_spans(&table[..n], out),
        },
    }
}
