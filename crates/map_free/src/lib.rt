// Request #111: the runs of free bytes, found one after the other in rows that ascend: each row is passed once.
#![tactic(auto)]

ghost use Rattle.std.specs.Prelude.{◌≡◌, ◌+◌, ◌^◌, ◌≤◌, ◌<◌, Some, None, MatchOption, length};
ghost use Rattle.map_ranges.specs.Table.{row_at};
ghost use Rattle.map_ranges.specs.Ranges.{ends};
ghost use Rattle.facts.specs.Fact.{Holds};
ghost use Rattle.map_free.specs.Look.{reach_of, further, Upto, Table, Swept, TakesRow, Advances, Limits, Ahead, Stretches, NoneFrom, Extending, Skips, Extends, Nexts};

use map_ranges::Range;

// How many rows are passed, and the highest byte of the memory among them and of the reserved ranges, if there are any.
#[derive(Clone, Copy)]
pub struct Reach {
    pub i: usize,
    pub memory: Option<u64>,
    pub reserved: Option<u64>,
}

// Up to which byte all are free, or none is.
#[derive(Clone, Copy)]
pub enum Stretch {
    AllFree(u64),
    NoneFree(u64),
}

// A run of free bytes, and how far the sweep has come.
#[derive(Clone, Copy)]
pub struct Found {
    pub first: u64,
    pub last: u64,
    pub sweep: Reach,
}

// Where a run ends, and how far the sweep has come.
#[derive(Clone, Copy)]
pub struct Ended {
    pub last: u64,
    pub sweep: Reach,
}

// Before any row.
pub fn start() -> Reach
    ensures { result ≡ reach_of 0 None None }
{
    Reach {
        i: 0,
        memory: None,
        reserved: None,
    }
}

// The higher of a byte and the highest so far.
fn further(reach: Option<u64>, last: u64) -> u64
    ensures { result ≡ further reach last }
{
    match reach {
        Some(far) => far.max(last),
        None => last,
    }
}

// One row more.
fn take_row(s: Reach, r: Range) -> Reach
    requires { Holds (ends r) × (s.i < 128) }
    ensures { TakesRow s r result }
{
    let i = s.i + 1;
    if r.size == 0 {
        return Reach { i, ..s };
    }
    let last = r.start + (r.size - 1);
    match r.code {
        map_ranges::MEMORY => Reach {
            i,
            memory: Some(further(s.memory, last)),
            reserved: s.reserved,
        },
        map_ranges::RESERVED => Reach {
            i,
            memory: s.memory,
            reserved: Some(further(s.reserved, last)),
        },
        _ => Reach { i, ..s },
    }
}

// All rows that start at x or below it.
fn advance(rows: &[Range], from: Reach, x: u64) -> Reach
    requires { Table rows.now × Swept rows.now x from }
    ensures { Advances rows.now x result }
{
    let mut s = from;
    while s.i < rows.len() && rows[s.i].start <= x {
        s = take_row(s, rows[s.i]);
    }
    s
}

// The last byte below all rows from i on.
fn limit(rows: &[Range], i: usize) -> u64
    requires { i < length rows.now → 0 < (row_at rows.now i).start }
    ensures { Limits rows.now i result }
{
    if rows.len() <= i {
        return u64::MAX;
    }
    rows[i].start - 1
}

// The highest byte reached, if it isn't below x.
fn ahead(reach: Option<u64>, x: u64) -> Option<u64>
    ensures { Ahead reach x result }
{
    match reach {
        Some(last) if x <= last => Some(last),
        _ => None,
    }
}

// From x on, how far all bytes are free or none is.
fn stretch_from(rows: &[Range], s: Reach, x: u64) -> Stretch
    requires { Table rows.now × Advances rows.now x s }
    ensures { Stretches rows.now x result }
{
    if let Some(hold) = ahead(s.reserved, x) {
        return Stretch::NoneFree(hold);
    }
    let end = limit(rows, s.i);
    match ahead(s.memory, x) {
        Some(reach) => Stretch::AllFree(reach.min(end)),
        None => Stretch::NoneFree(end),
    }
}

// The first free byte from `start` on, and up to where all are free from there.
fn skip(rows: &[Range], from: Reach, start: u64) -> Option<Found>
    requires { Table rows.now × Swept rows.now start from }
    ensures { MatchOption result (NoneFrom rows.now start) (λ f. Skips rows.now start f × Swept rows.now f.first f.sweep) }
{
    let mut s = from;
    let mut at = start;
    loop {
        s = advance(rows, s, at);
        match stretch_from(rows, s, at) {
            Stretch::AllFree(last) => {
                return Some(Found {
                    first: at,
                    last,
                    sweep: s,
                });
            }
            Stretch::NoneFree(u64::MAX) => return None,
            Stretch::NoneFree(last) => at = last + 1,
        }
    }
}

// The last byte of the run that has `first`, where all are free from there up to `known`.
fn extend(rows: &[Range], from: Reach, first: u64, known: u64) -> Ended
    requires { Table rows.now × Swept rows.now first from × Extending rows.now first known }
    ensures { Extends rows.now first result.last × Swept rows.now (result.last + 1) result.sweep }
{
    let mut s = from;
    let mut last = known;
    loop {
        if last == u64::MAX {
            return Ended { last, sweep: s };
        }
        s = advance(rows, s, last + 1);
        match stretch_from(rows, s, last + 1) {
            Stretch::AllFree(more) => last = more,
            Stretch::NoneFree(_) => return Ended { last, sweep: s },
        }
    }
}

// The first run of free bytes from `at` on, where none goes through `at`.
pub fn next_span(rows: &[Range], from: Reach, at: u64) -> Option<Found>
    requires { Table rows.now × Swept rows.now at from }
    ensures { MatchOption result (NoneFrom rows.now at) (λ f. Nexts rows.now at f × Swept rows.now (f.last + 1) f.sweep) }
{
    let f = skip(rows, from, at)?;
    let e = extend(rows, f.sweep, f.first, f.last);
    Some(Found {
        first: f.first,
        last: e.last,
        sweep: e.sweep,
    })
}
