// Request #111: the ranges of memory that a hand-off list names, gathered into a table in one walk, and the refusals 30 to 35.
#![tactic(auto)]

ghost use Rattle.std.specs.Prelude.{◌≡◌, ◌+◌, ◌^◌, ◌≤◌, ◌<◌, MatchOption, [], ◌∷◌};
ghost use Rattle.facts.specs.Fact.{Tells};
ghost use Rattle.handoff_step.specs.Step.{type_at};
ghost use Rattle.map_ranges.specs.Ranges.{ends};
ghost use Rattle.map_ranges.specs.RangesLaws.{range_here, Standing};
ghost use Rattle.map_ranges.specs.Gathering.{Gathers, Takes, Finishes};

// So many bytes from `start` on, of a resource type.
#[derive(Clone, Copy)]
pub struct Range {
    pub code: u32,
    pub start: u64,
    pub size: u64,
}

// The resource types that count, by the codes that a block has: the theorems of the map speak of these numbers.
pub const MEMORY: u32 = 0;

pub const RESERVED: u32 = 5;

// What stands in each row of a table before any range is gathered.
pub const EMPTY: Range = Range {
    code: MEMORY,
    start: 0,
    size: 0,
};

// The range of the block at `at`, if it is a resource of a type that counts.
fn range_at(dump: &[u8], at: usize, t: usize) -> Option<Range>
    requires { Standing dump.now at × (t ≡ type_at dump.now at) }
    ensures { MatchOption result (range_here dump.now at ≡ []) (λ r. range_here dump.now at ≡ r ∷ []) }
{
    if t != 3 {
        return None;
    }
    let code = words::le32(dump, at + 24) as u32;
    if code != MEMORY && code != RESERVED {
        return None;
    }
    Some(Range {
        code,
        start: words::le64(dump, at + 32) as u64,
        size: words::le64(dump, at + 40) as u64,
    })
}

// 34: whether a range ends at 2^64 or below.
fn range_ends(r: Range) -> bool
    ensures { Tells result (ends r) }
{
    r.start == 0 || r.size <= u64::MAX - r.start + 1
}

// Whether all ranges so far end at 2^64 or below, and how many there are.
#[derive(Clone, Copy)]
pub struct Taken {
    pub fit: bool,
    pub count: usize,
}

// The range of the block at `at`, if it has one.
fn take(dump: &[u8], at: usize, t: usize, table: &mut [Range; 128], so_far: Taken) -> Taken
    requires { Standing dump.now at × (t ≡ type_at dump.now at) × (so_far.count < 18446744073709551615) }
    ensures { Takes (range_here dump.now at) table.old so_far result table.new }
{
    let Some(r) = range_at(dump, at, t) else {
        return so_far;
    };
    if so_far.count < 128 {
        table[so_far.count] = r;
    }
    Taken {
        fit: so_far.fit && range_ends(r),
        count: so_far.count + 1,
    }
}

// 34, then 35, or all ranges are in the table.
fn finish(taken: Taken) -> Result<usize, u32>
    ensures { Finishes taken result }
{
    if !taken.fit {
        return Err(34);
    }
    if 128 < taken.count {
        return Err(35);
    }
    Ok(taken.count)
}

// How many ranges a hand-off list has, and those in its order; or the number of 30 to 35, as C has it. Any bytes. The list is judged to its
// end before 34 and 35 are told.
pub fn gather(dump: &[u8], table: &mut [Range; 128]) -> Result<usize, u32>
    ensures { Gathers dump.now result table.new }
{
    let mut at = 0;
    let mut taken = Taken {
        fit: true,
        count: 0,
    };
    loop {
        let s = handoff_list::pass_one(dump, at)?;
        if s.code == 65535 {
            return finish(taken);
        }
        taken = take(dump, at, s.code, table, taken);
        at = s.next;
    }
}
