// Request #101: the hand-off blocks, one a step. The cursor goes in and comes back by value; any bytes, any cursor.
#![tactic(auto)]

ghost use Rattle.std.specs.Prelude.{◌≡◌, ◌+◌, ◌≤◌, ◌<◌, length};
ghost use Rattle.facts.specs.Fact.{Tells};
ghost use Rattle.facts.specs.Rules.{run};
ghost use Rattle.handoff_step.specs.Step.{refusal, shown, head_fits, resource_at, from_later, from_first, from_head, stepped, Steps};
ghost use Rattle.handoff_step.specs.Passing.{brief, at_least, at_end};
ghost use Rattle.handoff_step.specs.Types.{Typed};

// Where the next block should stand, counted from the buffer's start. Anyone may make one up.
#[derive(Clone, Copy)]
pub struct Cursor {
    pub at: usize,
}

// What a block is, with the data of its kind. Nothing is the kind of a refused step, which shows no block.
#[derive(Clone, Copy)]
pub enum Kind {
    Nothing,
    Unknown,
    Handoff,
    // The code is the resource's own type.
    Resource {
        code: u32,
        attributes: u32,
        start: u64,
        length: u64,
    },
    Guid {
        place: usize,
        length: usize,
    },
    End,
}

// A block as it is shown: its place from the buffer's start, its type as a number, and its length with the header.
#[derive(Clone, Copy)]
pub struct Block {
    pub place: usize,
    pub code: usize,
    pub length: usize,
    pub kind: Kind,
}

// The answer of a step: number 0, the next cursor and the block; or the refusal's number, the same cursor and no block. `pajurenda` writes
// it to C field by field.
#[derive(Clone, Copy)]
pub struct Stepped {
    pub number: u32,
    pub next: Cursor,
    pub block: Block,
}

// What a walk over all blocks needs of a step: where the next block should stand, and the type of the one that is passed. A block's own data
// isn't read.
#[derive(Clone, Copy)]
pub struct Pass {
    pub next: usize,
    pub code: usize,
}

// The types of block that the rules name.
#[derive(Clone, Copy)]
enum BlockType {
    Handoff,
    Resource,
    Guid,
    End,
    Other,
}

impl From<usize> for BlockType {
    fn from(code: usize) -> BlockType
        ensures { Typed code result }
    {
        match code {
            1 => BlockType::Handoff,
            3 => BlockType::Resource,
            4 => BlockType::Guid,
            65535 => BlockType::End,
            _ => BlockType::Other,
        }
    }
}

fn refused(at: usize, number: u32) -> Stepped
    ensures { result ≡ refusal at number 0 }
{
    let kind = Kind::Nothing;
    let block = Block {
        place: 0,
        code: 0,
        length: 0,
        kind,
    };
    Stepped {
        number,
        next: Cursor { at },
        block,
    }
}

fn show(at: usize, t: usize, n: usize, next: usize, kind: Kind) -> Stepped
    ensures { result ≡ shown at t n next kind }
{
    let block = Block {
        place: at,
        code: t,
        length: n,
        kind,
    };
    Stepped {
        number: 0,
        next: Cursor { at: next },
        block,
    }
}

// A resource's own data.
fn resource_at(buffer: &[u8], at: usize) -> Kind
    requires { at + 48 ≤ length buffer.now }
    ensures { result ≡ resource_at buffer.now at }
{
    Kind::Resource {
        code: words::le32(buffer, at + 24) as u32,
        attributes: words::le32(buffer, at + 28) as u32,
        start: words::le64(buffer, at + 32) as u64,
        length: words::le64(buffer, at + 40) as u64,
    }
}

// 30: whether a block's header and the length in it fit.
pub fn head_fits(buffer: &[u8], at: usize) -> bool
    requires { at < length buffer.now }
    ensures { Tells result (head_fits buffer.now at) }
{
    if buffer.len() - at < 8 {
        return false;
    }
    let n = words::le16(buffer, at + 2);
    if n < 8 {
        return false;
    }
    if n % 8 != 0 {
        return false;
    }
    if buffer.len() - at < n {
        return false;
    }
    true
}

// 33 for a resource or a GUID block.
fn pass_least(at: usize, code: usize, n: usize, least: usize) -> Result<Pass, u32>
    requires { at + n < 18446744073709551616 }
    ensures { result ≡ at_least at code n least }
{
    if n < least {
        return Err(33);
    }
    Ok(Pass { next: at + n, code })
}

// 33 for an end block, on which the cursor stays.
fn pass_end(at: usize, n: usize) -> Result<Pass, u32>
    ensures { result ≡ at_end at n }
{
    if n != 8 {
        return Err(33);
    }
    Ok(Pass {
        next: at,
        code: 65535,
    })
}

// A block after the first, by its type.
fn pass_later(buffer: &[u8], at: usize, t: usize, n: usize) -> Result<Pass, u32>
    requires { at + n ≤ length buffer.now }
    ensures { result ≡ brief (run (refusal at) (from_later buffer.now at t n)) }
{
    match BlockType::from(t) {
        BlockType::Resource => pass_least(at, t, n, 48),
        BlockType::Guid => pass_least(at, t, n, 24),
        BlockType::End => pass_end(at, n),
        BlockType::Handoff | BlockType::Other => Ok(Pass {
            next: at + n,
            code: t,
        }),
    }
}

// 31: the first block.
fn pass_first(t: usize, n: usize) -> Result<Pass, u32>
    ensures { result ≡ brief (run (refusal 0) (from_first t n)) }
{
    let BlockType::Handoff = BlockType::from(t) else {
        return Err(31);
    };
    if n != 56 {
        return Err(31);
    }
    Ok(Pass { next: n, code: t })
}

// 30, then what the block's place asks of it.
fn pass_head(buffer: &[u8], at: usize) -> Result<Pass, u32>
    requires { at < length buffer.now }
    ensures { result ≡ brief (run (refusal at) (from_head buffer.now at)) }
{
    if !head_fits(buffer, at) {
        return Err(30);
    }
    let t = words::le16(buffer, at);
    let n = words::le16(buffer, at + 2);
    if at == 0 {
        return pass_first(t, n);
    }
    pass_later(buffer, at, t, n)
}

// A step at `at`, in brief; or the number of 30 to 33, as C has it.
pub fn pass_one(buffer: &[u8], at: usize) -> Result<Pass, u32>
    ensures { result ≡ brief (stepped buffer.now at) }
{
    if buffer.len() <= at {
        return Err(32);
    }
    pass_head(buffer, at)
}

// What a block that is passed is, with its own data.
fn kind_at(buffer: &[u8], at: usize, t: usize, n: usize) -> Kind
    requires { ((stepped buffer.now at).number ≡ 0) × (t ≡ (stepped buffer.now at).block.code)
        × (n ≡ (stepped buffer.now at).block.length) }
    ensures { result ≡ (stepped buffer.now at).block.kind }
{
    if at == 0 {
        return Kind::Handoff;
    }
    match BlockType::from(t) {
        BlockType::Resource => resource_at(buffer, at),
        BlockType::Guid => Kind::Guid {
            place: at + 24,
            length: n - 24,
        },
        BlockType::End => Kind::End,
        BlockType::Handoff | BlockType::Other => Kind::Unknown,
    }
}

impl Cursor {
    // The block at the cursor, and the cursor after it.
    pub fn step(self, buffer: &[u8]) -> Stepped
        ensures { Steps buffer.now self.at result }
    {
        let at = self.at;
        let s = match pass_one(buffer, at) {
            Ok(s) => s,
            Err(number) => return refused(at, number),
        };
        let n = words::le16(buffer, at + 2);
        show(at, s.code, n, s.next, kind_at(buffer, at, s.code, n))
    }
}
