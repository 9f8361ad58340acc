// Request #101: the whole list of hand-off blocks, a step at a time.
#![tactic(auto)]

ghost use Rattle.std.specs.Prelude.{◌≡◌, ◌+◌, ◌≤◌, ◌<◌, length};
ghost use Rattle.handoff_list.specs.Blocks.{Counts};

// A step in brief, with the number of its refusal as C has it.
pub use handoff_step::{Pass, pass_one};

// How many blocks the list has up to the end block and with it, and where the end block stands; or the refusal of the first block at
// fault, where that block should stand, and how many blocks stand before it. `pajurenda` writes it to C field by field.
#[derive(Clone, Copy)]
pub struct Counted {
    pub number: u32,
    pub at: usize,
    pub count: usize,
}

// The blocks from the buffer's start on, counted.
pub fn count(buffer: &[u8]) -> Counted
    ensures { Counts buffer.now result }
{
    let mut at = 0;
    let mut count = 0;
    loop {
        let s = match pass_one(buffer, at) {
            Ok(s) => s,
            Err(number) => return Counted { number, at, count },
        };
        count += 1;
        if s.code == 65535 {
            return Counted {
                number: 0,
                at,
                count,
            };
        }
        at = s.next;
    }
}
