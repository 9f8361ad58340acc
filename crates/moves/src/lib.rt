// Moving a list of words, of whatever kind: what a move adds, definitions and laws.
#![tactic(auto)]

// What a move adds, with wraparound, to a word of 4 bytes and to one of 8.
#[derive(Clone, Copy)]
pub struct Shift {
    pub four: u32,
    pub eight: u64,
}
