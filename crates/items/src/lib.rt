// What the walk over a volume meets, one after the other.
#![tactic(auto)]

// What an item is.
#[derive(Clone, Copy, PartialEq, Eq)]
pub enum Kind {
    // Nothing is left.
    End,
    // Bytes that are looked at.
    Kept,
    // A word that moves.
    Word,
    // An entry that is passed over.
    Skipped,
    // An entry of another type.
    Alien,
    // What isn't there as it should be.
    Broken,
    // A word outside its module.
    Lost,
}

// Its kind; then the place and the count of its bytes.
#[derive(Clone, Copy)]
pub struct Item {
    pub kind: Kind,
    pub at: usize,
    pub len: usize,
}
