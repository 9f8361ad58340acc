// What the calls answer: records alone, so that whoever judges, writes or shows an answer needs nothing of what made it.
#![tactic(auto)]

// What tells one release of an image from another: the image identity, the revision, and the extended number.
#[derive(Clone, Copy, PartialEq, Eq)]
pub struct Identity {
    pub image: u64,
    pub revision: u32,
    pub extended: u32,
}

// The answer of a reading: number 0 and the fields, or the refusal's number and index and zero in every other field.
// Here and below a record with a number, and no Result: a C call (`pajurenda_read`) writes each field, zeros too, and the theorems
// (`Reads`, `Reads2`, the demands) speak of `number`.
#[derive(Clone, Copy)]
pub struct Reading {
    pub number: u32,
    pub index: usize,
    pub H: usize,
    pub component: usize,
    pub identity: Identity,
    pub base: u64,
    pub c: usize,
    pub z: usize,
    pub n: usize,
    pub E: usize,
}

// The answer of a release: number 0 and the move, new base minus old; or the refusal's number and index. No Result: `pajurenda_release`
// writes each field, and `Releases` says what they are.
#[derive(Clone, Copy)]
pub struct Moved {
    pub number: u32,
    pub index: usize,
    pub distance: i64,
}

// The answer of an audit: number 0 or 20 and the base and counts, or another refusal's number and index and zeros. No Result:
// `pajurenda_audit` writes each field, `Audits` says what they are, and 20 is a refusal that has counts.
#[derive(Clone, Copy)]
pub struct Audited {
    pub number: u32,
    pub index: usize,
    pub base: u64,
    pub settings: usize,
    pub strays: usize,
    pub bits: usize,
    pub explained: bool,
}

// The answer: number 0 or 20 and the counts, or another refusal's number and index and zeros. No Result: `pajurenda_contents` writes each
// field, and `Lists` says what they are.
#[derive(Clone, Copy)]
pub struct Listed {
    pub number: u32,
    pub index: usize,
    pub modules: usize,
    pub words: usize,
    pub entries: usize,
}

// The answer of a lookup: number 0 and where in the image the setting stands, or the refusal's number and zeros. No Result:
// `pajurenda_setting` writes each field, and `Finds` says what they are.
#[derive(Clone, Copy)]
pub struct Found {
    pub number: u32,
    pub place: u64,
    pub length: u64,
}
