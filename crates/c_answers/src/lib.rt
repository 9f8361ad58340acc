// The answers of the C calls, written in a lent buffer: eight bytes a field, the number first.
#![tactic(auto)]

ghost use Rattle.std.specs.Prelude.{◌≡◌, ◌*◌, ◌≤◌, length};
ghost use Rattle.words.specs.Put.{put_all};
ghost use Rattle.c_answers.specs.Answers.{twos, read_fields, move_fields, sheet_fields, setting_fields, audit_fields, list_fields};
ghost use Rattle.c_answers.specs.Steps.{kind_fields};

use answers::{Audited, Found, Listed, Moved, Reading};
use handoff_step::Kind;
use sheet::SheetReading;

// The fields, eight bytes each, from the buffer's start on.
pub fn write_fields(answer: &mut [u8], fields: &[u64])
    requires { 8 * length fields.now ≤ length answer.old }
    ensures { answer.new ≡ put_all 8 answer.old 0 fields.now }
{
    for (i, field) in fields.iter().enumerate() {
        words::put64(answer, 8 * i, *field);
    }
}

// The fields of each answer, for the function above. These are functions and no impls of `From`: an impl would have to stand in the crate of
// the record, which knows nothing of C.
pub fn read_fields(r: Reading) -> [u64; 12]
    ensures { result ≡ read_fields r }
{
    let identity = r.identity;
    [
        r.number as u64,
        r.index as u64,
        r.H as u64,
        r.component as u64,
        identity.image,
        identity.revision as u64,
        r.base,
        r.c as u64,
        r.z as u64,
        r.n as u64,
        r.E as u64,
        identity.extended as u64,
    ]
}

// A signed number in two's complement, by how far it is from 0: what `move_answer` promises of a distance is what C is told.
fn twos_complement(x: i64) -> u64
    ensures { result ≡ twos x }
{
    let m = move_answer::magnitude(x);
    if x < 0 {
        return 18446744073709551615 - (m - 1);
    }
    m
}

pub fn move_fields(r: Moved) -> [u64; 3]
    ensures { result ≡ move_fields r }
{
    [r.number as u64, r.index as u64, twos_complement(r.distance)]
}

pub fn sheet_fields(r: SheetReading) -> [u64; 5]
    ensures { result ≡ sheet_fields r }
{
    let k = r.identity;
    [
        r.number as u64,
        r.count as u64,
        k.image,
        k.revision as u64,
        k.extended as u64,
    ]
}

pub fn setting_fields(r: Found) -> [u64; 3]
    ensures { result ≡ setting_fields r }
{
    [r.number as u64, r.place, r.length]
}

pub fn audit_fields(r: Audited) -> [u64; 7]
    ensures { result ≡ audit_fields r }
{
    [
        r.number as u64,
        r.index as u64,
        r.base,
        r.settings as u64,
        r.strays as u64,
        r.bits as u64,
        r.explained as u64,
    ]
}

pub fn list_fields(r: Listed) -> [u64; 5]
    ensures { result ≡ list_fields r }
{
    [
        r.number as u64,
        r.index as u64,
        r.modules as u64,
        r.words as u64,
        r.entries as u64,
    ]
}

// A kind of hand-off block as numbers: which, and its own data.
#[derive(Clone, Copy)]
pub struct KindFields {
    pub kind: u64,
    pub a: u64,
    pub b: u64,
    pub c: u64,
    pub d: u64,
}

// A kind with nothing of its own.
fn plain(kind: u64) -> KindFields
    ensures { result ≡ record { kind = kind; a = 0; b = 0; c = 0; d = 0 } }
{
    KindFields {
        kind,
        a: 0,
        b: 0,
        c: 0,
        d: 0,
    }
}

impl From<Kind> for KindFields {
    ghost from_gives = { λ kind r. r ≡ kind_fields kind };

    fn from(kind: Kind) -> KindFields {
        match kind {
            Kind::Nothing => plain(0),
            Kind::Handoff => plain(1),
            Kind::Resource {
                code,
                attributes,
                start,
                length,
            } => KindFields {
                kind: 2,
                a: code as u64,
                b: attributes as u64,
                c: start,
                d: length,
            },
            Kind::Guid { place, length } => KindFields {
                kind: 3,
                a: place as u64,
                b: length as u64,
                c: 0,
                d: 0,
            },
            Kind::Unknown => plain(4),
            Kind::End => plain(5),
        }
    }
}
