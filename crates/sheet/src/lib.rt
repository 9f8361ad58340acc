// Document 01, "The release sheet".
#![tactic(auto)]

ghost use Rattle.std.specs.Prelude.{◌≡◌, ◌+◌, ◌-◌, ◌*◌, ◌≤◌, ◌<◌, length, MatchOption};
ghost use Rattle.facts.specs.Fact.{Holds, Tells, every};
ghost use Rattle.sheet.specs.Sheet.{sheet_identity, count, offset, size, position, entry_at, follows, contents_fit, bodies_fit, sheet_fits, same_identity, in_field, field_fits};
ghost use Rattle.sheet.specs.ReadSheet.{ReadsSheet};

use answers::Identity;
use std::marker::Model;

// An entry of a sheet.
#[derive(Clone, Copy)]
pub struct Entry {
    pub offset: usize,
    pub size: usize,
    pub position: usize,
}

// Entry i of the sheet.
pub fn entry_at(sheet: &[u8], i: usize) -> Entry
    requires { (i < 256) × (16 + 8 * i + 8 ≤ length sheet.now) }
    ensures value { result ≡ entry_at sheet.now i }
    ensures offset_bound { (result.offset < 4294967296) × (result.size < 65536) }
{
    let at = 16 + 8 * i;
    Entry {
        offset: words::le32(sheet, at),
        size: words::le16(sheet, at + 4),
        position: words::le16(sheet, at + 6),
    }
}

// Rule 15 for the contents.
fn contents_fit(sheet: &[u8]) -> bool
    ensures { Tells result (contents_fit sheet.now) }
{
    if sheet.len() < 16 {
        return false;
    }
    if 65535 < sheet.len() {
        return false;
    }
    let m = words::le16(sheet, 12);
    if 256 < m {
        return false;
    }
    if sheet.len() < 16 + 8 * m {
        return false;
    }
    true
}

// Rule 15 for one entry, where the running body position and the end of the entry before are these.
fn entry_fits(w: Entry, body: usize, last: usize) -> bool
    ensures { Tells result (follows w body last) }
{
    if w.size < 1 {
        return false;
    }
    if w.position != body {
        return false;
    }
    if w.offset < last {
        return false;
    }
    true
}

// Rule 15 for the entries and their bodies.
fn bodies_fit(sheet: &[u8]) -> bool
    requires { Holds (contents_fit sheet.now) }
    ensures { Tells result (bodies_fit sheet.now) }
{
    let m = words::le16(sheet, 12);
    let mut body = 16 + 8 * m;
    let mut last = 0;
    for i in 0..m {
        let w = entry_at(sheet, i);
        if !entry_fits(w, body, last) {
            return false;
        }
        body += w.size;
        last = w.offset + w.size;
    }
    if body != sheet.len() {
        return false;
    }
    true
}

// Rule 15.
pub fn sheet_fits(sheet: &[u8]) -> bool
    ensures { Tells result (sheet_fits sheet.now) }
{
    if !contents_fit(sheet) {
        return false;
    }
    if !bodies_fit(sheet) {
        return false;
    }
    true
}

// Rule 17 for one entry.
fn field_fits(w: Entry, z: usize) -> bool
    requires { (w.offset < 4294967296) × (w.size < 65536) }
    ensures { Tells result (in_field w z) }
{
    if w.offset < 32 {
        return false;
    }
    if z < w.offset + w.size {
        return false;
    }
    true
}

// The identity that a sheet names.
pub fn identity_of(sheet: &[u8]) -> Identity
    requires { 16 ≤ length sheet.now }
    ensures { result ≡ sheet_identity sheet.now }
{
    Identity {
        image: words::le64(sheet, 0) as u64,
        revision: words::le32(sheet, 8) as u32,
        extended: words::le16(sheet, 14) as u32,
    }
}

// Bytes that pass rule 15; contracts see a sheet as its bytes.
#[derive(Drop)]
pub struct Sheet<'a> {
    bytes: &'a [u8],
}

impl<'a> Model for Sheet<'a> {
    ghost use Rattle.std.specs.Prelude.{List, ℕ};
    ghost use Rattle.facts.specs.Fact.{Holds};
    ghost use Rattle.sheet.specs.Sheet.{sheet_fits};

    ghost Value = { List ℕ };

    ghost view = { λ s. s.bytes.now };

    ghost invariant = { λ s. Holds (sheet_fits s.bytes.now) };
}

impl<'a> Sheet<'a> {
    // The bytes as a sheet, if they are one: rule 15.
    pub fn of(bytes: &'a [u8]) -> Option<Sheet<'a>>
        ensures { MatchOption result (Holds (sheet_fits bytes.now) → ⊥) (λ s. (s ≡ bytes.now) × Holds (sheet_fits bytes.now)) }
    {
        if !sheet_fits(bytes) {
            return None;
        }
        Some(Sheet { bytes })
    }

    // The same of bytes that are known to be one.
    pub fn known(bytes: &'a [u8]) -> Sheet<'a>
        requires { Holds (sheet_fits bytes.now) }
        ensures { result ≡ bytes.now }
    {
        Sheet { bytes }
    }

    // The bytes themselves.
    pub fn bytes(&self) -> &[u8]
        ensures { result.now ≡ self.now }
    {
        self.bytes
    }

    // How many entries there are. That the bytes pass rule 15 is what callers learn of a sheet here.
    pub fn count(&self) -> usize
        ensures value { (result ≡ count self.now) × (result ≤ 256) }
        ensures fits { Holds (sheet_fits self.now) }
    {
        words::le16(self.bytes, 12)
    }

    // Entry i, whose body lies in the sheet.
    pub fn entry(&self, i: usize) -> Entry
        requires { i < count self.now }
        ensures value { result ≡ entry_at self.now i }
        ensures offset_bound { (result.offset < 4294967296) × (result.size < 65536) }
        ensures body { result.position + result.size ≤ length self.now }
    {
        entry_at(self.bytes, i)
    }

    // The identity that the sheet names.
    pub fn identity(&self) -> Identity
        ensures { result ≡ sheet_identity self.now }
    {
        identity_of(self.bytes)
    }

    // Rule 16, for an image of this identity: the one place where identities are compared.
    pub fn names(&self, identity: Identity) -> bool
        ensures { Tells result (same_identity (sheet_identity self.now) identity) }
    {
        self.identity() == identity
    }

    // Rule 17.
    pub fn fields_fit(&self, z: usize) -> bool
        ensures { Tells result (every (count self.now) (field_fits self.now z)) }
    {
        for i in 0..self.count() {
            if !field_fits(self.entry(i), z) {
                return false;
            }
        }
        true
    }
}

// A sheet read by itself: number 0, its entries and the identity that it names; or 15 and zeros. No Result: `pajurenda_sheet` writes each
// field, and `ReadsSheet` says what they are.
#[derive(Clone, Copy)]
pub struct SheetReading {
    pub number: u32,
    pub count: usize,
    pub identity: Identity,
}

// Reads a sheet, whatever it is, by rule 15 alone.
pub fn read_sheet(sheet: &[u8]) -> SheetReading
    ensures { ReadsSheet sheet.now result }
{
    match Sheet::of(sheet) {
        None => SheetReading {
            number: 15,
            count: 0,
            identity: Identity {
                image: 0,
                revision: 0,
                extended: 0,
            },
        },
        Some(read) => SheetReading {
            number: 0,
            count: read.count(),
            identity: read.identity(),
        },
    }
}
