// Document 02, #114: a pile of sheets, and rules 15 and 16 for it.
#![tactic(auto)]

ghost use Rattle.std.specs.Prelude.{◌≡◌, ℕ, ◌<◌, List, true, slice_index};
ghost use Rattle.std.specs.Iterator.{YieldsFirstRef, item_count};
ghost use Rattle.facts.specs.Fact.{test};
ghost use Rattle.fold_pile.specs.Pile.{sheets, sheet_number, sheets_number, pile_identity, Piled, pile_fits};
ghost use Rattle.fold_pile.specs.Refused.{number_of_refusal, told};

use answers::Identity;
use sheet::Sheet;
use std::marker::Model;

// Why a pile is refused.
#[derive(Clone, Copy)]
pub enum Refusal {
    // 15: a length or a sheet is cut short, or it is no sheet.
    Unfit,
    // 16: a sheet has another identity than the first one.
    Unlike,
}

impl Refusal {
    // The rule's number.
    pub fn number(self) -> u32
        ensures { result ≡ number_of_refusal self }
    {
        match self {
            Refusal::Unfit => 15,
            Refusal::Unlike => 16,
        }
    }
}

// The sheets of a pile in their order, each after its 32-bit length; it ends where a length or a sheet is cut short.
#[derive(Drop)]
pub struct Sheets<'a> {
    rest: &'a [u8],
}

impl<'a> Model for Sheets<'a> {
    ghost Value = { List (List ℕ) };

    ghost view = { λ s. sheets s.rest.now };
}

impl<'a> Iterator for Sheets<'a> {
    type Item = &'a [u8];

    ghost next_gives = { YieldsFirstRef (λ left. left) };

    ghost remaining = { item_count (λ left. left) };

    fn next(&mut self) -> Option<&'a [u8]> {
        let (length, rest) = self.rest.split_at_checked(4)?;
        let (sheet, rest) = rest.split_at_checked(words::le32(length, 0))?;
        self.rest = rest;
        Some(sheet)
    }
}

// The sheets of a pile.
fn sheets_of(pile: &[u8]) -> Sheets<'_>
    ensures { result ≡ sheets pile.now }
{
    Sheets { rest: pile }
}

// Rules 15 and 16 for one sheet.
fn check_sheet(sheet: &[u8], first: Identity) -> Result<(), Refusal>
    ensures { told result ≡ sheet_number first sheet.now }
{
    let Some(sheet) = Sheet::of(sheet) else {
        return Err(Refusal::Unfit);
    };
    if !sheet.names(first) {
        return Err(Refusal::Unlike);
    }
    Ok(())
}

// Rules 15 and 16 for all sheets, in their order.
fn check_sheets(pile: &[u8], first: Identity) -> Result<(), Refusal>
    ensures { told result ≡ sheets_number pile.now first }
{
    let mut seen = 0;
    for sheet in sheets_of(pile) {
        check_sheet(sheet, first)?;
        seen += 4 + sheet.len();
    }
    if seen < pile.len() {
        return Err(Refusal::Unfit);
    }
    Ok(())
}

// A pile of sheets, each of which passes 15 and lies whole in it with nothing left over, and the identity of the first. That all have this
// identity (16) is what `check` tells of its bytes: who walks over the sheets need not know it.
#[derive(Clone, Copy)]
pub struct Pile<'a> {
    pub bytes: &'a [u8],
    pub first: Identity,
    ghost in_range: { (k : ℕ) → slice_index bytes.now k < 256 },
    ghost piled: { test (pile_fits bytes.now) ≡ true },
    ghost named: { first ≡ pile_identity bytes.now },
}

impl<'a> Pile<'a> {
    ghost use Rattle.fold_pile.specs.Judged.{Judged};

    // Rules 15 and 16 for the pile.
    pub fn check(bytes: &'a [u8]) -> Result<Pile<'a>, Refusal>
        ensures { Judged bytes.now result }
    {
        let Some(sheet) = sheets_of(bytes).next() else {
            return Err(Refusal::Unfit);
        };
        let Some(sheet) = Sheet::of(sheet) else {
            return Err(Refusal::Unfit);
        };
        let first = sheet.identity();
        check_sheets(bytes, first)?;
        Ok(Pile { bytes, first })
    }

    // The same of bytes that are known to be sheets, of whatever identities.
    pub fn known(bytes: &'a [u8]) -> Pile<'a>
        requires { Piled bytes.now 0 (sheets bytes.now) }
        ensures { result.bytes.now ≡ bytes.now }
    {
        let first = match sheets_of(bytes).next() {
            Some(sheet) => Sheet::known(sheet).identity(),
            None => Identity {
                image: 0,
                revision: 0,
                extended: 0,
            },
        };
        Pile { bytes, first }
    }

    // Its sheets.
    pub fn sheets(&self) -> Sheets<'a>
        ensures { result ≡ sheets self.now.bytes.now }
    {
        sheets_of(self.bytes)
    }
}
