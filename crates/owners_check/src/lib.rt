// Request #106: whether the bytes of a sheet lie in the ranges of its owner.
#![tactic(auto)]

ghost use Rattle.std.specs.Prelude.{ℕ, ◌+◌, ◌-◌, ◌≤◌, ◌<◌, is_some, MatchOption, IfSome};
ghost use Rattle.facts.specs.Fact.{Holds, Tells, every};
ghost use Rattle.owners.specs.Owners.{ranges, list_fits, owned, fields_owned};
ghost use Rattle.owners.specs.OwnersLaws.{PassedBy, Reached, Runs};

use sheet::Sheet;

// The first range from `from` on that ends past k.
fn skip(owners: &[u8], from: usize, k: usize) -> Option<usize>
    requires { (ranges owners.now ≤ 64) × (from ≤ ranges owners.now) × PassedBy owners.now from k }
    ensures { MatchOption result (Reached owners.now k (ranges owners.now)) (λ i. Reached owners.now k i × (i < ranges owners.now)) }
{
    let n = owners.len() / 8;
    for i in from..n {
        let w = owners::range_at(owners, i);
        if k < w.offset + w.size {
            return Some(i);
        }
    }
    None
}

// How far from k on the bytes are the owner's, i being the first range that ends past k; `None` where k isn't.
fn run_from(owners: &[u8], owner: usize, i: usize, k: usize) -> Option<usize>
    requires { (ranges owners.now ≤ 64) × Reached owners.now k i × (i < ranges owners.now) × ((z : ℕ) × Holds (list_fits owners.now z)) }
    ensures { Runs owners.now owner k i result }
{
    let w = owners::range_at(owners, i);
    if w.owner != owner {
        return None;
    }
    if k < w.offset {
        return None;
    }
    Some(w.offset + w.size)
}

// The range where the walk stands once the bytes a..b-1 are passed, the ranges before `from` lying before a; `None` where one isn't the
// owner's.
fn cover(owners: &[u8], owner: usize, from: usize, a: usize, b: usize) -> Option<usize>
    requires { (a ≤ b) × (from ≤ ranges owners.now) × PassedBy owners.now from a × ((z : ℕ) × Holds (list_fits owners.now z)) }
    ensures tells { Tells (is_some result) (every (b - a) (λ j. owned owners.now owner (a + j))) }
    ensures at_bound { IfSome result (λ at. (at ≤ ranges owners.now) × PassedBy owners.now at b) }
{
    let mut at = from;
    let mut k = a;
    while k < b {
        at = skip(owners, at, k)?;
        k = run_from(owners, owner, at, k)?;
    }
    Some(at)
}

// Rule 24: sheet and list are gone through once, side by side.
pub fn fields_owned(sheet: &Sheet, owners: &[u8], owner: usize) -> bool
    requires { (z : ℕ) × Holds (list_fits owners.now z) }
    ensures { Tells result (fields_owned sheet.now owners.now owner) }
{
    let m = sheet.count();
    let mut at = 0;
    for i in 0..m {
        let w = sheet.entry(i);
        let Some(next) = cover(owners, owner, at, w.offset, w.offset + w.size) else {
            return false;
        };
        at = next;
    }
    true
}
