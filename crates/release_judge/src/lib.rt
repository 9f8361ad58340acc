// Document 02, #105 and #106: what a release is judged by, once its image reads: sheet, owner list, owner and base. Nothing is changed here.
#![tactic(auto)]

ghost use Rattle.std.specs.Prelude.{◌≡◌, ◌^◌, ◌≤◌};
ghost use Rattle.facts.specs.Fact.{Holds};
ghost use Rattle.facts.specs.Rules.{run};
ghost use Rattle.move_answer.specs.MoveAnswer.{refused_move};
ghost use Rattle.sheet.specs.Sheet.{sheet_fits};
ghost use Rattle.owners.specs.Owners.{list_fits};
ghost use Rattle.release_judge.specs.Judged.{name_rules, release_rules};

use answers::{Moved, Reading};
use sheet::Sheet;

// Rules 16, 17, 24 and 18, where 15 and 23 are passed.
fn judge_names(
    r: Reading,
    size: usize,
    sheet: &Sheet,
    base: u64,
    owners: &[u8],
    owner: usize,
) -> Moved
    requires { (r.base ≤ 2 ^ 32) × Holds (list_fits owners.now r.z) }
    ensures { result ≡ run refused_move (name_rules r size sheet.now base owners.now owner) }
{
    let k = r.identity;
    if !sheet.names(k) {
        return move_answer::refused(16, 0);
    }
    if !sheet.fields_fit(r.z) {
        return move_answer::refused(17, 0);
    }
    if !owners_check::fields_owned(sheet, owners, owner) {
        return move_answer::refused(24, 0);
    }
    if !header::legal(base, size) {
        return move_answer::refused(18, 0);
    }
    move_answer::accepted(r, base)
}

// 15 and 23 before them, for an image of `size` bytes that reads so: sheet, list, owner and base are judged whole.
pub fn judge(r: Reading, size: usize, sheet: &[u8], base: u64, owners: &[u8], owner: usize) -> Moved
    requires { r.base ≤ 2 ^ 32 }
    ensures { result ≡ run refused_move (release_rules r size sheet.now base owners.now owner) }
{
    let read = match Sheet::of(sheet) {
        None => return move_answer::refused(15, 0),
        Some(read) => read,
    };
    if !owners::owners_fit(owners, owner, r.z) {
        return move_answer::refused(23, 0);
    }
    judge_names(r, size, &read, base, owners, owner)
}
