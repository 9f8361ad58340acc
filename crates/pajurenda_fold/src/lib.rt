// Request #114, for C: a pile of sheets folded into one. The call answers in a lent buffer, as the others do; 100 is their
// number for a buffer with no room (include/pajurenda.h).
#![tactic(auto, using(c_answers::specs::AnswerLaws::roomy, c_answers::specs::AnswerLaws::short))]

ghost use Rattle.std.specs.Prelude.{◌≡◌};
ghost use Rattle.pajurenda_fold.specs.Promises.{fold_fields, FoldCall};

use fold::Folded;

fn fold_fields(r: Folded) -> [u64; 3]
    ensures { result ≡ fold_fields r }
{
    [r.number as u64, r.size as u64, r.entries as u64]
}

// The sheets of a pile as one sheet.
pub fn pajurenda_fold(pile: &[u8], output: &mut [u8], answer: &mut [u8]) -> u32
    ensures { FoldCall pile.now output.old answer.old result output.new answer.new }
{
    if answer.len() < 24 {
        return 100;
    }
    let r = fold::fold(pile, output);
    c_answers::write_fields(answer, &fold_fields(r));
    r.number
}
