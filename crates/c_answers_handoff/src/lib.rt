// Request #101: the answers of the calls on hand-off blocks, as fields.
#![tactic(auto)]

ghost use Rattle.std.specs.Prelude.{◌≡◌};
ghost use Rattle.c_answers.specs.Steps.{step_fields, count_fields};

use c_answers::KindFields;
use handoff_list::Counted;
use handoff_step::Stepped;

pub fn step_fields(s: Stepped) -> [u64; 10]
    ensures { result ≡ step_fields s }
{
    let next = s.next;
    let block = s.block;
    let k = KindFields::from(block.kind);
    [
        s.number as u64,
        next.at as u64,
        block.place as u64,
        block.code as u64,
        block.length as u64,
        k.kind,
        k.a,
        k.b,
        k.c,
        k.d,
    ]
}

pub fn count_fields(r: Counted) -> [u64; 3]
    ensures { result ≡ count_fields r }
{
    [r.number as u64, r.at as u64, r.count as u64]
}
