// Request #110, for C: stray bytes put back. The call answers in a lent buffer, as the audit does; 100 is the
// number for a buffer with no room (include/pajurenda.h).
#![tactic(auto, using(c_answers::specs::AnswerLaws::roomy, c_answers::specs::AnswerLaws::short))]

ghost use Rattle.pajurenda_mend.specs.Promises.{MendCall};

// Audits a shipped file against the vendor's image and puts its stray bytes back.
pub fn pajurenda_mend(
    vendor: &[u8],
    shipped: &mut [u8],
    places: &mut [u8],
    answer: &mut [u8],
) -> u32
    ensures { MendCall vendor.now shipped.old places.old answer.old result shipped.new places.new answer.new }
{
    if answer.len() < 56 {
        return 100;
    }
    let r = mend::mend_bytes(vendor, shipped, places);
    c_answers::write_fields(answer, &c_answers::audit_fields(r));
    r.number
}
