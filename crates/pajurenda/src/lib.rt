// The library as C calls it, by the exports of `pajurenda_c`. Each answer is written in a lent buffer; the header is include/pajurenda.h, which
// fixes the number 100 for a buffer with no room.
// Each call tests the room itself and writes its answer after: a function that took the call as a closure would know nothing of the image or
// the list that the closure changes.
#![tactic(auto, using(c_answers::specs::AnswerLaws::roomy, c_answers::specs::AnswerLaws::short))]

ghost use Rattle.pajurenda.specs.Promises.{ReadCall, ReleaseCall, SheetCall, SettingCall, AuditCall, ContentsCall, HandoffCall, HandoffsCall};

// How many bytes the answer on a sheet has.
const SHEET_ANSWER: usize = 40;

// And that on what an image holds.
const CONTENTS_ANSWER: usize = 40;

// Reads an image.
pub fn pajurenda_read(image: &[u8], answer: &mut [u8]) -> u32
    ensures { ReadCall image.now answer.old result answer.new }
{
    if answer.len() < 96 {
        return 100;
    }
    let r = reading::read(image);
    c_answers::write_fields(answer, &c_answers::read_fields(r));
    r.number
}

// Releases an image in place, by one owner: a sheet's bytes set, then moved.
pub fn pajurenda_release(
    image: &mut [u8],
    sheet: &[u8],
    base: u64,
    owners: &[u8],
    owner: u64,
    answer: &mut [u8],
) -> u32
    ensures { ReleaseCall image.old sheet.now base owners.now owner answer.old result image.new answer.new }
{
    if answer.len() < 24 {
        return 100;
    }
    let r = release::release(image, sheet, base, owners, owner);
    c_answers::write_fields(answer, &c_answers::move_fields(r));
    r.number
}

// Reads a release sheet by itself.
pub fn pajurenda_sheet(sheet: &[u8], answer: &mut [u8]) -> u32
    ensures { SheetCall sheet.now answer.old result answer.new }
{
    if answer.len() < SHEET_ANSWER {
        return 100;
    }
    let r = sheet::read_sheet(sheet);
    c_answers::write_fields(answer, &c_answers::sheet_fields(r));
    r.number
}

// Finds one setting.
pub fn pajurenda_setting(image: &[u8], offset: u64, size: u64, answer: &mut [u8]) -> u32
    ensures { SettingCall image.now offset size answer.old result answer.new }
{
    if answer.len() < 24 {
        return 100;
    }
    let r = setting::find(image, offset, size);
    c_answers::write_fields(answer, &c_answers::setting_fields(r));
    r.number
}

// Audits a shipped file against the vendor's image.
pub fn pajurenda_audit(vendor: &[u8], shipped: &[u8], places: &mut [u8], answer: &mut [u8]) -> u32
    ensures { AuditCall vendor.now shipped.now places.old answer.old result places.new answer.new }
{
    if answer.len() < 56 {
        return 100;
    }
    let r = audit::audit_bytes(vendor, shipped, places);
    c_answers::write_fields(answer, &c_answers::audit_fields(r));
    r.number
}

// Lists what an image holds.
pub fn pajurenda_contents(image: &[u8], places: &mut [u8], answer: &mut [u8]) -> u32
    ensures { ContentsCall image.now places.old answer.old result places.new answer.new }
{
    if answer.len() < CONTENTS_ANSWER {
        return 100;
    }
    let r = contents::list_contents(image, places);
    c_answers::write_fields(answer, &c_answers::list_fields(r));
    r.number
}

// One step over hand-off blocks.
pub fn pajurenda_handoff(buffer: &[u8], cursor: u64, answer: &mut [u8]) -> u32
    ensures { HandoffCall buffer.now cursor answer.old result answer.new }
{
    if answer.len() < 80 {
        return 100;
    }
    let c = handoff_step::Cursor {
        at: cursor as usize,
    };
    let s = c.step(buffer);
    c_answers::write_fields(answer, &c_answers_handoff::step_fields(s));
    s.number
}

// The whole list of hand-off blocks, counted.
pub fn pajurenda_handoffs(buffer: &[u8], answer: &mut [u8]) -> u32
    ensures { HandoffsCall buffer.now answer.old result answer.new }
{
    if answer.len() < 24 {
        return 100;
    }
    let r = handoff_list::count(buffer);
    c_answers::write_fields(answer, &c_answers_handoff::count_fields(r));
    r.number
}

// Request #108: the bench's station, its state lent as eight bytes.
ghost use Rattle.pajurenda.specs.Promises.{StationCall, StationResetCall};

// One call.
pub fn pajurenda_station(state: &mut [u8], call: u64, notification: u64) -> u32
    ensures { StationCall state.old call notification result state.new }
{
    if state.len() < 8 {
        return 100;
    }
    station_bytes::call_in(state, call, notification)
}

// A reset.
pub fn pajurenda_station_reset(state: &mut [u8]) -> u32
    ensures { StationResetCall state.old result state.new }
{
    if state.len() < 8 {
        return 100;
    }
    station_bytes::reset_in(state);
    0
}
