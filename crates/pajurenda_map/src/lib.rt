// Request #111, for C: the memory map of a hand-off list, and a place for an image in it. A call answers in a lent buffer, as the others do.
#![tactic(auto, using(c_answers::specs::AnswerLaws::roomy, c_answers::specs::AnswerLaws::short))]

ghost use Rattle.std.specs.Prelude.{◌≡◌};
ghost use Rattle.pajurenda_map.specs.Promises.{map_fields, place_fields, MapCall, PlaceCall};

use map_list::Mapped;
use map_place::Placed;

fn map_fields(r: Mapped) -> [u64; 2]
    ensures { result ≡ map_fields r }
{
    [r.number as u64, r.count as u64]
}

fn place_fields(r: Placed) -> [u64; 2]
    ensures { result ≡ place_fields r }
{
    [r.number as u64, r.base]
}

// The runs of free bytes, each by its first and its last byte.
pub fn pajurenda_map(dump: &[u8], out: &mut [u8], answer: &mut [u8]) -> u32
    ensures { MapCall dump.now out.old answer.old result out.new answer.new }
{
    if answer.len() < 16 {
        return 100;
    }
    let r = map_list::map(dump, out);
    c_answers::write_fields(answer, &map_fields(r));
    r.number
}

// The lowest base for an image of so many bytes.
pub fn pajurenda_lowest_base(dump: &[u8], size: u64, answer: &mut [u8]) -> u32
    ensures { PlaceCall dump.now size answer.old result answer.new }
{
    if answer.len() < 16 {
        return 100;
    }
    let r = map_place::place(dump, size);
    c_answers::write_fields(answer, &place_fields(r));
    r.number
}
