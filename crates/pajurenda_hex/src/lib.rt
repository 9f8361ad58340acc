// Request #112, for C: the Intel HEX text of an image, both ways. A call answers in a lent buffer, as the others do.
#![tactic(auto, using(c_answers::specs::AnswerLaws::roomy, c_answers::specs::AnswerLaws::short))]

ghost use Rattle.std.specs.Prelude.{◌≡◌};
ghost use Rattle.pajurenda_hex.specs.Promises.{export_fields, import_fields, ExportCall, ImportCall};

use hex_export::Exported;
use hex_import::Imported;

// How many bytes the answer of an import has.
const IMPORT_ANSWER: usize = 24;

fn export_fields(r: Exported) -> [u64; 2]
    ensures { result ≡ export_fields r }
{
    [r.number as u64, r.length as u64]
}

fn import_fields(r: Imported) -> [u64; 3]
    ensures { result ≡ import_fields r }
{
    [r.number as u64, r.base, r.length as u64]
}

// The text of bytes at a base.
pub fn pajurenda_hex_export(bytes: &[u8], base: u64, text: &mut [u8], answer: &mut [u8]) -> u32
    ensures { ExportCall bytes.now base text.old answer.old result text.new answer.new }
{
    if answer.len() < 16 {
        return 100;
    }
    let r = hex_export::export(bytes, base, text);
    c_answers::write_fields(answer, &export_fields(r));
    r.number
}

// The bytes of a text, and their base.
pub fn pajurenda_hex_import(text: &[u8], bytes: &mut [u8], answer: &mut [u8]) -> u32
    ensures { ImportCall text.now bytes.old answer.old result bytes.new answer.new }
{
    if answer.len() < IMPORT_ANSWER {
        return 100;
    }
    let r = hex_import::import(text, bytes);
    c_answers::write_fields(answer, &import_fields(r));
    r.number
}
