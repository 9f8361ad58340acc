// The calls of include/pajurenda.h, each the one of its library, with its promise: this crate's archive is what C links.
#![tactic(auto)]

ghost use Rattle.pajurenda.specs.Promises.{ReadCall, ReleaseCall, SheetCall, SettingCall, AuditCall, ContentsCall, HandoffCall, HandoffsCall};
ghost use Rattle.pajurenda.specs.Promises.{StationCall, StationResetCall};
ghost use Rattle.pajurenda_hex.specs.Promises.{ExportCall, ImportCall};
ghost use Rattle.pajurenda_map.specs.Promises.{MapCall, PlaceCall};
ghost use Rattle.pajurenda_fold.specs.Promises.{FoldCall};
ghost use Rattle.digest.specs.Digest.{Digests};
ghost use Rattle.pajurenda_version.specs.Version.{VersionCall};
ghost use Rattle.pajurenda_mend.specs.Promises.{MendCall};

// Reads an image.
#[unsafe(no_mangle)]
pub extern "C" fn pajurenda_read(image: &[u8], answer: &mut [u8]) -> u32
    ensures { ReadCall image.now answer.old result answer.new }
{
    pajurenda::pajurenda_read(image, answer)
}

// Releases an image in place, by one owner: a sheet's bytes set, then moved.
#[unsafe(no_mangle)]
pub extern "C" fn pajurenda_release(
    image: &mut [u8],
    sheet: &[u8],
    base: u64,
    owners: &[u8],
    owner: u64,
    answer: &mut [u8],
) -> u32
    ensures { ReleaseCall image.old sheet.now base owners.now owner answer.old result image.new answer.new }
{
    pajurenda::pajurenda_release(image, sheet, base, owners, owner, answer)
}

// Reads a release sheet by itself.
#[unsafe(no_mangle)]
pub extern "C" fn pajurenda_sheet(sheet: &[u8], answer: &mut [u8]) -> u32
    ensures { SheetCall sheet.now answer.old result answer.new }
{
    pajurenda::pajurenda_sheet(sheet, answer)
}

// Finds one setting.
#[unsafe(no_mangle)]
pub extern "C" fn pajurenda_setting(image: &[u8], offset: u64, size: u64, answer: &mut [u8]) -> u32
    ensures { SettingCall image.now offset size answer.old result answer.new }
{
    pajurenda::pajurenda_setting(image, offset, size, answer)
}

// Audits a shipped file against the vendor's image.
#[unsafe(no_mangle)]
pub extern "C" fn pajurenda_audit(
    vendor: &[u8],
    shipped: &[u8],
    places: &mut [u8],
    answer: &mut [u8],
) -> u32
    ensures { AuditCall vendor.now shipped.now places.old answer.old result places.new answer.new }
{
    pajurenda::pajurenda_audit(vendor, shipped, places, answer)
}

// Lists what an image holds.
#[unsafe(no_mangle)]
pub extern "C" fn pajurenda_contents(image: &[u8], places: &mut [u8], answer: &mut [u8]) -> u32
    ensures { ContentsCall image.now places.old answer.old result places.new answer.new }
{
    pajurenda::pajurenda_contents(image, places, answer)
}

// One step over hand-off blocks.
#[unsafe(no_mangle)]
pub extern "C" fn pajurenda_handoff(buffer: &[u8], cursor: u64, answer: &mut [u8]) -> u32
    ensures { HandoffCall buffer.now cursor answer.old result answer.new }
{
    pajurenda::pajurenda_handoff(buffer, cursor, answer)
}

// The whole list of hand-off blocks, counted.
#[unsafe(no_mangle)]
pub extern "C" fn pajurenda_handoffs(buffer: &[u8], answer: &mut [u8]) -> u32
    ensures { HandoffsCall buffer.now answer.old result answer.new }
{
    pajurenda::pajurenda_handoffs(buffer, answer)
}

// One call.
#[unsafe(no_mangle)]
pub extern "C" fn pajurenda_station(state: &mut [u8], call: u64, notification: u64) -> u32
    ensures { StationCall state.old call notification result state.new }
{
    pajurenda::pajurenda_station(state, call, notification)
}

// A reset.
#[unsafe(no_mangle)]
pub extern "C" fn pajurenda_station_reset(state: &mut [u8]) -> u32
    ensures { StationResetCall state.old result state.new }
{
    pajurenda::pajurenda_station_reset(state)
}

// The text of bytes at a base.
#[unsafe(no_mangle)]
pub extern "C" fn pajurenda_hex_export(
    bytes: &[u8],
    base: u64,
    text: &mut [u8],
    answer: &mut [u8],
) -> u32
    ensures { ExportCall bytes.now base text.old answer.old result text.new answer.new }
{
    pajurenda_hex::pajurenda_hex_export(bytes, base, text, answer)
}

// The bytes of a text, and their base.
#[unsafe(no_mangle)]
pub extern "C" fn pajurenda_hex_import(text: &[u8], bytes: &mut [u8], answer: &mut [u8]) -> u32
    ensures { ImportCall text.now bytes.old answer.old result bytes.new answer.new }
{
    pajurenda_hex::pajurenda_hex_import(text, bytes, answer)
}

// The runs of free bytes, each by its first and its last byte.
#[unsafe(no_mangle)]
pub extern "C" fn pajurenda_map(dump: &[u8], out: &mut [u8], answer: &mut [u8]) -> u32
    ensures { MapCall dump.now out.old answer.old result out.new answer.new }
{
    pajurenda_map::pajurenda_map(dump, out, answer)
}

// The lowest base for an image of so many bytes.
#[unsafe(no_mangle)]
pub extern "C" fn pajurenda_lowest_base(dump: &[u8], size: u64, answer: &mut [u8]) -> u32
    ensures { PlaceCall dump.now size answer.old result answer.new }
{
    pajurenda_map::pajurenda_lowest_base(dump, size, answer)
}

// The sheets of a pile as one sheet.
#[unsafe(no_mangle)]
pub extern "C" fn pajurenda_fold(pile: &[u8], output: &mut [u8], answer: &mut [u8]) -> u32
    ensures { FoldCall pile.now output.old answer.old result output.new answer.new }
{
    pajurenda_fold::pajurenda_fold(pile, output, answer)
}

// The SHA-256 digest of some bytes.
#[unsafe(no_mangle)]
pub extern "C" fn pajurenda_sha256(bytes: &[u8], answer: &mut [u8]) -> u32
    ensures { Digests bytes.now answer.old result answer.new }
{
    pajurenda_sha256::pajurenda_sha256(bytes, answer)
}

// The three numbers of the version in one word.
#[unsafe(no_mangle)]
pub extern "C" fn pajurenda_version() -> u32
    ensures { VersionCall result }
{
    pajurenda_version::pajurenda_version()
}

// Audits a shipped file against the vendor's image and puts its stray bytes back.
#[unsafe(no_mangle)]
pub extern "C" fn pajurenda_mend(
    vendor: &[u8],
    shipped: &mut [u8],
    places: &mut [u8],
    answer: &mut [u8],
) -> u32
    ensures { MendCall vendor.now shipped.old places.old answer.old result shipped.new places.new answer.new }
{
    pajurenda_mend::pajurenda_mend(vendor, shipped, places, answer)
}
