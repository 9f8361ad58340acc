// Document 02, #110: put stray bytes back.
#![tactic(auto)]

ghost use Rattle.std.specs.Prelude.{◌≡◌, length};
ghost use Rattle.audit_count.specs.Differences.{entries};
ghost use Rattle.audit.specs.Audit.{told_by, differing};
ghost use Rattle.mend.specs.Mend.{mending, mended_file, Mends, MendsBytes};

use answers::Audited;
use audit_places::Unit;

// The mending with a list of words or of bytes.
fn mend_in<U: Unit>(vendor: &[u8], shipped: &mut [u8], places: &mut [U]) -> Audited
    ensures told { result ≡ mending vendor.now shipped.old (U.places (length places.old)) }
    ensures listed { result.number ≡ 0
        → places.new ≡ U.writing.all places.old 0 (entries (told_by vendor.now) (differing vendor.now shipped.old)) }
    ensures kept { (result.number ≡ 0 → ⊥) → places.new ≡ places.old }
    ensures mended { shipped.new ≡ mended_file vendor.now shipped.old (U.places (length places.old)) }
{
    let r = reading::read_2(vendor);
    if r.number != 0 {
        return audit::refused(r.number, r.index);
    }
    let a = audit::audit_in(vendor, shipped, places);
    if a.number != 0 {
        return a;
    }
    mend_file::put_back(vendor, shipped, r, a.base);
    a
}

// Audits a shipped file against the maker's image, whatever both are, and puts back each stray byte: answer and list are the audit's
// of the file as it came. A refusal changes nothing.
pub fn mend(vendor: &[u8], shipped: &mut [u8], places: &mut [u32]) -> Audited
    ensures { Mends vendor.now shipped.old places.old result places.new shipped.new }
{
    mend_in(vendor, shipped, places)
}

// The same with a list in which a place is four bytes; bytes after the last whole place are kept.
pub fn mend_bytes(vendor: &[u8], shipped: &mut [u8], places: &mut [u8]) -> Audited
    ensures { MendsBytes vendor.now shipped.old places.old result places.new shipped.new }
{
    mend_in(vendor, shipped, places)
}
