// Request #107: what an image holds, as a list that the caller lends: every word of a move, and each module with its file and its section.
#![tactic(auto)]

ghost use Rattle.std.specs.Prelude.{◌≡◌, ◌+◌, ◌*◌, ◌≤◌, length};
ghost use Rattle.words.specs.Put.{put_all};
ghost use Rattle.inside_judge.specs.Rules.{patch_items};
ghost use Rattle.reading_rules.specs.Reading.{entries_at, reading2};
ghost use Rattle.reading_rules.specs.Guarantee.{Guaranteed};
ghost use Rattle.inside_list.specs.Inventory.{counts_of};
ghost use Rattle.contents.specs.Listing.{coded, entries_for, refused_list, counted, contents, Lists};

use answers::{Listed, Reading};
use inside_list::Counts;

fn refused(number: u32, index: usize) -> Listed
    ensures { result ≡ refused_list number index }
{
    Listed {
        number,
        index,
        modules: 0,
        words: 0,
        entries: 0,
    }
}

fn carry(number: u32, n: Counts) -> Listed
    ensures { result ≡ counted number n }
{
    Listed {
        number,
        index: 0,
        modules: n.modules,
        words: n.words,
        entries: n.entries,
    }
}

// The counts of an image that reads so: the modules', and a word more for each that the tables name.
fn count_all(image: &[u8], r: Reading) -> Counts
    requires { Guaranteed image.now r }
    ensures { result ≡ counts_of (entries_for image.now r) }
{
    let v = words::le64(image, 32);
    let n = inside_list::count(image, v, r.H - 28);
    let k = r.n + 1;
    Counts {
        modules: n.modules,
        words: n.words + k,
        entries: n.entries + k,
    }
}

// The whole answer for a list of `room` bytes, before anything is listed.
fn survey(image: &[u8], r: Reading, room: usize) -> Listed
    requires { r ≡ reading2 image.now }
    ensures { result ≡ contents image.now room }
{
    if r.number != 0 {
        return refused(r.number, r.index);
    }
    let n = count_all(image, r);
    if room < 4 * n.entries {
        return carry(20, n);
    }
    carry(0, n)
}

// The patch words, after the base word. An entry is four bytes of the list.
fn fill_patches(image: &[u8], places: &mut [u8], r: Reading)
    requires { Guaranteed image.now r × (4 * r.n + 4 ≤ length places.old) }
    ensures { places.new ≡ put_all 4 places.old 4 (coded 8 (patch_items image.now (entries_at r) r.n)) }
{
    let n = r.n;
    let t = r.E - 4 * n;
    for i in 0..n {
        let at = table::spot_at(image, t, i);
        words::put32(places, 4 * i + 4, inside_list::entry_of(8, at));
    }
}

// Every entry: the base word, the patch words, the modules.
fn fill_all(image: &[u8], places: &mut [u8], r: Reading)
    requires { Guaranteed image.now r × (4 * length (entries_for image.now r) ≤ length places.old) }
    ensures { places.new ≡ put_all 4 places.old 0 (entries_for image.now r) }
{
    words::put32(places, 0, inside_list::entry_of(7, r.H + 28));
    fill_patches(image, places, r);
    let v = words::le64(image, 32);
    inside_list::fill(image, v, r.H - 28, places, r.n + 1);
}

// Lists what an image holds, whatever its bytes are; or a refusal that changes nothing.
pub fn list_contents(image: &[u8], places: &mut [u8]) -> Listed
    ensures { Lists image.now places.old result places.new }
{
    let r = reading::read_2(image);
    let a = survey(image, r, places.len());
    if a.number != 0 {
        return a;
    }
    fill_all(image, places, r);
    a
}
