// Request #107: what the first volume holds, as a list that the caller lends: each module with its file and its words.
#![tactic(auto)]

ghost use Rattle.std.specs.Prelude.{◌≡◌, [], ◌∷◌, ◌+◌, ◌*◌, ◌≤◌, ◌<◌, length};
ghost use Rattle.facts.specs.Fact.{Holds, Tells};
ghost use Rattle.words.specs.Put.{put_all};
ghost use Rattle.items.specs.Items.{each, inside, words_in, word_kind, kind_number};
ghost use Rattle.inside_modules.specs.ModulesFit.{Fits};
ghost use Rattle.inside_blocks.specs.Blocks.{items};
ghost use Rattle.inside_walk.specs.Walkable.{Walkable};
ghost use Rattle.inside_list.specs.Inventory.{entry, is_module, word_entries, module_entries, file_of, inventory, counts_of};
ghost use Rattle.inside_list.specs.Counting.{plus, counts_for, Room};
ghost use Rattle.inside_list.specs.Filling.{Filled};

use inside_files::{Part, PartKind};
use inside_rows::{Module, ModuleKind};
use items::{Item, Kind};

// How many modules and words there are, and how many entries they have together.
#[derive(Clone, Copy)]
pub struct Counts {
    pub modules: usize,
    pub words: usize,
    pub entries: usize,
}

// Where the next word is listed, and the code of one of 4 bytes: 3 for the image base, then 5.
#[derive(Clone, Copy)]
pub struct Next {
    pub at: usize,
    pub code: usize,
}

fn is_module(m: Module) -> bool
    ensures { Tells result (is_module m) }
{
    if m.kind == ModuleKind::Pe32 {
        return true;
    }
    if m.kind == ModuleKind::Te {
        return true;
    }
    false
}

// One more, if the item is a word.
fn count_word(n: usize, x: Item) -> usize
    requires { n < 8589934592 }
    ensures { result ≡ n + length (words_in (x ∷ [])) }
{
    if x.kind == Kind::Word {
        return n + 1;
    }
    n
}

fn count_words(image: &[u8], m: Module) -> usize
    requires { Fits image.now m }
    ensures { result ≡ length (words_in (items image.now m)) }
{
    let mut c = inside_blocks::start(m);
    let mut n = 0;
    loop {
        let t = inside_blocks::step(image, m, c);
        let x = t.item;
        if x.kind == Kind::End {
            return n;
        }
        n = count_word(n, x);
        c = t.next;
    }
}

fn count_module(image: &[u8], n: Counts, m: Module) -> Counts
    requires { Fits image.now m × Room n }
    ensures { result ≡ plus n (counts_for image.now m) }
{
    if !is_module(m) {
        return n;
    }
    let k = count_words(image, m);
    Counts {
        modules: n.modules + 1,
        words: n.words + k,
        entries: n.entries + (k + 2),
    }
}

// How long the list is, and what it has.
pub fn count(image: &[u8], v: usize, f: usize) -> Counts
    requires { Walkable image.now v f }
    ensures { result ≡ counts_of (inventory image.now v f) }
{
    let mut c = inside_files::first(image, f);
    let mut n = Counts {
        modules: 0,
        words: 0,
        entries: 0,
    };
    loop {
        let t = inside_files::step(image, v, c);
        let p = t.part;
        if p.kind == PartKind::End {
            return n;
        }
        let m = inside_walk::module_in(image, p);
        n = count_module(image, n, m);
        c = t.next;
    }
}

// A place with its code.
pub fn entry_of(code: usize, at: usize) -> u32
    requires { (code ≤ 8) × (at ≤ 33554432) }
    ensures { result ≡ entry code at }
{
    (at + 16777216 * code) as u32
}

// The item's entry, if it is a word. An entry is four bytes of the list.
fn fill_word(places: &mut [u8], n: Next, x: Item) -> Next
    requires { (n.code ≤ 5) × Holds (inside 16777216 x) × (kind_number x.kind ≡ word_kind → 4 * (n.at + 1) ≤ length places.old) }
    ensures { Filled places.old places.new n x result }
{
    if x.kind != Kind::Word {
        return n;
    }
    let i = n.at;
    let code = n.code + x.len / 8;
    words::put32(places, 4 * i, entry_of(code, x.at));
    Next { at: i + 1, code: 5 }
}

// The words of a module, from entry i on.
fn fill_words(image: &[u8], places: &mut [u8], i: usize, m: Module) -> usize
    requires { Fits image.now m × Holds (each (inside 16777216) (items image.now m)) × (4 * (i + length (word_entries 3 (items image.now m))) ≤ length places.old) }
    ensures { (result ≡ i + length (word_entries 3 (items image.now m))) × (places.new ≡ put_all 4 places.old (4 * i) (word_entries 3 (items image.now m))) }
{
    let mut c = inside_blocks::start(m);
    let mut n = Next { at: i, code: 3 };
    loop {
        let t = inside_blocks::step(image, m, c);
        let x = t.item;
        if x.kind == Kind::End {
            return n.at;
        }
        n = fill_word(places, n, x);
        c = t.next;
    }
}

// The module m of the section at `at` of this file, if it is one, from entry i on.
fn fill_module(
    image: &[u8],
    places: &mut [u8],
    i: usize,
    file: usize,
    at: usize,
    m: Module,
) -> usize
    requires { Fits image.now m × Holds (each (inside 16777216) (items image.now m)) × (file ≤ 33554432) × (at ≤ 33554432) × (4 * (i + length (module_entries image.now file at m)) ≤ length places.old) }
    ensures { (result ≡ i + length (module_entries image.now file at m)) × (places.new ≡ put_all 4 places.old (4 * i) (module_entries image.now file at m)) }
{
    if !is_module(m) {
        return i;
    }
    words::put32(places, 4 * i, entry_of(1, file));
    words::put32(places, 4 * i + 4, entry_of(2, at));
    fill_words(image, places, i + 2, m)
}

// The file at hand once p is met.
fn file_of(file: usize, p: Part) -> usize
    ensures { result ≡ file_of file p }
{
    if p.kind == PartKind::Header {
        return p.at;
    }
    file
}

// Writes the list from entry k on; what `places` holds before and after it is kept.
pub fn fill(image: &[u8], v: usize, f: usize, places: &mut [u8], k: usize)
    requires { Walkable image.now v f × (4 * (k + length (inventory image.now v f)) ≤ length places.old) }
    ensures { places.new ≡ put_all 4 places.old (4 * k) (inventory image.now v f) }
{
    let mut c = inside_files::first(image, f);
    let mut file = f;
    let mut i = k;
    loop {
        let t = inside_files::step(image, v, c);
        let p = t.part;
        if p.kind == PartKind::End {
            return;
        }
        file = file_of(file, p);
        let m = inside_walk::module_in(image, p);
        i = fill_module(image, places, i, file, p.at, m);
        c = t.next;
    }
}
