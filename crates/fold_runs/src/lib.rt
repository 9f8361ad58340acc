// Document 02, #114: what a pile sets, as a list of runs. It is gathered without any promise that nothing is missing; `all_held` then looks whether
// every entry of the pile lies in a run.
#![tactic(auto)]

ghost use Rattle.std.specs.Prelude.{true, ◌≡◌, ℕ, ◌+◌, ◌≤◌, ◌<◌, length, get_or, IfSome};
ghost use Rattle.sheet.specs.ByteAt.{byte_at};
ghost use Rattle.fold_pile.specs.Pile.{sheets};
ghost use Rattle.fold_cells.specs.SetAt.{set_at};
ghost use Rattle.fold_cells.specs.Cells.{Reaches};
ghost use Rattle.fold_words.specs.Words.{start, size, Keeps, Sound};
ghost use Rattle.fold_runs.specs.Runs.{Holding, Clipped, Within, Takes, TakesSheet, Out};

use fold_pile::Pile;
use sheet::{Entry, Sheet};

// How many words there are; how many of them, the first ones, are runs in order; up to where these reach; which of them is at hand; and how many
// entries were met, of 1,024.
#[derive(Clone, Copy)]
pub struct Gathered {
    pub n: usize,
    pub runs: usize,
    pub top: usize,
    pub at: usize,
    pub met: usize,
}

// The words in order; those of one sheet are.
fn order(words: &mut [usize], first: bool)
    requires { (1 ≤ length words.old) × (length words.old ≤ 1024) }
    ensures { Keeps words.old words.new }
{
    if first {
        return;
    }
    fold_words::sort(words);
}

// All words as runs in order, the first 512 of them.
fn settle(words: &mut [usize], seats: &mut [u16], g: Gathered, first: bool) -> Gathered
    requires { Holding g words.old seats.old }
    ensures { Holding result words.new seats.new × (result.n ≤ 512) × Keeps words.old words.new }
{
    let n = g.n;
    if n == g.runs {
        return Gathered { at: 0, ..g };
    }
    order(&mut words[..n], first);
    let r = fold_words::join(&mut words[..n], seats);
    if r <= 512 {
        return Gathered {
            n: r,
            runs: r,
            at: 0,
            ..g
        };
    }
    Gathered {
        n: 512,
        runs: 512,
        top: fold_words::start_of(words[512]),
        at: 0,
        ..g
    }
}

// Room for a word more.
fn make_room(words: &mut [usize], seats: &mut [u16], g: Gathered) -> Gathered
    requires { Holding g words.old seats.old }
    ensures { Holding result words.new seats.new × (result.n < 1024) × Keeps words.old words.new }
{
    if g.n < 1024 {
        return g;
    }
    settle(words, seats, g, false)
}

// Where an entry ends, below `top`.
pub fn clip(w: Entry, top: usize) -> usize
    requires { (w.offset < 4294967296) × (w.size < 65536) × (w.offset < top) }
    ensures { Clipped w top result }
{
    top.min(w.offset + w.size)
}

// The first of the runs from `from` on that ends after a, or how many there are, as std's `partition_point` tells it.
fn ahead(words: &[usize], from: usize, a: usize) -> usize {
    for i in from..words.len() {
        let w = words[i];
        if a < fold_words::start_of(w) + fold_words::size_of(w) {
            return i;
        }
    }
    words.len()
}

// Whether the positions from a up to e lie in run i.
fn holds(words: &[usize], i: usize, a: usize, e: usize) -> bool
    ensures { result ≡ true → Within words.now (length words.now) i a e }
{
    if words.len() <= i {
        return false;
    }
    let w = words[i];
    let start = fold_words::start_of(w);
    if a < start {
        return false;
    }
    if start + fold_words::size_of(w) < e {
        return false;
    }
    true
}

// The run that has the positions from a up to e, looked for at `seat` first and then from `from` on.
pub fn find(words: &[usize], seat: usize, from: usize, a: usize, e: usize) -> Option<usize>
    ensures { IfSome result (λ r. Within words.now (length words.now) r a e) }
{
    if holds(words, seat, a, e) {
        return Some(seat);
    }
    let i = ahead(words, from, a);
    if holds(words, i, a, e) {
        return Some(i);
    }
    None
}

// An entry that lies in none of the runs, as a word; where it lies in one, its seat.
fn add(words: &mut [usize], seats: &mut [u16], g: Gathered, w: Entry) -> Gathered
    requires { Holding g words.old seats.old × (g.n < 1024) × (w.offset < 4294967296) × (w.size < 65536) }
    ensures { Takes words.old w result words.new seats.new }
{
    let at = g.met;
    let met = (at + 1) % 1024;
    if g.top <= w.offset {
        return Gathered { met, ..g };
    }
    let e = clip(w, g.top);
    let runs = &words[..g.runs];
    let i = ahead(runs, g.at, w.offset);
    if holds(runs, i, w.offset, e) {
        seats[at] = i as u16;
        return Gathered { at: i, met, ..g };
    }
    let n = g.n;
    words[n] = fold_words::word_of(w.offset, e - w.offset, at);
    Gathered {
        n: n + 1,
        at: i,
        met,
        ..g
    }
}

// An entry more.
fn take(words: &mut [usize], seats: &mut [u16], g: Gathered, w: Entry) -> Gathered
    requires { Holding g words.old seats.old × (w.offset < 4294967296) × (w.size < 65536) }
    ensures { Takes words.old w result words.new seats.new }
{
    let r = make_room(words, seats, g);
    add(words, seats, r, w)
}

// The entries of a sheet.
fn take_sheet(words: &mut [usize], seats: &mut [u16], g: Gathered, sheet: &Sheet) -> Gathered
    requires { Holding g words.old seats.old }
    ensures { TakesSheet words.old (byte_at sheet.now) result words.new seats.new }
{
    let m = sheet.count();
    let mut r = g;
    for i in 0..m {
        r = take(words, seats, r, sheet.entry(i));
    }
    r
}

// After a sheet: the first one's entries are runs in order; the next one begins at the first run.
fn after_sheet(words: &mut [usize], seats: &mut [u16], g: Gathered, first: bool) -> Gathered
    requires { Holding g words.old seats.old }
    ensures { Holding result words.new seats.new × Keeps words.old words.new }
{
    if first {
        return settle(words, seats, g, true);
    }
    Gathered { at: 0, ..g }
}

// The runs of a pile.
pub fn gather(pile: &Pile, words: &mut [usize], seats: &mut [u16]) -> Gathered
    requires { (length words.old ≡ 1024) × (length seats.old ≡ 1024) }
    ensures holding { Holding result words.new seats.new × (result.n ≤ 512) }
    ensures sound { Sound (set_at (sheets pile.now.bytes.now)) words.old → Sound (set_at (sheets pile.now.bytes.now)) words.new }
{
    let mut g = Gathered {
        n: 0,
        runs: 0,
        top: 4295032831,
        at: 0,
        met: 0,
    };
    let mut first = true;
    for sheet in pile.sheets() {
        g = take_sheet(words, seats, g, &Sheet::known(sheet));
        g = after_sheet(words, seats, g, first);
        first = false;
    }
    settle(words, seats, g, false)
}
