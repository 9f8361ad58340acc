// Document 02, #114: the runs of what a pile sets, and their bytes, counted window by window.
#![tactic(auto)]

ghost use Rattle.std.specs.Prelude.{true, ◌≡◌, ◌+◌, ◌≤◌, ◌<◌, length};
ghost use Rattle.fold_pile.specs.Pile.{sheets};
ghost use Rattle.fold_cells.specs.SetAt.{set_at};
ghost use Rattle.fold_tally.specs.Tally.{stepped, through, Small, Gapped, Counted, Blank, Skipped};

use fold_pile::Pile;

// Up to some position: how long the run is that goes up to it, how many have ended, and how many positions are set.
#[derive(Clone, Copy, Default)]
pub struct Tally {
    pub run: usize,
    pub runs: usize,
    pub bytes: usize,
}

impl Tally {
    // One position more.
    pub fn step(self, c: u16) -> Tally
        requires { Small self 1099511758848 }
        ensures { result ≡ stepped c self }
    {
        if c != 0 {
            return Tally {
                run: self.run + 1,
                bytes: self.bytes + 1,
                ..self
            };
        }
        if self.run == 0 {
            return self;
        }
        Tally {
            run: 0,
            runs: self.runs + 1,
            ..self
        }
    }
}

// Four cells as one number, 0 where nothing is set in any of them.
fn four(cells: &[u16], i: usize) -> u16
    requires { i + 4 ≤ length cells.now }
    ensures { result ≡ 0 → Blank cells.now i (i + 4) }
{
    cells[i] | cells[i + 1] | cells[i + 2] | cells[i + 3]
}

// Whether nothing is set in sixteen cells.
fn sixteen(cells: &[u16], i: usize) -> bool
    requires { i + 16 ≤ length cells.now }
    ensures { result ≡ true → Blank cells.now i (i + 16) }
{
    let a = four(cells, i);
    let b = four(cells, i + 4);
    let c = four(cells, i + 8);
    let d = four(cells, i + 12);
    a | b | c | d == 0
}

// Passes cells in which nothing is set, sixteen at a time, but not the last; a `for` in steps wouldn't tell where it ended.
fn skip(cells: &[u16], i: usize) -> usize
    requires { i < length cells.now }
    ensures { Skipped cells.now i result }
{
    let mut k = i;
    while cells.len() - k > 16 {
        if !sixteen(cells, k) {
            return k;
        }
        k += 16;
    }
    k
}

// The same one at a time.
fn skip_rest(cells: &[u16], i: usize) -> usize
    requires { i < length cells.now }
    ensures { Skipped cells.now i result }
{
    let last = cells.len() - 1;
    for k in i..last {
        if cells[k] != 0 {
            return k;
        }
    }
    last
}

// Where no run is open, passes cells in which nothing is set: they change nothing.
pub fn past(cells: &[u16], i: usize, run: usize) -> usize
    requires { i < length cells.now }
    ensures { Skipped cells.now i result × ((run ≡ 0 → ⊥) → result ≡ i) }
{
    if run != 0 {
        return i;
    }
    skip_rest(cells, skip(cells, i))
}

// All positions of a window; `past` moves the index over many at once, so it isn't a `for`.
fn count_cells(cells: &[u16], t: Tally) -> Tally
    requires { Small t 1099511627776 × (length cells.now ≤ 65536) }
    ensures { result ≡ through cells.now (length cells.now) t }
{
    let mut u = t;
    let mut i = 0;
    while i < cells.len() {
        i = past(cells, i, u.run);
        u = u.step(cells[i]);
        i += 1;
    }
    u
}

// The positions from `at` up to `base`, at none of which anything is set.
fn pass(at: usize, base: usize, t: Tally) -> Tally
    requires { Small t 1099511627776 }
    ensures { Gapped at base t result }
{
    if at < base {
        return t.step(0);
    }
    t
}

// All positions; or those up to some window, where there are too many by then. A window begins where something is set, so no range has them.
pub fn count(pile: &Pile, cells: &mut [u16]) -> Tally
    requires { (1 ≤ length cells.old) × (length cells.old ≤ 65536) }
    ensures counted { Counted (set_at (sheets pile.now.bytes.now)) result }
    ensures cells_len_unchanged { length cells.new ≡ length cells.old }
{
    let mut t = Tally::default();
    let mut at = 0;
    while at < 4295032831 {
        let base = fold_cells::next_set(pile, at);
        t = pass(at, base, t);
        if base == 4295032831 {
            return t;
        }
        fold_cells::fill(cells, base, pile);
        t = count_cells(cells, t);
        if t.runs > 256 || t.bytes > 65535 {
            return t;
        }
        at = base + cells.len();
    }
    t
}
