// Document 02, #114: the two ways to fold a pile that passes 15 and 16: by its runs, and by windows where the runs don't tell enough.
#![tactic(auto)]

ghost use Rattle.std.specs.Prelude.{◌≡◌, ◌≤◌, ◌<◌, length};
ghost use Rattle.fold_cells.specs.Cells.{last};
ghost use Rattle.fold_tally.specs.Tally.{tally_of};
ghost use Rattle.fold_sheet.specs.Folded.{onto};
ghost use Rattle.fold_sheet.specs.Placing.{Room};
ghost use Rattle.fold_ranks.specs.Ranks.{Whole};
ghost use Rattle.fold_bodies.specs.Bodies.{Stands};
ghost use Rattle.fold.specs.Fold.{pile_sets, folded_sheet};
ghost use Rattle.fold_ways.specs.Ways.{Way};
ghost use Rattle.fold_ways.specs.RunLaws.{Made, Known};

use fold_pile::Pile;
use fold_tally::Tally;

// The header and the entries, once the bodies stand.
fn finish(out: &mut [u8], pile: &Pile, words: &[usize], ranks: &[usize])
    requires made { Made (pile_sets pile.now.bytes.now) words.now (length words.now) ranks.now (length out.old) }
    requires stands { Stands (length words.now) (pile_sets pile.now.bytes.now) (pile_sets pile.now.bytes.now) out.old }
    ensures { out.new ≡ onto (folded_sheet pile.now.bytes.now) out.old }
{
    fold_sheet::put_header(out, pile.first, words.len());
    fold_bodies::put_runs(out, words, ranks);
}

// Writes the folded sheet, which has m entries, by windows.
fn make_slowly(out: &mut [u8], m: usize, pile: &Pile)
    requires { Room m (pile_sets pile.now.bytes.now) (length out.old) }
    ensures { out.new ≡ onto (folded_sheet pile.now.bytes.now) out.old }
{
    let mut cells = [0u16; 4096];
    fold_write::write_sheet(out, m, pile, &mut cells);
}

// Writes the folded sheet by its runs.
fn make_by_runs(out: &mut [u8], pile: &Pile, words: &[usize], seats: &[u16], ranks: &[usize])
    requires { Made (pile_sets pile.now.bytes.now) words.now (length words.now) ranks.now (length out.old) × (length seats.now ≡ 1024) }
    ensures { out.new ≡ onto (folded_sheet pile.now.bytes.now) out.old }
{
    if !fold_bodies::lay_pile(out, pile, words, seats, ranks) {
        make_slowly(out, words.len(), pile);
        return;
    }
    finish(out, pile, words, ranks);
}

// By windows.
fn by_windows(pile: &Pile, out: &mut [u8]) -> Tally
    ensures { Way pile.now.bytes.now out.old result out.new }
{
    let mut cells = [0u16; 4096];
    let t = fold_tally::count(pile, &mut cells);
    if !fold_room::has_room(t, out.len()) {
        return t;
    }
    fold_write::write_sheet(out, t.runs, pile, &mut cells);
    t
}

// A pile whose runs are all that it sets.
fn by_runs(pile: &Pile, out: &mut [u8], words: &[usize], seats: &[u16]) -> Tally
    requires { Whole (pile_sets pile.now.bytes.now) words.now (length words.now) last × (length words.now ≤ 512) × (length seats.now ≡ 1024) }
    ensures { Way pile.now.bytes.now out.old result out.new }
{
    let mut ranks = [0usize; 512];
    let bytes = fold_ranks::rank(words, &mut ranks);
    let t = Tally {
        run: 0,
        runs: words.len(),
        bytes,
    };
    if !fold_room::has_room(t, out.len()) {
        return t;
    }
    make_by_runs(out, pile, words, seats, &ranks);
    t
}

// A pile of which just the n runs below `top` are known: more than 257 of them are too many, and needn't be counted.
fn by_many(pile: &Pile, out: &mut [u8], n: usize) -> Tally
    requires { 257 < n → 257 ≤ (tally_of (pile_sets pile.now.bytes.now)).runs }
    ensures { Way pile.now.bytes.now out.old result out.new }
{
    if n <= 257 {
        return by_windows(pile, out);
    }
    Tally {
        run: 0,
        runs: 257,
        bytes: 0,
    }
}

// A pile whose runs below `top` are all that it sets there.
fn by_words(pile: &Pile, out: &mut [u8], words: &[usize], seats: &[u16], top: usize) -> Tally
    requires { Known (pile_sets pile.now.bytes.now) words.now (length words.now) top × (length words.now ≤ 512) × (length seats.now ≡ 1024) }
    ensures { Way pile.now.bytes.now out.old result out.new }
{
    if !fold_ranks::rising(words, top) {
        return by_windows(pile, out);
    }
    if top != 4295032831 {
        return by_many(pile, out, words.len());
    }
    by_runs(pile, out, words, seats)
}

// Counts what a pile sets, and writes its folded sheet at the start of `out` where it has room there.
pub fn fold_counted(pile: &Pile, out: &mut [u8]) -> Tally
    ensures { Way pile.now.bytes.now out.old result out.new }
{
    let mut words = [0usize; 1024];
    let mut seats = [0u16; 1024];
    let g = fold_runs::gather(pile, &mut words, &mut seats);
    let runs = &words[..g.n];
    if !fold_held::all_held(pile, runs, &seats, g.top) {
        return by_windows(pile, out);
    }
    by_words(pile, out, runs, &seats, g.top)
}
