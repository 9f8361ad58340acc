// The next of the words that the tables name, the base word and then the patch words in order, for a walk that goes up through the image.
#![tactic(auto)]

ghost use Rattle.std.specs.Prelude.{◌≡◌, ◌+◌, ◌≤◌, ◌<◌, length};
ghost use Rattle.reading_rules.specs.Reading.{entries_at};
ghost use Rattle.reading_rules.specs.Guarantee.{Guaranteed};
ghost use Rattle.table_order.specs.Ranks.{Ranked};
ghost use Rattle.audit_tables.specs.Ahead.{started, Rest, Known};

use answers::Reading;

// The place of the nearest that isn't passed, or the image's length; and where in the list the one after it stands. A place in both cases and
// no Option, so that the nearer of this one and the modules' next is the `min` of two places.
#[derive(Clone, Copy)]
pub struct Ahead {
    pub first: usize,
    pub next: usize,
}

// The list of the patch words' places in order: a reading that is accepted has them apart.
pub fn rank_words(image: &[u8], r: Reading, list: &mut [u32])
    requires { Guaranteed image.now r × (1024 ≤ length list.old) }
    ensures { Ranked image.now (entries_at r) r.n list.new }
{
    table_order::rank(image, r.E - 4 * r.n, r.n, list);
}

// Where a walk starts: no word stands before the base word.
pub fn start(r: Reading) -> Ahead
    requires { r.H ≤ 16777216 }
    ensures { result ≡ started r }
{
    Ahead {
        first: r.H + 28,
        next: 0,
    }
}

// The first word of the list from k on that ends past `at`.
fn next_word(image: &[u8], r: Reading, ranks: &[u32], at: usize, k: usize) -> Ahead
    requires { Guaranteed image.now r × Ranked image.now (entries_at r) r.n ranks.now × Rest image.now r ranks.now at k }
    ensures known { Known image.now r ranks.now at result }
    ensures at_bound { result.first < length image.now → at < result.first + 4 }
{
    for i in k..r.n {
        let p = table_order::place_in(ranks, i);
        if at < p + 4 {
            return Ahead {
                first: p,
                next: i + 1,
            };
        }
    }
    Ahead {
        first: image.len(),
        next: r.n,
    }
}

// The next word from `at` on, where q had it before.
pub fn current_words(image: &[u8], r: Reading, ranks: &[u32], at: usize, q: Ahead) -> Ahead
    requires { Guaranteed image.now r × Known image.now r ranks.now at q }
    ensures known { Known image.now r ranks.now at result }
    ensures at_bound { result.first < length image.now → at < result.first + 4 }
{
    if at < q.first + 4 {
        return q;
    }
    next_word(image, r, ranks, at, q.next)
}
