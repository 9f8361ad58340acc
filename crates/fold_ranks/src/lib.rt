// Document 02, #114: runs in order, and how many bytes are set before each.
#![tactic(auto)]

ghost use Rattle.std.specs.Prelude.{true, ◌≡◌, ◌≤◌, length};
ghost use Rattle.fold_ranks.specs.Ranks.{Rising, sum_to, Summed};

// Whether runs ascend, none empty, with something unset between them, and start at `top` or below.
pub fn rising(words: &[usize], top: usize) -> bool
    ensures { result ≡ true → Rising words.now (length words.now) top }
{
    let mut free = 0;
    for w in words {
        let start = fold_words::start_of(*w);
        let size = fold_words::size_of(*w);
        if start < free {
            return false;
        }
        if size == 0 {
            return false;
        }
        if top < start {
            return false;
        }
        free = start + size + 1;
    }
    true
}

// The bytes before each run, and those of all.
pub fn rank(words: &[usize], ranks: &mut [usize]) -> usize
    requires { (length words.now ≤ length ranks.old) × (length words.now ≤ 512) }
    ensures value { (result ≡ sum_to words.now (length words.now)) × Summed words.now (length words.now) ranks.new }
    ensures upper_bound { (result ≤ 33554432) × (length ranks.new ≡ length ranks.old) }
{
    let mut sum = 0;
    for (i, w) in words.iter().enumerate() {
        ranks[i] = sum;
        sum += fold_words::size_of(*w);
    }
    sum
}
