// Document 01, "The audit": two stretches of bytes compared. The first starts at position o: its byte at k is a[k - o], and the second's is b[k].
#![tactic(auto)]

ghost use Rattle.std.specs.Prelude.{◌+◌, ◌≤◌, length};
ghost use Rattle.audit_stretch.specs.Stretch.{Differs};
ghost use Rattle.piece_stretch.specs.Stretch.{after};

// The first position from `from` on and below `to` at which the two differ; the first byte is likely to, and is looked at by itself.
pub fn next(a: &[u8], o: usize, b: &[u8], from: usize, to: usize) -> Option<usize>
    requires { (from ≤ to) × (o ≤ from) × (to ≤ o + length a.now) × (to ≤ length b.now) }
    ensures { Differs (after o a.now) b.now from to result }
{
    let first = &a[from - o..to - o];
    let second = &b[from..to];
    match audit_stretch::next(first, second, 0, to - from) {
        Some(k) => Some(from + k),
        None => None,
    }
}
