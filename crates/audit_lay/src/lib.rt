// Document 01, "The audit": the reference's bytes laid into a window, which is lent and stands for the positions from `from` on: the words of a
// move, each with its moved value, over the vendor's own bytes.
#![tactic(auto)]

ghost use Rattle.std.specs.Prelude.{◌≡◌, ◌+◌, ◌^◌, ◌<◌, ◌≤◌, ◌⊎◌, length};
ghost use Rattle.facts.specs.Fact.{Holds};
ghost use Rattle.items.specs.Items.{inside};
ghost use Rattle.audit_lay.specs.Lay.{value, Laid, ItemLaid};

use items::{Item, Kind};
use moves::Shift;

// Those of the m bytes of w, the first of which stands at p, that lie there.
fn lay_part(window: &mut [u8], from: usize, p: usize, m: usize, w: u64)
    requires { (from + length window.old ≤ 16777216) × (m ≤ 8) × (p + m ≤ 16777216) }
    ensures { Laid from (length window.old) p m w window.old window.new }
{
    let low = p.max(from);
    let high = (p + m).min(from + window.len());
    if low < high {
        let bytes = w.to_le_bytes();
        window[low - from..high - from].copy_from_slice(&bytes[low - p..high - p]);
    }
}

// The same, in one go where all of them do.
fn lay_word(window: &mut [u8], from: usize, p: usize, m: usize, w: u64)
    requires { (from + length window.old ≤ 16777216) × ((m ≡ 4) ⊎ (m ≡ 8)) × (p + m ≤ 16777216) × (w < 256 ^ m) }
    ensures { Laid from (length window.old) p m w window.old window.new }
{
    if from <= p {
        let i = p - from;
        if i + m <= window.len() {
            if m == 8 {
                words::put64(window, i, w);
                return;
            }
            words::put32(window, i, w as u32);
            return;
        }
    }
    lay_part(window, from, p, m, w);
}

// An item's word, if it is one and has a byte there.
pub fn lay_item(vendor: &[u8], x: Item, d: Shift, window: &mut [u8], from: usize)
    requires { Holds (inside (length vendor.now) x) × (length vendor.now ≤ 16777216) × (from + length window.old ≤ 16777216) }
    ensures { ItemLaid (value vendor.now d.four d.eight) from (length window.old) x window.old window.new }
{
    if x.kind != Kind::Word {
        return;
    }
    if x.at + x.len <= from {
        return;
    }
    if from + window.len() <= x.at {
        return;
    }
    let w = move_modules::moved_word(vendor, x.at, x.len, d);
    lay_word(window, from, x.at, x.len, w);
}
