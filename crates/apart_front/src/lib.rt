// Request #107, rule 26: where items come in order, each is known to lie apart from all that is passed by comparing it with a frontier.
#![tactic(auto)]

ghost use Rattle.std.specs.Prelude.{[], ◌∷◌, ◌+◌, ◌≤◌, ◌<◌};
ghost use Rattle.facts.specs.Fact.{Tells};
ghost use Rattle.items.specs.Judged.{off};
ghost use Rattle.apart_front.specs.Fronts.{SaysOrdered, Fronts};

use items::Item;

// Whether x shares no byte with the len bytes at `at`.
pub fn is_off(x: Item, at: usize, len: usize) -> bool
    requires { (x.at + x.len < 1099511627776) × (at + len < 1099511627776) }
    ensures { Tells result (off at len x) }
{
    x.at + x.len <= at || at + len <= x.at
}

// All that is passed lies below low or in high..top, so that low..high and all from top on is free. A top of 1 TiB or more, below which every
// item ends, says that something came out of order. (A flag would pad the struct, and copying the padding costs more than all comparisons.)
#[derive(Clone, Copy)]
pub struct Front {
    pub low: usize,
    pub high: usize,
    pub top: usize,
}

impl Front {
    // The frontier of which nothing is known: something came out of order.
    pub fn lost() -> Front
        ensures { 1099511627776 ≤ result.top }
    {
        Front {
            low: 1099511627776,
            high: 0,
            top: 1099511627776,
        }
    }

    // Whether all came in order.
    pub fn is_ordered(self) -> bool
        ensures { SaysOrdered self result }
    {
        self.top < 1099511627776
    }

    // x comes next: into the gap, or above all. What ends at 0 has no bytes and lies apart from anything.
    pub fn pass(self, x: Item) -> Front
        requires { x.at + x.len < 1099511627776 }
        ensures { Fronts self (x ∷ []) result }
    {
        let end = x.at + x.len;
        if self.low <= x.at && end <= self.high {
            return Front { low: end, ..self };
        }
        if self.top <= x.at {
            return Front {
                low: end,
                high: end,
                top: end,
            };
        }
        if end == 0 {
            return self;
        }
        Front::lost()
    }

    // The same for a relocation block: it leaves what lies below it free, as the words that it names come next.
    pub fn open(self, x: Item) -> Front
        requires { x.at + x.len < 1099511627776 }
        ensures { Fronts self (x ∷ []) result }
    {
        if x.at < self.top {
            return self.pass(x);
        }
        let top = x.at + x.len;
        if self.low == self.top {
            return Front {
                high: x.at,
                top,
                ..self
            };
        }
        Front { top, ..self }
    }
}
