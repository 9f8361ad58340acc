// Request #107: rules 25, 26 and 27 of all that the first volume contains.
#![tactic(auto)]

ghost use Rattle.std.specs.Prelude.{◌≡◌, ℕ, ◌+◌, ◌*◌, ◌≤◌, ◌<◌, length};
ghost use Rattle.facts.specs.Fact.{Tells, Holds};
ghost use Rattle.table.specs.Passes.{place};
ghost use Rattle.items.specs.Items.{apart_from};
ghost use Rattle.apart_front.specs.Fronts.{Ordered};
ghost use Rattle.inside_walk.specs.Whole.{walked};
ghost use Rattle.inside_walk.specs.Walkable.{Walkable};
ghost use Rattle.inside_judge.specs.Rules.{patch_items};
ghost use Rattle.apart_windows.specs.Windows.{Ready};
ghost use Rattle.inside_rules.specs.Contents.{contents_number, Entries};
ghost use Rattle.inside_rules.specs.ContentsLaws.{Around};

use apart_front::Front;
use inside_judge::Limits;

// The frontier that the patch words make: they lie from its high up to its top, and where there are none both are 0.
fn around(image: &[u8], t: usize, n: usize) -> Front
    requires { (t + 4 * n ≤ length image.now) × ((i : ℕ) → i < n → (place image.now t i).number ≡ 0) × (length image.now ≤ 16777216) }
    ensures { Around image.now t n result }
{
    let mut low = image.len();
    let mut top: usize = 0;
    for i in 0..n {
        let p = table::spot_at(image, t, i);
        low = low.min(p);
        top = top.max(p + 4);
    }
    Front {
        low: 0,
        high: low.min(top),
        top,
    }
}

// Whether the words lie apart: it is known where all came in order, or where few patch words lie beside items that did; windows tell elsewhere.
fn are_apart(
    image: &[u8],
    v: usize,
    f: usize,
    t: usize,
    n: usize,
    E: usize,
    top: usize,
    front: Front,
) -> bool
    requires { Ready image.now v f t n E top × (Ordered front → Holds (apart_from (patch_items image.now t n) (walked image.now v f))) }
    ensures { Tells result (apart_from (patch_items image.now t n) (walked image.now v f)) }
{
    if front.is_ordered() {
        return true;
    }
    if apart_few::surely_apart(image, v, f, t, n) {
        return true;
    }
    apart_windows::words_apart(image, v, f, t, n, E, top)
}

// The number of the first of the three rules that isn't passed, or 0. It is told as the definition contents_number tells it, which the promises
// of the rooms above name.
pub fn contents_number(
    image: &[u8],
    v: usize,
    f: usize,
    t: usize,
    n: usize,
    c: usize,
    z: usize,
) -> u32
    requires { Walkable image.now v f × Entries image.now t n c z × (c + z ≤ length image.now) }
    ensures { result ≡ contents_number image.now v f t n c z }
{
    let E = t + 4 * n;
    let start = around(image, t, n);
    let j = inside_judge::judge(image, v, f, Limits { E, c, z }, start);
    if !j.whole {
        return 25;
    }
    if !j.placed {
        return 26;
    }
    let top = j.top.min(image.len()).max(start.top);
    if !are_apart(image, v, f, t, n, E, top, j.front) {
        return 26;
    }
    if !j.known {
        return 27;
    }
    0
}
