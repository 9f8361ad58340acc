// A list of places, whatever it is made of: how many places it has, and how an entry is written at one.
#![tactic(auto)]

ghost use Rattle.std.specs.Prelude.{◌≡◌, ℕ, ◌/◌, ◌<◌, ◌≤◌, length};
ghost use Rattle.audit_places.specs.Writing.{Writing, in_words, in_bytes, few_words, few_bytes};

// What a list of places is made of: words, one for each place, or bytes, four for each.
pub trait Unit {
    // How many places n of them are.
    ghost places: { ℕ → ℕ };

    // How entries are written in a list of them.
    ghost writing: { Writing Self };

    fn room(list: &[Self]) -> usize
    where
        Self: Sized,
        ensures { result ≡ places (length list.now) };

    fn put(list: &mut [Self], i: usize, entry: u32)
    where
        Self: Sized,
        requires { i < places (length list.old) }
        ensures { list.new ≡ writing.one list.old i entry };

    // No more places than units.
    ghost few: { (n : ℕ) → places n ≤ n };
}

impl Unit for u32 {
    ghost places = { λ n. n };

    ghost writing = { in_words };

    ghost few = { few_words };

    fn room(list: &[u32]) -> usize {
        list.len()
    }

    fn put(list: &mut [u32], i: usize, entry: u32) {
        list[i] = entry;
    }
}

impl Unit for u8 {
    ghost places = { λ n. n / 4 };

    ghost writing = { in_bytes };

    ghost few = { few_bytes };

    // Bytes after the last whole place are no place.
    fn room(list: &[u8]) -> usize {
        list.len() / 4
    }

    fn put(list: &mut [u8], i: usize, entry: u32) {
        words::put32(list, 4 * i, entry);
    }
}
