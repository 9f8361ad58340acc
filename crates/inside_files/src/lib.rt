// The files of a volume and their sections, part by part.
#![tactic(auto)]

ghost use Rattle.std.specs.Prelude.{true, ℕ, ◌≡◌, ◌+◌, ◌≤◌, ◌<◌, length, get_or};
ghost use Rattle.words.specs.Round.{round4};
ghost use Rattle.facts.specs.Fact.{Tells, ◌≤?◌, ◌≡?◌, ◌or◌};
ghost use Rattle.inside_files.specs.Parts.{free, file_fits, section_fits, sections_at, first_at, first_place};
ghost use Rattle.inside_files.specs.Free.{Full};
ghost use Rattle.inside_files.specs.PartsWalk.{last_turn, Valid, Stepped};

// What a part is.
#[derive(Clone, Copy, PartialEq, Eq)]
pub enum PartKind {
    // Nothing is left.
    End,
    // A file's header, or the free end.
    Header,
    Section,
    // No file or section where one should be.
    Broken,
}

// What the walk meets.
#[derive(Clone, Copy)]
pub struct Part {
    pub kind: PartKind,
    pub at: usize,
    pub len: usize,
    pub sort: usize,
}

// Where the walk stands: the next file, the end of the file at hand, and its next section.
#[derive(Clone, Copy)]
pub struct Place {
    pub file: usize,
    pub end: usize,
    pub at: usize,
}

#[derive(Clone, Copy)]
pub struct Turn {
    pub part: Part,
    pub next: Place,
}

// The bits of the 8 bytes at k that aren't set.
fn unset(image: &[u8], k: usize) -> usize
    requires { k + 8 ≤ length image.now }
    ensures { result ≡ 0 → Full image.now k 8 }
{
    words::le64(image, k) ^ 18446744073709551615
}

// Whether the 32 bytes at k are all 0xFF.
fn is_full(image: &[u8], k: usize) -> bool
    requires { k + 32 ≤ length image.now }
    ensures { result ≡ true → Full image.now k 32 }
{
    let w = unset(image, k);
    let x = unset(image, k + 8);
    let y = unset(image, k + 16);
    let z = unset(image, k + 24);
    w | x | y | z == 0
}

// Passes 0xFF bytes from f on, 32 at a time; never past v.
fn skip_blocks(image: &[u8], v: usize, f: usize) -> usize
    requires { (v ≤ length image.now) × (f ≤ v) }
    ensures { (f + result ≤ v) × Full image.now f result }
{
    let n = (v - f) / 32;
    for i in 0..n {
        if !is_full(image, f + 32 * i) {
            return 32 * i;
        }
    }
    32 * n
}

// The same, eight at a time where no 32 are left.
fn skip_free(image: &[u8], v: usize, f: usize) -> usize
    requires { (v ≤ length image.now) × (f ≤ v) }
    ensures { (f + result ≤ v) × ((k : ℕ) → k < result → get_or image.now (f + k) 0 ≡ 255) }
{
    let from = skip_blocks(image, v, f);
    let n = (v - f - from) / 8;
    for i in 0..n {
        let k = from + 8 * i;
        if words::le64(image, f + k) != 18446744073709551615 {
            return k;
        }
    }
    from + 8 * n
}

// Whether none remains, or the first is 0xFF, as a file's is hardly ever.
fn may_be_free(image: &[u8], v: usize, f: usize) -> bool
    requires { (v ≤ length image.now) × (f ≤ v) }
    ensures { Tells result (v ≤? f or get_or image.now f 0 ≡? 255) }
{
    if v <= f {
        return true;
    }
    if image[f] == 255 {
        return true;
    }
    false
}

// Whether only 0xFF bytes remain.
fn is_free(image: &[u8], v: usize, f: usize) -> bool
    requires { (v ≤ length image.now) × (f ≤ v) }
    ensures { Tells result (free image.now v f) }
{
    let n = v - f;
    if !may_be_free(image, v, f) {
        return false;
    }
    for i in skip_free(image, v, f)..n {
        if image[f + i] != 255 {
            return false;
        }
    }
    true
}

// Where the sections of the file at f start.
fn sections_at(image: &[u8], f: usize) -> usize
    requires { f + 24 ≤ length image.now }
    ensures { result ≡ sections_at image.now f }
{
    let t = words::byte(image, f + 18);
    if t == 0x01 {
        return f + words::le24(image, f + 20);
    }
    if t == 0xF0 {
        return f + words::le24(image, f + 20);
    }
    f + 24
}

// A part after which none comes before the file at `file`.
fn last(file: usize, kind: PartKind, at: usize, len: usize) -> Turn
    ensures { result ≡ last_turn file kind at len }
{
    Turn {
        part: Part {
            kind,
            at,
            len,
            sort: 0,
        },
        next: Place {
            file,
            end: 0,
            at: 0,
        },
    }
}

fn section_step(image: &[u8], v: usize, c: Place) -> Turn
    requires { (v ≤ length image.now) × (v ≤ 16777216) × Valid v c × (c.at < c.end) }
    ensures { Stepped image.now v c result }
{
    let p = c.at;
    if !volume_file::section_held(image, c.end, p, 4) {
        return last(c.file, PartKind::Broken, p, 0);
    }
    let size = words::le24(image, p);
    Turn {
        part: Part {
            kind: PartKind::Section,
            at: p,
            len: size,
            sort: words::byte(image, p + 3),
        },
        next: Place {
            at: (p + size + 3) / 4 * 4,
            ..c
        },
    }
}

fn file_step(image: &[u8], v: usize, c: Place) -> Turn
    requires { (v ≤ length image.now) × (v ≤ 16777216) × Valid v c × (c.end ≤ c.at) × (c.file < v) }
    ensures { Stepped image.now v c result }
{
    let f = c.file;
    if is_free(image, v, f) {
        return last(v, PartKind::Header, f, v - f);
    }
    if !volume_file::file_held(image, v, f, 24) {
        return last(v, PartKind::Broken, f, 0);
    }
    let end = f + words::le24(image, f + 20);
    let at = sections_at(image, f);
    Turn {
        part: Part {
            kind: PartKind::Header,
            at: f,
            len: 24,
            sort: 0,
        },
        next: Place {
            file: (end + 7) / 8 * 8,
            end,
            at,
        },
    }
}

fn round_4(n: usize) -> usize
    requires { n ≤ 4294967296 }
    ensures { result ≡ round4 n }
{
    (n + 3) / 4 * 4
}

// Where the walk goes on in the header file.
fn first_at(image: &[u8], f: usize, end: usize) -> usize
    requires { (f + 28 ≤ length image.now) × (length image.now ≤ 16777216) }
    ensures { result ≡ first_at image.now f end }
{
    let t = words::byte(image, f + 18);
    if t == 0x01 {
        return end;
    }
    if t == 0xF0 {
        return end;
    }
    round_4(f + 24 + words::le24(image, f + 24))
}

// Where the walk starts: after the first section of the header file, at f.
pub fn first(image: &[u8], f: usize) -> Place
    requires { (f + 28 ≤ length image.now) × (length image.now ≤ 16777216) }
    ensures { result ≡ first_place image.now f }
{
    let end = f + words::le24(image, f + 20);
    let at = first_at(image, f, end);
    Place {
        file: (end + 7) / 8 * 8,
        end,
        at,
    }
}

// The next part, with the place after it.
pub fn step(image: &[u8], v: usize, c: Place) -> Turn
    requires { (v ≤ length image.now) × (v ≤ 16777216) × Valid v c }
    ensures { Stepped image.now v c result }
{
    if c.at < c.end {
        return section_step(image, v, c);
    }
    if c.file < v {
        return file_step(image, v, c);
    }
    Turn {
        part: Part {
            kind: PartKind::End,
            at: 0,
            len: 0,
            sort: 0,
        },
        next: c,
    }
}
