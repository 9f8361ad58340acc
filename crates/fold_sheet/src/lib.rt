// Document 02, #114: the folded sheet, written position by position.
#![tactic(auto)]

ghost use Rattle.std.specs.Prelude.{◌≡◌, ◌+◌, ◌≤◌, ◌<◌, length};
ghost use Rattle.words.specs.Put.{put};
ghost use Rattle.fold_sheet.specs.Placing.{put_header, put_entry, placed, Safe};

use answers::Identity;
use fold_tally::Tally;

// The 16-bit number w at `at`.
fn put16(s: &mut [u8], at: usize, w: usize)
    requires { at + 2 ≤ length s.old }
    ensures { s.new ≡ put 2 s.old at w }
{
    s[at] = (w % 256) as u8;
    s[at + 1] = (w / 256 % 256) as u8;
}

// The 16 bytes before the entries, of which there are m.
pub fn put_header(out: &mut [u8], first: Identity, m: usize)
    requires { 16 ≤ length out.old }
    ensures { out.new ≡ put_header out.old first m }
{
    words::put64(out, 0, first.image);
    words::put32(out, 8, first.revision);
    put16(out, 12, m);
    put16(out, 14, first.extended as usize);
}

// An entry at `at`.
pub fn put_entry(out: &mut [u8], at: usize, start: usize, size: usize, body: usize)
    requires { (at + 8 ≤ length out.old) × (start < 4294967296) }
    ensures { out.new ≡ put_entry out.old at start size body }
{
    words::put32(out, at, start as u32);
    put16(out, at + 4, size);
    put16(out, at + 6, body);
}

// What position k brings, where c is set: the next byte of the bodies, or the entry of a run that ends here.
pub fn place(out: &mut [u8], m: usize, k: usize, c: u16, t: Tally)
    requires { Safe (length out.old) m k c t }
    ensures { out.new ≡ placed m k t c t.run out.old }
{
    let bodies = 16 + 8 * m;
    if c != 0 {
        let at = bodies + t.bytes;
        out[at] = (c - 1) as u8;
        return;
    }
    if t.run == 0 {
        return;
    }
    put_entry(
        out,
        16 + 8 * t.runs,
        k - t.run,
        t.run,
        bodies + (t.bytes - t.run),
    );
}
