// The text of an audit's answer, into a lent buffer.
#![tactic(auto)]

ghost use Rattle.std.specs.Prelude.{◌+◌, ◌*◌, ◌≤◌, ◌<◌, length};
ghost use Rattle.text_lines.specs.Lines.{Wrote};
ghost use Rattle.text_answer.specs.Told.{heading, place_line, place_lines, refusal, told};
ghost use Rattle.text_answer.specs.Told.{verdict};

use answers::Audited;

// The lines before the places: at most 14, 30, 28 and 26 bytes.
fn put_heading(out: &mut [u8], base: u64, settings: usize, strays: usize, bits: usize) -> usize
    requires { 98 ≤ length out.old }
    ensures wrote { Wrote out.old out.new 0 (heading base settings strays bits) result }
    ensures upper_bound { result ≤ 98 }
{
    let p = text_lines::put_hex_line(out, 0, b"base ", base);
    let q = text_lines::put_line(out, p, b"settings ", settings as u64);
    let s = text_lines::put_line(out, q, b"strays ", strays as u64);
    text_lines::put_line(out, s, b"bits ", bits as u64)
}

// A setting by its position, a stray by its position too.
fn put_place(out: &mut [u8], at: usize, v: u32) -> usize
    requires { at + 13 ≤ length out.old }
    ensures wrote { Wrote out.old out.new at (place_line v) result }
    ensures upper_bound { result ≤ at + 13 }
{
    if v < 16777216 {
        return text_lines::put_short_line(out, at, b"S ", v);
    }
    text_lines::put_short_line(out, at, b"X ", v - 16777216)
}

// A line for each place.
fn put_places(out: &mut [u8], at: usize, places: &[u32]) -> usize
    requires { at + 13 * length places.now ≤ length out.old }
    ensures wrote { Wrote out.old out.new at (place_lines places.now) result }
    ensures upper_bound { result ≤ at + 13 * length places.now }
{
    let mut p = at;
    for place in places {
        p = put_place(out, p, *place);
    }
    p
}

fn put_verdict(out: &mut [u8], at: usize, explained: bool) -> usize
    requires { at + 20 ≤ length out.old }
    ensures wrote { Wrote out.old out.new at (verdict explained) result }
    ensures upper_bound { result ≤ at + 20 }
{
    if explained {
        return text_lines::put_text(out, at, b"verdict explained\n");
    }
    text_lines::put_text(out, at, b"verdict unexplained\n")
}

// An accepted audit with the places that it listed.
pub fn put_told(out: &mut [u8], a: Audited, places: &[u32]) -> usize
    requires { 118 + 13 * length places.now ≤ length out.old }
    ensures wrote { Wrote out.old out.new 0 (told a places.now) result }
    ensures upper_bound { result ≤ 118 + 13 * length places.now }
{
    let p = put_heading(out, a.base, a.settings, a.strays, a.bits);
    let q = put_places(out, p, places);
    put_verdict(out, q, a.explained)
}

pub fn put_refusal(out: &mut [u8], number: u32) -> usize
    requires { 19 ≤ length out.old }
    ensures wrote { Wrote out.old out.new 0 (refusal number) result }
    ensures upper_bound { result ≤ 19 }
{
    text_lines::put_short_line(out, 0, b"refused ", number)
}
