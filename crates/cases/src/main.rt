// Reads records from standard input, does what each asks, and prints the answer and every lent byte afterwards. A record is a head of 40
// bytes, which, at, count, call, len, other (32 bits each), a and b (64 bits each), and count bytes, which go into buffer `which` at `at`.
// The image is the first len bytes of buffer 0, the other input the first `other` bytes of buffer 1; of a release buffer 2 has the owner
// list, as long as the low half of b says, and the high half of b is the owner. A mending changes buffer 1; its list of places is a place
// each, as an audit's, or the bytes of buffer 2, as many as the low half of b says.
#![tactic(auto)]

ghost use Rattle.std.specs.Prelude.{◌≤◌, IfOk, length};

use std::io;
use std::io::Read;

// What a record asks.
#[derive(Clone, Copy, Debug, PartialEq, Eq)]
enum Call {
    Read,
    Setting,
    Audit,
    Release,
    Mend,
    MendBytes,
}

// A number that names no call: its record only stores its bytes.
#[derive(Clone, Copy, Debug, PartialEq, Eq)]
struct NoCall;

impl TryFrom<usize> for Call {
    type Error = NoCall;

    fn try_from(number: usize) -> Result<Self, NoCall> {
        match number {
            1 => Ok(Call::Read),
            4 => Ok(Call::Setting),
            5 => Ok(Call::Audit),
            7 => Ok(Call::Release),
            8 => Ok(Call::Mend),
            9 => Ok(Call::MendBytes),
            _ => Err(NoCall),
        }
    }
}

#[derive(Clone, Copy)]
struct Record {
    which: usize,
    at: usize,
    count: usize,
    call: Option<Call>,
    len: usize,
    other: usize,
    a: usize,
    b: usize,
}

fn show_reading(rt: &impl Print, r: answers::Reading) -> io::Result<()> {
    let k = r.identity;
    print!(rt;
        "{} {} {} {} {} {}",
        r.number, r.index, r.H, r.component, k.image, k.revision
    )?;
    println!(rt;
        " {} {} {} {} {} {}",
        r.base, r.c, r.z, r.n, r.E, k.extended
    )
}

fn show_move(rt: &impl Print, m: answers::Moved) -> io::Result<()> {
    println!(rt; "{} {} {}", m.number, m.index, m.distance)
}

fn show_bytes(rt: &impl Print, bytes: &[u8]) -> io::Result<()> {
    rt.write_all(bytes)?;
    println!(rt)
}

fn call_release(
    rt: &impl Print,
    image: &mut [u8],
    sheet: &[u8],
    base: u64,
    owners: &[u8],
    owner: u64,
) -> io::Result<()> {
    show_move(rt, release::release(image, sheet, base, owners, owner))?;
    show_bytes(rt, image)
}

fn call_setting(rt: &impl Print, image: &[u8], offset: u64, size: u64) -> io::Result<()> {
    let number = setting::setting_number(image, offset, size);
    let part = setting::setting(image, offset, size);
    println!(rt; "{number} {}", part.len())?;
    show_bytes(rt, part)
}

fn show_audit(rt: &impl Print, a: answers::Audited) -> io::Result<()> {
    print!(rt; "{} {} {}", a.number, a.index, a.base)?;
    println!(rt;
        " {} {} {} {}",
        a.settings,
        a.strays,
        a.bits,
        u8::from(a.explained)
    )
}

fn show_places(rt: &impl Print, places: &[u32]) -> io::Result<()> {
    for place in places {
        print!(rt; " {place}")?;
    }
    println!(rt)
}

// What the list holds before an audit.
fn held(i: usize) -> u32 {
    if i < 4096 {
        return 3000000000 + i as u32;
    }
    0
}

fn fill(places: &mut [u32]) {
    for (i, place) in places.iter_mut().enumerate() {
        *place = held(i);
    }
}

// Nothing is done where the list has no `count` places.
fn call_audit(rt: &impl Print, vendor: &[u8], shipped: &[u8], count: usize) -> io::Result<()> {
    let mut list = [0u32; 4096];
    let Some(places) = list.get_mut(..count) else {
        return Ok(());
    };
    fill(places);
    show_audit(rt, audit::audit(vendor, shipped, places))?;
    show_places(rt, places)
}

fn call_mend(rt: &impl Print, vendor: &[u8], shipped: &mut [u8], count: usize) -> io::Result<()> {
    let mut list = [0u32; 4096];
    let Some(places) = list.get_mut(..count) else {
        return Ok(());
    };
    fill(places);
    show_audit(rt, mend::mend(vendor, shipped, places))?;
    show_places(rt, places)?;
    show_bytes(rt, shipped)
}

fn call_mend_bytes(
    rt: &impl Print,
    vendor: &[u8],
    shipped: &mut [u8],
    places: &mut [u8],
) -> io::Result<()> {
    show_audit(rt, mend::mend_bytes(vendor, shipped, places))?;
    show_bytes(rt, places)?;
    show_bytes(rt, shipped)
}

// What the record asks of an image, the other input and an owner list or a list of places.
fn answer(
    rt: &impl Print,
    image: &mut [u8],
    other: &mut [u8],
    list: &mut [u8],
    k: Record,
) -> io::Result<()> {
    match k.call {
        Some(Call::Read) => show_reading(rt, reading::read(image)),
        Some(Call::Setting) => call_setting(rt, image, k.a as u64, k.b as u64),
        Some(Call::Audit) => call_audit(rt, image, other, k.a),
        Some(Call::Release) => {
            call_release(rt, image, other, k.a as u64, list, k.b as u64 / 4294967296)
        }
        Some(Call::Mend) => call_mend(rt, image, other, k.a),
        Some(Call::MendBytes) => call_mend_bytes(rt, image, other, list),
        None => Ok(()),
    }
}

// Reads until the buffer is full or the input ends, and returns how many bytes it put at the buffer's start.
fn read_full(input: &mut impl Read, buffer: &mut [u8]) -> io::Result<usize>
    ensures { IfOk result (λ n. n ≤ length buffer.new) }
{
    let mut done = 0;
    while done < buffer.len() {
        let count = input.read(&mut buffer[done..])?;
        if count == 0 {
            break;
        }
        done += count;
    }
    Ok(done)
}

// The bytes of a record go into a buffer, if it has room for them there.
fn store(input: &mut impl Read, buffer: &mut [u8], at: usize, count: usize) -> io::Result<()> {
    if let Some(rest) = buffer.get_mut(at..) {
        if let Some(part) = rest.get_mut(..count) {
            read_full(input, part)?;
        }
    }
    Ok(())
}

fn record_of(head: &[u8; 40]) -> Record {
    Record {
        which: words::le32(head, 0),
        at: words::le32(head, 4),
        count: words::le32(head, 8),
        call: Call::try_from(words::le32(head, 12)).ok(),
        len: words::le32(head, 16),
        other: words::le32(head, 20),
        a: words::le64(head, 24),
        b: words::le64(head, 32),
    }
}

// How many of a record's bytes go into this buffer.
fn share(k: Record, which: usize) -> usize {
    if k.which == which {
        return k.count;
    }
    0
}

// How long the list in buffer 2 is: a release and a mending with bytes have it in the low half of b.
fn list_length(k: Record) -> usize {
    match k.call {
        Some(Call::Release | Call::MendBytes) => k.b % 4294967296,
        _ => 0,
    }
}

// Nothing is asked where a buffer is shorter than the record says.
fn take(
    rt: &impl Print,
    input: &mut impl Read,
    first: &mut [u8],
    second: &mut [u8],
    third: &mut [u8],
    k: Record,
) -> io::Result<()> {
    store(input, first, k.at, share(k, 0))?;
    store(input, second, k.at, share(k, 1))?;
    store(input, third, k.at, share(k, 2))?;
    let Some(image) = first.get_mut(..k.len) else {
        return Ok(());
    };
    let Some(other) = second.get_mut(..k.other) else {
        return Ok(());
    };
    let Some(list) = third.get_mut(..list_length(k)) else {
        return Ok(());
    };
    answer(rt, image, other, list, k)
}

// One record, or false at the end of them.
fn step(
    rt: &impl Print,
    input: &mut impl Read,
    first: &mut [u8],
    second: &mut [u8],
    third: &mut [u8],
) -> io::Result<bool> {
    let mut head = [0u8; 40];
    if read_full(input, &mut head)? < 40 {
        return Ok(false);
    }
    take(rt, input, first, second, third, record_of(&head))?;
    Ok(true)
}

// A proved loop has to end: it takes as many turns as no file of records uses up.
fn run(
    rt: &impl Print,
    input: &mut impl Read,
    first: &mut [u8],
    second: &mut [u8],
    third: &mut [u8],
) -> io::Result<()> {
    for _ in 0..u64::MAX {
        if !step(rt, input, first, second, third)? {
            break;
        }
    }
    Ok(())
}

fn main(rt: HostRuntime) -> io::Result<()> {
    let mut first = [0u8; 131072];
    let mut second = [0u8; 131072];
    let mut third = [0u8; 4096];
    let mut input = rt.reader();
    run(&rt, &mut input, &mut first, &mut second, &mut third)
}
