// The audit's program: reads two files, vendor.bin and shipped.bin in the folder that it is run in, and writes what `text_output::report` makes of them.
#![tactic(auto)]

ghost use Rattle.std.specs.Prelude.{◌≤◌, length};

use std::io::Read;
use std::rt::Files;
use std::{fs, io};

// What one read brings; a read that fails brings nothing.
fn read_some(input: &mut impl Read, buffer: &mut [u8]) -> usize
    ensures { result ≤ length buffer.new }
{
    match input.read(buffer) {
        Ok(count) => count,
        Err(_) => 0,
    }
}

// Reads until the buffer is full, the input ends or a read fails, and returns how many bytes it put at the buffer's start. `cases` has one that
// hands a failure on: one function for both would ask for a closure and be no plainer.
fn read_full(input: &mut impl Read, buffer: &mut [u8]) -> usize
    ensures { result ≤ length buffer.new }
{
    let mut done = 0;
    while done < buffer.len() {
        let count = read_some(input, &mut buffer[done..]);
        if count == 0 {
            break;
        }
        done += count;
    }
    done
}

// As much of a file as the buffer holds and can be read; a file that can't be opened, or whose path is not text, counts as empty.
fn load(rt: &impl Files, path: &[u8], buffer: &mut [u8]) -> usize
    ensures { result ≤ length buffer.new }
{
    let name = match str::from_utf8(path) {
        Ok(name) => name,
        Err(_) => return 0,
    };
    let mut file = match fs::open(rt, name) {
        Ok(file) => file,
        Err(_) => return 0,
    };
    read_full(&mut file, buffer)
}

// What is printed of the files at two paths. One byte more than is taken is read, so that a longer file is seen.
pub fn print(rt: &(impl Files + Print), vendor: &[u8], shipped: &[u8]) -> io::Result<()> {
    let mut first = [0u8; 28673];
    let mut second = [0u8; 28673];
    let mut out = [0u8; 4096];
    let n = load(rt, vendor, &mut first);
    let m = load(rt, shipped, &mut second);
    let r = text_output::report(&first[0..n], &second[0..m], &mut out);
    rt.write_all(&out[0..r])
}

pub fn run(rt: &(impl Files + Print)) -> io::Result<()> {
    print(rt, b"vendor.bin", b"shipped.bin")
}
