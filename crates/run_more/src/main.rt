// Further runs of the audit's program, each on the files in a folder of data/:
//   0  both of 28,672 bytes                     1  both of 28,673
//   2  28,672 bytes, and one byte more shipped  3  a vendor image that is refused with 14, 28,673 bytes shipped
//   4  no vendor.bin                            5  no shipped.bin
//   6  base FFF80000, nothing differs           7  differences at 0, at the last byte and around both ends of the settings
//   8  256 differences                          9  257
#![tactic(auto)]

use std::io;
use std::rt::Files;

fn run(rt: &(impl Files + Print), folder: u8) -> io::Result<()> {
    let title = [folder, b'\n'];
    let vendor = [
        folder, b'/', b'v', b'e', b'n', b'd', b'o', b'r', b'.', b'b', b'i', b'n',
    ];
    let shipped = [
        folder, b'/', b's', b'h', b'i', b'p', b'p', b'e', b'd', b'.', b'b', b'i', b'n',
    ];
    rt.write_all(&title)?;
    report::print(rt, &vendor, &shipped)
}

fn main(rt: HostRuntime) -> io::Result<()> {
    for folder in b'0'..=b'9' {
        run(&rt, folder)?;
    }
    Ok(())
}
