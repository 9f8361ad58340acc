// A run of the audit program; what it is run on stands in data/.
#![tactic(auto)]

use std::io;

fn main(rt: HostRuntime) -> io::Result<()> {
    report::run(&rt)
}
