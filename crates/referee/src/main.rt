// Reads a transcript from standard input, and prints its lines.
#![tactic(auto)]

use reports::report;
use std::io;
use std::io::{Read, Write};

// Past 65,535 bytes, all that matters is that there are more.
const MOST: u64 = 65_536;

fn main(rt: HostRuntime) -> io::Result<()> {
    let mut file = Vec::new(rt.alloc());
    rt.stdin().take(MOST).read_to_end(&mut file)?;
    let lines = report(rt.alloc(), &file)?;
    rt.stdout().write_all(&lines)
}
