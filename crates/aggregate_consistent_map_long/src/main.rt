// Mode 3 for records of 16 bytes: reads a table from standard input and prints its records and the change. It is run on a map of three entries, one of which repeats the hop above it.
#![tactic(auto)]

use program::Mode;
use std::io;

fn main(rt: HostRuntime) -> io::Result<()> {
    program::run(&rt, &mut rt.stdin(), true, Mode::ConsistentMap as u32)
}
