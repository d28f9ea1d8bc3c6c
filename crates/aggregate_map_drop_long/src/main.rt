// Mode 4 for records of 16 bytes: reads a table from standard input and prints its records and the change. It is run on a map of three entries, two of which are halves with one hop.
#![tactic(auto)]

use program::Mode;
use std::io;

fn main(rt: HostRuntime) -> io::Result<()> {
    program::run(&rt, &mut rt.stdin(), true, Mode::MapDrop as u32)
}
