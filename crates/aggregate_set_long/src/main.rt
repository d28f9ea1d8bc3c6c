// Mode 1 for records of 16 bytes: reads a table from standard input and prints its records and the change. It is run on a set of three prefixes, which are one.
#![tactic(auto)]

use program::Mode;
use std::io;

fn main(rt: HostRuntime) -> io::Result<()> {
    program::run(&rt, &mut rt.stdin(), true, Mode::Set as u32)
}
