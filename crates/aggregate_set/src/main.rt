// Mode 1: reads a table from standard input and prints its records and the change. It is run on document 01's case 2.
#![tactic(auto)]

use program::Mode;
use std::io;

fn main(rt: HostRuntime) -> io::Result<()> {
    program::run(&rt, &mut rt.stdin(), false, Mode::Set as u32)
}
