// Mode 5 for records of 16 bytes: reads a table from standard input and prints its records and the change. It is run on the same map as mode 4.
#![tactic(auto)]

use program::Mode;
use std::io;

fn main(rt: HostRuntime) -> io::Result<()> {
    program::run(&rt, &mut rt.stdin(), true, Mode::MapFill as u32)
}
