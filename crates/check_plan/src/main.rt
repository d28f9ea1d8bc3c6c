// `check_plan INSTALLED NEW` reads two maps from the files of these names, at most 8,200 bytes of each, masks their host bits, reads steps from standard input,
// a line each as `plan` prints them, at most 65,536 bytes and 2,048 steps, and prints `yes`, `no` or the refusal; or which line is no step, or that there are too many.

#![tactic(auto)]

use records::Form;
use std::io;
use std::io::Read;
use stepread::reply;
use streams::named::read_named;
use streams::read_full;

// Reads the steps, and prints the answer. It fails only where a read or the write fails; where a read fails, no answer is printed.
fn check(rt: &impl Print, input: &mut impl Read, installed: &[u8], new: &[u8]) -> io::Result<()> {
    let mut text = [0u8; 65537];
    let mut out = [0u8; 37];
    let size = read_full(input, &mut text)?;
    let form = Form {
        strict: false,
        long: false,
    };
    let end = reply(installed, new, form, &text[..size], &mut out);
    rt.write_all(&out[..end])
}

fn main(rt: HostRuntime) -> io::Result<()> {
    let mut installed = [0u8; 8200];
    let mut new = [0u8; 8200];
    let first = read_named(&rt, 1, &mut installed)?;
    let second = read_named(&rt, 2, &mut new)?;
    let Some(a) = first else {
        return Ok(());
    };
    let Some(b) = second else {
        return Ok(());
    };
    check(&rt, &mut rt.stdin(), &installed[..a], &new[..b])
}
