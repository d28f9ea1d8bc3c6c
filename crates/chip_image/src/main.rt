// Reads a map's table from standard input, at most 8,200 bytes of it, masks its host bits, and writes its slot image, 8,192 bytes, to standard output; or the
// refusal as a line to standard error, and nothing else. It is run on examples/yard.table.

#![tactic(auto)]

ghost use Rattle.std.specs.Prelude.{◌≤◌, length};
ghost use Rattle.chip_image.specs.Written.{Answered};

use records::Form;
use std::io;
use streams::read_full;
use text::put_refused;

// How many bytes go to standard output, and how many to standard error.
#[derive(Clone, Copy)]
struct Written {
    shown: usize,
    said: usize,
}

// Writes the image, or lays the line of a refusal into the buffer, each from its start, and says how many bytes of the two are to be written out.
fn answer(table: &[u8], image: &mut [u8; 8192], line: &mut [u8]) -> Written
    requires { 36 ≤ length line.old }
    ensures { Answered table.now line.old result image.new line.new }
{
    let form = Form {
        strict: false,
        long: false,
    };
    match chip::load(table, form, image) {
        Ok(_) => Written {
            shown: 8192,
            said: 0,
        },
        Err(refusal) => Written {
            shown: 0,
            said: put_refused(refusal, 0, line),
        },
    }
}

fn main(rt: HostRuntime) -> io::Result<()> {
    let mut table = [0u8; 8200];
    let mut image = [0u8; 8192];
    let mut line = [0u8; 36];
    let size = read_full(&mut rt.stdin(), &mut table)?;
    let written = answer(&table[..size], &mut image, &mut line);
    let shown = written.shown;
    let said = written.said;
    rt.write_all(&image[..shown])?;
    rt.stderr().write_all(&line[..said])
}
