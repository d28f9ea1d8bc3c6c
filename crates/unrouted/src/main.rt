// Reads a map's table from standard input, at most 1,025 records of it, and prints what has no route, a prefix a line, or the refusal. Records have 8
// bytes, or 16 where the first argument is `64`, the bits of an address. Host bits are masked. It is run on examples/yard.table.

#![tactic(auto)]

ghost use Rattle.std.specs.Prelude.{◌+◌, ◌*◌, ◌≤◌, length};
ghost use Rattle.text.specs.Text.{Put};
ghost use Rattle.unrouted.specs.Printed.{printed, printed_in};

use records::{Form, size_of};
use std::io;
use std::rt::Env;
use streams::read_full;
use text::Refused;
use text::answers::put_listed;

// Lays what is printed for a table into the buffer, from its start, and says where it ends. The output is lent.
fn answer_in(table: &[u8], form: Form, output: &mut [u8], out: &mut [u8]) -> usize
    requires { 3 * length output.old + 36 ≤ length out.old }
    ensures { Put (printed_in form (length output.old) table.now) 0 result out.old out.new }
{
    let answered = holes::unrouted(table, form, output).map_err(Refused::from);
    let size = size_of(form);
    put_listed(answered, output, size, false, false, 0, out)
}

// The same with an output of 8,192 records.
#[tactic(auto, unfolding(crate::specs::Printed::printed))]
fn answer(table: &[u8], long: bool, out: &mut [u8]) -> usize
    requires { 393252 ≤ length out.old }
    ensures { Put (printed «long» table.now) 0 result out.old out.new }
{
    let form = Form {
        strict: false,
        long,
    };
    if long {
        let mut output = [0u8; 131072];
        answer_in(table, form, &mut output, out)
    } else {
        let mut output = [0u8; 65536];
        answer_in(table, form, &mut output, out)
    }
}

// Is the first argument `64`?
fn is_long(rt: &impl Env) -> bool {
    let mut word = [0u8; 4];
    match rt.arg(1, &mut word) {
        Ok(size) => word[..size] == b"64"[..],
        Err(_) => false,
    }
}

// How many bytes of a table count, of so many that were read.
fn kept(read: usize, long: bool) -> usize
    ensures { result ≤ read }
{
    read.min(if long { 16400 } else { 8200 })
}

fn main(rt: HostRuntime) -> io::Result<()> {
    let mut table = [0u8; 16400];
    let mut out = [0u8; 393252];
    let long = is_long(&rt);
    let size = kept(read_full(&mut rt.stdin(), &mut table)?, long);
    let end = answer(&table[..size], long, &mut out);
    rt.write_all(&out[..end])
}
