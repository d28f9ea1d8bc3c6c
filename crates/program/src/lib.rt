// What the programs share: a table rewritten in a mode, and the result's records and the change as text, or the refusal; and the programs of a mode, which
// read the table from standard input and mask its host bits: document 01's, and those for records of 16 bytes.

#![tactic(auto)]

ghost use Rattle.std.specs.Prelude.{◌+◌, ◌*◌, ◌≤◌, length, IfOk};
ghost use Rattle.records.specs.Forms.{size_of};
ghost use Rattle.text.specs.Text.{Put};
ghost use Rattle.program.specs.Printed.{printed, printed_in};

pub use calls::engine::Mode;
use records::{Form, size_of};
use std::io;
use std::io::Read;
use streams::read_full;
use text::Style;
use text::answers::put_rewritten;

// Lays what is printed for a table into the buffer, from its start, and says where it ends. The output and the room are lent, and no ranks.
fn answer_on(
    table: &[u8],
    form: Form,
    mode: u32,
    default: u32,
    output: &mut [u8],
    work: &mut [u32],
    out: &mut [u8],
) -> usize
    requires { 3 * length output.old + 36 ≤ length out.old }
    ensures { Put (printed_in form mode default (length output.old) (length work.old) table.now) 0 result out.old out.new }
{
    let answered = aggregate::rewrite(table, form, mode, default, &[], output, work);
    let style = Style {
        hex: false,
        hops: 1 < mode,
    };
    put_rewritten(answered, output, size_of(form), style, 0, out)
}

// The same, with an output of its own that has room for 1,025 records.
pub fn answer_in(
    table: &[u8],
    form: Form,
    mode: u32,
    default: u32,
    work: &mut [u32],
    out: &mut [u8],
) -> usize
    requires { 49236 ≤ length out.old }
    ensures { Put (printed_in form mode default (1025 * size_of form) (length work.old) table.now) 0 result out.old out.new }
{
    let mut output = [0u8; 16400];
    let room = 1025 * size_of(form);
    answer_on(table, form, mode, default, &mut output[..room], work, out)
}

// The same in the mode's program.
#[tactic(auto, unfolding(crate::specs::Printed::printed))]
fn answer(table: &[u8], long: bool, mode: u32, out: &mut [u8]) -> usize
    requires { 49236 ≤ length out.old }
    ensures { Put (printed long mode table.now) 0 result out.old out.new }
{
    let form = Form {
        strict: false,
        long,
    };
    let mut work = [0u32; 16384];
    answer_in(table, form, mode, 0, &mut work, out)
}

// The bytes of 1,025 records.
fn most(long: bool) -> usize
    ensures { result ≤ 16400 }
{
    if long { 16400 } else { 8200 }
}

// Reads a table, at most 1,025 records of it, and says how many bytes it has. It fails only where a read fails, and what was lent keeps its length.
fn read_table(input: &mut impl Read, table: &mut [u8], long: bool) -> io::Result<usize>
    requires { 16400 ≤ length table.old }
    ensures { IfOk result (λ size. size ≤ 16400) }
{
    let room = most(long);
    read_full(input, &mut table[..room])
}

// Reads a table and prints the answer in the mode. It fails only where a read or the write fails; where a read fails, no answer is printed.
pub fn run(rt: &impl Print, input: &mut impl Read, long: bool, mode: u32) -> io::Result<()> {
    let mut table = [0u8; 16400];
    let mut out = [0u8; 49236];
    let size = read_table(input, &mut table, long)?;
    let end = answer(&table[..size], long, mode, &mut out);
    rt.write_all(&out[..end])
}
