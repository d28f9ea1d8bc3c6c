// The main job on every accepted table: `shrink MODE [DEFAULT]` reads a table from standard input and prints what document 01's programs print,
// in a work room that is long enough for any. Its stored run has more nodes than the room of those.
#![tactic(auto)]

ghost use Rattle.std.specs.Prelude.{◌≡◌, ◌≤◌, length, IfOk};
ghost use Rattle.records.specs.Forms.{by_default};
ghost use Rattle.text.specs.Text.{Put};
ghost use Rattle.program.specs.Printed.{printed_in};
ghost use Rattle.shrink.specs.Input.{judged};
ghost use Rattle.shrink.specs.Words.{behind, word_number};

use program::answer_in;
use records::Form;
use std::env::FillError;
use std::io;
use std::io::Read;
use std::rt::Env;
use streams::read_full;

// What stands for no number: neither a mode nor a hop. No `Option`, since the call takes any number as a mode, and refuses this one.
const NO_NUMBER: u32 = u32::MAX;

// The number of the digits so far, and one byte more.
#[tactic(auto, unfolding(crate::specs::Words::behind))]
fn one_more(n: u32, byte: u8) -> u32
    ensures { result ≡ behind n byte }
{
    match byte {
        b'0'..=b'9' => {
            let next = u64::from(n) * 10 + u64::from(byte - b'0');
            u32::try_from(next).unwrap_or(NO_NUMBER)
        }
        _ => NO_NUMBER,
    }
}

// The number that a word stands for.
#[tactic(auto, unfolding(crate::specs::Words::number_from))]
fn word_number(word: &[u8]) -> u32
    ensures { result ≡ word_number word.now }
{
    let mut n = 0;
    for byte in word {
        n = one_more(n, *byte);
    }
    n
}

// The number of an argument. One that is left out is 0, as an empty one; one of more than 32 bytes is none.
fn argument(rt: &impl Env, i: usize) -> u32 {
    let mut word = [0u8; 32];
    match rt.arg(i, &mut word) {
        Ok(size) => word_number(&word[..size]),
        Err(FillError::NotPresent) => 0,
        Err(FillError::TooLong) => NO_NUMBER,
    }
}

// Reads some bytes more, and says how many. It fails only where a read fails.
fn pass_over(input: &mut impl Read) -> io::Result<u64>
    ensures { IfOk result (λ size. size ≤ 4096) }
{
    let mut bytes = [0u8; 4096];
    Ok(read_full(input, &mut bytes)? as u64)
}

// Reads the rest of the input, and says how many bytes it had. The turns are more than any input takes. It fails only where a read fails.
fn pass_over_all(input: &mut impl Read) -> io::Result<u64>
    ensures { IfOk result (λ size. size ≤ 9223372036854775808) }
{
    let mut all: u64 = 0;
    for _turn in 0..2251799813685248u64 {
        let size = pass_over(input)?;
        if size == 0 {
            return Ok(all);
        }
        all += size;
    }
    Ok(all)
}

// How many bytes decide the answer, of an input of so many.
#[tactic(auto, unfolding(crate::specs::Input::judged))]
fn deciding(size: u64) -> usize
    ensures value { result ≡ judged size }
    ensures upper_bound { result ≤ 8200 }
{
    if size <= 8200 {
        size as usize
    } else if size % 8 == 0 {
        8200
    } else {
        8193
    }
}

// The same, once the first of them are read, at most 8,200. If there may be more, the rest is read. It fails only where a read fails.
fn kept(first: usize, input: &mut impl Read) -> io::Result<usize>
    ensures { IfOk result (λ size. size ≤ 8200) }
{
    if first < 8200 {
        return Ok(first);
    }
    Ok(deciding(8200 + pass_over_all(input)?))
}

// Lays what is printed for a table into the buffer, from its start, and says where it ends. The room has 160 words for each of the 5,153 nodes
// that a table can have.
fn answer(table: &[u8], mode: u32, default: u32, work: &mut [u32; 824480], out: &mut [u8]) -> usize
    requires { 49236 ≤ length out.old }
    ensures { Put (printed_in by_default mode default 8200 824480 table.now) 0 result out.old out.new }
{
    let form = Form {
        strict: false,
        long: false,
    };
    answer_in(table, form, mode, default, work, out)
}

// Reads the input and prints the answer. It fails only where a read or the write fails; where a read fails, no answer is printed. The work room keeps its
// length, which its type says.
fn run(rt: &(impl Env + Print), input: &mut impl Read, work: &mut [u32; 824480]) -> io::Result<()> {
    let mut table = [0u8; 8200];
    let mut out = [0u8; 49236];
    let first = read_full(input, &mut table)?;
    let size = kept(first, input)?;
    let mode = argument(rt, 1);
    let default = argument(rt, 2);
    let end = answer(&table[..size], mode, default, work, &mut out);
    rt.write_all(&out[..end])
}

fn main(rt: HostRuntime) -> io::Result<()> {
    let mut work = [0u32; 824480];
    run(&rt, &mut rt.stdin(), &mut work)
}
