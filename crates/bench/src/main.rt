// Rewrites one table again and again, by either engine, or lists what has no route in it, so that the time of a call can be measured (tools/bench).
// Host bits are masked, and no ranks are lent.
//
// Reads from standard input 8 bytes and then a table, at most 8,200 bytes of it. Numbers stand most significant byte first.
//
//   bytes 0 to 2   how many times the call is made
//   byte 3         the mode of a rewrite, 128 added for the plain engine; 0 for a list of what has no route
//   byte 4         the default, which mode 5 reads
//   bytes 5 to 7   how many words of the work room are lent; more than 824,480 are taken as 824,480
//
// The output of a rewrite has 8,200 bytes, that of a list 180,224. Prints the last answer: `records N change C`, `unrouted N` or `refused N at I`;
// `not run` where the number of times is 0.
#![tactic(auto)]

use aggregate::rewrite;
use calls::Rewritten;
use holes::unrouted;
use records::Form;
use refusals::Refusal;
use std::io;
use streams::read_full;

// The number of three bytes.
fn join3(a: u8, b: u8, c: u8) -> u32 {
    u32::from_be_bytes([0, a, b, c])
}

// Writes a refusal as a line.
fn print_refused(rt: &impl Print, refusal: Refusal) -> io::Result<()> {
    println!(rt; "refused {} at {}", refusal.cause.number(), refusal.index)
}

// Writes the answer of a rewrite as a line.
fn print_rewritten(rt: &impl Print, answer: Result<Rewritten, Refusal>) -> io::Result<()> {
    match answer {
        Ok(written) => println!(rt; "records {} change {}", written.count, written.change),
        Err(refusal) => print_refused(rt, refusal),
    }
}

// Writes the answer of a list as a line.
fn print_listed(rt: &impl Print, answer: Result<usize, Refusal>) -> io::Result<()> {
    match answer {
        Ok(count) => println!(rt; "unrouted {count}"),
        Err(refusal) => print_refused(rt, refusal),
    }
}

// Makes a call so many times and once more, and says the last answer.
fn repeat<T: Drop, F: FnMut() -> T>(more: u32, mut call: F) -> T
    requires { F.IsAlwaysCallable call }
{
    for _ in 0..more {
        call();
    }
    call()
}

// The work room. Made by a call, it is to the caller an array of that length and no list of that many zeros. Compiled without optimisation,
// as `rt try` does it too, it is copied, and then the usual 8 MiB of stack are too few.
fn room() -> [u32; 824480] {
    [0; 824480]
}

// Runs what the header asks for on a table, in rooms of its own.
fn run(
    rt: &impl Print,
    times: u32,
    mode: u8,
    default: u8,
    asked: u32,
    table: &[u8],
) -> io::Result<()> {
    let Some(more) = times.checked_sub(1) else {
        return println!(rt; "not run");
    };
    let form = Form {
        strict: false,
        long: false,
    };
    let default = u32::from(default);
    if mode == 0 {
        let mut output = [0u8; 180224];
        return print_listed(rt, repeat(more, || unrouted(table, form, &mut output)));
    }
    let mut output = [0u8; 8200];
    let mut work = room();
    let words = work.len().min(asked as usize);
    let work = &mut work[..words];
    let answer = if mode < 128 {
        repeat(more, || {
            rewrite(
                table,
                form,
                u32::from(mode),
                default,
                &[],
                &mut output,
                work,
            )
        })
    } else {
        repeat(more, || {
            plain::rewrite(
                table,
                form,
                u32::from(mode - 128),
                default,
                &[],
                &mut output,
            )
        })
    };
    print_rewritten(rt, answer)
}

fn main(rt: HostRuntime) -> io::Result<()> {
    let mut input = rt.stdin();
    let mut head = [0u8; 8];
    let mut table = [0u8; 8200];
    read_full(&mut input, &mut head)?;
    let size = read_full(&mut input, &mut table)?;
    let times = join3(head[0], head[1], head[2]);
    let words = join3(head[5], head[6], head[7]);
    run(&rt, times, head[3], head[4], words, &table[..size])
}
