// Reads cases from standard input and writes the answers of the public calls, as docs/CASES.md says.
//
// What is kept for a case that was read is proved to be the text of the right answer (replaying, `keep_answer`). Of what reads and writes it is proved that
// it is safe and ends: no contract can say what was read and what was written, which runs show.
//
// A run that ends leaves what was kept as it stands: each read of a case, and each look at what it asks for, comes before anything of it is kept.
//
// There is no memory but the stack, 8 MiB where nobody says otherwise: each kind of case has rooms of its own, which are there only while it is answered.
// So a function with large rooms is not to be made part of its caller.

#![tactic(auto)]

ghost use Rattle.std.specs.Prelude.{◌≡◌, ◌≤◌, length, IfOk, OnErr};
ghost use Rattle.kept.specs.Kept.{words_of};

use kept::call::Call;
use kept::ending::{Ending, Fault, read_whole};
use kept::ranks::{as_ranks, read_ranks};
use kept::{bytes_behind, form_of, is_long, join2, keep_line, named_call, send, steps_behind};
use records::join4;
use replaying::{keep_answer, list_text, plain_turn};
use replaying_more::chip_cases::chip_turn;
use replaying_more::live_turns::live_text;
use replaying_more::plan_cases::{check_turn, plan_turn};
use replaying_more::special_cases::special_turn;
use std::io;
use std::io::{Read, Stdout};
use streams::outlet::Outlet;
use streams::read_full;

// A room of so many zeros. Made by a call, it is to the caller an array of that length and no list of that many zeros.
fn bytes_room<const N: usize>() -> [u8; N] {
    [0; N]
}

// Reads what stands behind the installed table in a case with a plan, the new table and so many bytes of steps, and keeps its answer.
#[inline(never)]
fn steps_turn(
    input: &mut impl Read,
    outlet: &mut Outlet<Stdout>,
    call: Call,
    head: &[u8; 16],
    installed: &[u8],
    size: usize,
    at: usize,
    kept: &mut [u8],
) -> Result<usize, Ending>
    requires size_bound { size ≤ 262144 }
    requires at_in_bounds { at ≤ length kept.old }
    requires in_bounds { 262144 ≤ length kept.old }
    ensures bound { IfOk result (λ next. next ≤ length kept.old) }
    ensures unchanged { OnErr result (kept.new ≡ kept.old) }
{
    let mut new_room = bytes_room::<65535>();
    let mut steps_room = bytes_room::<262144>();
    let new = &mut new_room[..join2(head[8], head[9])];
    let steps = &mut steps_room[..size];
    read_whole(input, new)?;
    read_whole(input, steps)?;
    if call == Call::Plan {
        Ok(plan_turn(outlet, head, installed, new, at, kept))
    } else {
        Ok(check_turn(outlet, head, installed, new, steps, at, kept))
    }
}

// Writes the lines of commands on a live map of so many words.
#[inline(never)]
fn live_out(outlet: &mut Outlet<Stdout>, words: usize, commands: &[u8])
    requires words_bound { words ≤ 412240 }
    requires commands_len_bound { length commands.now ≤ 65535 }
{
    let mut text = bytes_room::<524288>();
    let end = live_text(commands, words, &mut text);
    send(outlet, &text, end);
}

// Writes what is kept, and then these.
fn live_turn(
    outlet: &mut Outlet<Stdout>,
    words: usize,
    commands: &[u8],
    at: usize,
    kept: &[u8],
) -> Result<usize, Ending>
    requires commands_len_bound { length commands.now ≤ 65535 }
    requires at_in_bounds { at ≤ length kept.now }
    ensures { IfOk result (λ next. next ≤ length kept.now) }
{
    if 412240 < words {
        return Err(Ending::At(Fault::WorkRoomTooLarge));
    }
    send(outlet, kept, at);
    live_out(outlet, words, commands);
    Ok(0)
}

// Writes the text of a list of what has no route, in an output of so many bytes.
#[inline(never)]
fn list_out(outlet: &mut Outlet<Stdout>, first: u8, bytes: usize, table: &[u8])
    requires { bytes ≤ 1048576 }
{
    let mut output = bytes_room::<1048576>();
    let mut text = bytes_room::<3145764>();
    let end = list_text(
        outlet,
        table,
        form_of(first),
        &mut output[..bytes],
        &mut text,
    );
    send(outlet, &text, end);
}

// The most bytes of output that are lent to a list.
fn most_output(first: u8) -> usize
    ensures { result ≤ 1048576 }
{
    if is_long(first) { 1048576 } else { 262144 }
}

// Writes what is kept, and then this.
fn list_turn(
    outlet: &mut Outlet<Stdout>,
    first: u8,
    bytes: usize,
    table: &[u8],
    at: usize,
    kept: &[u8],
) -> Result<usize, Ending>
    requires at_in_bounds { at ≤ length kept.now }
    ensures { IfOk result (λ next. next ≤ length kept.now) }
{
    if most_output(first) < bytes {
        return Err(Ending::At(Fault::OutputTooLarge));
    }
    send(outlet, kept, at);
    list_out(outlet, first, bytes, table);
    Ok(0)
}

// Keeps the answer of a rewrite, a cover query, a lookup or addresses held, with a work room of N words.
#[inline(never)]
fn sized_turn<const N: usize>(
    outlet: &mut Outlet<Stdout>,
    head: &[u8; 16],
    query: &[u8],
    table: &[u8],
    ranks: &[u16],
    output: &mut [u8],
    at: usize,
    kept: &mut [u8],
) -> usize
    requires value { 8 ≡ length query.now }
    requires value_2 { 65535 ≡ length output.old }
    requires size_bound { N ≤ 1807520 }
    requires head_bound { words_of head.now ≤ N }
    requires at_in_bounds { at ≤ length kept.old }
    requires in_bounds { 262144 ≤ length kept.old }
    ensures { result ≤ length kept.old }
{
    let mut work = [0u32; N];
    keep_answer(
        outlet, head, query, table, ranks, output, &mut work, at, kept,
    )
}

// The most words of work room that are lent.
fn most_words(first: u8) -> usize
    ensures { result ≤ 1807520 }
{
    if is_long(first) { 1807520 } else { 824480 }
}

// The words that a case asks for, or the bytes of output for a list.
fn asked(head: &[u8; 16]) -> usize
    ensures { result ≡ words_of head.now }
{
    join4(head[8], head[9], head[10], head[11]) as usize
}

// Keeps the answer of a rewrite, a cover query, a lookup or addresses held.
fn work_turn(
    outlet: &mut Outlet<Stdout>,
    head: &[u8; 16],
    query: &[u8],
    table: &[u8],
    ranks: &[u16],
    output: &mut [u8],
    at: usize,
    kept: &mut [u8],
) -> Result<usize, Ending>
    requires value { 8 ≡ length query.now }
    requires value_2 { 65535 ≡ length output.old }
    requires at_in_bounds { at ≤ length kept.old }
    requires in_bounds { 262144 ≤ length kept.old }
    ensures bound { IfOk result (λ next. next ≤ length kept.old) }
    ensures unchanged { OnErr result (kept.new ≡ kept.old) }
{
    let words = asked(head);
    if words <= 32768 {
        Ok(sized_turn::<32768>(outlet, head, query, table, ranks, output, at, kept))
    } else if words <= most_words(head[0]) {
        Ok(sized_turn::<1807520>(outlet, head, query, table, ranks, output, at, kept))
    } else {
        Err(Ending::At(Fault::WorkRoomTooLarge))
    }
}

// Keeps the answer of any other case, with a room for its output, which is the image with the chip loader.
fn output_turn(
    outlet: &mut Outlet<Stdout>,
    call: Call,
    head: &[u8; 16],
    query: &[u8],
    table: &[u8],
    ranks: &[u16],
    at: usize,
    kept: &mut [u8],
) -> Result<usize, Ending>
    requires value { 8 ≡ length query.now }
    requires at_in_bounds { at ≤ length kept.old }
    requires in_bounds { 262144 ≤ length kept.old }
    ensures bound { IfOk result (λ next. next ≤ length kept.old) }
    ensures unchanged { OnErr result (kept.new ≡ kept.old) }
{
    let mut output = bytes_room::<65535>();
    match call {
        Call::Plain => Ok(plain_turn(outlet, head, table, ranks, &mut output, at, kept)),
        Call::Load => Ok(chip_turn(outlet, head, table, &mut output, at, kept)),
        _ => work_turn(outlet, head, query, table, ranks, &mut output, at, kept),
    }
}

// Keeps or writes the answer of a case that was read whole, but for a plan's new table and so many bytes of steps.
fn answer(
    input: &mut impl Read,
    outlet: &mut Outlet<Stdout>,
    call: Call,
    head: &[u8; 16],
    query: &[u8],
    table: &[u8],
    ranks: &[u16],
    steps: usize,
    at: usize,
    kept: &mut [u8],
) -> Result<usize, Ending>
    requires value { 8 ≡ length query.now }
    requires table_len_bound { length table.now ≤ 65535 }
    requires steps_bound { steps ≤ 262144 }
    requires at_in_bounds { at ≤ length kept.old }
    requires in_bounds { 262144 ≤ length kept.old }
    ensures bound { IfOk result (λ next. next ≤ length kept.old) }
    ensures unchanged { OnErr result (kept.new ≡ kept.old) }
{
    match call {
        Call::Unrouted => list_turn(outlet, head[0], asked(head), table, at, kept),
        Call::Live => live_turn(outlet, asked(head), table, at, kept),
        Call::CheckPlan | Call::Plan => {
            steps_turn(input, outlet, call, head, table, steps, at, kept)
        }
        Call::SpecialUse => Ok(special_turn(outlet, head, table, at, kept)),
        _ => output_turn(outlet, call, head, query, table, ranks, at, kept),
    }
}

// Reads the first 16 bytes of a case.
fn read_head(input: &mut impl Read) -> Result<[u8; 16], Ending> {
    let mut head = [0u8; 16];
    match read_full(input, &mut head)? {
        0 => Err(Ending::Done),
        16 => Ok(head),
        _ => Err(Ending::At(Fault::CutShort)),
    }
}

// Reads a case and keeps or writes its answer.
fn turn(
    input: &mut impl Read,
    outlet: &mut Outlet<Stdout>,
    table: &mut [u8],
    at: usize,
    kept: &mut [u8],
) -> Result<usize, Ending>
    requires value { 65535 ≡ length table.old }
    requires at_in_bounds { at ≤ length kept.old }
    requires in_bounds { 262144 ≤ length kept.old }
    ensures bound { IfOk result (λ next. next ≤ length kept.old) }
    ensures unchanged { OnErr result (kept.new ≡ kept.old) }
{
    let head = read_head(input)?;
    let mut query = [0u8; 8];
    if is_long(head[0]) {
        read_whole(input, &mut query)?;
    }
    let mut bytes = [0u8; 255];
    let lent = read_ranks(input, head[0], &mut bytes)?;
    let mut ranks = [0u16; 255];
    as_ranks(&bytes, &mut ranks);
    let size = bytes_behind(&head);
    if 65535 < size {
        return Err(Ending::At(Fault::TooManyCommands));
    }
    let steps = steps_behind(&head);
    if 262144 < steps {
        return Err(Ending::At(Fault::TooManySteps));
    }
    read_whole(input, &mut table[..size])?;
    let call = named_call(head[0])?;
    if is_long(head[0]) && !call.takes_long() {
        return Err(Ending::At(Fault::NoSuchCall));
    }
    answer(
        input,
        outlet,
        call,
        &head,
        &query,
        &table[..size],
        &ranks[..lent],
        steps,
        at,
        kept,
    )
}

// Reads cases and keeps or writes their answers, until the run ends. A proved loop has to end, so the turns are counted up to a number that no input uses up.
// What is kept is written also where a read fails.
fn all_turns(
    input: &mut impl Read,
    outlet: &mut Outlet<Stdout>,
    table: &mut [u8],
    kept: &mut [u8],
) -> io::Result<()>
    requires value { 65535 ≡ length table.old }
    requires in_bounds { 262144 ≤ length kept.old }
{
    let mut at = 0;
    for _ in 0..u64::MAX {
        match turn(input, outlet, table, at, kept) {
            Ok(next) => at = next,
            Err(Ending::Done) => break,
            Err(Ending::At(fault)) => {
                at = keep_line(outlet, fault.line(), at, kept);
                break;
            }
            Err(Ending::Failed(error)) => {
                send(outlet, kept, at);
                return Err(error);
            }
        }
    }
    send(outlet, kept, at);
    Ok(())
}

fn main(rt: HostRuntime) -> io::Result<()> {
    let mut outlet = Outlet::new(rt.stdout());
    let mut table = bytes_room::<65535>();
    let mut kept = bytes_room::<262144>();
    all_turns(&mut rt.stdin(), &mut outlet, &mut table, &mut kept)?;
    outlet.finish()
}
