// What the program replay does around the calls (docs/CASES.md): what a case says in its first bytes, and a buffer in which the text of answers is kept
// until there is much of it. What reading and writing do is not said by a contract.

#![tactic(auto)]

pub mod call;
pub mod counted;
pub mod ending;
pub mod ranks;

ghost use Rattle.std.specs.Prelude.{◌≡◌, true, ◌+◌, ◌*◌, ◌≤◌, ◌<◌, length, drop};
ghost use Rattle.std.specs.List.{list_all};
ghost use Rattle.rooms.specs.Rooms.{all_are};
ghost use Rattle.text.specs.Text.{Put};
ghost use Rattle.kept.specs.Kept.{CalledBy, call_by, is_long, form_by, address_of, begin_of};

use call::Call;
use ending::Fault;
use records::sized::oct_at;
use records::{Form, join4};
use std::io::Stdout;
use streams::outlet::Outlet;
use text::put_bytes;

// What stands in the rooms before a call: no byte and no word of it is zero.
pub const FILLED_BYTE: u8 = 165;

pub const FILLED_WORD: u32 = 2779096485;

// The number of the call that a case's first byte names, with or without 32, 64 and 128 added.
pub fn call_of(first: u8) -> u8
    ensures { result ≡ call_by first }
{
    first % 32
}

// The call of that number.
pub fn named_call(first: u8) -> Result<Call, Fault>
    ensures { CalledBy first result }
{
    Call::try_from(call_of(first))
}

// Have addresses 64 bits? They have where the first byte has 32 added.
pub fn is_long(first: u8) -> bool
    ensures { result ≡ is_long first }
{
    32 <= first % 64
}

// How the case's table is read: strictly where the first byte has 128 added, and as a long one where it has 32 added.
pub fn form_of(first: u8) -> Form
    ensures { result ≡ form_by first }
{
    Form {
        strict: 128 <= first,
        long: is_long(first),
    }
}

// The query's address: the eight bytes behind the first 16 where addresses have 64 bits, else four of these.
#[tactic(auto, unfolding(crate::specs::Kept::address_of))]
pub fn address_of(head: &[u8; 16], query: &[u8]) -> u64
    requires { 8 ≡ length query.now }
    ensures { result ≡ address_of head.now query.now }
{
    if is_long(head[0]) {
        oct_at(query, 0)
    } else {
        join4(head[4], head[5], head[6], head[7]) as u64
    }
}

// Two bytes as a number, the first the most significant.
pub fn join2(a: u8, b: u8) -> usize
    ensures value { result ≡ a * 256 + b }
    ensures upper_bound { result ≤ 65535 }
{
    usize::from(u16::from_be_bytes([a, b]))
}

// How many bytes follow the first 16 of a case: those of its table; of a live map, of so many commands of 8 bytes.
pub fn bytes_behind(head: &[u8; 16]) -> usize
    ensures { result ≤ 524280 }
{
    match named_call(head[0]) {
        Ok(Call::Live) => 8 * join2(head[12], head[13]),
        _ => join2(head[14], head[15]),
    }
}

// How many bytes of steps stand in a case: where a plan is checked so many steps of 8 bytes, else none.
pub fn steps_behind(head: &[u8; 16]) -> usize
    ensures { result ≤ 524280 }
{
    match named_call(head[0]) {
        Ok(Call::CheckPlan) => 8 * join2(head[10], head[11]),
        _ => 0,
    }
}

// Writes the kept text.
pub fn send(outlet: &mut Outlet<Stdout>, kept: &[u8], at: usize)
    requires { at ≤ length kept.now }
{
    outlet.send(&kept[..at]);
}

// Room for the text of an answer with at most 65,535 bytes of records, three for each and 36 more: once there is less, the kept text is written.
#[tactic(auto, unfolding(crate::specs::Kept::begin_of))]
pub fn room_for(outlet: &mut Outlet<Stdout>, kept: &[u8], at: usize) -> usize
    requires at_in_bounds { at ≤ length kept.now }
    requires in_bounds { 262144 ≤ length kept.now }
    ensures value { result ≡ begin_of at }
    ensures result_in_bounds { result + 196641 ≤ length kept.now }
{
    if at <= 65503 {
        return at;
    }
    send(outlet, kept, at);
    0
}

// Keeps a line.
pub fn keep_line(outlet: &mut Outlet<Stdout>, line: &[u8], at: usize, kept: &mut [u8]) -> usize
    requires line_len_bound { length line.now ≤ 20 }
    requires at_in_bounds { at ≤ length kept.old }
    requires in_bounds { 262144 ≤ length kept.old }
    ensures { Put line.now (begin_of at) result kept.old kept.new }
{
    let begin = room_for(outlet, kept, at);
    put_bytes(line, begin, kept)
}

// Keeps a line, if an element of the room from a place on is not the value.
pub fn keep_unless<T: Copy + PartialEq>(
    outlet: &mut Outlet<Stdout>,
    room: &[T],
    from: usize,
    value: T,
    line: &[u8],
    at: usize,
    kept: &mut [u8],
) -> usize
    requires line_len_bound { length line.now ≤ 20 }
    requires at_in_bounds { at ≤ length kept.old }
    requires in_bounds { 262144 ≤ length kept.old }
    ensures { list_all (λ x. T.eq x value) (drop from room.now) ≡ true → (result ≡ at) × (kept.new ≡ kept.old) }
{
    if rooms::are(room, from, value) {
        return at;
    }
    keep_line(outlet, line, at, kept)
}

// Keeps `work not zero`, if a word of the room is not.
pub fn keep_work(outlet: &mut Outlet<Stdout>, work: &[u32], at: usize, kept: &mut [u8]) -> usize
    requires at_in_bounds { at ≤ length kept.old }
    requires in_bounds { 262144 ≤ length kept.old }
    ensures { all_are 0 work.now ≡ true → (result ≡ at) × (kept.new ≡ kept.old) }
{
    keep_unless(outlet, work, 0, 0, b"work not zero\n", at, kept)
}

// Keeps `output touched`, if a byte of the output from a place on is not as it was filled.
pub fn keep_output(
    outlet: &mut Outlet<Stdout>,
    output: &[u8],
    from: usize,
    at: usize,
    kept: &mut [u8],
) -> usize
    requires at_in_bounds { at ≤ length kept.old }
    requires in_bounds { 262144 ≤ length kept.old }
    ensures { all_are 165 (drop from output.now) ≡ true → (result ≡ at) × (kept.new ≡ kept.old) }
{
    keep_unless(
        outlet,
        output,
        from,
        FILLED_BYTE,
        b"output touched\n",
        at,
        kept,
    )
}
