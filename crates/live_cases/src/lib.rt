// The commands of a case with call 10, the live map (docs/CASES.md): each is carried out on one room, and the line that tells its answer is put.
#![tactic(auto)]

mod lines;

ghost use Rattle.std.specs.Prelude.{◌≡◌, ◌+◌, ◌*◌, ◌/◌, ◌≤◌, length};
ghost use Rattle.live.specs.Calls.{kept_says, look_reply};
ghost use Rattle.text.specs.Text.{Put};
ghost use Rattle.live_cases.specs.Lines.{kept_line, look_line};
ghost use Rattle.live_cases.specs.Commands.{command_at, flipped, change_reply, change_left, stays, line_of, left_of, lines_of};

use lines::{put_kept, put_looked, put_touched};
use records::{Form, join4};
use refusals::Refusal;
use text::put_bytes;

// A command: what is to be done, how a prefix is read, and its numbers.
#[derive(Clone, Copy)]
pub struct Command {
    pub order: u8,
    pub form: Form,
    pub hop: u32,
    pub len: u8,
    pub address: u32,
}

// Command i of those that stand one after another, 8 bytes each.
fn command_at(commands: &[u8], i: usize) -> Command
    requires { 8 * i + 8 ≤ length commands.now }
    ensures { result ≡ command_at commands.now i }
{
    let first = commands[8 * i];
    let hop = u16::from_be_bytes([commands[8 * i + 1], commands[8 * i + 2]]);
    Command {
        order: first % 128,
        form: Form {
            strict: 128 <= first,
            long: false,
        },
        hop: u32::from(hop),
        len: commands[8 * i + 3],
        address: join4(
            commands[8 * i + 4],
            commands[8 * i + 5],
            commands[8 * i + 6],
            commands[8 * i + 7],
        ),
    }
}

// Flips a bit of a word; past the room, nothing.
fn flip(room: &mut [u32], place: u32, bit: u8)
    ensures { room.new ≡ flipped room.old place bit }
{
    let i = place as usize;
    if i < room.len() {
        room[i] ^= 1 << (bit % 32);
    }
}

// A call that may change the map: make, put or take. It answers whether it does: a take of an absent prefix does not.
fn change(command: Command, room: &mut [u32]) -> Result<bool, Refusal>
    ensures { (kept_says result ≡ change_reply command room.old) × (room.new ≡ change_left command room.old) }
{
    match command.order {
        0 => live::make_empty(room).and(Ok(true)),
        1 => live::put(
            room,
            command.form,
            command.address,
            command.len as u32,
            command.hop,
        )
        .and(Ok(true)),
        _ => live::take(room, command.form, command.address, command.len as u32),
    }
}

// Does a call leave the room as it was, by its answer?
fn room_stays(answer: Result<bool, Refusal>) -> bool
    ensures { result ≡ stays answer }
{
    match answer {
        Ok(changed) => !changed,
        Err(_) => true,
    }
}

// Make, put or take, and its line.
fn put_change(
    command: Command,
    room: &mut [u32],
    before: &mut [u32],
    at: usize,
    out: &mut [u8],
) -> usize
    requires before_len { length before.old ≡ length room.old }
    requires at_in_bounds { at + 49 ≤ length out.old }
    ensures put { Put (kept_line (change_reply command room.old)) at result out.old out.new × (result ≤ at + 36) }
    ensures room_after { room.new ≡ change_left command room.old }
{
    before.copy_from_slice(room);
    let answer = change(command, room);
    let end = put_kept(answer, at, out);
    if room_stays(answer) {
        return put_touched(before, room, end, out);
    }
    end
}

// A lookup, and its line.
fn put_lookup(address: u32, room: &[u32], before: &mut [u32], at: usize, out: &mut [u8]) -> usize
    requires before_len { length before.old ≡ length room.now }
    requires at_in_bounds { at + 49 ≤ length out.old }
    ensures { Put (look_line (look_reply room.now address)) at result out.old out.new × (result ≤ at + 36) }
{
    before.copy_from_slice(room);
    let end = put_looked(live::lookup(room, address), at, out);
    put_touched(before, room, end, out)
}

// Any command, and its line.
fn put_command(
    command: Command,
    room: &mut [u32],
    before: &mut [u32],
    at: usize,
    out: &mut [u8],
) -> usize
    requires before_len { length before.old ≡ length room.old }
    requires at_in_bounds { at + 49 ≤ length out.old }
    ensures put { Put (line_of command room.old) at result out.old out.new × (result ≤ at + 36) }
    ensures room_after { room.new ≡ left_of command room.old }
{
    match command.order {
        0..=2 => put_change(command, room, before, at, out),
        3 => put_lookup(command.address, room, before, at, out),
        4 => {
            flip(room, command.address, command.len);
            put_bytes(b"flipped\n", at, out)
        }
        _ => put_bytes(b"no such command\n", at, out),
    }
}

// One command after another, and their lines.
pub fn put_commands(
    commands: &[u8],
    room: &mut [u32],
    before: &mut [u32],
    at: usize,
    out: &mut [u8],
) -> usize
    requires before_len { length before.old ≡ length room.old }
    requires commands_in_bounds { at + 64 * (length commands.now / 8) ≤ length out.old }
    ensures { Put (lines_of commands.now (length commands.now / 8) room.old) at result out.old out.new }
{
    let mut end = at;
    for i in 0..commands.len() / 8 {
        end = put_command(command_at(commands, i), room, before, end, out);
    }
    end
}
