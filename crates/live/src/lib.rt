// A live map: a table that stays in a lent room of 32-bit words, with put, take and lookup.
#![tactic(auto)]

ghost use Rattle.std.specs.Prelude.{◌≡◌, true};
ghost use Rattle.lookup.specs.Calls.{lookup_says};
ghost use Rattle.nodecount.specs.Nodes.{nodes};
ghost use Rattle.records.specs.Sized.{route};
ghost use Rattle.refusals.specs.Rules.{judge};
ghost use Rattle.liveroom.specs.Rooms.{live, shown, sound};
ghost use Rattle.live.specs.Tables.{prefix_rules};
ghost use Rattle.live.specs.Calls.{done_says, Makes, Puts, Takes, look_reply};
ghost use Rattle.live.specs.Inner.{PutsKept, TakesKept};

use liveroom::MARK;
use liveroom::changes::{insert, remove, set_record};
use liveroom::check::{held_with, nodes_held};
use liveroom::matching::{is_at, longest_in, place};
use lookup::answers::Match;
use records::Form;
use refusals::{Cause, Refusal};
use words::prefix::{host_bits_clear, masked};

// Makes an empty map in a room, whatever is in it, or refuses (10).
pub fn make_empty(room: &mut [u32]) -> Result<(), Refusal>
    ensures { Makes room.old result room.new }
{
    if room.len() < 160 {
        return Err(Cause::WorkRoom.at(0));
    }
    room[0] = MARK;
    room[1] = 0;
    Ok(())
}

// Does a prefix keep the rules 5 and 6? Else the refusal.
fn judge_prefix(form: Form, address: u32, len: u32) -> Result<(), Refusal>
    ensures { done_says result ≡ judge (prefix_rules form address len) true }
{
    if 32 < len {
        return Err(Cause::PrefixLength.at(0));
    }
    if form.strict && !host_bits_clear(address, len as u8) {
        return Err(Cause::HostBits.at(0));
    }
    Ok(())
}

// Puts a route that keeps the rules 5 to 7 into the map that the room holds.
fn put_kept(room: &mut [u32], held: usize, addr: u32, len: u32, hop: u32) -> Result<(), Refusal>
    requires { (live room.old ≡ true) × ((held ≡ nodes 32 (shown room.old)) × (sound (route addr len hop) ≡ true)) }
    ensures { PutsKept room.old (route addr len hop) result room.new }
{
    let n = room[1] as usize;
    let at = place(room, n, addr, len);
    if is_at(room, n, at, addr, len) {
        set_record(room, at, addr, len, hop);
        return Ok(());
    }
    if n == 1024 {
        return Err(Cause::MapFull.at(0));
    }
    if room.len() / 160 < held_with(room, n, at, held, addr, len) {
        return Err(Cause::WorkRoom.at(0));
    }
    insert(room, n, at, addr, len, hop);
    Ok(())
}

// Puts a route: a present prefix gets the new hop. Or refuses (18, 5, 6 under the strict choice, 7, 17, 10).
pub fn put(room: &mut [u32], form: Form, address: u32, len: u32, hop: u32) -> Result<(), Refusal>
    ensures { Puts room.old form address len hop result room.new }
{
    let held = nodes_held(room);
    if held == 0 {
        return Err(Cause::NoMap.at(0));
    }
    judge_prefix(form, address, len)?;
    if 63 < hop {
        return Err(Cause::Tail.at(0));
    }
    put_kept(room, held, masked(address, len as u8), len, hop)
}

// Takes a prefix from the map that the room holds: was it present?
fn take_kept(room: &mut [u32], addr: u32, len: u32) -> bool
    requires { live room.old ≡ true }
    ensures { TakesKept room.old addr len result room.new }
{
    let n = room[1] as usize;
    let at = place(room, n, addr, len);
    if is_at(room, n, at, addr, len) {
        remove(room, n, at);
        true
    } else {
        false
    }
}

// Takes a prefix away and answers that it was present, or answers that it was absent, or refuses (18, 5, 6 under the strict choice).
pub fn take(room: &mut [u32], form: Form, address: u32, len: u32) -> Result<bool, Refusal>
    ensures { Takes room.old form address len result room.new }
{
    if nodes_held(room) == 0 {
        return Err(Cause::NoMap.at(0));
    }
    judge_prefix(form, address, len)?;
    Ok(take_kept(room, masked(address, len as u8), len))
}

// The longest match of an address, no route, or the refusal (18).
pub fn lookup(room: &[u32], address: u32) -> Result<Option<Match>, Refusal>
    ensures { lookup_says result ≡ look_reply room.now address }
{
    if nodes_held(room) == 0 {
        return Err(Cause::NoMap.at(0));
    }
    Ok(longest_in(room, room[1] as usize, address))
}
