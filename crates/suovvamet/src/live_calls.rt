// The live map for C. The result is the refusal's number, 0 for an answer; no refusal names an index but 0.

ghost use Rattle.suovvamet.specs.LiveCalls.{MakeInC, PutInC, TakeInC, LiveLookupInC};

use super::{form_of, refusal_in_c};

// Makes an empty map in a room, whatever is in it.
#[unsafe(no_mangle)]
pub extern "C" fn suovvamet_live_make(room: &mut [u32]) -> u32
    ensures { MakeInC room.old result room.new }
{
    refusal_in_c(live::make_empty(room), &mut 0)
}

// Puts a route into the map: a present prefix gets the new hop.
#[unsafe(no_mangle)]
pub extern "C" fn suovvamet_live_put(
    room: &mut [u32],
    flags: u32,
    address: u32,
    length: u32,
    hop: u32,
) -> u32
    ensures { PutInC room.old flags address length hop result room.new }
{
    refusal_in_c(
        live::put(room, form_of(flags), address, length, hop),
        &mut 0,
    )
}

// Takes a prefix from the map: present is 1, or 0 where it was absent.
#[unsafe(no_mangle)]
pub extern "C" fn suovvamet_live_take(
    room: &mut [u32],
    flags: u32,
    address: u32,
    length: u32,
    present: &mut u32,
) -> u32
    ensures { TakeInC room.old flags address length result present.new room.new }
{
    let answer = live::take(room, form_of(flags), address, length);
    *present = answer.unwrap_or(false) as u32;
    refusal_in_c(answer, &mut 0)
}

// The longest match of an address in the map: found is 1 with its hop and length, or all three are 0.
#[unsafe(no_mangle)]
pub extern "C" fn suovvamet_live_lookup(
    room: &[u32],
    address: u32,
    found: &mut u32,
    hop: &mut u32,
    length: &mut u32,
) -> u32
    ensures { LiveLookupInC room.now address result found.new hop.new length.new }
{
    let answer = live::lookup(room, address);
    (*found, *hop, *length) = match answer {
        Ok(Some(route)) => (1, route.hop as u32, route.length as u32),
        _ => (0, 0, 0),
    };
    refusal_in_c(answer, &mut 0)
}
