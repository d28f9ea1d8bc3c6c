// Does a room hold a live map? One pass over its records, which counts their nodes as it goes.

ghost use Rattle.std.specs.Prelude.{◌≡◌, ◌&&◌, ◌≤◌, ◌<◌};
ghost use Rattle.theory.specs.Routes.{Table};
ghost use Rattle.nodecount.specs.Nodes.{bare, new_nodes, nodes};
ghost use Rattle.records.specs.Sized.{route};
ghost use Rattle.table.specs.SizedRules.{before};
ghost use Rattle.liveroom.specs.Rooms.{shown_from, sound};
ghost use Rattle.liveroom.specs.Inner.{Holds, held_nodes, passed_nodes, prior_at, with_at};

use super::fields::{addr_in, comes_before, hop_in, len_in};
use crate::MARK;
use nodecount::new_nodes;
use words::prefix::host_bits_clear;

// A route as a map may have it: rules 5, 6 and 7.
fn is_sound(addr: u32, len: u32, hop: u32) -> bool
    ensures { result ≡ sound (route addr len hop) }
{
    len <= 32 && host_bits_clear(addr, len as u8) && hop <= 63
}

// A sound route behind another.
fn follows(addr: u32, len: u32, hop: u32, last_addr: u32, last_len: u32) -> bool
    ensures { result ≡ (before (bare last_addr last_len) (route addr len hop) && sound (route addr len hop)) }
{
    comes_before(last_addr, last_len, addr, len) && is_sound(addr, len, hop)
}

// The nodes that a route brings beside those of the route before it.
pub fn brought(addr: u32, len: u32, last_addr: u32, last_len: u32) -> usize
    requires { (len ≤ 32) × (last_len ≤ 32) }
    ensures { (result ≡ new_nodes 32 (bare last_addr last_len) (bare addr len)) × (result ≤ 6) }
{
    new_nodes(
        (addr as u64) * 4294967296,
        len as u8,
        (last_addr as u64) * 4294967296,
        last_len as u8,
    )
}

// The nodes of n records; 0 where they are not sound and in order.
fn pass(room: &[u32], n: usize) -> usize
    requires { Holds room.now n × (n ≤ 1024) }
    ensures { result ≡ passed_nodes room.now n }
{
    if n == 0 {
        return 1;
    }
    let mut last_addr = addr_in(room, 0);
    let mut last_len = len_in(room, 0);
    if !is_sound(last_addr, last_len, hop_in(room, 0)) {
        return 0;
    }
    let mut count = 1 + brought(last_addr, last_len, 0, 0);
    for i in 1..n {
        let addr = addr_in(room, i);
        let len = len_in(room, i);
        if !follows(addr, len, hop_in(room, i), last_addr, last_len) {
            return 0;
        }
        count += brought(addr, len, last_addr, last_len);
        last_addr = addr;
        last_len = len;
    }
    count
}

// The nodes of the map that a room holds; 0 where it holds none.
pub fn nodes_held(room: &[u32]) -> usize
    ensures { result ≡ held_nodes room.now }
{
    let size = room.len();
    if size < 160 {
        return 0;
    }
    if room[0] != MARK {
        return 0;
    }
    if 1024 < room[1] {
        return 0;
    }
    let n = room[1] as usize;
    if size < 2 + 2 * n {
        return 0;
    }
    let count = pass(room, n);
    if size / 160 < count {
        return 0;
    }
    count
}

// The nodes that a route brings beside those of the record before place `at`, if there is one.
fn brought_at(room: &[u32], at: usize, addr: u32, len: u32) -> usize
    requires { Holds room.now at × ((len ≤ 32) × ((prior_at room.now at).len ≤ 32)) }
    ensures { (result ≡ new_nodes 32 (prior_at room.now at) (bare addr len)) × (result ≤ 6) }
{
    if at == 0 {
        return brought(addr, len, 0, 0);
    }
    brought(addr, len, addr_in(room, at - 1), len_in(room, at - 1))
}

// The nodes of the map once a route stands at place `at`, which lies between record `at` and the one before it.
pub fn held_with(room: &[u32], n: usize, at: usize, held: usize, addr: u32, len: u32) -> usize
    requires holds { Holds room.now n × ((n ≤ 1024) × ((at ≤ n) × (len ≤ 32))) }
    requires table { Table 32 (shown_from room.now 0 n) × (held ≡ nodes 32 (shown_from room.now 0 n)) }
    requires table_2 { Table 32 (with_at room.now n at (bare addr len)) }
    ensures { result ≡ nodes 32 (with_at room.now n at (bare addr len)) }
{
    let with = held + brought_at(room, at, addr, len);
    if at == n {
        return with;
    }
    let next_addr = addr_in(room, at);
    let next_len = len_in(room, at);
    with + brought(next_addr, next_len, addr, len) - brought_at(room, at, next_addr, next_len)
}
