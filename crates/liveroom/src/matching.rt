// Finding records of a live map: the place of a prefix, and the longest match of an address.

ghost use Rattle.std.specs.Prelude.{◌≡◌};
ghost use Rattle.theory.specs.Routes.{Ascending, Table, lookup};
ghost use Rattle.lookup.specs.Calls.{match_of};
ghost use Rattle.liveroom.specs.Rooms.{shown_from};
ghost use Rattle.liveroom.specs.Inner.{Holds, InRange, Placed, Shared, is_at};

use super::fields::{addr_in, comes_before, hop_in, len_in};
use lookup::answers::Match;
use words::prefix::{contains, masked};

// The first of n records that does not stand before a prefix, by halving.
pub fn place(room: &[u32], n: usize, addr: u32, len: u32) -> usize
    requires { Holds room.now n × Ascending (shown_from room.now 0 n) }
    ensures { Placed room.now n addr len result }
{
    let mut from: usize = 0;
    let mut to = n;
    while from < to {
        let k = from + (to - from) / 2;
        if comes_before(addr_in(room, k), len_in(room, k), addr, len) {
            from = k + 1;
        } else {
            to = k;
        }
    }
    from
}

// Has the record at a place this prefix?
pub fn is_at(room: &[u32], n: usize, at: usize, addr: u32, len: u32) -> bool
    requires { Holds room.now n }
    ensures { result ≡ is_at room.now n at addr len }
{
    at < n && addr_in(room, at) == addr && len_in(room, at) == len
}

// How many of their first bits two addresses share.
fn shared_bits(a: u32, b: u32) -> u32
    ensures { Shared a b result }
{
    u32::leading_zeros(a ^ b)
}

// The longest match among n records: the last that holds the address. Of those before one that does not, only such can hold it as are no longer than the
// bits that it shares with the address, and these stand before the prefix of so many bits and one more.
pub fn longest_in(room: &[u32], n: usize, address: u32) -> Option<Match>
    requires { Holds room.now n × (Table 32 (shown_from room.now 0 n) × InRange room.now n) }
    ensures { match_of result ≡ lookup 32 (shown_from room.now 0 n) address }
{
    let mut i = place(room, n, address, 33);
    // A search finds the next place, so no range goes through them.
    while 0 < i {
        i -= 1;
        let addr = addr_in(room, i);
        let length = len_in(room, i) as u8;
        if contains(addr, length, address, 32) {
            return Some(Match {
                hop: hop_in(room, i) as u8,
                length,
            });
        }
        let shared = shared_bits(addr, address);
        i = place(room, i, masked(address, shared as u8), shared + 1);
    }
    None
}
