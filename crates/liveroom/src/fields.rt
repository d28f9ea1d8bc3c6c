// The records of a live map in its room: reading one, and its place among the others.
#![tactic(auto, unfolding(crate::specs::Rooms::route_in))]

ghost use Rattle.std.specs.Prelude.{◌≡◌, ◌||◌, ◌&&◌, ◌+◌, ◌*◌, ◌<◌, ltb, eqb};
ghost use Rattle.liveroom.specs.Rooms.{route_in};
ghost use Rattle.liveroom.specs.Inner.{Holds};

// The address of record i.
pub fn addr_in(room: &[u32], i: usize) -> u32
    requires { Holds room.now (i + 1) }
    ensures { result ≡ (route_in room.now i).addr }
{
    room[2 + 2 * i]
}

// The length of record i.
pub fn len_in(room: &[u32], i: usize) -> u32
    requires { Holds room.now (i + 1) }
    ensures { result ≡ (route_in room.now i).len }
{
    room[3 + 2 * i] / 65536
}

// The hop of record i.
pub fn hop_in(room: &[u32], i: usize) -> u32
    requires { Holds room.now (i + 1) }
    ensures { result ≡ (route_in room.now i).hop }
{
    room[3 + 2 * i] % 65536
}

// Address a and length l stand strictly before address b and length m.
pub fn comes_before(a: u32, l: u32, b: u32, m: u32) -> bool
    ensures { result ≡ (ltb a b || (eqb a b && ltb l m)) }
{
    // By branches: as one condition the check of a live map takes a tenth more instructions.
    if a < b {
        true
    } else if a == b {
        l < m
    } else {
        false
    }
}
