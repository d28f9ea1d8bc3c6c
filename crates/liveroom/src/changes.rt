// Changing the records of a live map where they stand.

ghost use Rattle.std.specs.Prelude.{◌≡◌, ◌+◌, ◌≤◌, ◌<◌};
ghost use Rattle.records.specs.Sized.{route};
ghost use Rattle.liveroom.specs.Inner.{Holds, written, inserted, removed};

// Writes record i.
pub fn set_record(room: &mut [u32], i: usize, addr: u32, len: u32, hop: u32)
    requires { Holds room.old (i + 1) × ((len ≤ 32) × (hop ≤ 63)) }
    ensures { room.new ≡ written room.old i (route addr len hop) }
{
    room[2 + 2 * i] = addr;
    room[3 + 2 * i] = len * 65536 + hop;
}

// Makes a record at place `at` of n.
pub fn insert(room: &mut [u32], n: usize, at: usize, addr: u32, len: u32, hop: u32)
    requires holds { Holds room.old (n + 1) × ((at ≤ n) × (n < 1024)) }
    requires len_bound { (len ≤ 32) × (hop ≤ 63) }
    ensures { room.new ≡ inserted room.old n at (route addr len hop) }
{
    room.copy_within(2 + 2 * at..2 + 2 * n, 4 + 2 * at);
    set_record(room, at, addr, len, hop);
    room[1] = (n + 1) as u32;
}

// Takes the record at place `at` of n away.
pub fn remove(room: &mut [u32], n: usize, at: usize)
    requires { Holds room.old n × ((at < n) × (n ≤ 1024)) }
    ensures { room.new ≡ removed room.old n at }
{
    room.copy_within(4 + 2 * at..2 + 2 * n, 2 + 2 * at);
    room[1] = (n - 1) as u32;
}
