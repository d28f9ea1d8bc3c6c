// The run of a position is the records lo..hi of a sorted table that lie in it: its own record, if it has one, then the run of its left half, then the
// run of its right half. Here is where one ends and the next begins. Addresses are held as keys, over the size of a record.
#![tactic(auto)]

ghost use Rattle.std.specs.Prelude.{◌≡◌, ℕ, ◌+◌, ◌-◌, ◌^◌, ◌≤◌, ◌<◌};
ghost use Rattle.theory.specs.Routes.{Ascending};
ghost use Rattle.words.specs.Keys.{key_of};
ghost use Rattle.records.specs.Sized.{IsSize, width_in, records_in};
ghost use Rattle.runs.specs.Runs.{run, PastOwn, SplitAt};

use records::sized::{key_at, length_at};

// The key of the right half of the position of this length at `key`.
pub fn right_half(key: u64, len: u8) -> u64
    requires { (len < 64) × (key + 2 ^ (64 - len) ≤ 2 ^ 64) }
    ensures { (w a : ℕ) → w ≤ 64 → len < w → key ≡ key_of w a → result ≡ key_of w (a + 2 ^ (w - 1 - len)) }
{
    key + (1 << (63 - len))
}

// Past the own record of a position of this length, whose run is lo..hi: lo, where it has none.
pub fn past_own(table: &[u8], size: usize, lo: usize, hi: usize, len: u8) -> usize
    requires { IsSize size × (hi ≤ records_in size table.now) }
    ensures { PastOwn size table.now lo hi len result }
{
    if hi <= lo {
        return lo;
    }
    if length_at(table, size, lo) == len {
        return lo + 1;
    }
    lo
}

// Where those of the records lo..hi begin that do not stand below the address of the key `mid`; hi where all do.
pub fn split(table: &[u8], size: usize, lo: usize, hi: usize, mid: u64) -> usize
    requires size { IsSize size × (lo ≤ hi) × (hi ≤ records_in size table.now) }
    requires ascending { Ascending (run size table.now lo hi) }
    ensures { (a : ℕ) → mid ≡ key_of (width_in size) a → SplitAt size table.now lo hi a result }
{
    let mut from = lo;
    let mut to = hi;
    while from < to {
        let k = from + (to - from) / 2;
        if key_at(table, size, k) < mid {
            from = k + 1;
        } else {
            to = k;
        }
    }
    from
}
