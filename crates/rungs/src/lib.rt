// What a table has at each length for one address: the prefixes that hold it, from the shortest to the longest.
#![tactic(auto)]

ghost use Rattle.std.specs.Prelude.{◌≡◌, cond, ◌<◌, ◌≤◌, eqb, ltb};
ghost use Rattle.theory.specs.Routes.{Table};
ghost use Rattle.records.specs.Wire.{records, route_at, routes};
ghost use Rattle.steps.specs.Views.{rung};
ghost use Rattle.rungs.specs.Rungs.{top_from, rungs_of, with_top, Behind, Skipped};

use hops::NO_HOP;
use records::{addr_at, hop_at, len_at};
use words::prefix::{contains, masked};

// The hops by length, NO_HOP where there is none; and the greatest length with one, 0 where there is none.
#[derive(Clone, Copy)]
pub struct Rungs {
    pub hops: [u8; 33],
    pub top: usize,
}

// The greatest length up to `from` with a hop; 0 where there is none.
pub fn top_from(hops: &[u8; 33], from: usize) -> usize
    requires { from ≤ 32 }
    ensures { result ≡ top_from hops.now from }
{
    for l in (1..from + 1).rev() {
        if hops[l] != NO_HOP {
            return l;
        }
    }
    0
}

// The hops with their greatest length.
fn with_top(hops: [u8; 33]) -> Rungs
    ensures { result ≡ with_top hops }
{
    let top = top_from(&hops, 32);
    Rungs { hops, top }
}

// Does the prefix of `addr` and `len` stand behind that of m and d in table order?
fn past(addr: u32, len: u8, m: u32, d: u8) -> bool
    ensures { result ≡ cond (eqb addr m) (ltb d len) (ltb m addr) }
{
    if addr == m { d < len } else { m < addr }
}

// Of the first k records, where those begin that stand behind the prefix of m and d.
fn behind(table: &[u8], k: usize, m: u32, d: u8) -> usize
    requires { Table 32 (routes table.now) × (k ≤ records table.now) }
    ensures { Behind table.now k m d result }
{
    let mut from = 0;
    let mut to = k;
    while from < to {
        let at = from + (to - from) / 2;
        if past(addr_at(table, at), len_at(table, at), m, d) {
            to = at;
        } else {
            from = at + 1;
        }
    }
    to
}

// Of the first k records, those up to which none holds x, where record k stands at `addr`. Left of x no prefix is longer than what x and `addr` have in common.
fn skipped(table: &[u8], k: usize, addr: u32, x: u32) -> usize
    requires { (Table 32 (routes table.now) × (k < records table.now)) × (addr ≡ (route_at table.now k).addr) }
    ensures { Skipped table.now k x result }
{
    if x < addr {
        return behind(table, k, x, 32);
    }
    let common = u32::leading_zeros(x ^ addr);
    if common < 32 {
        let d = common as u8;
        if addr < masked(x, d + 1) {
            return behind(table, k, masked(x, d), d);
        }
    }
    k
}

// The rungs of an address, from the last record on: one that holds it is a rung, and behind one that does not, others are passed over.
pub fn climb(table: &[u8], x: u32) -> Rungs
    requires { Table 32 (routes table.now) }
    ensures { result ≡ rungs_of (rung 32 (routes table.now) x) }
{
    let mut hops = [NO_HOP; 33];
    let mut k = table.len() / 8;
    while 0 < k {
        let last = k - 1;
        let addr = addr_at(table, last);
        let len = len_at(table, last);
        if contains(addr, len, x, 32) {
            hops[len as usize] = hop_at(table, last);
            k = last;
        } else {
            k = skipped(table, last, addr, x);
        }
    }
    with_top(hops)
}
