// What a checker of plans asks of one step, and of one class: the addresses of a prefix that no longer prefix holds, of those installed and put. They all have
// one answer, from the prefixes that hold all of them, and that must be the old or the new one after each step.
#![tactic(auto)]

pub mod marks;

ghost use Rattle.std.specs.Prelude.{◌≡◌, ℕ, ◌+◌, ◌-◌, ◌^◌, ◌≤◌, ◌<◌, MatchOption, get_or};
ghost use Rattle.theory.specs.Routes.{Table};
ghost use Rattle.words.specs.Prefix.{agree};
ghost use Rattle.positions.specs.Runs.{no_hop};
ghost use Rattle.records.specs.Wire.{routes};
ghost use Rattle.steps.specs.Views.{rung};
ghost use Rattle.rungs.specs.Rungs.{row};
ghost use Rattle.checking.specs.Checking.{puts, left_of, step_kept, counted_of, best_in, class_before, answered_of};

use hops::NO_HOP;
use marks::{Marks, fine_of, marked, marks_of};
use rungs::{climb, top_from};
use words::prefix::host_bits_clear;

// The most routes that an installed table may have.
const MOST: usize = 1024;

// ---- One step.

// Does the prefix hold the address?
pub fn holds(addr: u32, len: u8, x: u32) -> bool
    requires { len ≤ 32 }
    ensures { result ≡ agree 32 len x addr }
{
    ((x ^ addr) as u64) << len < 4294967296
}

// What a step leaves at its prefix.
pub fn left(put: u8, hop: u8) -> u8
    ensures { result ≡ left_of (puts put) hop }
{
    if put != 0 { hop } else { NO_HOP }
}

// Does a step keep the rule of number 13: a length up to 32, no host bits under the strict choice, a put's hop up to 63?
pub fn step_kept(strict: bool, put: bool, addr: u32, len: u8, hop: u8) -> bool
    ensures { result ≡ step_kept strict put addr len hop }
{
    len <= 32 && (!strict || host_bits_clear(addr, len)) && (!put || hop <= 63)
}

// The routes after a step, of so many before it, whose prefix is present or not. None where it cannot be done or leaves too many.
pub fn counted(put: bool, there: bool, count: usize) -> Option<usize>
    requires { count ≤ 1024 }
    ensures { MatchOption result (1024 < counted_of put there count) (λ k. (k ≡ counted_of put there count) × (k ≤ 1024)) }
{
    match (put, there) {
        (true, true) => Some(count),
        (true, false) => { if count < MOST { Some(count + 1) } else { None } }
        (false, true) => Some(count.saturating_sub(1)),
        (false, false) => None,
    }
}

// ---- One class.

// The class of a prefix, as the steps are followed.
#[derive(Clone, Copy)]
pub struct Class {
    // What its prefix has: a hop, or NO_HOP.
    pub own: u8,
    // Was its answer the old or the new one after each step so far?
    pub good: bool,
    // The hops of the old and the new answer, as a set.
    pub fine: u64,
    // The lengths up to that of the prefix that have a hop after the steps so far.
    pub marks: Marks,
}

// The hop at the greatest length up to `len` that has one; NO_HOP where none has.
pub fn best_hop(hops: &[u8; 33], len: u8) -> u8
    requires { len ≤ 32 }
    ensures { result ≡ best_in hops.now len }
{
    let top = top_from(hops, len as usize);
    hops[top]
}

// The class of a prefix of this length before any step, by the hops of the installed and of the new table's prefixes that hold all of it.
pub fn class_before(old: &[u8; 33], goal: &[u8; 33], len: u8) -> Class
    requires { len ≤ 32 }
    ensures { result ≡ class_before old.now goal.now len }
{
    let was = best_hop(old, len);
    let to = best_hop(goal, len);
    Class {
        own: old[len as usize],
        good: true,
        fine: fine_of(was, to),
        marks: marks_of(old, len, was, to),
    }
}

// The class of a prefix of length `of` after a step whose prefix holds all of it.
pub fn answered(class: Class, of: u8, put: u8, len: u8, hop: u8) -> Class
    requires { len ≤ 32 }
    ensures { result ≡ answered_of class of (puts put) len hop }
{
    let now = left(put, hop);
    let mut c = class;
    if len == of {
        c.own = now;
    }
    c.marks = marked(c.marks, len, now, c.fine);
    if c.marks.fair < c.marks.foul {
        c.good = false;
    }
    c
}

// ---- The addresses of a class.

// The length of the table's shortest prefix above `len` that holds y.
pub fn longer_in(table: &[u8], y: u32, len: u8) -> Option<u8>
    requires table { Table 32 (routes table.now) }
    requires len_bound { len ≤ 32 }
    ensures { MatchOption result ((l : ℕ) → len < l → l ≤ 32 → get_or (row (rung 32 (routes table.now) y) 0 33) l 0 ≡ no_hop) (λ l. (len < l) × (l ≤ 32) × (get_or (row (rung 32 (routes table.now) y) 0 33) l 0 ≡ no_hop → ⊥)) }
{
    let rungs = climb(table, y);
    for l in len + 1..33 {
        if rungs.hops[l as usize] != NO_HOP {
            return Some(l);
        }
    }
    None
}

// Behind the last address of the prefix that starts at `start`.
pub fn behind(start: u32, len: u8) -> u64
    requires { len ≤ 32 }
    ensures { result ≡ start + 2 ^ (32 - len) }
{
    start as u64 + (1u64 << (32 - len))
}
