// Do steps that keep their rule change one accepted table to another without a detour?
//
// Step by step, the earlier steps are sought through for its prefix, which shows whether that is present: a take needs it, and a put counts a route more
// without it. Where a prefix is put that the installed table lacks and no earlier step has, and for each installed prefix, the prefix must have in the end what
// the new table has there, and the steps are followed for the prefix's class: the addresses that no longer prefix holds, of those installed and put. While an
// installed prefix is present its own hop is the answer of its class, so it is first followed by itself. Where a class's answer was another than the old and the
// new one, the class must be empty: its addresses are gone through, from the end of one longer prefix to that of the next.

ghost use Rattle.std.specs.Prelude.{◌≡◌, ℕ, ◌-◌, ◌^◌, ◌≤◌, ◌<◌, true, false, ◌&&◌, length, eqb, MatchOption, unwrap_or};
ghost use Rattle.theory.specs.Results.{start_of};
ghost use Rattle.theory.specs.Routes.{Table};
ghost use Rattle.words.specs.Prefix.{agree};
ghost use Rattle.records.specs.Wire.{records, route_at, routes};
ghost use Rattle.steps.specs.Steps.{entry};
ghost use Rattle.rungs.specs.Rungs.{number_of};
ghost use Rattle.plans.specs.Judging.{Accepts};
ghost use Rattle.plans.specs.Following.{step_at};
ghost use Rattle.plans.specs.Deciding.{MayFollow, same_route, table_after, LastLeft, PutBy, Known, InClass, NoClass, Kept, Done};

use crate::answers::Step;
use checking::marks::{fine_of, is_fine};
use checking::{answered, behind, best_hop, class_before, counted, holds, left, longer_in};
use hops::NO_HOP;
use records::{addr_at, hop_at, len_at};
use rungs::climb;
use words::prefix::masked;

// Is the step for the prefix of this length that holds x?
fn is_for(s: &Step, x: u32, len: u8) -> bool
    requires { len ≤ 32 }
    ensures { result ≡ (eqb s.now.len len && agree 32 len x s.now.addr) }
{
    s.len == len && holds(s.addr, len, x)
}

// What the last of the steps for the prefix left there.
fn last_left(steps: &[Step], x: u32, len: u8) -> Option<u8>
    requires { (len ≤ 32) × (start_of (32 - len) x ≡ x) }
    ensures { LastLeft steps.now x len (length steps.now) result }
{
    let mut found = None;
    for s in steps {
        if is_for(s, x, len) {
            found = Some(left(s.put, s.hop));
        }
    }
    found
}

// The length of the shortest prefix above `len` that holds y and that a step puts.
fn shortest_put(steps: &[Step], y: u32, len: u8) -> Option<u8>
    requires { (j : ℕ) → j < length steps.now → (step_at steps.now j).len ≤ 32 }
    ensures { MatchOption result ((l : ℕ) → len < l → PutBy steps.now (length steps.now) y l → ⊥) (λ l. (len < l) × (l ≤ 32) × PutBy steps.now (length steps.now) y l) }
{
    let mut found: Option<u8> = None;
    for s in steps {
        if s.put != 0 && len < s.len && found.is_none_or(|l| s.len < l) && holds(s.addr, s.len, y) {
            found = Some(s.len);
        }
    }
    found
}

// What stands at the prefix that starts at x: what a step left there, or else what the installed table has.
fn standing(installed: &[u8], x: u32, len: u8, left: Option<u8>) -> u8
    requires table { Table 32 (routes installed.now) }
    requires prefix { (len ≤ 32) × (start_of (32 - len) x ≡ x) }
    ensures { result ≡ unwrap_or left (number_of (entry (routes installed.now) x len)) }
{
    match left {
        Some(hop) => hop,
        None => climb(installed, x).hops[len as usize],
    }
}

// Is record i of two tables the same route?
fn is_same_at(installed: &[u8], new: &[u8], i: usize) -> bool
    requires { (i < records installed.now) × (i < records new.now) }
    ensures { result ≡ same_route (route_at installed.now i) (route_at new.now i) }
{
    addr_at(installed, i) == addr_at(new, i)
        && len_at(installed, i) == len_at(new, i)
        && hop_at(installed, i) == hop_at(new, i)
}

// Two accepted tables, and steps from the one to the other that each keep their rule.
#[derive(Clone, Copy)]
pub struct Change<'a> {
    pub installed: &'a [u8],
    pub new: &'a [u8],
    pub steps: &'a [Step],
}

impl Change<'_> {
    // The length of a prefix above `len` that holds y, of the installed table, of the new one, or put.
    fn longer_at(&self, y: u32, len: u8) -> Option<u8>
        requires may { MayFollow self.now.installed.now self.now.new.now self.now.steps.now }
        requires len_bound { len ≤ 32 }
        ensures { MatchOption result (InClass self.now.installed.now self.now.new.now self.now.steps.now y len) (λ l. (len < l) × (l ≤ 32) × Known self.now.installed.now self.now.new.now self.now.steps.now y l) }
    {
        if let Some(longer) = longer_in(self.installed, y, len) {
            return Some(longer);
        }
        if let Some(longer) = longer_in(self.new, y, len) {
            return Some(longer);
        }
        shortest_put(self.steps, y, len)
    }

    // Has the class of the prefix that starts at x no address?
    fn is_class_empty(&self, x: u32, len: u8) -> bool
        requires may { MayFollow self.now.installed.now self.now.new.now self.now.steps.now }
        requires prefix { (len ≤ 32) × (start_of (32 - len) x ≡ x) }
        ensures yes { result ≡ true → NoClass self.now.installed.now self.now.new.now self.now.steps.now x len }
        ensures no { result ≡ false → (y : ℕ) × (y < 2 ^ 32) × (start_of (32 - len) y ≡ x) × InClass self.now.installed.now self.now.new.now self.now.steps.now y len }
    {
        let end = behind(x, len);
        let mut y = x as u64;
        while y < end {
            match self.longer_at(y as u32, len) {
                Some(longer) => y = behind(masked(y as u32, longer), longer),
                None => return false,
            }
        }
        true
    }

    // Has the prefix that starts at x in the end what the new table has there, and its class, where it is not empty, the old or the new answer after each step?
    fn is_kept(&self, x: u32, len: u8) -> bool
        requires may { MayFollow self.now.installed.now self.now.new.now self.now.steps.now }
        requires prefix { (len ≤ 32) × (start_of (32 - len) x ≡ x) }
        ensures yes { result ≡ true → Kept self.now.installed.now self.now.new.now self.now.steps.now x len }
        ensures no { result ≡ false → Accepts self.now.installed.now self.now.new.now self.now.steps.now → ⊥ }
    {
        let old = climb(self.installed, x);
        let goal = climb(self.new, x);
        let mut class = class_before(&old.hops, &goal.hops, len);
        for s in self.steps {
            if s.len <= len && holds(s.addr, s.len, x) {
                class = answered(class, len, s.put, s.len, s.hop);
            }
        }
        class.own == goal.hops[len as usize] && (class.good || self.is_class_empty(x, len))
    }

    // Has the prefix of a record in the end what the new table has there, and itself an old or a new answer after each step? Yes only then.
    fn is_own_kept(&self, place: usize) -> bool
        requires may { MayFollow self.now.installed.now self.now.new.now self.now.steps.now }
        requires in_records { place < records self.now.installed.now }
        ensures { result ≡ true → Kept self.now.installed.now self.now.new.now self.now.steps.now (route_at self.now.installed.now place).addr (route_at self.now.installed.now place).len }
    {
        let x = addr_at(self.installed, place);
        let len = len_at(self.installed, place);
        let hop = hop_at(self.installed, place);
        let goal = climb(self.new, x);
        let fine = fine_of(hop, best_hop(&goal.hops, len));
        let mut own = hop;
        for s in self.steps {
            if is_for(s, x, len) {
                own = left(s.put, s.hop);
                if !is_fine(fine, own) {
                    return false;
                }
            }
        }
        own == goal.hops[len as usize]
    }

    // Are the prefixes of all installed records kept?
    fn are_records_kept(&self) -> bool
        requires { MayFollow self.now.installed.now self.now.new.now self.now.steps.now }
        ensures yes { result ≡ true → (i : ℕ) → i < records self.now.installed.now → Kept self.now.installed.now self.now.new.now self.now.steps.now (route_at self.now.installed.now i).addr (route_at self.now.installed.now i).len }
        ensures no { result ≡ false → Accepts self.now.installed.now self.now.new.now self.now.steps.now → ⊥ }
    {
        for place in 0..self.installed.len() / 8 {
            if !self.is_own_kept(place)
                && !self.is_kept(
                    addr_at(self.installed, place),
                    len_at(self.installed, place),
                )
            {
                return false;
            }
        }
        true
    }

    // The routes after the steps, each of which can be done, leaves no more than 1,024 and is for a prefix that is kept. None where there is no such number.
    fn count_after(&self) -> Option<usize>
        requires { MayFollow self.now.installed.now self.now.new.now self.now.steps.now }
        ensures { MatchOption result (Accepts self.now.installed.now self.now.new.now self.now.steps.now → ⊥) (λ k. Done self.now.installed.now self.now.new.now self.now.steps.now (length self.now.steps.now) × (k ≡ length (table_after self.now.installed.now self.now.steps.now (length self.now.steps.now)))) }
    {
        let mut count = self.installed.len() / 8;
        for (index, s) in self.steps.iter().enumerate() {
            let x = masked(s.addr, s.len);
            let left = last_left(&self.steps[..index], x, s.len);
            let stands = standing(self.installed, x, s.len, left);
            count = counted(s.put != 0, stands != NO_HOP, count)?;
            // A prefix is put that the installed table lacks and no earlier step was for.
            if s.put != 0 && left.is_none() && stands == NO_HOP && !self.is_kept(x, s.len) {
                return None;
            }
        }
        Some(count)
    }

    // Have the two tables the same routes?
    fn is_same(&self) -> bool
        ensures yes { result ≡ true → routes self.now.installed.now ≡ routes self.now.new.now }
        ensures no { result ≡ false → routes self.now.installed.now ≡ routes self.now.new.now → ⊥ }
    {
        let n = self.installed.len() / 8;
        if n != self.new.len() / 8 {
            return false;
        }
        for i in 0..n {
            if !is_same_at(self.installed, self.new, i) {
                return false;
            }
        }
        true
    }

    // Do the steps change the installed table to the new one without a detour? Without steps the two tables must be one, and no prefix is climbed for.
    pub fn is_hitless(&self) -> bool
        requires { MayFollow self.now.installed.now self.now.new.now self.now.steps.now }
        ensures yes { result ≡ true → Accepts self.now.installed.now self.now.new.now self.now.steps.now }
        ensures no { result ≡ false → Accepts self.now.installed.now self.now.new.now self.now.steps.now → ⊥ }
    {
        if self.steps.is_empty() {
            return self.is_same();
        }
        self.count_after() == Some(self.new.len() / 8) && self.are_records_kept()
    }
}
