// Hops, and candidate sets of them as 64-bit words: hop h is bit h; the word 0 is a hole.
#![tactic(auto)]

pub mod ranking;

ghost use Rattle.std.specs.Prelude.{◌≡◌, List, ℕ, ◌≤◌, ◌<◌};
ghost use Rattle.theory.specs.Results.{Cand, leaf};
ghost use Rattle.theory.specs.Ranks;
ghost use Rattle.positions.specs.Runs.{no_hop, hop_of, or_else};
ghost use Rattle.hops.specs.Sets.{ShowsHops, ShowsSet};

use ranking::lowest;

// No hop: the number above all hops, `no_hop` in contracts.
pub const NO_HOP: u8 = 64;

// The set of one hop.
pub fn one(h: u8) -> u64
    requires { h < no_hop }
    ensures { ShowsSet result (leaf (hop_of h)) }
{
    1 << h
}

// The candidates of a region where every address is answered by this hop, or by none.
pub fn alone(h: u8) -> u64
    ensures { ShowsSet result (leaf (hop_of h)) }
{
    if h < NO_HOP { one(h) } else { 0 }
}

// The candidates of a position from those of its halves: a hole with anything is a hole; else the intersection, or the union if it is empty.
pub fn combine(left: u64, right: u64) -> u64
    ensures { (S R : Cand) → ShowsSet left S → ShowsSet right R → ShowsSet result (Rattle.theory.specs.Results.combine S R) }
{
    if left == right {
        return left;
    }
    if left == 0 {
        return 0;
    }
    if right == 0 {
        return 0;
    }
    let both = left & right;
    if both == 0 { left | right } else { both }
}

// The hop of a region where all addresses have one answer: the hop that covers it, or the one that fills what has none.
pub fn leaf_value(covering: u8, fill: u8) -> u8
    ensures result_value { hop_of result ≡ or_else (hop_of covering) (hop_of fill) }
    ensures upper_bound { covering ≤ no_hop → fill ≤ no_hop → result ≤ no_hop }
{
    if covering < NO_HOP { covering } else { fill }
}

// Its candidates.
pub fn leaf_set(covering: u8, fill: u8) -> u64
    ensures { ShowsSet result (leaf (or_else (hop_of covering) (hop_of fill))) }
{
    alone(leaf_value(covering, fill))
}

// Is the hop in the set? None is in no set.
pub fn has(set: u64, h: u8) -> bool
    ensures { (s : List ℕ) → ShowsHops set s → result ≡ Rattle.theory.specs.Results.allowed (hop_of h) s }
{
    h < NO_HOP && (set >> h) % 2 == 1
}

// The smallest hop of a set.
pub fn smallest(set: u64) -> u8
    requires { 0 < set }
    ensures { ((s : List ℕ) → ShowsHops set s → result ≡ Rattle.theory.specs.Results.smallest s) × (result < no_hop) }
{
    (u64::trailing_zeros(set) % 64) as u8
}

// What a position with this set is assigned by ranks that are lent, where `above` is assigned above it; NO_HOP for nothing.
pub fn assign(set: u64, above: u8, ranks: &[u16]) -> u8
    ensures result_value { (S : Cand) → ShowsSet set S → hop_of result ≡ Rattle.theory.specs.Results.assigned (Rattle.theory.specs.Ranks.lowest ranks.now) S (hop_of above) }
    ensures upper_bound { above ≤ no_hop → result ≤ no_hop }
{
    if set == 0 {
        return NO_HOP;
    }
    if has(set, above) {
        above
    } else {
        lowest(set, ranks)
    }
}
