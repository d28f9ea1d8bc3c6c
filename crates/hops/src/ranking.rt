// The choice among the hops of a set by rank, and which ranks may be lent. Ranks are a list, number h the rank of hop h; a hop without a number
// there has its own number for rank.

ghost use Rattle.std.specs.Prelude.{◌≡◌, List, ◌∷◌, ℕ, ◌<◌};
ghost use Rattle.theory.specs.Ranks.{rank_of, is_ranking};
ghost use Rattle.positions.specs.Runs.{no_hop};
ghost use Rattle.hops.specs.Sets.{ShowsHops};

use super::{has, one, smallest};

// The most ranks that count as none.
const UNRANKED: usize = 0;

// The greatest rank that may be lent.
const GREATEST: u16 = 63;

// The rank of a hop.
fn rank_of(ranks: &[u16], h: u8) -> u16
    ensures { result ≡ rank_of ranks.now h }
{
    let at = h as usize;
    if at < ranks.len() {
        return ranks[at];
    }
    h as u16
}

// Of two hops the second if its rank is lower, else the first.
fn better(ranks: &[u16], h: u8, k: u8) -> u8
    ensures { result ≡ Rattle.theory.specs.Ranks.better ranks.now h k }
{
    if rank_of(ranks, k) < rank_of(ranks, h) {
        k
    } else {
        h
    }
}

// The set without its smallest hop.
fn rest_of(set: u64) -> u64
    requires { 0 < set }
    ensures { ((h : ℕ) (s : List ℕ) → ShowsHops set (h ∷ s) → ShowsHops result s) × (result < set) }
{
    set & (set - 1)
}

// The hop of lowest rank of a set: without ranks the smallest, else the best as its hops are gone through.
pub fn lowest(set: u64, ranks: &[u16]) -> u8
    requires { 0 < set }
    ensures { ((s : List ℕ) → ShowsHops set s → result ≡ Rattle.theory.specs.Ranks.lowest ranks.now s) × (result < no_hop) }
{
    if ranks.len() <= UNRANKED {
        return smallest(set);
    }
    let mut best = smallest(set);
    let mut rest = rest_of(set);
    while 0 < rest {
        best = better(ranks, best, smallest(rest));
        rest = rest_of(rest);
    }
    best
}

// Are these ranks that may be lent: none, or each of the numbers 0 to 63 once? From the last to the first, with the set of those already seen.
pub fn is_ranking(ranks: &[u16]) -> bool
    ensures { result ≡ is_ranking no_hop ranks.now }
{
    if ranks.len() != 64 {
        return ranks.len() == 0;
    }
    let mut seen: u64 = 0;
    for i in (0..64).rev() {
        let r = ranks[i];
        if GREATEST < r {
            return false;
        }
        let h = r as u8;
        if has(seen, h) {
            return false;
        }
        seen |= one(h);
    }
    true
}
