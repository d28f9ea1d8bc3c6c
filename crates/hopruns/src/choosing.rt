// The hop that a position is assigned by its run: by ranks that are lent, number h the rank of hop h; a hop without a number there has its own
// number for rank.

ghost use Rattle.std.specs.Prelude.{◌≡◌, ◌≤◌, ◌<◌, length};
ghost use Rattle.std.proofs.Math.Seq.{slice};
ghost use Rattle.theory.specs.Results;
ghost use Rattle.theory.specs.Ranks.{rank_of, lowest};
ghost use Rattle.hopruns.specs.Runs.{Run, cand_of, no_hop, hop_of};

use super::NO_HOP;

// Is the hop in the run?
fn has(work: &[u32], from: usize, to: usize, h: u32) -> bool
    requires { (from ≤ to) × (to ≤ length work.now) }
    ensures { result ≡ Rattle.theory.specs.Results.has h (slice from to work.now) }
{
    work[from..to].contains(&h)
}

// The rank of a hop.
fn rank_of(ranks: &[u16], h: u32) -> u32
    ensures { result ≡ rank_of ranks.now h }
{
    match ranks.get(h as usize) {
        Some(rank) => *rank as u32,
        None => h,
    }
}

// Of two hops the second if its rank is lower, else the first.
fn better(ranks: &[u16], h: u32, k: u32) -> u32
    ensures { result ≡ Rattle.theory.specs.Ranks.better ranks.now h k }
{
    if rank_of(ranks, k) < rank_of(ranks, h) {
        k
    } else {
        h
    }
}

// The hop of lowest rank of a run that is no hole: without ranks the first, else the best as its hops are gone through.
pub fn choose(work: &[u32], from: usize, to: usize, ranks: &[u16]) -> u32
    requires run { Run work.now from to }
    requires from_lt_to { from < to }
    ensures { result ≡ lowest ranks.now (slice from to work.now) }
{
    let mut h = work[from];
    if ranks.is_empty() {
        return h;
    }
    for i in from + 1..to {
        h = better(ranks, h, work[i]);
    }
    h
}

// What a position with this run is assigned by ranks that are lent, where `above` is assigned above it; NO_HOP for nothing.
pub fn assign(work: &[u32], from: usize, to: usize, above: u16, ranks: &[u16]) -> u16
    requires { Run work.now from to }
    ensures result_value { hop_of result ≡ Rattle.theory.specs.Results.assigned (lowest ranks.now) (cand_of (slice from to work.now)) (hop_of above) }
    ensures upper_bound { above ≤ no_hop → result ≤ no_hop }
{
    if from == to {
        return NO_HOP;
    }
    if has(work, from, to, above as u32) {
        return above;
    }
    choose(work, from, to, ranks) as u16
}
