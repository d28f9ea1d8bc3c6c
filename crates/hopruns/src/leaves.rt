// The slots of a node that have no record. All addresses of such a slot have one answer, the same in the two slots under one position: so a word for each
// pair of slots has the hop, and is the run of those of the pair that have no record.

ghost use Rattle.std.specs.Prelude.{◌≡◌, ◌+◌, ◌^◌, ◌≤◌, ◌<◌, length};
ghost use Rattle.nodes.specs.Room.{Pushed};
ghost use Rattle.hopruns.specs.Leaves.{leaf_hop, leaf_words, Pointed};

use super::NO_HOP;
use words::bits::has_bit;

// The hop of a region where all addresses have one answer: the hop that covers it, or the one that fills what has none.
pub fn leaf_value(covering: u16, fill: u16) -> u16
    ensures { result ≡ leaf_hop covering fill }
{
    if covering < NO_HOP { covering } else { fill }
}

// Lays the 16 words below `top`, and says where they begin.
pub fn lay_leaves(covering: &[u16; 31], fill: u16, work: &mut [u32], top: usize) -> usize
    requires { (16 ≤ top) × (top ≤ length work.old) }
    ensures { Pushed (leaf_words covering.now fill 16) top result work.old work.new }
{
    let at = top - 16;
    for p in (0..16).rev() {
        work[at + p] = leaf_value(covering[15 + p], fill) as u32;
    }
    at
}

// Points the slots without a record to their words, which begin at `at`: the starts and ends of their runs are set, and those of the others stay.
pub fn point_leaves(
    covering: &[u16; 31],
    fill: u16,
    occupied: u32,
    from: &mut [usize; 63],
    to: &mut [usize; 63],
    at: usize,
)
    requires from_len { (length from.old ≡ 63) × (length to.old ≡ 63) }
    requires at_bound { at + 16 < 2 ^ 64 }
    ensures { Pointed covering.now fill occupied at 32 from.old to.old from.new to.new }
{
    for c in 0..32 {
        if !has_bit(occupied, c as u32) {
            let hop = leaf_value(covering[15 + c / 2], fill);
            let start = at + c / 2;
            from[31 + c] = start;
            to[31 + c] = start + usize::from(hop < NO_HOP);
        }
    }
}
