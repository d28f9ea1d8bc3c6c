// Mode 3, node by node: the entries of a map whose hop differs from that of the nearest entry above.
#![tactic(auto)]

ghost use Rattle.std.specs.Prelude.{◌≡◌, false, not, ◌&&◌, ℕ, ◌-◌, ◌*◌, ◌≤◌, ◌<◌, eqb, ltb, get_or};
ghost use Rattle.words.specs.Bits.{bit};
ghost use Rattle.positions.specs.Runs.{no_hop, hop_of};
ghost use Rattle.positions.specs.Walk.{walk};
ghost use Rattle.positions.specs.Walks.{consistent_map_out, consistent_map_next};
ghost use Rattle.nodes.specs.Node.{wide, run, Node};
ghost use Rattle.nodes.specs.Output.{Wrote};
ghost use Rattle.gather.specs.Gathered.{over_at};

use gather::{covering_hops, gather_run, over_at, slot_key};
use nodes::emit::{emit_slot, head_slots};
use records::sized::past_sized;
use words::bits::{next_bit, with_bit};

// The positions of a node with a record whose hop is not the one that covers them from above.
fn entries_of(
    present: u32,
    first: &[u16; 63],
    end: &[u16; 63],
    hops: &[u8; 31],
    inherited: u8,
) -> u32
    requires { (b : ℕ) → b < 31 → bit present b ≡ false → get_or end.now b 0 ≤ get_or first.now b 0 }
    ensures { (b : ℕ) → b < 31 → bit result b ≡ (ltb (get_or first.now b 0) (get_or end.now b 0) && not (eqb (get_or hops.now b 0) (over_at hops.now b inherited))) }
{
    let mut entries: u32 = 0;
    let mut b = next_bit(present, 0);
    while b < 31 {
        if first[b] < end[b] && hops[b] != over_at(hops, b, inherited) {
            entries = with_bit(entries, b as u32);
        }
        b = next_bit(present, b + 1);
    }
    entries
}

// Writes the kept entries of a node and all below it, where `inherited` covers it from above, and says how many they are.
pub fn aggregate_consistent_map(
    table: &[u8],
    size: usize,
    lo: u16,
    hi: u16,
    depth: usize,
    key: u64,
    inherited: u8,
    out: &mut [u8],
) -> usize
    requires node { Node size table.now lo hi depth (key * 2) }
    requires inherited_le_no_hop { inherited ≤ no_hop }
    ensures { Wrote size (walk (consistent_map_out wide (run size table.now lo hi)) (consistent_map_next wide (run size table.now lo hi)) (wide - depth) (key * 2) (hop_of inherited)) 0 result out.old out.new }
{
    let mut first = [0u16; 63];
    let mut end = [0u16; 63];
    let g = gather_run(table, size, lo, hi, depth, key, &mut first, &mut end);
    let hops = covering_hops(table, size, g.present, &first, &end, inherited);
    let entries = entries_of(g.present, &first, &end, &hops, inherited);
    let busy = g.occupied | head_slots(entries);
    let mut n: usize = 0;
    let mut c = next_bit(busy, 0);
    while c < 32 {
        let slot = slot_key(key, depth, c);
        let here = past_sized(n, size, out.len());
        n += emit_slot(entries, &hops, c, slot, depth, size, &mut out[here..]);
        let from = first[31 + c];
        let to = end[31 + c];
        let cover = hops[15 + c / 2];
        c = next_bit(busy, c + 1);
        if from < to {
            let here = past_sized(n, size, out.len());
            n += aggregate_consistent_map(
                table,
                size,
                from,
                to,
                depth + 5,
                slot,
                cover,
                &mut out[here..],
            );
        }
    }
    n
}
