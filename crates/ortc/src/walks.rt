// The two walks: collect_sets stores the candidate sets of each node, and rewrite assigns hops to them and writes the entries.

ghost use Rattle.std.specs.Prelude.{◌≡◌, List, ℕ, ◌+◌, ◌-◌, ◌*◌, ◌/◌, ◌≤◌, ◌<◌, length};
ghost use Rattle.theory.specs.Results.{sets, ortc};
ghost use Rattle.theory.specs.Ranks.{lowest};
ghost use Rattle.records.specs.Sized.{IsSize};
ghost use Rattle.positions.specs.Runs.{no_hop, hop_of};
ghost use Rattle.hops.specs.Sets.{ShowsSet};
ghost use Rattle.nodes.specs.Node.{wide, run, Node};
ghost use Rattle.nodes.specs.Output.{Wrote};
ghost use Rattle.nodes.specs.Room.{Block, Begins, nodes_deep, nodes_below, Laid, Stored};
ghost use Rattle.assign.specs.Answers.{answer_in, set_words};

use assign::room::push_sets;
use assign::{assign_nodes, emit, fold_sets, leaf_sets, leaf_slots};
use gather::{covering_hops, gather_run, slot_key};
use hops::leaf_value;
use nodes::emit::{emit_slot, head_slots};
use records::sized::past_sized;
use words::bits::{last_bit, next_bit};

// What the first walk says of a node: its set, and where its block begins.
#[derive(Clone, Copy)]
pub struct Collected {
    pub set: u64,
    pub top: usize,
}

// The first walk: lays the sets of a node and of all below it into the room, from `top` downward. `inherited` covers the node from above, and
// `fill` is the hop of what has no route; `no_hop` for none.
pub fn collect_sets(
    table: &[u8],
    size: usize,
    lo: u16,
    hi: u16,
    depth: usize,
    key: u64,
    inherited: u8,
    fill: u8,
    work: &mut [u32],
    top: usize,
) -> Collected
    requires node { Node size table.now lo hi depth (key * 2) }
    requires inherited_le_no_hop { (inherited ≤ no_hop) × (fill ≤ no_hop) }
    requires hi_bound { (160 * nodes_below (nodes_deep depth) (key * 2) (run size table.now lo hi) ≤ top) × (top ≤ length work.old) }
    ensures shows_set { ShowsSet result.set (sets (answer_in (run size table.now lo hi) (hop_of inherited) (hop_of fill)) (wide - depth) (key * 2)) }
    ensures laid { Laid (set_words (answer_in (run size table.now lo hi) (hop_of inherited) (hop_of fill))) (nodes_deep depth) (key * 2) (run size table.now lo hi) top result.top work.old work.new }
{
    let mut first = [0u16; 63];
    let mut end = [0u16; 63];
    let g = gather_run(table, size, lo, hi, depth, key, &mut first, &mut end);
    let covering = covering_hops(table, size, g.present, &first, &end, inherited);
    let mut slots = leaf_sets(&covering, fill);
    let occupied = g.occupied;
    let mut at = top;
    // k is one past the slot to visit next, the last one before those that are done that has a record.
    let mut k = last_bit(occupied, 32);
    while 0 < k {
        let c = k - 1;
        let cover = covering[15 + c / 2];
        let child = collect_sets(
            table,
            size,
            first[31 + c],
            end[31 + c],
            depth + 5,
            slot_key(key, depth, c),
            cover,
            fill,
            work,
            at,
        );
        slots[31 + c] = child.set;
        at = child.top;
        k = last_bit(occupied, c);
    }
    fold_sets(&mut slots);
    let last = push_sets(&slots, work, at);
    Collected {
        set: slots[0],
        top: last,
    }
}

// What the second walk has done: how many records it counted, and where its reading of the room ends.
#[derive(Clone, Copy)]
pub struct Walked {
    pub count: usize,
    pub top: usize,
}

// The second walk: assigns hops by ranks that are lent, and writes the entries of a node and of all below it, where `above` is assigned above
// the node. It goes through the slots that have a record, at which an entry begins or that have one of their own.
#[cycle(rewrite_rewrite_child)]
pub fn rewrite(
    table: &[u8],
    size: usize,
    lo: u16,
    hi: u16,
    depth: usize,
    key: u64,
    inherited: u8,
    fill: u8,
    above: u8,
    ranks: &[u16],
    work: &[u32],
    top: usize,
    out: &mut [u8],
) -> Walked
    requires node { Node size table.now lo hi depth (key * 2) }
    requires inherited_le_no_hop { (inherited ≤ no_hop) × ((fill ≤ no_hop) × (above ≤ no_hop)) }
    requires stored { Stored (set_words (answer_in (run size table.now lo hi) (hop_of inherited) (hop_of fill))) (nodes_deep depth) (key * 2) (run size table.now lo hi) top work.now }
    ensures by_index { (ws : List ℕ) → Block (set_words (answer_in (run size table.now lo hi) (hop_of inherited) (hop_of fill))) (nodes_deep depth) (key * 2) (run size table.now lo hi) ws → Begins ws top work.now → result.top ≡ top + length ws }
    ensures wrote { Wrote size (ortc (lowest ranks.now) wide (answer_in (run size table.now lo hi) (hop_of inherited) (hop_of fill)) (wide - depth) (key * 2) (hop_of above)) 0 result.count out.old out.new }
{
    let mut first = [0u16; 63];
    let mut end = [0u16; 63];
    let g = gather_run(table, size, lo, hi, depth, key, &mut first, &mut end);
    let covering = covering_hops(table, size, g.present, &first, &end, inherited);
    let node = assign_nodes(work, top, above, ranks);
    let hops = node.hops;
    let entries = node.entries;
    let busy = g.occupied | head_slots(entries) | leaf_slots(&covering, &hops, fill);
    let mut at = node.top;
    let mut n: usize = 0;
    let mut c = next_bit(busy, 0);
    while c < 32 {
        let slot = slot_key(key, depth, c);
        let here = past_sized(n, size, out.len());
        n += emit_slot(entries, &hops, c, slot, depth, size, &mut out[here..]);
        let here = past_sized(n, size, out.len());
        let child = rewrite_child(
            table,
            size,
            first[31 + c],
            end[31 + c],
            depth + 5,
            slot,
            covering[15 + c / 2],
            fill,
            hops[15 + c / 2],
            ranks,
            work,
            at,
            &mut out[here..],
        );
        n += child.count;
        at = child.top;
        c = next_bit(busy, c + 1);
    }
    Walked { count: n, top: at }
}

// A slot of the second walk: its node, where it has records, or else a region where all addresses have one answer. It stands at a wide address
// whose half is `key`: at twice that, where it has records.
#[cycle(rewrite_rewrite_child)]
fn rewrite_child(
    table: &[u8],
    size: usize,
    lo: u16,
    hi: u16,
    depth: usize,
    key: u64,
    covering: u8,
    fill: u8,
    above: u8,
    ranks: &[u16],
    work: &[u32],
    top: usize,
    out: &mut [u8],
) -> Walked
    requires node { lo < hi → Node size table.now lo hi depth (key * 2) }
    requires depth_le_wide { depth ≤ wide }
    requires covering_le_no_hop { (covering ≤ no_hop) × ((fill ≤ no_hop) × (above ≤ no_hop)) }
    requires stored { lo < hi → Stored (set_words (answer_in (run size table.now lo hi) (hop_of covering) (hop_of fill))) (nodes_deep depth) (key * 2) (run size table.now lo hi) top work.now }
    requires size { IsSize size }
    ensures top_value { hi ≤ lo → result.top ≡ top }
    ensures top_value_2 { lo < hi → (ws : List ℕ) → Block (set_words (answer_in (run size table.now lo hi) (hop_of covering) (hop_of fill))) (nodes_deep depth) (key * 2) (run size table.now lo hi) ws → Begins ws top work.now → result.top ≡ top + length ws }
    ensures by_index { (a : ℕ) → a / 2 ≡ key → (lo < hi → a ≡ key * 2) → Wrote size (ortc (lowest ranks.now) wide (answer_in (run size table.now lo hi) (hop_of covering) (hop_of fill)) (wide - depth) a (hop_of above)) 0 result.count out.old out.new }
{
    if lo < hi {
        return rewrite(
            table, size, lo, hi, depth, key, covering, fill, above, ranks, work, top, out,
        );
    }
    let count = emit(size, out, key, depth, leaf_value(covering, fill), above);
    Walked { count, top }
}
