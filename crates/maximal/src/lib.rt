// Mode 1: the maximal prefixes that a set's members cover.
#![tactic(auto)]

ghost use Rattle.std.specs.Prelude.{◌≡◌, List, ℕ, ◌+◌, ◌-◌, ◌*◌, ◌≤◌, ◌<◌, length};
ghost use Rattle.theory.specs.Routes.{held};
ghost use Rattle.positions.specs.Walk.{walk};
ghost use Rattle.positions.specs.Walks.{maximal_out, maximal_next};
ghost use Rattle.nodes.specs.Node.{wide, run, slot_size, Node};
ghost use Rattle.nodes.specs.Output.{Wrote};
ghost use Rattle.nodes.specs.Room.{BlockBy, Begins, nodes_deep, nodes_below, LaidBy, StoredBy};
ghost use Rattle.maximal.specs.Maximal.{IsCoverage, coverage_word, uncovered, Entries};

use cover::query::open_slots;
use gather::{gather_run, slot_key};
use nodes::emit::{emit_slot, head_slots};
use records::sized::past_sized;
use words::bits::{has_bit, last_bit, next_bit, with_bit};
use words::coverage::{fold_coverage, keep_of, member_coverage, parent_coverage};
use words::ladder::push_l4;

// What the first walk of mode 1 says of a node: the positions that its members cover, and where its block begins.
#[derive(Clone, Copy)]
pub struct Covered {
    pub coverage: u32,
    pub top: usize,
}

// The first walk of mode 1: lays the coverage of a node and of those below it, down to a member, into the room, from `top` downward.
pub fn collect_coverage(
    table: &[u8],
    size: usize,
    lo: u16,
    hi: u16,
    depth: usize,
    key: u64,
    work: &mut [u32],
    top: usize,
) -> Covered
    requires node { Node size table.now lo hi depth (key * 2) }
    requires hi_bound { (160 * nodes_below (nodes_deep depth) (key * 2) (run size table.now lo hi) ≤ top) × (top ≤ length work.old) }
    ensures coverage { IsCoverage (slot_size depth) (key * 2) (run size table.now lo hi) result.coverage }
    ensures laid_by { LaidBy uncovered coverage_word (nodes_deep depth) (key * 2) (run size table.now lo hi) top result.top work.old work.new }
{
    let mut first = [0u16; 63];
    let mut end = [0u16; 63];
    let g = gather_run(table, size, lo, hi, depth, key, &mut first, &mut end);
    let under = member_coverage(g.present).children_under_member;
    let walked = open_slots(g.occupied, under);
    let mut covered: u32 = 0;
    let mut at = top;
    let mut k = last_bit(walked, 32);
    while 0 < k {
        let c = k - 1;
        let child = collect_coverage(
            table,
            size,
            first[31 + c],
            end[31 + c],
            depth + 5,
            slot_key(key, depth, c),
            work,
            at,
        );
        at = child.top;
        if has_bit(child.coverage, 0) {
            covered = with_bit(covered, c as u32);
        }
        k = last_bit(walked, c);
    }
    let coverage = fold_coverage(g.present, covered | under);
    work[at - 1] = coverage;
    Covered {
        coverage,
        top: at - 1,
    }
}

// What the second walk has done: how many records it counted, and where its reading of the room ends.
#[derive(Clone, Copy)]
pub struct Walked {
    pub count: usize,
    pub top: usize,
}

// The entries of a node: the positions that are covered and below no covered position; none if one above the node is covered.
fn entries_of(above: bool, coverage: u32) -> u32
    ensures { Entries above coverage result }
{
    if above {
        0
    } else {
        keep_of(coverage, parent_coverage(coverage), 0)
    }
}

// The second walk of mode 1: writes the maximal covered prefixes of a node and of all below it, none if `above` says that a position above
// the node is covered.
pub fn aggregate_set(
    table: &[u8],
    size: usize,
    lo: u16,
    hi: u16,
    depth: usize,
    key: u64,
    above: bool,
    work: &[u32],
    top: usize,
    out: &mut [u8],
) -> Walked
    requires node { Node size table.now lo hi depth (key * 2) }
    requires stored_by { StoredBy uncovered coverage_word (nodes_deep depth) (key * 2) (run size table.now lo hi) top work.now }
    ensures by_index { (ws : List ℕ) → BlockBy uncovered coverage_word (nodes_deep depth) (key * 2) (run size table.now lo hi) ws → Begins ws top work.now → result.top ≡ top + length ws }
    ensures wrote { Wrote size (walk (maximal_out wide (held wide (run size table.now lo hi))) (maximal_next (held wide (run size table.now lo hi))) (wide - depth) (key * 2) above) 0 result.count out.old out.new }
{
    let mut first = [0u16; 63];
    let mut end = [0u16; 63];
    let g = gather_run(table, size, lo, hi, depth, key, &mut first, &mut end);
    let hops = [0u8; 31];
    let walked = open_slots(g.occupied, member_coverage(g.present).children_under_member);
    let coverage = work[top];
    let entries = entries_of(above, coverage);
    let pushed = push_l4(coverage);
    let busy = walked | head_slots(entries);
    let mut at = top + 1;
    let mut n: usize = 0;
    let mut next = next_bit(busy, 0);
    while next < 32 {
        let c = next;
        let slot = slot_key(key, depth, c);
        let here = past_sized(n, size, out.len());
        n += emit_slot(entries, &hops, c, slot, depth, size, &mut out[here..]);
        next = next_bit(busy, c + 1);
        if has_bit(walked, c as u32) {
            let here = past_sized(n, size, out.len());
            let child = aggregate_set(
                table,
                size,
                first[31 + c],
                end[31 + c],
                depth + 5,
                slot,
                above || has_bit(pushed, c as u32),
                work,
                at,
                &mut out[here..],
            );
            n += child.count;
            at = child.top;
        }
    }
    Walked { count: n, top: at }
}
