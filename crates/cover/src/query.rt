// The cover query: does a set cover every address of a prefix?

ghost use Rattle.std.specs.Prelude.{◌≡◌, not, ◌&&◌, ℕ, ◌-◌, ◌*◌, ◌/◌, ◌^◌, ◌≤◌, ◌<◌, eqb};
ghost use Rattle.theory.specs.Routes.{held, Aligned};
ghost use Rattle.theory.specs.Results.{In, throughout};
ghost use Rattle.words.specs.Bits.{bit};
ghost use Rattle.words.specs.Positions.{position};
ghost use Rattle.positions.specs.Runs.{size_at, place_at};
ghost use Rattle.records.specs.Sized.{width_in};
ghost use Rattle.nodes.specs.Node.{wide, run, slot_size, Node};
ghost use Rattle.cover.specs.Coverage.{record_over};

use gather::{gather_run, heap_index, level_of, slot_key};
use words::bits::{has_bit, next_bit, with_bit};
use words::coverage::{fold_coverage, member_coverage};

// The slots to walk: those with a record, and below no member of the node.
pub fn open_slots(occupied: u32, under: u32) -> u32
    ensures { (c : ℕ) → c < 32 → bit result c ≡ (bit occupied c && not (bit under c)) }
{
    occupied & !under
}

// The slots below position b.
fn child_cover_mask_for_bit(b: usize) -> u32
    requires { b < 31 }
    ensures { (l j : ℕ) → l ≤ 4 → j < 2 ^ l → b ≡ position l j → (c : ℕ) → c < 32 → bit result c ≡ eqb (c / 2 ^ (5 - l)) j }
{
    member_coverage(with_bit(0, b as u32)).children_under_member
}

// Do the node's members cover position b? Only the slots below it are asked, and none below a member.
pub fn bit_covered(
    table: &[u8],
    size: usize,
    lo: u16,
    hi: u16,
    depth: usize,
    key: u64,
    b: usize,
) -> bool
    requires node { Node size table.now lo hi depth (key * 2) }
    requires b_bound { b < 31 }
    ensures { (l j : ℕ) → l ≤ 4 → j < 2 ^ l → b ≡ position l j → result ≡ throughout (held wide (run size table.now lo hi)) (size_at (slot_size depth) l) (place_at (slot_size depth) (key * 2) l j) }
{
    let mut first = [0u16; 63];
    let mut end = [0u16; 63];
    let g = gather_run(table, size, lo, hi, depth, key, &mut first, &mut end);
    if has_bit(g.present, b as u32) {
        return true;
    }
    let under = member_coverage(g.present).children_under_member;
    let walked = open_slots(g.occupied & child_cover_mask_for_bit(b), under);
    let mut covered: u32 = 0;
    let mut next = next_bit(walked, 0);
    while next < 32 {
        let c = next;
        let slot = slot_key(key, depth, c);
        if bit_covered(table, size, first[31 + c], end[31 + c], depth + 5, slot, 0) {
            covered = with_bit(covered, c as u32);
        }
        next = next_bit(walked, c + 1);
    }
    has_bit(fold_coverage(g.present, covered | under), b as u32)
}

// Does a record stand at position b or above it in the node?
fn record_over(first: &[u16; 63], end: &[u16; 63], b: usize) -> bool
    requires { b < 31 }
    ensures { (l j : ℕ) → l ≤ 4 → j < 2 ^ l → b ≡ position l j → result ≡ record_over first.now end.now l j }
{
    let mut k = b;
    while 0 < k {
        if first[k] < end[k] {
            return true;
        }
        k = (k - 1) / 2;
    }
    first[0] < end[0]
}

// Do the node's members cover every address of the prefix `query`, of length `len`, which lies in the node?
pub fn covers_in_aggregate(
    table: &[u8],
    size: usize,
    lo: u16,
    hi: u16,
    depth: usize,
    key: u64,
    query: u64,
    len: usize,
) -> bool
    requires node { Node size table.now lo hi depth (key * 2) }
    requires depth_le_len { (depth ≤ len) × (len ≤ width_in size) }
    requires aligned { Aligned (wide - len) (query * 2) }
    requires fact { In (wide - depth) (key * 2) (query * 2) }
    ensures { result ≡ throughout (held wide (run size table.now lo hi)) (wide - len) (query * 2) }
{
    let mut first = [0u16; 63];
    let mut end = [0u16; 63];
    gather_run(table, size, lo, hi, depth, key, &mut first, &mut end);
    let b = heap_index(query, level_of(len, depth), depth);
    if b < 31 {
        let over = record_over(&first, &end, b);
        if over {
            return true;
        }
        return bit_covered(table, size, lo, hi, depth, key, b);
    }
    if record_over(&first, &end, (b - 1) / 2) {
        return true;
    }
    let from = first[b];
    let to = end[b];
    if from < to {
        return covers_in_aggregate(
            table,
            size,
            from,
            to,
            depth + 5,
            slot_key(key, depth, b - 31),
            query,
            len,
        );
    }
    false
}
