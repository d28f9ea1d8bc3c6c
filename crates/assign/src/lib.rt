// The parts of the two walks of modes 4 and 5 inside one node: the room that its candidate sets are kept in, the sets of its positions from
// those of its slots, what these are assigned by the words of the room, and which of them have an entry.
// A hop is a u8, NO_HOP for none. A candidate set is a u64, 0 for a hole (crate hops).
#![tactic(auto)]

pub mod room;

ghost use Rattle.std.specs.Prelude.{◌≡◌, true, ◌&&◌, ◌||◌, List, ℕ, ◌+◌, ◌/◌, ◌%◌, ◌^◌, ◌≤◌, ◌<◌, eqb, length, get_or};
ghost use Rattle.theory.specs.Routes.{Answer};
ghost use Rattle.theory.specs.Results.{leaf, sets};
ghost use Rattle.theory.specs.Ranks.{lowest};
ghost use Rattle.records.specs.Sized.{IsSize};
ghost use Rattle.words.specs.Bits.{bit};
ghost use Rattle.words.specs.Positions.{position};
ghost use Rattle.positions.specs.Runs.{no_hop, hop_of, or_else, place_at};
ghost use Rattle.hops.specs.Sets.{ShowsSet};
ghost use Rattle.nodes.specs.Output.{Wrote};
ghost use Rattle.nodes.specs.Room.{Begins};
ghost use Rattle.gather.specs.Gathered.{over_at};
ghost use Rattle.assign.specs.Packed.{packed};
ghost use Rattle.assign.specs.Answers.{ShowsNode, assigned_at, is_entry, entry_over, Stepped, LeafSlots};

use gather::over_at;
use hops::{NO_HOP, assign, combine, leaf_set, leaf_value};
use nodes::emit::put;
use room::NodeReader;
use words::bits::with_bit;
use words::ladder::push_l4;

// The sets of a node's slots if none of them has a record: by pairs, since two slots stand under one position. The other places are 0.
pub fn leaf_sets(covering: &[u8; 31], fill: u8) -> [u64; 63]
    ensures result_len { length result ≡ 63 }
    ensures by_index { (c : ℕ) → c < 32 → ShowsSet (get_or result (31 + c) 0) (leaf (or_else (hop_of (get_or covering.now (15 + c / 2) 0)) (hop_of fill))) }
{
    let mut slots = [0u64; 63];
    for p in 0..16 {
        let s = leaf_set(covering[15 + p], fill);
        slots[31 + 2 * p] = s;
        slots[32 + 2 * p] = s;
    }
    slots
}

// Combines the sets of a node's slots upward into those of its positions.
pub fn fold_sets(slots: &mut [u64; 63])
    ensures slots_len_unchanged { length slots.new ≡ length slots.old }
    ensures by_index { (f : ℕ → Answer) (m a : ℕ) → length slots.old ≡ 63 → ((c : ℕ) → c < 32 → ShowsSet (get_or slots.old (31 + c) 0) (sets f m (place_at m a 5 c))) → ShowsNode f m a slots.new }
{
    for b in (0..31).rev() {
        slots[b] = combine(slots[2 * b + 1], slots[2 * b + 2]);
    }
}

// The entries, with position b's if it is assigned a hop other than the one above.
pub fn with_entry(entries: u32, b: u32, hop: u8, over: u8) -> u32
    requires { b < 31 }
    ensures { (i : ℕ) → i < 32 → bit result i ≡ ((eqb i b && is_entry hop over) || bit entries i) }
{
    if hop != over && hop < NO_HOP {
        with_bit(entries, b)
    } else {
        entries
    }
}

// What a position is assigned, the entries with it, and the reader past it.
#[derive(Clone, Copy)]
pub struct Step {
    pub hop: u8,
    pub entries: u32,
    pub reader: NodeReader,
}

// The next position, b: assigned by its set, or, where none is stored, the hop above it, and then it has no entry.
pub fn step_at(
    work: &[u32],
    reader: NodeReader,
    over: u8,
    entries: u32,
    b: u32,
    ranks: &[u16],
) -> Step
    requires top_in_bounds { eqb (reader.mask % 2) 1 ≡ true → reader.top + 2 ≤ length work.now }
    requires b_bound { b < 31 }
    ensures stepped { Stepped (lowest ranks.now) work.now reader.mask reader.top over result.hop result.reader.mask result.reader.top }
    ensures by_index { (i : ℕ) → i < 32 → bit result.entries i ≡ ((eqb i b && is_entry result.hop over) || bit entries i) }
{
    if reader.stored() {
        let p = reader.pop(work);
        let hop = assign(p.set, over, ranks);
        return Step {
            hop,
            entries: with_entry(entries, b, hop, over),
            reader: p.reader,
        };
    }
    Step {
        hop: over,
        entries,
        reader: reader.skip(),
    }
}

// What a node's positions are assigned, NO_HOP for nothing; which of them have an entry; and where its own words end.
#[derive(Clone, Copy)]
pub struct Assigned {
    pub hops: [u8; 31],
    pub entries: u32,
    pub top: usize,
}

// Assigns hops to a node's positions by ranks that are lent, from the first to the last, reading its own words from `top` on; `above` is
// assigned above the node.
pub fn assign_nodes(work: &[u32], top: usize, above: u8, ranks: &[u16]) -> Assigned
    requires by_index { (xs : List ℕ) × Begins (packed xs) top work.now }
    requires above_le_no_hop { above ≤ no_hop }
    ensures by_index_2 { (xs : List ℕ) → Begins (packed xs) top work.now → result.top ≡ top + length (packed xs) }
    ensures by_index_3 { (f : ℕ → Answer) (m a : ℕ) (xs : List ℕ) → ShowsNode f m a xs → Begins (packed xs) top work.now → (l j : ℕ) → l ≤ 4 → j < 2 ^ l → (get_or result.hops (position l j) 0 ≤ no_hop) × (hop_of (get_or result.hops (position l j) 0) ≡ assigned_at (lowest ranks.now) f m a (hop_of above) l j) }
    ensures by_index_4 { (b : ℕ) → b < 31 → bit result.entries b ≡ is_entry (get_or result.hops b 0) (over_at result.hops b above) }
{
    let first = step_at(work, NodeReader::new(work, top), above, 0, 0, ranks);
    let mut hops = [first.hop; 31];
    let mut entries = first.entries;
    let mut reader = first.reader;
    // With no other position stored, each is assigned what the first is.
    if reader.mask == 0 {
        return Assigned {
            hops,
            entries,
            top: reader.top,
        };
    }
    for b in 1..31 {
        let over = over_at(&hops, b, above);
        let s = step_at(work, reader, over, entries, b as u32, ranks);
        hops[b] = s.hop;
        entries = s.entries;
        reader = s.reader;
    }
    Assigned {
        hops,
        entries,
        top: reader.top,
    }
}

// Is what answers a slot with no record in it, wherever it stands, the hop assigned above it? All are asked: to leave at the first that differs, as
// `all` does, made the second walk's instructions up to 9 % more (x86-64).
fn leaves_same(covering: &[u8; 31], hops: &[u8; 31], fill: u8) -> bool
    ensures { result ≡ true → LeafSlots covering.now hops.now fill 0 }
{
    let mut same = true;
    for p in 15..31 {
        same &= leaf_value(covering[p], fill) == hops[p];
    }
    same
}

// The slots that, with no record in them, have an entry: what answers there is a hop, and not the one assigned above. By pairs, since two slots
// stand under one position.
pub fn leaf_slots(covering: &[u8; 31], hops: &[u8; 31], fill: u8) -> u32
    ensures { LeafSlots covering.now hops.now fill result }
{
    if leaves_same(covering, hops, fill) {
        return 0;
    }
    let mut other: u32 = 0;
    for p in 15..31 {
        let v = leaf_value(covering[p], fill);
        other = with_entry(other, p as u32, v, hops[p]);
    }
    push_l4(other)
}

// Writes one record, if it is by a hop and not by the one above, and says how many it wrote: that of each wide address whose half is in hand.
pub fn emit(size: usize, out: &mut [u8], addr: u64, len: usize, hop: u8, above: u8) -> usize
    requires { (len < 256) × IsSize size }
    ensures { (a : ℕ) → a / 2 ≡ addr → Wrote size (entry_over a len hop above) 0 result out.old out.new }
{
    if hop != above && hop < NO_HOP {
        put(size, out, addr, len, hop);
        1
    } else {
        0
    }
}
