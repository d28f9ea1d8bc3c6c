// One pass over a node's run: which records stand at each of its positions, and which lie in each of its slots; and by these the hop that covers
// each position.
#![tactic(auto)]

ghost use Rattle.std.specs.Prelude.{◌≡◌, ℕ, ◌+◌, ◌-◌, ◌*◌, ◌/◌, ◌^◌, ◌≤◌, ◌<◌, true, false, length, get_or};
ghost use Rattle.theory.specs.Results.{In};
ghost use Rattle.records.specs.Sized.{IsSize, records_in};
ghost use Rattle.words.specs.Bits.{bit};
ghost use Rattle.words.specs.Positions.{position};
ghost use Rattle.positions.specs.Runs.{size_at, place_at};
ghost use Rattle.nodes.specs.Node.{wide, slot_size, wide_at, At, Node};
ghost use Rattle.gather.specs.Gathered.{level_of, Gathered, Occupied, value_of, over_at, covering_at};

use records::addr_at;
use records::sized::{hop_of, key_at, length_at, oct_at};
use words::bits::with_bit;
use words::key::masked_key;

// No position has a record: the word without a bit.
const NONE: u32 = 0;

// The address of record i, its first bit on top: half of its wide address.
pub fn half_at(table: &[u8], size: usize, i: usize) -> u64
    requires { IsSize size × (i < records_in size table.now) }
    ensures { result * 2 ≡ (wide_at size table.now i).addr }
{
    key_at(table, size, i)
}

// The length of record i.
pub fn bits_at(table: &[u8], size: usize, i: usize) -> usize
    requires { IsSize size × (i < records_in size table.now) }
    ensures { (result ≡ (wide_at size table.now i).len) × (result < 256) }
{
    length_at(table, size, i) as usize
}

// The level of a length in a node at this depth: 0 to 4 for its positions, 5 for its slots.
pub fn level_of(len: usize, depth: usize) -> usize
    requires { (depth ≤ 60) × (depth ≤ len) }
    ensures { (result ≡ level_of len depth) × (result ≤ 5) }
{
    if len < depth + 5 { len - depth } else { 5 }
}

// The place of the address at a level, in the heap of the node at this depth in which it lies. A bit set before the address's own makes the
// number of the place out of its first bits.
pub fn heap_index(addr: u64, level: usize, depth: usize) -> usize
    requires { (depth ≤ 60) × (level ≤ 5) }
    ensures by_index { (key : ℕ) → At depth key → In (wide - depth) key (addr * 2) → result ≡ position level ((addr * 2 - key) / 2 ^ size_at (slot_size depth) level) }
    ensures upper_bound { result < 63 }
{
    (((9223372036854775808 + ((addr << depth) >> 1)) >> (63 - level)) - 1) as usize
}

// The address of record i where a record has 16 bytes: half of its wide address, had without asking the size.
fn long_half_at(table: &[u8], i: usize) -> u64
    requires { i < records_in 16 table.now }
    ensures { result * 2 ≡ (wide_at 16 table.now i).addr }
{
    masked_key(oct_at(table, 16 * i), length_at(table, 16, i))
}

// The first of the numbers i..hi that passes; hi where none does. Written out, as with the library's `find` a node's pass takes some 3 % more
// instructions (x86-64).
fn first_where<F: Fn(usize) -> bool>(i: usize, hi: usize, passes: F) -> usize
    requires callable { (k : ℕ) → i ≤ k → k < hi → F.pre passes k }
    requires i_le_hi { i ≤ hi }
    ensures bounds { (i ≤ result) × (result ≤ hi) }
    ensures before { (k : ℕ) → i ≤ k → k < result → F.post passes k false }
    ensures found { result < hi → F.post passes result true }
{
    for k in i..hi {
        if passes(k) {
            return k;
        }
    }
    hi
}

// The first of the records i..hi that stands after the address `last`; hi where none does. The size is asked once, before the records are read, and
// addresses of 32 bits are compared as the table has them, which is quicker than moving each up.
pub fn first_past(table: &[u8], size: usize, i: usize, hi: usize, last: u64) -> usize
    requires { IsSize size × ((i ≤ hi) × (hi ≤ records_in size table.now)) }
    ensures lower_bound { (i ≤ result) × (result ≤ hi) }
    ensures by_index { (k : ℕ) → i ≤ k → k < result → (wide_at size table.now k).addr ≤ last * 2 }
    ensures last_bound { result < hi → last * 2 < (wide_at size table.now result).addr }
{
    if size == 8 {
        let limit = (last >> 32) as u32;
        first_where(i, hi, |at| limit < addr_at(table, at))
    } else {
        first_where(i, hi, |at| last < long_half_at(table, at))
    }
}

// Where the records of place b end, record i being its first: a slot has all that stand before its end, a position that one.
pub fn place_end(
    table: &[u8],
    size: usize,
    i: usize,
    hi: usize,
    b: usize,
    depth: usize,
    key: u64,
) -> usize
    requires i_lt_hi { (i < hi) × ((hi ≤ records_in size table.now) × IsSize size) }
    requires b_bound { (b < 63) × At depth (key * 2) }
    ensures lower_bound { (i < result) × (result ≤ hi) }
    ensures by_index { (k : ℕ) → i < k → k < result → (31 ≤ b) × ((wide_at size table.now k).addr < place_at (slot_size depth) (key * 2) 5 (b - 31) + 2 ^ slot_size depth) }
    ensures depth_bound { result < hi → 31 ≤ b → place_at (slot_size depth) (key * 2) 5 (b - 31) + 2 ^ slot_size depth ≤ (wide_at size table.now result).addr }
{
    if b < 31 {
        i + 1
    } else {
        first_past(table, size, i + 1, hi, slot_last(key, depth, b - 31))
    }
}

// What one pass finds: the positions with a record, and the slots with one, as the bits of two words.
#[derive(Clone, Copy)]
pub struct Gathering {
    pub present: u32,
    pub occupied: u32,
}

// Gathers a node's run: for each place of its heap the records first[b]..end[b]; the positions that have one, and the slots that have one.
// The records of a slot follow each other, so the place is found once for all of them. The first record of a place stays its first.
pub fn gather_run(
    table: &[u8],
    size: usize,
    lo: u16,
    hi: u16,
    depth: usize,
    key: u64,
    first: &mut [u16; 63],
    end: &mut [u16; 63],
) -> Gathering
    requires node { Node size table.now lo hi depth (key * 2) }
    requires first_len { (length first.old ≡ 63) × (length end.old ≡ 63) }
    requires by_index { (b : ℕ) → b < 63 → (get_or first.old b 0 ≡ 0) × (get_or end.old b 0 ≡ 0) }
    ensures gathered { Gathered size table.now lo hi depth (key * 2) first.new end.new result.present }
    ensures occupied { Occupied size table.now lo hi depth (key * 2) result.occupied }
{
    let mut present: u32 = 0;
    let mut occupied: u32 = 0;
    let upto = hi as usize;
    let mut i = lo as usize;
    while i < upto {
        let level = level_of(bits_at(table, size, i), depth);
        let b = heap_index(half_at(table, size, i), level, depth);
        let stop = place_end(table, size, i, upto, b, depth, key);
        if b < 31 {
            present = with_bit(present, b as u32);
        } else {
            occupied = with_bit(occupied, (b - 31) as u32);
        }
        if first[b] >= end[b] {
            first[b] = i as u16;
        }
        end[b] = stop as u16;
        i = stop;
    }
    Gathering { present, occupied }
}

// The hop that covers position b from above.
pub fn over_at(hops: &[u8; 31], b: usize, above: u8) -> u8
    requires { b < 31 }
    ensures { result ≡ over_at hops.now b above }
{
    if b == 0 { above } else { hops[(b - 1) / 2] }
}

// The hop of the first of the records first..end, or the one above where there is none.
pub fn value_at(table: &[u8], size: usize, first: u16, end: u16, over: u8) -> u8
    requires { (end ≤ records_in size table.now) × IsSize size }
    ensures { result ≡ value_of size table.now first end over }
{
    if first < end {
        hop_of(table, size, first as usize)
    } else {
        over
    }
}

// The hop that covers each position of a node, its own record included; `no_hop` for none.
pub fn covering_values(
    table: &[u8],
    size: usize,
    first: &[u16; 63],
    end: &[u16; 63],
    inherited: u8,
) -> [u8; 31]
    requires by_index { (b : ℕ) → b < 63 → get_or end.now b 0 ≤ records_in size table.now }
    requires size { IsSize size }
    ensures { (l j : ℕ) → l ≤ 4 → j < 2 ^ l → get_or result (position l j) 0 ≡ covering_at size table.now first.now end.now inherited l j }
{
    let mut hops = [inherited; 31];
    for b in 0..31 {
        hops[b] = value_at(table, size, first[b], end[b], over_at(&hops, b, inherited));
    }
    hops
}

// The hop that covers each position of a node, its own record included; `no_hop` for none. Where no position has a record it is the inherited one.
pub fn covering_hops(
    table: &[u8],
    size: usize,
    present: u32,
    first: &[u16; 63],
    end: &[u16; 63],
    inherited: u8,
) -> [u8; 31]
    requires by_index { (b : ℕ) → b < 63 → get_or end.now b 0 ≤ records_in size table.now }
    requires by_index_2 { (b : ℕ) → b < 31 → bit present b ≡ false → get_or end.now b 0 ≤ get_or first.now b 0 }
    requires size { IsSize size }
    ensures { (l j : ℕ) → l ≤ 4 → j < 2 ^ l → get_or result (position l j) 0 ≡ covering_at size table.now first.now end.now inherited l j }
{
    if present == NONE {
        return [inherited; 31];
    }
    covering_values(table, size, first, end, inherited)
}

// The address of slot c: half of its wide address. At depth 60 two slots have one.
pub fn slot_key(key: u64, depth: usize, c: usize) -> u64
    requires { (c < 32) × At depth (key * 2) }
    ensures value { result ≡ place_at (slot_size depth) (key * 2) 5 c / 2 }
    ensures result_value { depth < 60 → result * 2 ≡ place_at (slot_size depth) (key * 2) 5 c }
{
    key + (((c as u64) << 59) >> depth)
}

// The last address of slot c: half of its last wide address.
fn slot_last(key: u64, depth: usize, c: usize) -> u64
    requires { (c < 32) × At depth (key * 2) }
    ensures { result ≡ (place_at (slot_size depth) (key * 2) 5 c + 2 ^ slot_size depth - 1) / 2 }
{
    slot_key(key, depth, c) + (576460752303423487u64 >> depth)
}
