// Writing the entries of a node's positions, slot by slot, in table order. Where the output has no room nothing is written, but it is counted.

ghost use Rattle.std.specs.Prelude.{◌≡◌, ℕ, ◌+◌, ◌-◌, ◌*◌, ◌/◌, ◌%◌, ◌^◌, ◌≤◌, ◌<◌, [], ◌∷◌, eqb, leb};
ghost use Rattle.records.specs.Sized.{IsSize, route};
ghost use Rattle.words.specs.Positions.{position};
ghost use Rattle.nodes.specs.Output.{Wrote, slot_head, slot_heads, HeadSlots};

use records::sized::{past_sized, put_sized};
use words::bits::{has_bit, next_bit, with_bit};

// Writes one record at the start of the output, if there is room for it: that of each wide address whose half is in hand.
pub fn put(size: usize, out: &mut [u8], addr: u64, len: usize, hop: u8)
    requires { (len < 256) × IsSize size }
    ensures { (a : ℕ) → a / 2 ≡ addr → Wrote size (route a len hop ∷ []) 0 1 out.old out.new }
{
    put_sized(out, size, addr, len as u8, hop);
}

// Writes the entry of the position of level l that begins at slot c, after `done` records, if one does and has an entry.
fn emit_level(
    entries: u32,
    hops: &[u8; 31],
    c: usize,
    l: usize,
    addr: u64,
    depth: usize,
    done: usize,
    size: usize,
    out: &mut [u8],
) -> usize
    requires c_bound { (c < 32) × ((l < 5) × ((depth ≤ 60) × IsSize size)) }
    requires done_le_l { done ≤ l }
    ensures upper_bound { result ≤ done + 1 }
    ensures by_index { (a : ℕ) → a / 2 ≡ addr → Wrote size (slot_head entries hops.now depth a c l) done result out.old out.new }
{
    let below = 5 - l;
    let j = c >> below;
    if c % (1 << below) != 0 {
        return done;
    }
    let b = (1 << l) - 1 + j;
    if !has_bit(entries, b as u32) {
        return done;
    }
    let at = past_sized(done, size, out.len());
    put(size, &mut out[at..], addr, depth + l, hops[b]);
    done + 1
}

// The first level of which a position begins at slot c; 5, where none does. Of each level after it one does, too.
fn first_level(c: usize) -> usize
    requires { c < 32 }
    ensures upper_bound { result ≤ 5 }
    ensures by_index { (l : ℕ) → l < 5 → eqb (c % 2 ^ (5 - l)) 0 ≡ leb result l }
{
    if c == 0 {
        0
    } else {
        5 - u32::trailing_zeros(c as u32) as usize
    }
}

// Writes the entries of the positions that begin at slot c, by rising length, and says how many they are.
pub fn emit_slot(
    entries: u32,
    hops: &[u8; 31],
    c: usize,
    addr: u64,
    depth: usize,
    size: usize,
    out: &mut [u8],
) -> usize
    requires { (c < 32) × ((depth ≤ 60) × IsSize size) }
    ensures { (a : ℕ) → a / 2 ≡ addr → Wrote size (slot_heads entries hops.now depth a c 5) 0 result out.old out.new }
{
    if entries == 0 {
        return 0;
    }
    let mut n: usize = 0;
    for l in first_level(c)..5 {
        n = emit_level(entries, hops, c, l, addr, depth, n, size, out);
    }
    n
}

// The slot at which position b begins.
fn slot_of(b: usize) -> usize
    requires { b < 31 }
    ensures upper_bound { result < 32 }
    ensures by_index { (l j : ℕ) → l < 5 → j < 2 ^ l → b ≡ position l j → result ≡ j * 2 ^ (5 - l) }
{
    let k = b + 1;
    (k << (u32::leading_zeros(k as u32) - 26)) - 32
}

// The slots at which a position with an entry begins.
pub fn head_slots(entries: u32) -> u32
    ensures { HeadSlots entries result }
{
    let mut marked: u32 = 0;
    let mut b = next_bit(entries, 0);
    while b < 31 {
        marked = with_bit(marked, slot_of(b) as u32);
        b = next_bit(entries, b + 1);
    }
    marked
}
