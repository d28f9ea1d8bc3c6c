// Lists what has no route: the widest prefixes none of whose addresses a map's table has a route for.
//
// A plain recursion over the bits of an address: a position in which no record lies is a hole, one with a record of its own has a route throughout, and
// any other is looked at half by half. An address is held as a key, its first bit on top, so that one walk serves both sizes of a record.
#![tactic(auto)]

ghost use Rattle.std.specs.Prelude.{◌≡◌, ◌*◌, ◌≤◌, leb, length};
ghost use Rattle.records.specs.Sized.{bytes_in, laid};
ghost use Rattle.holes.specs.Holes.{holes_at};
ghost use Rattle.holes.specs.Kinds.{Position, KindOf};
ghost use Rattle.holes.specs.Listing.{Lists};

use records::sized::write_sized;
use records::{Form, size_of};
use refusals::{Cause, Refusal};
use runs::{past_own, right_half, split};
use table::check_sized;

// What a position is to whoever lists its holes.
#[derive(Clone, Copy)]
enum Kind {
    // No record lies in it: it is a hole.
    Hole,
    // It has a record of its own: every address of it has a route.
    Routed,
    // Its holes are those of its halves. The right half begins at the key `right`, and its run at record `mid`.
    Parted { right: u64, mid: usize },
}

// Which of these the position of this length at `key` is, whose run is lo..hi.
fn kind_of(table: &[u8], size: usize, lo: usize, hi: usize, key: u64, len: u8) -> Kind
    requires { Position size table.now lo hi len key }
    ensures { KindOf size table.now lo hi len key result }
{
    if lo == hi {
        return Kind::Hole;
    }
    if past_own(table, size, lo, hi, len) != lo {
        return Kind::Routed;
    }
    let right = right_half(key, len);
    let mid = split(table, size, lo, hi, right);
    Kind::Parted { right, mid }
}

// Writes the holes of the position of this length at `key`, whose run is lo..hi, from the output's start, and says how many they are.
fn list(table: &[u8], size: usize, lo: usize, hi: usize, key: u64, len: u8, out: &mut [u8]) -> usize
    requires position { Position size table.now lo hi len key }
    requires key_in_bounds { size * length (holes_at size table.now lo hi len key) ≤ length out.old }
    ensures value { result ≡ length (holes_at size table.now lo hi len key) }
    ensures out_after { out.new ≡ laid 0 (bytes_in size (holes_at size table.now lo hi len key)) out.old }
{
    match kind_of(table, size, lo, hi, key, len) {
        Kind::Hole => {
            write_sized(out, size, 0, key, len, 0);
            1
        }
        Kind::Routed => 0,
        Kind::Parted { right, mid } => {
            let left = list(table, size, lo, mid, key, len + 1, out);
            let at = size * left;
            left + list(table, size, mid, hi, right, len + 1, &mut out[at..])
        }
    }
}

// How many holes the position of this length at `key` has, whose run is lo..hi.
fn count(table: &[u8], size: usize, lo: usize, hi: usize, key: u64, len: u8) -> usize
    requires position { Position size table.now lo hi len key }
    requires hi_bound { hi ≤ 1024 }
    ensures { result ≡ length (holes_at size table.now lo hi len key) }
{
    match kind_of(table, size, lo, hi, key, len) {
        Kind::Hole => 1,
        Kind::Routed => 0,
        Kind::Parted { right, mid } => {
            let left = count(table, size, lo, mid, key, len + 1);
            left + count(table, size, mid, hi, right, len + 1)
        }
    }
}

// Do the holes of a whole table of so many records fit an output of so many? They are 22,528 at the most in a table of 8-byte records, 55,296 in one of
// 16-byte records, and are counted only where they might not.
fn fits(table: &[u8], size: usize, records: usize, room: usize) -> bool
    requires position { Position size table.now 0 records 0 0 }
    requires records_bound { records ≤ 1024 }
    ensures { result ≡ leb (length (holes_at size table.now 0 records 0 0)) room }
{
    (4 * size - 11) * records + 1024 <= room || count(table, size, 0, records, 0, 0) <= room
}

// Lists the holes of a map's table, read by the form, into the output, as records with the hop zero in table order: the number of records written
// from its start, or the refusal (3 to 8, then 11).
pub fn unrouted(table: &[u8], form: Form, output: &mut [u8]) -> Result<usize, Refusal>
    ensures { Lists form table.now output.old result output.new }
{
    let size = size_of(form);
    let records = check_sized(table, size, form.strict, false)?;
    if !fits(table, size, records, output.len() / size) {
        return Err(Cause::OutputRoom.at(0));
    }
    Ok(list(table, size, 0, records, 0, 0, output))
}
