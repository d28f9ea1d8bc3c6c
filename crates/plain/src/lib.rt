// The second engine: modes 1, 4 and 5 as a plain recursion over the bits of an address, with no nodes and no work room.
//
// A position is a prefix, given by the key of its address and its length; the records lo..hi of the sorted table that lie in it are its run. `set_of` is the
// candidate set of a position and `write` the entries that document 01's definition gives it and the positions inside it. Both take a position apart by
// `part_of`. Records have `size` bytes, 8 or 16, and the walks go down the 32 or 64 bits of their addresses.
// A hop is a u8, NO_HOP for none. A candidate set is a u64 with a bit for each hop, 0 for a hole.
#![tactic(auto)]

ghost use Rattle.std.specs.Prelude.{◌≡◌, true, ◌-◌, ◌≤◌, ◌<◌, length};
ghost use Rattle.theory.specs.Results.{Cand};
ghost use Rattle.theory.specs.Routes.{Table};
ghost use Rattle.records.specs.Forms.{size_of};
ghost use Rattle.records.specs.Sized.{IsSize, width_in, records_in, route_in, routes_in};
ghost use Rattle.hops.specs.Sets.{ShowsSet};
ghost use Rattle.calls.specs.Ending.{Fills, Finished};
ghost use Rattle.calls.specs.Modes.{mode_number};
ghost use Rattle.calls.specs.Rewriting.{RewritesBy};
ghost use Rattle.plain.specs.Positions.{Hopped, address_in, Position, set_at, entry_at, entries_at, PartOf};
ghost use Rattle.plain.specs.Output.{Put};
ghost use Rattle.plain.specs.Rewriting.{has_mode, KnownBy, plain_rules, Bare};

use calls::Rewritten;
use calls::engine::Mode;
use hops::ranking::lowest;
use hops::{NO_HOP, alone, assign, combine, has};
use records::sized::{hop_of, past_sized, put_sized};
use records::{Form, size_of};
use refusals::{Cause, Refusal};
use runs::{past_own, right_half, split};
use table::check_sized;

// The candidate set of a hole.
const HOLE: u64 = 0;

// How a position is taken apart.
#[derive(Clone, Copy)]
enum Part {
    // No record lies in its halves: every address of it is answered by `hop`.
    Uniform {
        hop: u8,
    },
    // The records first..mid lie in its left half, mid..hi in its right half, whose key is `right`. What they do not answer `hop` does.
    Halves {
        hop: u8,
        first: usize,
        mid: usize,
        right: u64,
    },
}

// The hop of the position's own record, which is the one before `first`, or else `cover`.
fn own_or(table: &[u8], size: usize, lo: usize, first: usize, cover: u8) -> u8
    requires { IsSize size × (first ≤ records_in size table.now) }
    ensures { (lo < first → result ≡ (route_in size table.now lo).hop) × (first ≤ lo → result ≡ cover) }
{
    if lo < first {
        hop_of(table, size, lo)
    } else {
        cover
    }
}

// Takes apart the position of this length at `key`, whose run is lo..hi; `cover` is the hop of what no record of the run matches.
fn part_of(table: &[u8], size: usize, lo: usize, hi: usize, key: u64, len: u8, cover: u8) -> Part
    requires position { Position size table.now lo hi len key }
    requires hopped { Hopped size table.now }
    ensures { PartOf size table.now lo hi len key cover result }
{
    let first = past_own(table, size, lo, hi, len);
    let hop = own_or(table, size, lo, first, cover);
    if first == hi {
        return Part::Uniform { hop };
    }
    let right = right_half(key, len);
    let mid = split(table, size, first, hi, right);
    Part::Halves {
        hop,
        first,
        mid,
        right,
    }
}

// The candidate set of the position: that of its one answer, or those of its halves combined.
fn set_of(table: &[u8], size: usize, lo: usize, hi: usize, key: u64, len: u8, cover: u8) -> u64
    requires position { Position size table.now lo hi len key }
    requires hopped { Hopped size table.now }
    ensures { ShowsSet result (set_at size table.now lo hi cover (width_in size - len) (address_in size key)) }
{
    match part_of(table, size, lo, hi, key, len, cover) {
        Part::Uniform { hop } => alone(hop),
        Part::Halves {
            hop,
            first,
            mid,
            right,
        } => {
            let left = set_of(table, size, first, mid, key, len + 1, hop);
            combine(left, set_of(table, size, mid, hi, right, len + 1, hop))
        }
    }
}

// Writes the entry of a position with this set, if it gets one and there is room, and says how many it gets: a hole gets none, nor does a position whose
// set has the hop assigned above; any other gets one with the hop of lowest rank of its set.
fn write_entry(
    set: u64,
    above: u8,
    ranks: &[u16],
    size: usize,
    key: u64,
    len: u8,
    out: &mut [u8],
) -> usize
    requires { IsSize size × (len ≤ width_in size) }
    ensures { (S : Cand) → ShowsSet set S → Put size (entry_at ranks.now size S (width_in size - len) (address_in size key) above) result out.old out.new }
{
    if set == HOLE {
        return 0;
    }
    if has(set, above) {
        return 0;
    }
    put_sized(out, size, key, len, lowest(set, ranks));
    1
}

// Writes the entries of the position, then those of its left half, then those of its right half, where there is room, and says how many they are; `above`
// is assigned above it.
fn write(
    table: &[u8],
    size: usize,
    lo: usize,
    hi: usize,
    key: u64,
    len: u8,
    cover: u8,
    above: u8,
    ranks: &[u16],
    out: &mut [u8],
) -> usize
    requires position { Position size table.now lo hi len key }
    requires hopped { Hopped size table.now }
    ensures { Put size (entries_at ranks.now size table.now lo hi cover (width_in size - len) (address_in size key) above) result out.old out.new }
{
    let set = set_of(table, size, lo, hi, key, len, cover);
    let own = write_entry(set, above, ranks, size, key, len, out);
    match part_of(table, size, lo, hi, key, len, cover) {
        Part::Uniform { hop: _ } => own,
        Part::Halves {
            hop,
            first,
            mid,
            right,
        } => {
            let taken = assign(set, above, ranks);
            let at = past_sized(own, size, out.len());
            let left = write(
                table,
                size,
                first,
                mid,
                key,
                len + 1,
                hop,
                taken,
                ranks,
                &mut out[at..],
            );
            let done = own + left;
            let at = past_sized(done, size, out.len());
            done + write(
                table,
                size,
                mid,
                hi,
                right,
                len + 1,
                hop,
                taken,
                ranks,
                &mut out[at..],
            )
        }
    }
}

// The mode that a number names, if this engine has it.
fn known(number: u32) -> Result<Mode, Cause>
    ensures { KnownBy number result }
{
    match Mode::try_from(number)? {
        Mode::ConsistentMap => Err(Cause::Mode),
        mode => Ok(mode),
    }
}

// The rewrite of a table that keeps the rules and has so many records. Where the output might be too short, a first walk into nothing counts the result's
// records.
fn rewrite_checked(
    table: &[u8],
    size: usize,
    mode: Mode,
    fill: u8,
    ranks: &[u16],
    before: usize,
    output: &mut [u8],
) -> Result<Rewritten, Refusal>
    requires size { IsSize size × (has_mode (mode_number mode) ≡ true) }
    requires table { Table (width_in size) (routes_in size table.now) × (Hopped size table.now × Bare size table.now (mode_number mode)) }
    requires fills { Fills (mode_number mode) fill }
    requires before_value { before ≡ records_in size table.now }
    ensures { Finished size table.now (mode_number mode) fill ranks.now output.old result output.new }
{
    if output.len() / size < mode.most_records(before) {
        let mut nothing = [0u8; 0];
        let count = write(
            table,
            size,
            0,
            before,
            0,
            0,
            fill,
            NO_HOP,
            ranks,
            &mut nothing,
        );
        if output.len() / size < count {
            return Err(Cause::OutputRoom.at(0));
        }
    }
    let written = write(table, size, 0, before, 0, 0, fill, NO_HOP, ranks, output);
    Ok(Rewritten {
        count: written,
        change: (written as i64) - (before as i64),
    })
}

// Rewrites a table in mode 1, 4 or 5 into the output: the number of records written from its start, and how many more they are than the table's; or a
// refusal. Mode 5 gives the default to what has no route. Modes 4 and 5 choose by the ranks, without any the smallest hop. Mode 1 is mode 4 on the members of
// a set, whose hops are 0.
pub fn rewrite(
    table: &[u8],
    form: Form,
    mode: u32,
    default: u32,
    ranks: &[u16],
    output: &mut [u8],
) -> Result<Rewritten, Refusal>
    ensures { RewritesBy (size_of form) (plain_rules form table.now mode default ranks.now (length output.old)) table.now mode default ranks.now output.old result output.new }
{
    let mode = known(mode)?;
    let fill = mode.fill(default)?;
    mode.check_ranks(ranks)?;
    let size = size_of(form);
    let records = check_sized(table, size, form.strict, mode.takes_set())?;
    rewrite_checked(table, size, mode, fill, ranks, records, output)
}
