// The calls over a table that need the node walks: a rewrite in each of the four modes, and the cover query, with every refusal in
// document 01's order. What they answer is said in the crate calls; lookup and addresses held are the crate table's.
#![tactic(auto)]

mod walks;

ghost use Rattle.std.specs.Prelude.{◌≡◌, ◌-◌, ◌*◌, ◌%◌, ◌^◌, ◌≤◌, length, replicate};
ghost use Rattle.theory.specs.Results.{start_of};
ghost use Rattle.theory.specs.Routes.{Table};
ghost use Rattle.records.specs.Sized.{IsSize, width_in, records_in, routes_in};
ghost use Rattle.nodes.specs.Node.{spare};
ghost use Rattle.nodes.specs.Room.{nodes_below};
ghost use Rattle.calls.specs.Ending.{Fills, Finished};
ghost use Rattle.calls.specs.Modes.{mode_number};
ghost use Rattle.calls.specs.Rewriting.{RewritesIn, Rewrites};
ghost use Rattle.calls.specs.Covering.{covers_says, cover_reply, Queried};
ghost use Rattle.aggregate.specs.Walks.{whole, Ready};

use calls::Rewritten;
use calls::engine::Mode;
use cover::query::covers_in_aggregate;
use nodecount::count_nodes;
use records::sized::key_of;
use records::{Form, size_of};
use refusals::{Cause, Refusal};
use table::check_sized;
use walks::{prepare, write};
use words::key::masked_key;

// Makes every word of the room zero.
fn clear(work: &mut [u32])
    ensures { work.new ≡ replicate (length work.old) 0 }
{
    work.fill(0);
}

// The rewrite of a table that keeps the rules and has so many records, in a room that is long enough. Where the output might be too short, a
// first walk into nothing counts the result's records.
fn rewrite_checked(
    table: &[u8],
    size: usize,
    mode: Mode,
    fill: u8,
    ranks: &[u16],
    before: usize,
    output: &mut [u8],
    work: &mut [u32],
) -> Result<Rewritten, Refusal>
    requires size { IsSize size × Table (width_in size) (routes_in size table.now) }
    requires ready { Ready size table.now (mode_number mode) }
    requires fills { Fills (mode_number mode) fill }
    requires before_value { before ≡ records_in size table.now }
    requires table_in_bounds { 160 * nodes_below 13 0 (whole size table.now) ≤ length work.old }
    ensures { Finished size table.now (mode_number mode) fill ranks.now output.old result output.new }
{
    let top = prepare(table, size, mode, fill, work);
    if output.len() / size < mode.most_records(before) {
        let mut nothing = [0u8; 0];
        let count = write(table, size, mode, fill, ranks, work, top, &mut nothing);
        if output.len() / size < count {
            return Err(Cause::OutputRoom.at(0));
        }
    }
    let written = write(table, size, mode, fill, ranks, work, top, output);
    Ok(Rewritten {
        count: written,
        change: (written as i64) - (before as i64),
    })
}

// The rewrite, but for the room, in which it leaves words.
fn rewrite_in(
    table: &[u8],
    form: Form,
    mode: u32,
    default: u32,
    ranks: &[u16],
    output: &mut [u8],
    work: &mut [u32],
) -> Result<Rewritten, Refusal>
    ensures { RewritesIn form table.now mode default ranks.now output.old (length work.old) result output.new }
{
    let mode = Mode::try_from(mode)?;
    let fill = mode.fill(default)?;
    mode.check_ranks(ranks)?;
    let size = size_of(form);
    let records = check_sized(table, size, form.strict, mode.takes_set())?;
    if work.len() / 160 < count_nodes(table, size) {
        return Err(Cause::WorkRoom.at(0));
    }
    rewrite_checked(table, size, mode, fill, ranks, records, output, work)
}

// Rewrites a table, read by the form, in a mode, 1, 3, 4 or 5, into the output: the number of records written from its start, and how many more they are than the
// table's; or a refusal. Mode 5 gives the default to what has no route; modes 4 and 5 choose by the ranks, without any the smallest hop. The room is zero throughout afterwards.
pub fn rewrite(
    table: &[u8],
    form: Form,
    mode: u32,
    default: u32,
    ranks: &[u16],
    output: &mut [u8],
    work: &mut [u32],
) -> Result<Rewritten, Refusal>
    ensures { Rewrites form table.now mode default ranks.now output.old (length work.old) result output.new work.new }
{
    let answer = rewrite_in(table, form, mode, default, ranks, output, work);
    clear(work);
    answer
}

// The query's address, its first bit on top, without the bits past its length: half of its wide address.
fn half_query(address: u64, size: usize, len: usize) -> u64
    requires { IsSize size × (len ≤ width_in size) }
    ensures { result * 2 ≡ start_of (width_in size - len) (address % 2 ^ width_in size) * 2 ^ spare size }
{
    masked_key(key_of(address, size), len as u8)
}

// The cover query, for a room of so many words.
fn covers_in(table: &[u8], form: Form, address: u64, len: u32, room: usize) -> Result<bool, Refusal>
    ensures { covers_says result ≡ cover_reply form table.now address len room }
{
    let size = size_of(form);
    let records = check_sized(table, size, form.strict, true)?;
    let n = len as usize;
    if 4 * size < n {
        return Err(Cause::QueryLength.at(0));
    }
    if room / 160 < count_nodes(table, size) {
        return Err(Cause::WorkRoom.at(0));
    }
    let query = half_query(address, size, n);
    Ok(covers_in_aggregate(table, size, 0, records as u16, 0, 0, query, n))
}

// Does the set, read by the form, cover every address of the prefix? Of the address its lowest bits count, as many as the records' addresses have; bits past
// the length are ignored. The room is zero throughout afterwards.
pub fn covers(
    table: &[u8],
    form: Form,
    address: u64,
    len: u32,
    work: &mut [u32],
) -> Result<bool, Refusal>
    ensures { Queried form table.now address len (length work.old) result work.new }
{
    let answer = covers_in(table, form, address, len, work.len());
    clear(work);
    answer
}
