// The walks of the four modes over a whole table.

ghost use Rattle.std.specs.Prelude.{◌*◌, ◌≤◌, length};
ghost use Rattle.theory.specs.Ranks.{lowest};
ghost use Rattle.records.specs.Sized.{IsSize};
ghost use Rattle.nodes.specs.Output.{Wrote};
ghost use Rattle.nodes.specs.Room.{nodes_below};
ghost use Rattle.calls.specs.Ending.{Fills};
ghost use Rattle.calls.specs.Modes.{mode_number};
ghost use Rattle.aggregate.specs.Walks.{whole, Ready, Prepared, wide_result};

use calls::engine::Mode;
use consistent::aggregate_consistent_map;
use hops::NO_HOP;
use maximal::{aggregate_set, collect_coverage};
use ortc::walks::collect_sets;

// Lays what the mode's walk reads into the room: the coverage of the nodes in mode 1, their candidate sets in modes 4 and 5. Says where it begins.
pub fn prepare(table: &[u8], size: usize, mode: Mode, fill: u8, work: &mut [u32]) -> usize
    requires size { IsSize size × Ready size table.now (mode_number mode) }
    requires fills { Fills (mode_number mode) fill }
    requires table_in_bounds { 160 * nodes_below 13 0 (whole size table.now) ≤ length work.old }
    ensures { Prepared size table.now (mode_number mode) fill result work.new }
{
    let records = (table.len() / size) as u16;
    let end = work.len();
    match mode {
        Mode::Set => collect_coverage(table, size, 0, records, 0, 0, work, end).top,
        Mode::ConsistentMap => end,
        Mode::MapDrop | Mode::MapFill => collect_sets(
            table, size, 0, records, 0, 0, NO_HOP, fill, work, end,
        ).top,
    }
}

// Writes the mode's result, by ranks that are lent, into the output, if it has room for it, and says how many records it has.
pub fn write(
    table: &[u8],
    size: usize,
    mode: Mode,
    fill: u8,
    ranks: &[u16],
    work: &[u32],
    top: usize,
    out: &mut [u8],
) -> usize
    requires size { IsSize size × Ready size table.now (mode_number mode) }
    requires fills { Fills (mode_number mode) fill }
    requires prepared { Prepared size table.now (mode_number mode) fill top work.now }
    ensures { Wrote size (wide_result (lowest ranks.now) size table.now (mode_number mode) fill) 0 result out.old out.new }
{
    let records = (table.len() / size) as u16;
    match mode {
        Mode::Set => aggregate_set(table, size, 0, records, 0, 0, false, work, top, out).count,
        Mode::ConsistentMap => aggregate_consistent_map(table, size, 0, records, 0, 0, NO_HOP, out),
        Mode::MapDrop | Mode::MapFill => {
            let root = ortc::walks::rewrite(
                table, size, 0, records, 0, 0, NO_HOP, fill, NO_HOP, ranks, work, top, out,
            );
            root.count
        }
    }
}
