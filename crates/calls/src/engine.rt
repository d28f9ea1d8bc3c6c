// What every engine's rewrite asks beside its walk: which mode a number names, by which hop is what has no route filled, may these ranks be lent, and how many
// records can the result have at most. The last three are asked of a mode, and of any number as a mode.

ghost use Rattle.std.specs.Prelude.{◌≡◌, not, ◌+◌, ◌^◌, ◌≤◌, ◌<◌};
ghost use Rattle.positions.specs.Runs.{no_hop};
ghost use Rattle.calls.specs.Rewriting.{takes_set};
ghost use Rattle.calls.specs.Modes.{mode_number, default_known, ranks_known, Names, FilledBy, RankedBy};

use hops::NO_HOP;
use hops::ranking::is_ranking;
use refusals::Cause;

// The greatest hop.
const GREATEST: u32 = 63;

// The modes of a rewrite: a mode's value is its number in the documents.
#[derive(Clone, Copy, Debug, PartialEq, Eq)]
pub enum Mode {
    // The maximal covered prefixes of a set.
    Set = 1,
    // A map's entries whose hop differs from that of the nearest entry above.
    ConsistentMap = 3,
    // The fewest records that answer as the map does, with its holes.
    MapDrop = 4,
    // The fewest records that answer as the map does, the default where it has no route.
    MapFill = 5,
}

impl TryFrom<u32> for Mode {
    type Error = Cause;

    ghost try_from_gives = { Names };

    fn try_from(number: u32) -> Result<Self, Cause> {
        match number {
            1 => Ok(Mode::Set),
            2 => Err(Cause::RetiredMode),
            3 => Ok(Mode::ConsistentMap),
            4 => Ok(Mode::MapDrop),
            5 => Ok(Mode::MapFill),
            _ => Err(Cause::Mode),
        }
    }
}

impl Mode {
    // Does the mode take a set's table?
    pub fn takes_set(self) -> bool
        ensures { result ≡ takes_set (mode_number self) }
    {
        self == Mode::Set
    }

    // The hop of what has no route: the default, which must be one, where the mode fills, and none in the others.
    pub fn fill(self, default: u32) -> Result<u8, Cause>
        ensures { FilledBy (mode_number self) default result }
    {
        if no_hop(self as u32, default) {
            return Err(Cause::Default);
        }
        Ok(fill_of(self as u32, default))
    }

    // May these ranks be lent? The modes without a choice of hops do not read them.
    pub fn check_ranks(self, ranks: &[u16]) -> Result<(), Cause>
        ensures { RankedBy (mode_number self) ranks.now result }
    {
        if no_ranks(self as u32, ranks) {
            return Err(Cause::Ranks);
        }
        Ok(())
    }

    // The most records that the mode makes of so many.
    pub fn most_records(self, records: usize) -> usize
        requires { records + 1 < 2 ^ 64 }
        ensures { (mode_number self ≡ 5 → result ≡ records + 1) × ((mode_number self ≡ 5 → ⊥) → result ≡ records) }
    {
        most_records(self as u32, records)
    }
}

// ---- By any number.

// Is the default of fill no hop?
pub fn no_hop(mode: u32, default: u32) -> bool
    ensures { result ≡ not (default_known mode default) }
{
    mode == 5 && GREATEST < default
}

// Are these ranks not to be lent in the mode? Modes 1 and 3 do not read them.
pub fn no_ranks(mode: u32, ranks: &[u16]) -> bool
    ensures { result ≡ not (ranks_known mode ranks.now) }
{
    if mode < 4 {
        return false;
    }
    !is_ranking(ranks)
}

// The hop of what has no route: the default in mode 5, and none in the others.
pub fn fill_of(mode: u32, default: u32) -> u8
    ensures { (mode ≡ 5 → default ≤ 63 → result ≡ default) × ((mode ≡ 5 → ⊥) → result ≡ no_hop) }
{
    if mode == 5 {
        (default % 256) as u8
    } else {
        NO_HOP
    }
}

// The most records that the mode makes of so many.
pub fn most_records(mode: u32, records: usize) -> usize
    requires { records + 1 < 2 ^ 64 }
    ensures { (mode ≡ 5 → result ≡ records + 1) × ((mode ≡ 5 → ⊥) → result ≡ records) }
{
    if mode == 5 { records + 1 } else { records }
}
