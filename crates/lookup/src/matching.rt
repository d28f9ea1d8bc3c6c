// The longest match of an address among a table's records, over their size. The address is held as its key.

ghost use Rattle.std.specs.Prelude.{◌≡◌, ℕ, ◌<◌};
ghost use Rattle.theory.specs.Routes.{longer, tried, lookup};
ghost use Rattle.words.specs.Keys.{key_of};
ghost use Rattle.records.specs.Sized.{IsSize, width_in, records_in, route_in, routes_in};
ghost use Rattle.lookup.specs.Calls.{match_of};

use super::answers::Match;
use records::sized::{hop_of, key_at, length_at};
use words::key::key_contains;

// The match that record i gives: the record's prefix contains that of the same length at the address, or there is none.
pub fn tried_at(table: &[u8], size: usize, i: usize, key: u64) -> Option<Match>
    requires { IsSize size × (i < records_in size table.now) }
    ensures { (x : ℕ) → key ≡ key_of (width_in size) x → match_of result ≡ tried (width_in size) (route_in size table.now i) x }
{
    let length = length_at(table, size, i);
    if key_contains(key_at(table, size, i), length, key, length) {
        Some(Match {
            hop: hop_of(table, size, i),
            length,
        })
    } else {
        None
    }
}

// The longer of two matches; of two as long, the later.
pub fn longer_of(a: Option<Match>, b: Option<Match>) -> Option<Match>
    ensures { match_of result ≡ longer (match_of a) (match_of b) }
{
    match (a, b) {
        (None, _) => b,
        (Some(_), None) => a,
        (Some(first), Some(second)) => { if second.length < first.length { a } else { b } }
    }
}

// The longest match, from the last record to the first.
pub fn longest_in(table: &[u8], size: usize, key: u64) -> Option<Match>
    requires { IsSize size }
    ensures { (x : ℕ) → key ≡ key_of (width_in size) x → match_of result ≡ lookup (width_in size) (routes_in size table.now) x }
{
    let mut best = None;
    for i in (0..table.len() / size).rev() {
        best = longer_of(tried_at(table, size, i, key), best);
    }
    best
}
