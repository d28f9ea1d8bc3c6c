// Which record of a map's table lies in a special-use range, by the edition of the list of ranges. One function serves every list in the wire's form.
#![tactic(auto)]

mod edition_5735;
mod edition_6890;

ghost use Rattle.std.specs.Prelude.{◌≡◌, ◌<◌};
ghost use Rattle.records.specs.Wire.{routes, records, route_at};
ghost use Rattle.records.specs.Sized.{route};
ghost use Rattle.special.specs.Ranges.{Ranges, lies_in, is_special, first_special};
ghost use Rattle.special.specs.Calls.{place_of, special_says, ranges_reply, special_reply};

use edition_5735::rfc_5735;
use edition_6890::rfc_6890;
use records::{Form, addr_at, len_at};
use refusals::{Cause, Refusal};
use table::check_table;
use words::prefix::contains;

// Does the prefix lie in range i?
fn lies_at(ranges: &[u8], i: usize, addr: u32, len: u8) -> bool
    requires { Ranges ranges.now × (i < records ranges.now) }
    ensures { result ≡ lies_in 32 (route_at ranges.now i) (route addr len 0) }
{
    contains(addr_at(ranges, i), len_at(ranges, i), addr, len)
}

// Does the prefix lie in one of the ranges?
fn is_special(ranges: &[u8], addr: u32, len: u8) -> bool
    requires { Ranges ranges.now }
    ensures { result ≡ is_special 32 (routes ranges.now) (route addr len 0) }
{
    (0..ranges.len() / 8).any(|i| lies_at(ranges, i, addr, len))
}

// Does record i of a table lie in one of the ranges?
fn is_special_at(table: &[u8], i: usize, ranges: &[u8]) -> bool
    requires { Ranges ranges.now × (i < records table.now) }
    ensures { result ≡ is_special 32 (routes ranges.now) (route_at table.now i) }
{
    is_special(ranges, addr_at(table, i), len_at(table, i))
}

// The first record of a table that lies in one of the ranges.
fn first_special(table: &[u8], ranges: &[u8]) -> Option<usize>
    requires { Ranges ranges.now }
    ensures { place_of result ≡ first_special 32 (routes ranges.now) (routes table.now) }
{
    (0..table.len() / 8).find(|i| is_special_at(table, *i, ranges))
}

// The same of an accepted map's table, or the refusal (3 to 8).
fn special_in(table: &[u8], form: Form, ranges: &[u8]) -> Result<Option<usize>, Refusal>
    requires { Ranges ranges.now }
    ensures { special_says result ≡ ranges_reply form table.now (routes ranges.now) }
{
    check_table(table, form, false)?;
    Ok(first_special(table, ranges))
}

// The first record of a map's table that lies in a special-use range of the edition, named by its RFC's number; none; or the refusal (14 for another edition
// than 5735 and 6890, then 3 to 8).
pub fn special_use(table: &[u8], form: Form, edition: u32) -> Result<Option<usize>, Refusal>
    ensures { special_says result ≡ special_reply form table.now edition }
{
    match edition {
        5735 => special_in(table, form, &rfc_5735()),
        6890 => special_in(table, form, &rfc_6890()),
        _ => Err(Cause::Edition.at(0)),
    }
}
