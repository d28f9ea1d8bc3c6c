// What a map's table is asked: the longest match of an address, at records of 8 bytes and of 16, and the addresses held, at 8.
#![tactic(auto)]

pub mod answers;
mod matching;

ghost use Rattle.std.specs.Prelude.{◌≡◌, ◌-◌, ◌^◌, ◌≤◌};
ghost use Rattle.theory.specs.Routes.{Table};
ghost use Rattle.theory.specs.Reach.{reach};
ghost use Rattle.records.specs.Wire.{routes};
ghost use Rattle.lookup.specs.Calls.{lookup_says, lookup_reply, held_says, held_reply};

use answers::Match;
use matching::longest_in;
use records::sized::key_of;
use records::{Form, addr_at, len_at, size_of};
use refusals::Refusal;
use table::{check_sized, check_table};

// The longest match of an address in a map's table, read by the form; none; or the refusal (3 to 8). In a table of records of 8 bytes only the lower
// 32 bits of the address count.
pub fn lookup(table: &[u8], form: Form, address: u64) -> Result<Option<Match>, Refusal>
    ensures { lookup_says result ≡ lookup_reply form table.now address }
{
    let size = size_of(form);
    check_sized(table, size, form.strict, false)?;
    Ok(longest_in(table, size, key_of(address, size)))
}

// The number of addresses of a prefix.
fn prefix_size(len: u8) -> u64
    requires { len ≤ 32 }
    ensures { result ≡ 2 ^ (32 - len) }
{
    1 << (32 - len)
}

// The addresses held by the records of a table, each once. No prefix straddles the end of one before it, so one that starts before the end of the last
// one counted lies in that and adds nothing.
fn count_held(table: &[u8]) -> u64
    requires { Table 32 (routes table.now) }
    ensures { result ≡ reach 32 (routes table.now) }
{
    let n = table.len() / 8;
    let mut held: u64 = 0;
    let mut end: u64 = 0;
    for i in 0..n {
        let start = addr_at(table, i) as u64;
        if end <= start {
            let size = prefix_size(len_at(table, i));
            held += size;
            end = start + size;
        }
    }
    held
}

// The number of addresses with a longest match in a map's table, read by the form; or the refusal (3 to 8).
pub fn addresses_held(table: &[u8], form: Form) -> Result<u64, Refusal>
    ensures { held_says result ≡ held_reply form table.now }
{
    check_table(table, form, false)?;
    Ok(count_held(table))
}
