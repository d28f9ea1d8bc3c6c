// The rules 5 to 8 for one record of a table, over the size of a record.

ghost use Rattle.std.specs.Prelude.{◌≡◌, ◌-◌, ◌≤◌, ◌<◌, length};
ghost use Rattle.refusals.specs.Rules.{broken};
ghost use Rattle.records.specs.Sized.{IsSize, clear, records_in};
ghost use Rattle.table.specs.Checking.{broken_by};
ghost use Rattle.table.specs.SizedRules.{host_kept_in, tail_kept_in, in_order_in, record_rules_in, top_hop};

use records::sized::{hop_of, key_at, length_at, raw_key_at};
use refusals::Cause;
use words::key::{key_comes_before, key_host_bits_clear};

// The largest hop.
pub fn top_hop(is_set: bool) -> u8
    ensures { result ≡ top_hop is_set }
{
    if is_set { 0 } else { 63 }
}

// No host bits are set, where the choice is strict.
pub fn host_kept(table: &[u8], size: usize, strict: bool, i: usize) -> bool
    requires { IsSize size × (i < records_in size table.now) }
    ensures { result ≡ host_kept_in size «strict» table.now i }
{
    if strict {
        key_host_bits_clear(raw_key_at(table, size, i), length_at(table, size, i))
    } else {
        true
    }
}

// Are the bytes from `k` up to `end` zero?
pub fn clear_between(table: &[u8], k: usize, end: usize) -> bool
    requires { (k ≤ end) × (end ≤ length table.now) }
    ensures { result ≡ clear table.now k (end - k) }
{
    table[k..end].iter().all(|byte| *byte == 0)
}

// The byte after the length is a hop, and those behind it are zero.
pub fn tail_kept(table: &[u8], size: usize, i: usize, is_set: bool) -> bool
    requires { IsSize size × (i < records_in size table.now) }
    ensures { result ≡ tail_kept_in size is_set table.now i }
{
    if top_hop(is_set) < hop_of(table, size, i) {
        return false;
    }
    clear_between(table, size * i + (size / 2 + 2), size * i + size)
}

// Record i stands strictly after the one before it, if there is one: host bits don't count.
pub fn in_order(table: &[u8], size: usize, i: usize) -> bool
    requires { IsSize size × (i < records_in size table.now) }
    ensures { result ≡ in_order_in size table.now i }
{
    if i == 0 {
        return true;
    }
    let last = i - 1;
    key_comes_before(
        key_at(table, size, last),
        length_at(table, size, last),
        key_at(table, size, i),
        length_at(table, size, i),
    )
}

// Does record i keep the rules 5 to 8? Else it breaks that of the lowest number.
pub fn judge_record(
    table: &[u8],
    size: usize,
    strict: bool,
    i: usize,
    is_set: bool,
) -> Result<(), Cause>
    requires { IsSize size × (i < records_in size table.now) }
    ensures { broken_by result ≡ broken (record_rules_in size «strict» is_set table.now i) }
{
    if 4 * size < (length_at(table, size, i) as usize) {
        return Err(Cause::PrefixLength);
    }
    if !host_kept(table, size, strict, i) {
        return Err(Cause::HostBits);
    }
    if !tail_kept(table, size, i, is_set) {
        return Err(Cause::Tail);
    }
    if !in_order(table, size, i) {
        return Err(Cause::Order);
    }
    Ok(())
}
