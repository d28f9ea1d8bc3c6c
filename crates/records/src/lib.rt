// The table on the wire: reading a record's fields, and writing a record whole.
#![tactic(auto)]

pub mod sized;

ghost use Rattle.std.specs.Prelude.{◌≡◌, ◌+◌, ◌*◌, ◌<◌, ◌≤◌, length};
ghost use Rattle.records.specs.Forms.{size_of};
ghost use Rattle.records.specs.Wire.{join, records, raw_at, route_at, record_of};
ghost use Rattle.records.specs.Sized.{IsSize, route, laid};

use sized::write_eight;
use words::prefix::masked;

// How a table's bytes are read: under the strict choice a record with host bits is refused, else they are masked; a long table has records of 16
// bytes, with addresses of 64 bits, else they have 8, with addresses of 32.
#[derive(Clone, Copy)]
pub struct Form {
    pub strict: bool,
    pub long: bool,
}

// The bytes of a record.
pub fn size_of(form: Form) -> usize
    ensures value { result ≡ size_of form }
    ensures size { IsSize result }
{
    if form.long { 16 } else { 8 }
}

// Four octets as a number, the first the most significant.
pub fn join4(a: u8, b: u8, c: u8, d: u8) -> u32
    ensures { result ≡ join a b c d }
{
    u32::from_be_bytes([a, b, c, d])
}

// The address of record i as its bytes have it.
pub fn raw_addr_at(table: &[u8], i: usize) -> u32
    requires { i < records table.now }
    ensures { result ≡ (raw_at table.now i).addr }
{
    let k = 8 * i;
    join4(table[k], table[k + 1], table[k + 2], table[k + 3])
}

// The address of record i, without host bits.
pub fn addr_at(table: &[u8], i: usize) -> u32
    requires { i < records table.now }
    ensures { result ≡ (route_at table.now i).addr }
{
    masked(raw_addr_at(table, i), len_at(table, i))
}

// The length of record i.
pub fn len_at(table: &[u8], i: usize) -> u8
    requires { i < records table.now }
    ensures { result ≡ (route_at table.now i).len }
{
    table[8 * i + 4]
}

// The hop of record i.
pub fn hop_at(table: &[u8], i: usize) -> u8
    requires { i < records table.now }
    ensures { result ≡ (route_at table.now i).hop }
{
    table[8 * i + 5]
}

// Writes a record at record index `at` of the output. The other bytes stay.
pub fn write_record(out: &mut [u8], at: usize, addr: u32, len: u8, hop: u8)
    requires { 8 * at + 8 ≤ length out.old }
    ensures { out.new ≡ laid (8 * at) (record_of (route addr len hop)) out.old }
{
    let [a, b, c, d] = addr.to_be_bytes();
    write_eight(out, 8 * at, [a, b, c, d, len, hop, 0, 0]);
}
