// Records of 8 and of 16 bytes, over their size: reading a record's fields, and writing a record whole. An address is held as a key, its first bit on top.

ghost use Rattle.std.specs.Prelude.{◌≡◌, ◌+◌, ◌-◌, ◌*◌, ◌/◌, ◌%◌, ◌^◌, ◌<◌, ◌≤◌, [], ◌∷◌, length};
ghost use Rattle.words.specs.Keys.{key_of};
ghost use Rattle.records.specs.Wire.{join};
ghost use Rattle.records.specs.Sized.{IsSize, width_in, number, records_in, raw_in, route_in, record_in, route, laid};

use crate::{addr_at, raw_addr_at, write_record};
use words::key::masked_key;

// The eight octets from byte k on.
pub fn oct_at(table: &[u8], k: usize) -> u64
    requires { k + 8 ≤ length table.now }
    ensures { result ≡ number table.now k 8 }
{
    u64::from_be_bytes([
        table[k],
        table[k + 1],
        table[k + 2],
        table[k + 3],
        table[k + 4],
        table[k + 5],
        table[k + 6],
        table[k + 7],
    ])
}

// The key of record i as its bytes have it.
pub fn raw_key_at(table: &[u8], size: usize, i: usize) -> u64
    requires { IsSize size × (i < records_in size table.now) }
    ensures { result ≡ key_of (width_in size) (raw_in size table.now i).addr }
{
    if size == 8 {
        (raw_addr_at(table, i) as u64) * 4294967296
    } else {
        oct_at(table, 16 * i)
    }
}

// The length of record i.
pub fn length_at(table: &[u8], size: usize, i: usize) -> u8
    requires { IsSize size × (i < records_in size table.now) }
    ensures { result ≡ (route_in size table.now i).len }
{
    table[size * i + size / 2]
}

// The hop of record i.
pub fn hop_of(table: &[u8], size: usize, i: usize) -> u8
    requires { IsSize size × (i < records_in size table.now) }
    ensures { result ≡ (route_in size table.now i).hop }
{
    table[size * i + (size / 2 + 1)]
}

// The key of record i, without host bits.
pub fn key_at(table: &[u8], size: usize, i: usize) -> u64
    requires { IsSize size × (i < records_in size table.now) }
    ensures { result ≡ key_of (width_in size) (route_in size table.now i).addr }
{
    if size == 8 {
        (addr_at(table, i) as u64) * 4294967296
    } else {
        masked_key(oct_at(table, 16 * i), length_at(table, 16, i))
    }
}

// The key of an address. Of 32 bits, only the lower 32 of the number count.
pub fn key_of(address: u64, size: usize) -> u64
    requires { IsSize size }
    ensures { result ≡ key_of (width_in size) (address % 2 ^ width_in size) }
{
    if size == 8 {
        address % 4294967296 * 4294967296
    } else {
        address
    }
}

// Writes eight bytes from byte k on. The others stay.
pub fn write_eight(out: &mut [u8], k: usize, bytes: [u8; 8])
    requires { k + 8 ≤ length out.old }
    ensures { out.new ≡ laid k bytes out.old }
{
    for (j, byte) in bytes.iter().enumerate() {
        out[k + j] = *byte;
    }
}

// Writes a record of 16 bytes from byte k on. The other bytes stay.
fn write_long(out: &mut [u8], k: usize, key: u64, len: u8, hop: u8)
    requires { k + 16 ≤ length out.old }
    ensures { out.new ≡ laid k (record_in 16 (route key len hop)) out.old }
{
    write_eight(out, k, key.to_be_bytes());
    write_eight(out, k + 8, [len, hop, 0, 0, 0, 0, 0, 0]);
}

// Writes a record at record index `at` of the output: the address is what is left of the key. The other bytes stay.
pub fn write_sized(out: &mut [u8], size: usize, at: usize, key: u64, len: u8, hop: u8)
    requires { IsSize size × (size * at + size ≤ length out.old) }
    ensures { out.new ≡ laid (size * at) (record_in size (route (key / 2 ^ (64 - width_in size)) len hop)) out.old }
{
    if size == 8 {
        write_record(out, at, (key / 4294967296) as u32, len, hop);
    } else {
        write_long(out, 16 * at, key, len, hop);
    }
}

// Writes a record at the start of the output, if there is room for it.
pub fn put_sized(out: &mut [u8], size: usize, key: u64, len: u8, hop: u8)
    requires { IsSize size }
    ensures { size ≤ length out.old → out.new ≡ laid 0 (record_in size (route (key / 2 ^ (64 - width_in size)) len hop)) out.old }
{
    if size <= out.len() {
        write_sized(out, size, 0, key, len, hop);
    }
}

// Where `count` records end in an output of `len` bytes; its end, where they do not fit.
pub fn past_sized(count: usize, size: usize, len: usize) -> usize
    requires { IsSize size }
    ensures upper_bound { result ≤ len }
    ensures value { count * size ≤ len → result ≡ count * size }
{
    if size == 8 {
        if count <= len / 8 { count * 8 } else { len }
    } else {
        if count <= len / 16 { count * 16 } else { len }
    }
}
