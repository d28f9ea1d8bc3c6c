// The text of answers, as document 01's programs print it: laid into a lent buffer from a place on. Each function says where its text ends.
// Functions in place of `Display`: each promises the bytes that it lays in memory of fixed size, which a formatter would not say.

#![tactic(auto)]

pub mod answers;

ghost use Rattle.std.specs.Prelude.{◌≡◌, [], ◌∷◌, ◌++◌, ◌+◌, ◌-◌, ◌*◌, ◌/◌, ◌^◌, ◌≤◌, ◌<◌, length};
ghost use Rattle.records.specs.Sized.{IsSize, width_in, records_in, route_in, routes_in};
ghost use Rattle.text.specs.Ipv6.{hex16, ipv6, group_part};
ghost use Rattle.text.specs.Text.{Put, decimal, signed, dotted, hop_end, address_in, line_in, lines_in, change_line, refused_line, refused_of, refusal_line, found_line, addresses_line, unrouted_line, total_end};

use records::sized::{hop_of, key_at, length_at};
use refusals::Refusal;

// How records are written as lines.
#[derive(Clone, Copy, Debug, PartialEq, Eq)]
pub struct Style {
    // An address of 64 bits in hex digits, not as an IPv6 address.
    pub hex: bool,
    // A record's hop behind its length.
    pub hops: bool,
}

// One byte.
fn put_byte(b: u8, at: usize, out: &mut [u8]) -> usize
    requires { at < length out.old }
    ensures { Put (b ∷ []) at result out.old out.new }
{
    out[at] = b;
    at + 1
}

// Some bytes.
pub fn put_bytes(bytes: &[u8], at: usize, out: &mut [u8]) -> usize
    requires { at + length bytes.now ≤ length out.old }
    ensures { Put bytes.now at result out.old out.new }
{
    let end = at + bytes.len();
    out[at..end].copy_from_slice(bytes);
    end
}

// A number in decimal, without leading zeros.
fn put_decimal(n: u64, at: usize, out: &mut [u8]) -> usize
    requires { at + length (decimal n) ≤ length out.old }
    ensures { Put (decimal n) at result out.old out.new }
{
    let mut text = [0u8; 20];
    let k = io::decimal(n, &mut text);
    put_bytes(&text[..k], at, out)
}

// A byte's value in decimal, and a byte after it.
fn put_octet(n: u8, after: u8, at: usize, out: &mut [u8]) -> usize
    requires { at + 4 ≤ length out.old }
    ensures put { Put (decimal n ++ (after ∷ [])) at result out.old out.new }
    ensures upper_bound { result ≤ at + 4 }
{
    let end = put_decimal(n as u64, at, out);
    put_byte(after, end, out)
}

// A number in decimal, and the line feed.
pub fn put_last(n: u64, at: usize, out: &mut [u8]) -> usize
    requires { at + 21 ≤ length out.old }
    ensures put { Put (decimal n ++ (10 ∷ [])) at result out.old out.new }
    ensures upper_bound { result ≤ at + 21 }
{
    let end = put_decimal(n, at, out);
    put_byte(b'\n', end, out)
}

// An address as four numbers with dots between them, and a slash.
pub fn put_dotted(address: u32, at: usize, out: &mut [u8]) -> usize
    requires { at + 16 ≤ length out.old }
    ensures put { Put (dotted address ++ (47 ∷ [])) at result out.old out.new }
    ensures upper_bound { result ≤ at + 16 }
{
    let [a, b, c, d] = address.to_be_bytes();
    let first = put_octet(a, b'.', at, out);
    let second = put_octet(b, b'.', first, out);
    let third = put_octet(c, b'.', second, out);
    put_octet(d, b'/', third, out)
}

// Where not all that is left is zero, a group of 16 bits in hex, without leading zeros, and a colon.
fn put_group(group: u16, left: u64, at: usize, out: &mut [u8]) -> usize
    requires { at + 5 ≤ length out.old }
    ensures put { Put (group_part group left) at result out.old out.new }
    ensures upper_bound { result ≤ at + 5 }
{
    if left == 0 {
        return at;
    }
    let mut text = [0u8; 16];
    let k = io::hex(group as u64, 1, &mut text);
    let end = put_bytes(&text[..k], at, out);
    put_byte(b':', end, out)
}

// An address of 64 bits as the upper half of an IPv6 address, and a slash: the groups up to the last that is not zero, and `::`.
pub fn put_ipv6(address: u64, at: usize, out: &mut [u8]) -> usize
    requires { at + 22 ≤ length out.old }
    ensures put { Put (ipv6 address ++ (47 ∷ [])) at result out.old out.new }
    ensures upper_bound { result ≤ at + 22 }
{
    if address == 0 {
        return put_bytes(b"::/", at, out);
    }
    let second = address % 281474976710656;
    let third = address % 4294967296;
    let fourth = address % 65536;
    let one = put_group((address / 281474976710656) as u16, address, at, out);
    let two = put_group((second / 4294967296) as u16, second, one, out);
    let three = put_group((third / 65536) as u16, third, two, out);
    let four = put_group(fourth as u16, fourth, three, out);
    put_bytes(b":/", four, out)
}

// An address of 64 bits in 16 hex digits, and a slash.
pub fn put_hex16(address: u64, at: usize, out: &mut [u8]) -> usize
    requires { at + 17 ≤ length out.old }
    ensures put { Put (hex16 address ++ (47 ∷ [])) at result out.old out.new }
    ensures upper_bound { result ≤ at + 17 }
{
    let mut text = [0u8; 16];
    let k = io::hex(address, 16, &mut text);
    let end = put_bytes(&text[..k], at, out);
    put_byte(b'/', end, out)
}

// A length and, where `hops` says so, one space and the hop; and the line feed.
pub fn put_ending(len: u8, hop: u8, hops: bool, at: usize, out: &mut [u8]) -> usize
    requires { at + 8 ≤ length out.old }
    ensures put { Put (decimal len ++ hop_end hops hop) at result out.old out.new }
    ensures upper_bound { result ≤ at + 8 }
{
    if hops {
        let end = put_octet(len, b' ', at, out);
        put_octet(hop, b'\n', end, out)
    } else {
        put_octet(len, b'\n', at, out)
    }
}

// An address by its key, and a slash: with dots in records of 8 bytes; in records of 16 as an IPv6 address or, where `hex` says so, in hex digits.
fn put_address(key: u64, size: usize, hex: bool, at: usize, out: &mut [u8]) -> usize
    requires size { IsSize size }
    requires size_in_bounds { at + 2 * size ≤ length out.old }
    ensures put { Put (address_in size hex (key / 2 ^ (64 - width_in size)) ++ (47 ∷ [])) at result out.old out.new }
    ensures upper_bound { result ≤ at + 2 * size }
{
    if size == 8 {
        put_dotted((key / 4294967296) as u32, at, out)
    } else if hex {
        put_hex16(key, at, out)
    } else {
        put_ipv6(key, at, out)
    }
}

// The line of record i. It has at most three times the record's bytes.
fn put_record(table: &[u8], size: usize, i: usize, style: Style, at: usize, out: &mut [u8]) -> usize
    requires size { IsSize size × (i < records_in size table.now) }
    requires size_in_bounds { at + 3 * size ≤ length out.old }
    ensures put { Put (line_in size style.hex style.hops (route_in size table.now i)) at result out.old out.new }
    ensures upper_bound { result ≤ at + 3 * size }
{
    let end = put_address(key_at(table, size, i), size, style.hex, at, out);
    put_ending(
        length_at(table, size, i),
        hop_of(table, size, i),
        style.hops,
        end,
        out,
    )
}

// The lines of a table's records.
pub fn put_records(table: &[u8], size: usize, style: Style, at: usize, out: &mut [u8]) -> usize
    requires size { IsSize size }
    requires table_in_bounds { at + 3 * length table.now ≤ length out.old }
    ensures put { Put (lines_in size style.hex style.hops (routes_in size table.now)) at result out.old out.new }
    ensures upper_bound { result ≤ at + 3 * length table.now }
{
    let mut end = at;
    for i in 0..table.len() / size {
        end = put_record(table, size, i, style, end, out);
    }
    end
}

// A number with a sign only if it is negative.
fn put_signed(n: i64, at: usize, out: &mut [u8]) -> usize
    requires { at + 21 ≤ length out.old }
    ensures put { Put (signed n) at result out.old out.new }
    ensures upper_bound { result ≤ at + 21 }
{
    if n < 0 {
        let begin = put_byte(b'-', at, out);
        put_decimal(n.unsigned_abs(), begin, out)
    } else {
        put_decimal(n.unsigned_abs(), at, out)
    }
}

// The line `change N`.
pub fn put_change(change: i64, at: usize, out: &mut [u8]) -> usize
    requires { at + 29 ≤ length out.old }
    ensures { Put (change_line change) at result out.old out.new }
{
    let word = put_bytes(b"change ", at, out);
    let end = put_signed(change, word, out);
    put_byte(b'\n', end, out)
}

// A refusal as it is said: its number and the record or step at fault, whatever they are.
#[derive(Clone, Copy, Debug, PartialEq, Eq)]
pub struct Refused {
    pub number: u8,
    pub index: usize,
}

impl From<Refusal> for Refused {
    ghost from_gives = { λ refusal refused. refused ≡ refused_of refusal };

    fn from(refusal: Refusal) -> Refused {
        Refused {
            number: refusal.cause.number(),
            index: refusal.index,
        }
    }
}

// The line `refused N at I`.
pub fn put_said(refused: Refused, at: usize, out: &mut [u8]) -> usize
    requires { at + 36 ≤ length out.old }
    ensures { Put (refused_line refused.number refused.index) at result out.old out.new }
{
    let word = put_bytes(b"refused ", at, out);
    let end = put_octet(refused.number, b' ', word, out);
    let place = put_bytes(b"at ", end, out);
    put_last(refused.index as u64, place, out)
}

// That of a refusal.
pub fn put_refused(refusal: Refusal, at: usize, out: &mut [u8]) -> usize
    requires { at + 36 ≤ length out.old }
    ensures { Put (refusal_line refusal) at result out.old out.new }
{
    put_said(Refused::from(refusal), at, out)
}

// The line `hop H length L`.
pub fn put_found(hop: u8, len: u8, at: usize, out: &mut [u8]) -> usize
    requires { at + 19 ≤ length out.old }
    ensures { Put (found_line hop len) at result out.old out.new }
{
    let word = put_bytes(b"hop ", at, out);
    let end = put_octet(hop, b' ', word, out);
    let place = put_bytes(b"length ", end, out);
    put_octet(len, b'\n', place, out)
}

// The line `addresses N`.
pub fn put_addresses(n: u64, at: usize, out: &mut [u8]) -> usize
    requires { at + 31 ≤ length out.old }
    ensures { Put (addresses_line n) at result out.old out.new }
{
    let word = put_bytes(b"addresses ", at, out);
    put_last(n, word, out)
}

// The line `unrouted N`.
fn put_unrouted(n: u64, at: usize, out: &mut [u8]) -> usize
    requires { at + 30 ≤ length out.old }
    ensures { Put (unrouted_line n) at result out.old out.new }
{
    let word = put_bytes(b"unrouted ", at, out);
    put_last(n, word, out)
}

// The same where `total` says so, else nothing.
#[tactic(auto, using(crate::proofs::Puts::put_none), unfolding(crate::specs::Text::total_end))]
pub fn put_total(n: u64, total: bool, at: usize, out: &mut [u8]) -> usize
    requires { at + 30 ≤ length out.old }
    ensures { Put (total_end total n) at result out.old out.new }
{
    if total { put_unrouted(n, at, out) } else { at }
}
