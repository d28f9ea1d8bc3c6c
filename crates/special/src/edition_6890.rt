// The special-use ranges of RFC 6890, as a constant table in the wire's form, byte 5 zero, as section 2.2.2 of the document lists them. It lists
// no multicast range, and adds to RFC 5735's the shared and the DS-Lite ranges.

ghost use Rattle.std.specs.Prelude.{◌≡◌};
ghost use Rattle.records.specs.Wire.{bytes_of};
ghost use Rattle.special.specs.Editions.{rfc6890};

#[rattlefmt::skip]
const RANGES: [u8; 128] = [
    0, 0, 0, 0, 8, 0, 0, 0, // 0.0.0.0/8, this host on this network
    10, 0, 0, 0, 8, 0, 0, 0, // 10.0.0.0/8, private use
    100, 64, 0, 0, 10, 0, 0, 0, // 100.64.0.0/10, shared address space
    127, 0, 0, 0, 8, 0, 0, 0, // 127.0.0.0/8, loopback
    169, 254, 0, 0, 16, 0, 0, 0, // 169.254.0.0/16, link local
    172, 16, 0, 0, 12, 0, 0, 0, // 172.16.0.0/12, private use
    192, 0, 0, 0, 24, 0, 0, 0, // 192.0.0.0/24, IETF protocol assignments
    192, 0, 0, 0, 29, 0, 0, 0, // 192.0.0.0/29, DS-Lite
    192, 0, 2, 0, 24, 0, 0, 0, // 192.0.2.0/24, documentation, TEST-NET-1
    192, 88, 99, 0, 24, 0, 0, 0, // 192.88.99.0/24, 6to4 relay anycast
    192, 168, 0, 0, 16, 0, 0, 0, // 192.168.0.0/16, private use
    198, 18, 0, 0, 15, 0, 0, 0, // 198.18.0.0/15, benchmarking
    198, 51, 100, 0, 24, 0, 0, 0, // 198.51.100.0/24, documentation, TEST-NET-2
    203, 0, 113, 0, 24, 0, 0, 0, // 203.0.113.0/24, documentation, TEST-NET-3
    240, 0, 0, 0, 4, 0, 0, 0, // 240.0.0.0/4, reserved
    255, 255, 255, 255, 32, 0, 0, 0, // 255.255.255.255/32, limited broadcast
];

// The table, for its readers.
pub fn rfc_6890() -> [u8; 128]
    ensures { result ≡ bytes_of rfc6890 }
{
    RANGES
}
