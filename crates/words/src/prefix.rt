// Prefix arithmetic on 32-bit addresses, for lengths 0 to 32; masking takes any length. The first bit of an address is its most significant.

ghost use Rattle.std.specs.Prelude.{◌≡◌, ◌-◌, ◌≤◌};
ghost use Rattle.theory.specs.Results.{start_of};
ghost use Rattle.words.specs.Prefix.{mask_of, within, host_clear};

// The first `len` bits set, the others clear.
pub fn mask_from_prefix_len(len: u8) -> u32
    requires { len ≤ 32 }
    ensures { result ≡ mask_of 32 len }
{
    if len == 32 {
        return !0;
    }
    if len == 0 {
        return 0;
    }
    !(!0u32 >> len)
}

// Does the prefix `addr`/`len` contain `other`/`other_len`? A prefix contains itself; bits past the lengths don't count.
pub fn contains(addr: u32, len: u8, other: u32, other_len: u8) -> bool
    requires { len ≤ 32 }
    ensures { result ≡ within 32 addr len other other_len }
{
    if len > other_len {
        return false;
    }
    let mask = mask_from_prefix_len(len);
    other & mask == addr & mask
}

// Are the bits of `addr` past the length clear?
pub fn host_bits_clear(addr: u32, len: u8) -> bool
    requires { len ≤ 32 }
    ensures { result ≡ host_clear 32 addr len }
{
    addr & !mask_from_prefix_len(len) == 0
}

// The address without its bits past the length: the start of the prefix. From length 32 on it is the address itself.
pub fn masked(addr: u32, len: u8) -> u32
    ensures { result ≡ start_of (32 - len) addr }
{
    if 32 <= len {
        return addr;
    }
    let below = 32 - len;
    (((addr as u64) >> below) << below) as u32
}
