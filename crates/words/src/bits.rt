// Single bits of a word, by the number of the bit.

ghost use Rattle.std.specs.Prelude.{◌≡◌, ◌<◌, ◌≤◌};
ghost use Rattle.words.specs.Bits.{bit, WithBit, NextBit, LastBit};

// Is bit k of x set?
pub fn has_bit(x: u32, k: u32) -> bool
    requires { k < 32 }
    ensures { result ≡ bit x k }
{
    x & (1 << k) != 0
}

// x with bit k set.
pub fn with_bit(x: u32, k: u32) -> u32
    requires { k < 32 }
    ensures { WithBit x k result }
{
    x | (1 << k)
}

// The first set bit of x from bit k on; 32 where there is none.
pub fn next_bit(x: u32, k: usize) -> usize
    requires { k ≤ 32 }
    ensures { NextBit x k result }
{
    if k == 32 {
        return 32;
    }
    let rest = x >> k;
    if rest == 0 {
        return 32;
    }
    k + (u32::trailing_zeros(rest) as usize)
}

// One past the last set bit of x below bit k; 0 where there is none.
pub fn last_bit(x: u32, k: usize) -> usize
    requires { k ≤ 32 }
    ensures { LastBit x k result }
{
    let low = (x as u64) % (1 << k);
    64 - (u64::leading_zeros(low) as usize)
}
