// The ranks that a case lends: whether it does, how they are read, and their bytes as numbers.

ghost use Rattle.std.specs.Prelude.{◌≡◌, ◌≤◌, length, IfOk};
ghost use Rattle.kept.specs.Kept.{lends_ranks};

use crate::ending::{Ending, read_whole};
use std::io::Read;

// Does a case with this first byte lend ranks?
pub fn lends_ranks(first: u8) -> bool
    ensures { result ≡ lends_ranks first }
{
    64 <= first % 128
}

// A byte as a number of ranks.
fn how_many(count: u8) -> usize
    ensures { result ≤ 255 }
{
    count as usize
}

// Reads the ranks of a case with this first byte, none where it lends none, and says how many they are. What was lent keeps its length.
pub fn read_ranks(input: &mut impl Read, first: u8, bytes: &mut [u8]) -> Result<usize, Ending>
    requires { 255 ≡ length bytes.old }
    ensures { IfOk result (λ lent. lent ≤ 255) }
{
    if !lends_ranks(first) {
        return Ok(0);
    }
    let mut count = [0u8; 1];
    read_whole(input, &mut count)?;
    let size = how_many(count[0]);
    read_whole(input, &mut bytes[..size])?;
    Ok(size)
}

// Each byte as a rank.
pub fn as_ranks(bytes: &[u8], ranks: &mut [u16])
    requires { length ranks.old ≡ length bytes.now }
    ensures { ranks.new ≡ bytes.now }
{
    for (i, byte) in bytes.iter().enumerate() {
        ranks[i] = u16::from(*byte);
    }
}
