// Words: prefix arithmetic, on 32-bit addresses and on keys of 64 bits, single bits, and the positions of a node as the bits of a word.
#![tactic(auto)]

pub mod bits;
pub mod card;
pub mod coverage;
pub mod key;
pub mod ladder;
pub mod prefix;
