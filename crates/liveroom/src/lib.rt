// The room of a live map: its records, two words each, in table order. Whether it holds a map, where a prefix has its place, what matches an address, and
// how a record is made and taken away.
#![tactic(auto)]

pub mod changes;
pub mod check;
mod fields;
pub mod matching;

// The first word of a live map: "live" in four octets.
pub const MARK: u32 = 0x6c697665;
