// Candidate sets as runs of hops in the work room: ascending words from one place to another. The empty run is a hole.
// Runs are combined into new ones below them, stored for a node, read back, and give the hop that a position is assigned.
#![tactic(auto)]

pub mod choosing;
pub mod combining;
pub mod leaves;
pub mod ranking;
pub mod room;

// No hop: the number above all hops, `no_hop` in contracts.
pub const NO_HOP: u16 = 1024;
