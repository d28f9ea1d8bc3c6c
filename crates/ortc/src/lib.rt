// ORTC over nodes: the two walks of modes 4 and 5. What they do inside one node, and how its candidate sets are kept, is in crate assign.
#![tactic(auto)]

pub mod walks;
