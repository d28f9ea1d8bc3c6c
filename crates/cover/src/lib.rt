// What the members of a set cover, node by node: the cover query.
#![tactic(auto)]

pub mod query;
