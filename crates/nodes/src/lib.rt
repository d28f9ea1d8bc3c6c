// A node of the input, the run lo..hi of the sorted records that lie in it: what its positions write to the output, and the definitions and
// laws of a node, of its output and of the work room that every walk shares.
//
// Addresses are wide in contracts: the bits of the wire and zero bits after them, 65 in all, so that a node at every depth up to 60 has five
// levels of positions and its 32 slots. A node at depth d stands at a wide address, its key, with 65 - d bits below it. In code an address is
// half of the wide one: a u64 with the first bit on top.
// Positions and slots share one heap: position j of level l is 2^l - 1 + j, and slot c, level 5, is 31 + c.
#![tactic(auto)]

pub mod emit;
