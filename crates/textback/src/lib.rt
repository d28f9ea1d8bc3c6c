#![tactic(auto)]

// What is printed reads back. There is no code: definitions in specs/, laws in proofs/.
