#![tactic(auto)]

// The theory of routing tables has no code: definitions in specs/, laws in proofs/.
