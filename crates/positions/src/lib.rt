#![tactic(auto)]

// Positions, runs and walks have no code: definitions in specs/, laws in proofs/.
