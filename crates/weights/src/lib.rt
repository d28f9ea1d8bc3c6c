#![tactic(auto)]

// The definitions and laws of what a table's nodes weigh. There is no code.
