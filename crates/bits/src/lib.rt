#![tactic(auto)]

// Bit fields of a word: definitions in specs/, and their two laws in proofs/. There is no code here; each crate that has a packed word reads and makes it by divisions and sums of its own.
