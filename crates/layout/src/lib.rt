#![tactic(auto)]

// A sheet's layout and what reading one means (document 01, "The sheet" and "Where each refusal is found"): definitions in specs/, and their theorems in proofs/. There is no code here;
// the crates `fields`, `parts` and `sheet` have the reader.
