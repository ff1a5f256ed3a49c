#![tactic(auto)]

// This crate has no code: what its theorems speak of stands in specs/, and they stand in proofs/.
