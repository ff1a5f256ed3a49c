#![tactic(auto)]

// This crate has no code: its definitions stand in specs/ and its laws in proofs/.
