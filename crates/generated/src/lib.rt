// Test plans, made from a seed. This crate has no code: what the plans are is in specs/, and what holds of them in proofs/.
#![tactic(auto)]
