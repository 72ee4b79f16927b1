// The three demands. This crate has no code: they are stated in specs/, and proved in proofs/ of whatever keeps the published promises.
#![tactic(auto)]
