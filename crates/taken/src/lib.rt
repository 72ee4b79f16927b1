// What a read takes of an image. This crate has no code: what is counted is in specs/, and what it comes to in proofs/.
#![tactic(auto)]
