// The greatest figure that there is. This crate has no code: the plan that attains it is in specs/, and that it does in proofs/.
#![tactic(auto)]
