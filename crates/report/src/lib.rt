// The four procedures of CMU-CS-94-147. This crate has no code: the procedures are in specs/, and their agreement with the figures in proofs/.
#![tactic(auto)]
