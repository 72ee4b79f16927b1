// The lines that quote prints, as definitions: names, figures, a line, four lines and the line of a refusal. This crate has no code: the lines are in
// specs/, and the lines of known figures and how long lines are in proofs/.
#![tactic(auto)]
