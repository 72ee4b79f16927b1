// Words and test plans, computed by their definitions. This crate has no code and no definition of its own: the vectors are in proofs/, apart from the definitions, since computing them takes seconds.
#![tactic(auto)]
