//! Lemmas that the proofs of more than one crate need: of lists and numbers, and of the definitions. They
//! stand in `proofs/`, the one place from which another crate's proofs may be imported. There is no code here.
#![tactic(auto)]
