//! What a writer takes of the bytes that it is given: the definitions and their laws, in `specs/`. Contracts and
//! proofs of the crates that write cite them. There is no code here.
#![tactic(auto)]
