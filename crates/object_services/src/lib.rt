//! The services that service blocks give (chapter "Object Definitions"): the hosts of each block, by its lists
//! of hosts and of host groups, within the limit of objects, and the first block that gives a service which
//! another gives.
#![tactic(auto)]

pub mod blocks;
pub mod doubled;
pub mod laws;
pub mod numbers;
pub mod services;
