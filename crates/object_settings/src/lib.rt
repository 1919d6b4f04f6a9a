//! The hosts and services of a configuration, with their notification settings (chapters "Object Definitions",
//! "Object Inheritance" and "Notifications"): what a block gives, and what a service takes from its host.
#![tactic(auto)]

pub mod laws;
pub mod objects;
mod own;
mod tables;
