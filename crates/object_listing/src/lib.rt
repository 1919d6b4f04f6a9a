//! What blocks list by the names of objects and of groups of them (chapter "Object Definitions"): the hosts of
//! services, the contacts of hosts and services, and those that escalations and dependencies speak of; and how the
//! numbers, flags, letters and periods of a block are read, with their defaults.
#![tactic(auto)]

pub mod contacts;
pub mod laws;
pub mod listing;
pub mod numbers;
pub mod readings;
