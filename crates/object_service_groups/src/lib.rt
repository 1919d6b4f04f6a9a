//! Service groups and their members (chapter "Object Definitions"): which services are members of which service
//! group.
#![tactic(auto)]

pub mod groups;
pub mod laws;
mod members;
mod nodes;
mod owners;
