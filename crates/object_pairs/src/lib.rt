//! The members of service groups (chapter "Object Definitions"): hosts and services by turns, the first service
//! group with members that aren't, and the services that members name.
#![tactic(auto)]

mod marks;
pub mod members;
pub mod pairs;
pub mod unknown;
mod wanted;
