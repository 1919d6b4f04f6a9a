//! Services that escalations and dependencies name by a host and a description (chapters "Notification Escalations" and
//! "Host and Service Dependencies"), and the first block that names one which no service block gives.
#![tactic(auto)]

mod distinct;
mod keys;
mod named;
mod stamps;
pub mod unknown;
