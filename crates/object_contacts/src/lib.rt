//! The contacts that blocks give, and lanes: the notification commands that contacts name (chapters "Object
//! Definitions" and "Notifications").
#![tactic(auto)]

pub mod contacts;
pub mod lanes;
pub mod laws;
mod marks;
pub mod rights;
