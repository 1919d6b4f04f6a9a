//! What object text says that is legal and does nothing, or tells nobody (chapters "Object Definitions", "Notifications",
//! "Notification Escalations" and "Host and Service Dependencies").
#![tactic(auto)]

mod covered;
pub mod criteria;
pub mod directives;
pub mod escalations;
pub mod hours;
mod known_spans;
pub mod lines;
mod numbers;
pub mod objects;
pub mod overridden;
pub mod passed_over;
pub mod periods;
mod spans;
mod steady;
pub mod tables;
mod told_hours;
pub mod unused;
pub mod warning;
mod week;
