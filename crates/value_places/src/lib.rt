//! Where the values stand in object text that the filters of an object and of contacts go by (chapters "Object Inheritance" and "Notifications").
#![tactic(auto)]

mod lines;
mod origins;
mod places;
mod questions;

pub use places::value_places;
