//! What becomes of one object at an event (chapter "Notifications"): whether a notification is attempted, which filter
//! stops it or with which number and interval it goes out, and what is then kept of the object's problem.
#![tactic(auto)]

pub mod found;
mod judge;
mod lapse;
pub mod outcome;
pub mod rules;
mod settle;
