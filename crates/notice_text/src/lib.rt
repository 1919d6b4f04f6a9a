//! What is said of a notice: the names of kinds, states and filters, and the texts of numbers, objects, contacts and lanes. Reports
//! and letters say them alike.
#![tactic(auto)]

pub mod names;
pub mod texts;
