//! The time periods that blocks give (chapters "Time Periods" and "Object Inheritance"): their days, the periods
//! that they exclude, and loops of exclusions.
#![tactic(auto)]

mod dated;
mod days;
mod excludes;
pub mod laws;
pub mod loops;
pub mod periods;
