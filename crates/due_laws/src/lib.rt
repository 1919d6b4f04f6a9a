//! Laws of the definitions, in the words of their subject, and worked examples. Each is the contract of a
//! function with nothing to do.
#![tactic(auto)]

pub mod attempts;
pub mod dependencies;
pub mod filters;
pub mod laws;
pub mod limits;
pub mod periods;
pub mod readings;
pub mod rows;
