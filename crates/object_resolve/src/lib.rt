//! From the bytes of object text to the configuration that they mean, or the first fault of the text
//! (chapters "Object Definitions" and "Object Inheritance").
#![tactic(auto)]

mod asked;
mod config;
mod dependencies;
mod fault;
pub mod laws;
mod limits;
mod names;
mod resolve;
mod tables;
mod text;

pub use text::load;
