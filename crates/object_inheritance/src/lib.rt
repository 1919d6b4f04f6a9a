//! What the blocks of object text inherit from templates (chapter "Object Inheritance"): which templates
//! each block uses, the faults of that, and the value that each block has for a directive.
#![tactic(auto)]

pub mod dated_lines;
mod givers;
pub mod inherited;
pub mod kinds;
pub mod laws;
mod names;
pub mod registered;
pub mod templates;
mod uses;
