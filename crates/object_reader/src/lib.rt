//! Reads object text, the text of the `define` blocks, into blocks of directives (chapter "Object
//! Configuration Overview"). What the directives mean is not this crate's matter.
#![tactic(auto)]

pub mod blanks;
pub mod block;
pub mod day_line;
pub mod fault;
mod joined;
mod line;
pub mod reading;
mod statement;
mod text;
mod words;
