//! What a block of object text says by itself: the value of a directive, the entries of a list, a number, options and
//! ranges of times (chapter "Object Definitions").
#![tactic(auto)]

pub mod day_rules;
pub mod options;
pub mod ranges;
pub mod values;
