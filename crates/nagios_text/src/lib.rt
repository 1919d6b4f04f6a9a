//! Object text as Nagios reads it, in the words of what is read here: what Nagios takes beside that is said so that it is taken here too.
#![tactic(auto)]

mod blocks;
mod lone;
mod names;
mod values;

pub use blocks::plain_blocks;
pub use lone::marked;
