//! What a zone's clock shows, how long its offset stays as it is, and a zone from what a command is given. All
//! that is known of zones here is what `jiff` says of them. Nothing but the reading of a zone file takes memory.
#![tactic(auto)]

pub mod clock;
pub mod given;
pub mod local;
mod steady;
