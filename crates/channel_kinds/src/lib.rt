//! The channels with a device: a mailbox that is a file, a pager that answers, and a program that is started for
//! each letter; and a channel of one of these kinds.
#![tactic(auto)]

mod answer;
pub mod device;
pub mod device_channel;
pub mod dialled;
pub mod mailbox;
pub mod pager;
pub mod spawned;
pub mod stream;
pub mod timed;
mod writing;
