//! The channel words of a command line: which command's messages go to which channel.
#![tactic(auto)]

mod address;
mod fault;
mod lanes;
mod word;
mod words;

pub use fault::ChannelFault;
pub use lanes::lanes_of;
pub use word::{ChannelWord, Device, words_in};
pub use words::read_words;
