//! A channel with a journal: what it hands to another channel is written down before and after, and what an earlier run wrote down as
//! taken isn't handed over again.
#![tactic(auto)]

pub mod journal;
pub mod journaled;
pub mod laws;
pub mod memory;
pub mod past;

pub use journal::Journal;
pub use journaled::Journaled;
pub use past::{Claim, Past};
