//! One feed for two configurations: each of its lines is read once, and by each it gives what that says of its objects.
#![tactic(auto)]

mod paired;

pub use paired::{PairedFeed, PairedLine};
