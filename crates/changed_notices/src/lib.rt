//! What two configurations give of a line of a feed: the notices that one of them alone gives, and their lines.
#![tactic(auto)]

mod changed;
mod laws;
mod left;
mod names;

pub use changed::{ChangeForm, Form, Given, push_changes};
pub use laws::lost_is_the_difference;
