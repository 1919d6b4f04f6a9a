//! Feeds from callers' own threads: each caller posts events on a handle of its own, without waiting, and an intake takes
//! them from the other ends, one at a time.
#![tactic(auto)]

mod end;
mod handle;
mod intake;
mod item;
mod making;
mod meeting;
mod properness;

pub use end::FeedEnd;
pub use handle::{EndFull, FeedHandle, Full};
pub use intake::{Intake, IntakeStop};
pub use item::FeedItem;
pub use making::feeds;
pub use meeting::meet_all;
pub use properness::test_is_exact;
