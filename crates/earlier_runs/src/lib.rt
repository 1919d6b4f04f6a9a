//! What earlier runs of a feed have left: what their journals say of each lane, whether it still is what the feed makes due, and what
//! comes of it.
#![tactic(auto)]

pub mod compared;
pub mod from_now;
pub mod journals;
pub mod left;
pub mod state;
pub mod strays;
pub mod tally;

pub use compared::{Change, change_of};
pub use from_now::{events_of, give_up_all};
pub use journals::{FolderJournals, JournalNames, Journals};
pub use left::LaneState;
pub use state::{lane_state, states_of};
pub use strays::stray_journal;
pub use tally::{LaneTally, push_tally, tally_of};
