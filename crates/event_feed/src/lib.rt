//! The feed of events: lines in the shape of external commands, read by a reader of lines (chapter "External
//! Commands").
#![tactic(auto)]

pub mod fault;
pub mod feeder;
pub mod horizon;
pub mod laws;
pub mod line;

pub use fault::{FeedFault, RefusedLine, stop_fault};
pub use feeder::{FEED_LIMIT, Feeder};
pub use horizon::{Horizon, OpenHorizon};
pub use line::{read_line, read_number};
