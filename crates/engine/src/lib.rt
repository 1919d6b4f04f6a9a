//! The notification engine: it reads a feed of events, decides each in one or more deciders, and hands what is due to the channels
//! of the lanes, of which each has a worker. The intake works in the calling thread; each decider and each worker has its own. The
//! feed is read, or is put together from the feeds of callers in threads of their own.
#![tactic(auto)]

mod alike;
mod engine;
mod feeds;
mod intake;
mod lanes;
mod limited_feed;
mod logs;
mod open_gate;
mod post;
mod run_end;
mod source_run;

pub use alike::runs_are_alike;
pub use caller_feeds::{EndFull, FeedEnd, FeedHandle, Full};
pub use decider_thread::{DeciderLog, KeptLog};
pub use delivery_worker::{Closers, Gate};
pub use engine::Engine;
pub use engine_threads::Setup;
pub use event_feed::{Horizon, OpenHorizon};
pub use limited_feed::LimitedFeed;
pub use logs::Outlets;
pub use open_gate::OpenGate;
pub use post::{Post, are_few};
pub use run_end::{LaneEnd, RunEnd};
pub use steps::Settings;
pub use undelivered::Why;
