//! What a run tells of as it goes: its log, its metrics, and lines on standard error.
#![tactic(auto)]

pub mod feed_times;
pub mod log_writer;
pub mod metered_feed;
mod meters;
mod rotated_file;
pub mod run_log;
pub mod run_metrics;
pub mod teller;
pub mod watcher;

pub use feed_times::FeedTimes;
pub use metered_feed::MeteredFeed;
pub use run_metrics::{MetricsPlace, RunMetrics, metrics_at};
