//! A run over the devices of the machine: the channels that words name are opened, and the feed is read.
#![tactic(auto)]

pub mod channels;
pub mod counted;
pub mod fault;
pub mod horizon;
pub mod logged_run;
pub mod run;
pub mod settings;
pub mod watched;

pub use fault::RunFault;
pub use logged_run::{LogPlace, LoggedWords, do_logged_run};
pub use run::{RunWords, do_run};
pub use run_records::{FeedTimes, MeteredFeed, MetricsPlace, RunMetrics, metrics_at};
pub use settings::RunSettings;
pub use watched::Watched;
