//! A run that goes on where earlier runs of the same feed have ended, however they did: what their journals say is taken isn't handed
//! over again, and all else is.
#![tactic(auto)]

pub mod fault;
pub mod inner;
pub mod journal_lines;
mod journaled_run;
pub mod posts;
mod ready;
pub mod resumed;
pub mod settings;

pub use fault::ResumeFault;
pub use resumed::{Resumed, do_logged_resumed_run, do_resumed_run};
pub use settings::{ResumedSettings, StateSettings};
