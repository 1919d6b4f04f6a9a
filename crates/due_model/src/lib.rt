//! The data of the notification engine, and in `specs/` the definitions that every crate's contracts
//! cite: who is due which notice after a list of events.
#![tactic(auto)]

mod by_object;
pub mod config;
pub mod dependencies;
pub mod escalations;
pub mod event;
pub mod item;
pub mod limits;
pub mod notice;
pub mod objects;
pub mod options;
pub mod proper;
pub mod rules;
pub mod sequence;
pub mod short_list;
pub mod state;
pub mod zone;
