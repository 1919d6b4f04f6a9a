//! What tests are run on: configurations, texts and readers that the tests of more than one crate need.
#![tactic(auto)]

pub mod accepted;
pub mod configs;
pub mod dependencies;
pub mod events;
pub mod periods;
pub mod readers;
pub mod rows;
pub mod texts;
