//! The world of steps: posted events, deciders, queues and channels as one state, in which each step is one
//! action of one actor. Whatever the order of the steps, what each channel holds is what the rules make due.
#![tactic(auto)]

mod deciders;
pub mod laws;
mod line;
mod world;

pub use steps::{LaneStep, LineParts, MAX_CHANNELS, Settings, Step, StepFault, Stopped};
pub use world::World;
