//! The steps of a world, its settings, and a lane with the steps that are its own.
#![tactic(auto)]

mod lane;
mod line;
mod settings;
mod step;

pub use lane::{KeptLane, new_lanes};
pub use line::LineParts;
pub use settings::{MAX_CHANNELS, Settings};
pub use step::{LaneStep, Step, StepFault, Stopped};
