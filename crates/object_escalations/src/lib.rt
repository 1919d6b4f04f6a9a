//! The escalations of object text (chapters "Object Definitions" and "Notification Escalations"): the objects of which
//! escalation blocks speak, within the limit of escalations, and the escalations that they give.
#![tactic(auto)]

pub mod entries;
pub mod escalated;
mod given;
pub mod laws;
