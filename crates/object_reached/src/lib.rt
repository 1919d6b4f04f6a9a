//! The objects of which escalation and dependency blocks speak (chapters "Object Definitions", "Notification
//! Escalations" and "Host and Service Dependencies"): hosts that they list by themselves or by host groups, services
//! by hosts and descriptions or by service groups.
#![tactic(auto)]

pub mod alike;
pub mod laws;
pub mod listing;
mod numbers;
pub mod reached;
pub mod roles;
pub mod services;
