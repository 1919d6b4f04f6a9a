//! Escalations (chapter "Notification Escalations"): who is notified, and how long after a problem notice the next
//! one is due. The calls read the escalations of one object, and cost what those are and the contacts that they name.
#![tactic(auto)]

pub mod contacts;
mod in_order;
pub mod interval;
mod matching;
