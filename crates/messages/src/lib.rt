//! What becomes of each message of an outcome (chapter "Notifications"): who receives a notification, and what each
//! receiver has of it, a notice on each of its lanes or the filter that refused it. The calls cost what is told: the
//! escalations of one object and the receivers that they name, not all contacts.
#![tactic(auto)]

mod contact;
pub mod entries;
mod message;
pub mod outcome;
mod receivers;
