//! What is kept of one object's running problem: how many problem notices went out, and when the clock next
//! attempts it.
#![tactic(auto)]

mod book;
pub mod laws;

pub use book::Book;
