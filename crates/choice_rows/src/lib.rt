//! Laws and worked rows of the choices: for each field the same feed by this project's rule and by the daemon's. They are a crate
//! beside `due_laws`, so that the two are checked side by side.
#![tactic(auto)]

mod laws;
mod rows;
