//! Who isn't told of an object's problem though the configuration names them, why, and when they are told later on.
#![tactic(auto)]

mod forms;
mod lines;
mod missed;
mod named;
mod reasons;

pub use forms::{Form, RowForm, is_coloured, is_json, push_reason_json, push_row_end};
pub use lines::{refuses, tells};
pub use missed::push_missed;
pub use named::{has_command, is_named};
pub use reasons::push_escalations;
