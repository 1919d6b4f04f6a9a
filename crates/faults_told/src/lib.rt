//! What a program tells of the faults of object text: of each the block that holds the value, the directive, what is wrong
//! with it, and which blocks have it from there.
#![tactic(auto)]

pub mod blocks_named;
pub mod forms;
pub mod located;
pub mod near;
pub mod ranges_told;
pub mod telling;
pub mod template_faults;
pub mod text_forms;
pub mod values_told;
