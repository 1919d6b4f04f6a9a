//! The words of a command line that say whose rules decide: this project's or the daemon's.
#![tactic(auto)]

mod field;
mod word;
mod words;

pub use field::Field;
pub use word::ChoiceWord;
pub use words::choices_of;
