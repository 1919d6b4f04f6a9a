//! Which local days the dated lines of a time period name (chapter "Time Periods", "Time Range Exceptions").
#![tactic(auto)]

mod calendar_time;
mod class;
mod date;

pub use calendar_time::CalendarTime;
pub use class::class_of;
