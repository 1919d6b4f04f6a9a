//! The filters of an object and of a contact, tried in their order (chapter "Notifications", "What Filters Must Be
//! Passed In Order For Notifications To Be Sent?"). Each filter is a function, and none of them takes memory.
#![tactic(auto)]

pub mod attempt;
pub mod contact_filters;
pub mod object_filters;
mod verdict;
