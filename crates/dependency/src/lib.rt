//! Whether a notification dependency of an object fails (chapter "Host and Service Dependencies"). A question looks
//! only at the entries that the object's chains reach, at each at most once, and takes no memory.
#![tactic(auto)]

pub mod search;
