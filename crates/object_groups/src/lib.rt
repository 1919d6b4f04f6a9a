//! The groups of object text and their members (chapter "Object Definitions"): the objects of each type by
//! their numbers and names, lists of names, and which objects are members of each group of hosts or contacts.
#![tactic(auto)]

pub mod first;
pub mod groups;
pub mod laws;
pub mod lists;
pub mod names;
pub mod objects;
pub mod shared;
