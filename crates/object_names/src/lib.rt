//! The names that blocks have and the names that they mention, beside those of all other blocks (chapter "Object
//! Definitions"): the first object whose name an earlier one of its type has, and the first that names something
//! that isn't there.
#![tactic(auto)]

pub mod doubled;
pub mod named;
pub mod references;
pub mod unknown;
