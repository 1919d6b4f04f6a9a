//! What commands read: the object text at the head of an input or of a file, and its configuration; the
//! zone of a zone file or of a rule.
#![tactic(auto)]

pub mod objects;
pub mod zones;

pub use objects::{read_object_file, read_objects};
pub use zones::{read_zone_file, zone_of};
