//! The object of which the slow program speaks.

use due_model::config::{Config, Object, ObjectId};
use due_model::zone::Zone;

/// An object, with the configuration that has it and the zone in which periods are read.
#[derive(Clone, Copy)]
pub(crate) struct Subject<'a> {
    pub(crate) config: &'a Config,
    pub(crate) zone: &'a Zone,
    /// The number of the object in the configuration.
    pub(crate) id: ObjectId,
    pub(crate) object: &'a Object,
}
