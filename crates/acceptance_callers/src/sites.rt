//! Configurations that runs over feeds are tested with.

use acceptance_inputs::rows::{ContactRow, ObjectRow, Rows, config_of};
use due_model::config::{Config, ContactId, LaneId};
use std::alloc::{AllocError, Global};

/// A host that is looked after by the one contact.
const HOST: ObjectRow = ObjectRow {
    interval: 1,
    contacts: &[ContactId(0)],
    ..ObjectRow::PLAIN
};

/// Eight hosts, whose contact is notified of everything by mail and by pager.
pub(crate) fn eight_hosts(alloc: Global) -> Result<Config, AllocError> {
    let contact = ContactRow {
        lanes: &[LaneId(0), LaneId(1)],
        ..ContactRow::FREE
    };
    config_of(
        alloc,
        Rows {
            lanes: 2,
            contacts: &[contact],
            objects: &[HOST; 8],
            ..Rows::NONE
        },
    )
}
