//! Configurations that tests are run on.

ghost use Rattle.std.specs.Prelude.{◌≡◌, IfOk, length};
ghost use Rattle.due_laws.specs.Rows.{base};
ghost use Rattle.due_model.specs.claims.Accepted.{IsAccepted};

use crate::rows::{ContactRow, ObjectRow, Rows, config_of};
use due_model::config::{Config, ContactId, ContactList, LaneId, Object, ObjectId};
use due_model::options::OptionLetters;
use due_model::short_list::Text;
use std::alloc::{AllocError, Global};

/// Web, with the first contact.
const WEB: ObjectRow = ObjectRow {
    name: "web",
    host: None,
    enabled: true,
    options: OptionLetters::ALL,
    period: None,
    interval: 1,
    delay: 0,
    volatile: false,
    contacts: &[ContactId(0)],
};

/// Ann, notified of everything on the first lane.
const ANN: ContactRow = ContactRow {
    name: "ann",
    ..ContactRow::FREE
};

/// One host, its contact and a command.
const BASE: Rows<'static> = Rows {
    lanes: 1,
    contacts: &[ANN],
    objects: &[WEB],
    periods: &[],
    escalations: &[],
    dependencies: &[],
};

/// Eight hosts, and a contact who is notified of them on each of sixteen lanes.
const WIDE: Rows<'static> = Rows {
    lanes: 16,
    contacts: &[ContactRow {
        lanes: &[
            LaneId(0),
            LaneId(1),
            LaneId(2),
            LaneId(3),
            LaneId(4),
            LaneId(5),
            LaneId(6),
            LaneId(7),
            LaneId(8),
            LaneId(9),
            LaneId(10),
            LaneId(11),
            LaneId(12),
            LaneId(13),
            LaneId(14),
            LaneId(15),
        ],
        ..ANN
    }],
    objects: &[WEB; 8],
    ..Rows::NONE
};

/// One host, its contact and a command.
pub fn base(alloc: Global) -> Result<Config, AllocError>
    ensures { IfOk result (λ c. c ≡ base) }
{
    config_of(alloc, BASE)
}

/// Eight hosts, and a contact who is notified of them on each of sixteen lanes.
pub fn wide(alloc: Global) -> Result<Config, AllocError>
    ensures accepted { IfOk result (λ config. IsAccepted config) }
    ensures lanes { IfOk result (λ config. length config.lanes ≡ 16) }
    ensures objects { IfOk result (λ config. length config.objects ≡ 8) }
{
    config_of(alloc, WIDE)
}

/// An object of this name, with no contacts: a host, or a service of that host.
pub fn object(alloc: Global, name: &str, host: Option<ObjectId>) -> Result<Object, AllocError>
    ensures name { IfOk result (λ object. object.name ≡ name.now) }
    ensures host { IfOk result (λ object. object.host ≡ host) }
{
    Ok(Object {
        name: Text::new(alloc, name.as_bytes())?,
        host,
        enabled: true,
        options: OptionLetters::ALL,
        period: None,
        interval: 60,
        delay: 0,
        volatile: false,
        contacts: ContactList::new(alloc, &[])?,
    })
}
