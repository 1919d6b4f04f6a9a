//! The texts of numbers, objects, contacts and lanes.

ghost use Rattle.std.specs.Prelude.{◌≡◌, ◌++◌, ℕ, List, OnErr, OnOk};
ghost use Rattle.notice_text.specs.claims.Texts.{contact_text, host_part, lane_text, number_text};
ghost use Rattle.notice_text.specs.claims.Texts.{object_text, own_name};

use due_model::config::{Config, ContactId, LaneId, ObjectId};
use itoa::Buffer;
use std::alloc::AllocError;

/// Adds the number of a notice, a dash where it has none. A refused growth is the only error, and adds nothing.
pub fn push_notice_number(text: &mut Vec<u8>, number: u64) -> Result<(), AllocError>
    ensures number { OnOk result (text.new.items ≡ text.old.items ++ number_text number) }
    ensures left { OnErr result (text.new.items ≡ text.old.items) }
{
    if number == 0 {
        text.extend_from_slice(b"-")
    } else {
        let mut buffer = Buffer::new();
        text.extend_from_slice(buffer.format(number).as_bytes())
    }
}

/// An object's own name.
fn own_name(config: &Config, object: ObjectId) -> &[u8]
    ensures { result.now ≡ own_name config.now object.0 }
{
    match config.objects.as_slice().get(object.0 as usize) {
        Some(object) => object.name.as_slice(),
        None => b"",
    }
}

/// Adds the name of a service's host, and a slash.
fn push_host(text: &mut Vec<u8>, config: &Config, host: Option<ObjectId>) -> Result<(), AllocError>
    ensures host { OnOk result (text.new.items ≡ text.old.items ++ host_part config.now host) }
    ensures left { OnErr result ((more : List ℕ) × (text.new.items ≡ text.old.items ++ more)) }
{
    let Some(host) = host else {
        return Ok(());
    };
    text.extend_from_slice(own_name(config, host))?;
    text.extend_from_slice(b"/")
}

/// Adds an object: `host`, or `host/service`; nothing for a number that no object has. A refused growth is the only
/// error, and leaves what was there, and what was added before it.
pub fn push_object(text: &mut Vec<u8>, config: &Config, object: ObjectId) -> Result<(), AllocError>
    ensures object { OnOk result
        (text.new.items ≡ text.old.items ++ object_text config.now object.0) }
    ensures left { OnErr result ((more : List ℕ) × (text.new.items ≡ text.old.items ++ more)) }
{
    match config.objects.as_slice().get(object.0 as usize) {
        Some(object) => {
            push_host(text, config, object.host)?;
            text.extend_from_slice(object.name.as_slice())
        }
        None => text.extend_from_slice(b""),
    }
}

/// The name of a contact; empty for a number that no contact has.
pub fn contact_name(config: &Config, contact: ContactId) -> &[u8]
    ensures { result.now ≡ contact_text config.now contact.0 }
{
    match config.contacts.as_slice().get(contact.0 as usize) {
        Some(contact) => contact.name.as_slice(),
        None => b"",
    }
}

/// The name of a lane; empty for a number that no lane has.
pub fn lane_name(config: &Config, lane: LaneId) -> &[u8]
    ensures { result.now ≡ lane_text config.now lane.0 }
{
    match config.lanes.as_slice().get(lane.0 as usize) {
        Some(lane) => lane.name.as_slice(),
        None => b"",
    }
}
