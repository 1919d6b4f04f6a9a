//! Notices of two configurations, compared by the names of what they speak of.

ghost use Rattle.std.specs.Prelude.{◌≡◌};
ghost use Rattle.std.specs.Option.{option_copied};
ghost use Rattle.notice_text.specs.claims.Texts.{own_name};
ghost use Rattle.changed_notices.specs.Names.{host_of, is_same, name_of_host, same_host};

use due_model::config::{Config, ObjectId};
use due_model::notice::Notice;
use notice_text::texts::{contact_name, lane_name};

/// An object's own name.
fn own_name(config: &Config, object: ObjectId) -> &[u8]
    ensures { result.now ≡ own_name config.now object.0 }
{
    match config.objects.as_slice().get(object.0 as usize) {
        Some(object) => object.name.as_slice(),
        None => b"",
    }
}

/// The name of the host of this number, if there is a number.
fn name_of_host(config: &Config, host: Option<ObjectId>) -> Option<&[u8]>
    ensures { option_copied result ≡ name_of_host config.now host }
{
    match host {
        Some(host) => Some(own_name(config, host)),
        None => None,
    }
}

/// The number of an object's host, if it is a service.
fn host_of(config: &Config, object: ObjectId) -> Option<ObjectId>
    ensures { result ≡ host_of config.now object.0 }
{
    match config.objects.as_slice().get(object.0 as usize) {
        Some(object) => object.host,
        None => None,
    }
}

/// Whether two objects are hosts, or services of hosts of one name.
fn same_host(host: Option<&[u8]>, other: Option<&[u8]>) -> bool
    ensures { result ≡ same_host (option_copied host.entry) (option_copied other.entry) }
{
    match (host, other) {
        (None, None) => true,
        (None, Some(_)) => false,
        (Some(_), None) => false,
        (Some(host), Some(other)) => host == other,
    }
}

/// Whether a notice of the first configuration and one of the second tell of one object, to one contact, on one lane.
pub(crate) fn is_same(a: &Config, b: &Config, notice: &Notice, other: &Notice) -> bool
    ensures { result ≡ is_same a.now b.now notice.now other.now }
{
    contact_name(a, notice.contact) == contact_name(b, other.contact)
        && lane_name(a, notice.lane) == lane_name(b, other.lane)
        && own_name(a, notice.object) == own_name(b, other.object)
        && same_host(
            name_of_host(a, host_of(a, notice.object)),
            name_of_host(b, host_of(b, other.object)),
        )
}
