//! Of which directives it is asked where their values stand.

ghost use Rattle.std.specs.Prelude.{◌≡◌, IfOk};
ghost use Rattle.std.specs.Option.{option_copied};
ghost use Rattle.value_places.specs.Questions.{AreRights, directive_at, enabled_directive, is_of_host};
ghost use Rattle.value_places.specs.Questions.{options_directive, other_place, period_directive, place_from};

use crate::origins::Origin;
use object_inheritance::inherited::{Values, values_of};
use object_inheritance::templates::Templates;
use std::alloc::{AllocError, Global};

/// The directive by which the filter goes that is tried after so many of the object's; none where it goes by none.
pub(crate) fn directive_at(filter: usize) -> Option<&'static str>
    ensures { option_copied result ≡ directive_at filter }
{
    if filter == 1 {
        Some("notifications_enabled")
    } else if filter == 4 {
        Some("notification_options")
    } else if filter == 6 {
        Some("notification_period")
    } else if filter == 9 {
        Some("first_notification_delay")
    } else if filter == 10 {
        Some("notification_interval")
    } else {
        None
    }
}

/// Whether a service takes that directive from its host, where its own block lacks it.
fn is_of_host(filter: usize) -> bool
    ensures { result ≡ is_of_host filter }
{
    filter == 6 || filter == 10
}

/// The place of the block that counts, where the object's own lacks the directive.
pub(crate) fn other_place(origin: Origin, filter: usize) -> usize
    ensures { result ≡ other_place origin filter }
{
    if is_of_host(filter) {
        origin.host
    } else {
        origin.place
    }
}

/// The first place where the block there has anything for the directive of the values, and else the second.
pub(crate) fn place_from(values: &Values<'_>, own: usize, other: usize) -> usize
    ensures { result ≡ place_from values.now.blocks values.now.directive own other }
{
    if values.value(own).is_some() {
        own
    } else {
        other
    }
}

/// The directive that says whether a contact is notified of services, or of hosts.
pub(crate) fn enabled_directive(service: bool) -> &'static str
    ensures { result.now ≡ enabled_directive service }
{
    if service {
        "service_notifications_enabled"
    } else {
        "host_notifications_enabled"
    }
}

/// The directive that lists of what.
pub(crate) fn options_directive(service: bool) -> &'static str
    ensures { result.now ≡ options_directive service }
{
    if service {
        "service_notification_options"
    } else {
        "host_notification_options"
    }
}

/// The directive that names when.
pub(crate) fn period_directive(service: bool) -> &'static str
    ensures { result.now ≡ period_directive service }
{
    if service {
        "service_notification_period"
    } else {
        "host_notification_period"
    }
}

/// What all blocks have for the directives of contacts, for services or for hosts.
#[derive(Drop)]
pub(crate) struct Rights<'a> {
    pub(crate) service: bool,
    pub(crate) enabled: Values<'a>,
    pub(crate) options: Values<'a>,
    pub(crate) period: Values<'a>,
}

/// What the blocks have for them.
pub(crate) fn rights_of<'a>(
    alloc: Global,
    templates: &Templates<'a>,
    service: bool,
) -> Result<Rights<'a>, AllocError>
    ensures is { IfOk result (λ rights. rights.service ≡ service) }
    ensures rights { IfOk result (AreRights templates.now) }
{
    Ok(Rights {
        service,
        enabled: values_of(alloc, templates, enabled_directive(service))?,
        options: values_of(alloc, templates, options_directive(service))?,
        period: values_of(alloc, templates, period_directive(service))?,
    })
}
