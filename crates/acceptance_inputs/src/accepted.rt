//! Whether a configuration is an accepted one, looked at clause by clause. A test builds any configuration, asks
//! here, and then calls what wants an accepted one.

ghost use Rattle.std.specs.Prelude.{◌≤◌, ◌<◌, All, IfSome, IsTrue, length};
ghost use Rattle.due_model.specs.claims.Accepted.{ContactFits, DependencyFits, EscalationFits};
ghost use Rattle.due_model.specs.claims.Accepted.{HasContacts, HasPeriod, IsAccepted, IsHost};
ghost use Rattle.due_model.specs.claims.Accepted.{ObjectFits, RangeFits, RightsFit};
ghost use Rattle.acceptance_inputs.specs.Ladder.{IsFew, IsFewBesides, IsFall, IsLadder, IsStep};

use due_model::config::{
    Config, Contact, ContactId, Dependency, Escalation, Object, ObjectId, Period, PeriodId, Range,
    Rights,
};
use due_model::limits::{
    MAX_CONTACTS, MAX_DEPENDENCIES, MAX_ESCALATIONS, MAX_LANES, MAX_NUMBER, MAX_OBJECTS,
    MAX_PERIODS,
};

/// Whether this configuration is accepted, and its order shows that nothing loops: each period excludes only
/// periods of a smaller number, and each object depends only on objects of a smaller number. It takes no memory.
pub fn is_accepted(config: &Config) -> bool
    ensures { IsTrue result → IsAccepted config.now }
{
    if !are_few(config) || !are_few_besides(config) {
        return false;
    }
    if !do_objects_fit(config) || !do_contacts_fit(config) {
        return false;
    }
    if !are_periods_in_order(config.periods.as_slice()) || !do_escalations_fit(config) {
        return false;
    }
    do_dependencies_fit(config)
}

/// Whether there are no more objects, contacts and lanes than there may be.
fn are_few(config: &Config) -> bool
    ensures { IsTrue result → IsFew config.now }
{
    config.objects.len() <= MAX_OBJECTS
        && config.contacts.len() <= MAX_CONTACTS
        && config.lanes.len() <= MAX_LANES
}

/// Whether there are no more periods, escalations and dependencies than there may be.
fn are_few_besides(config: &Config) -> bool
    ensures { IsTrue result → IsFewBesides config.now }
{
    config.periods.len() <= MAX_PERIODS
        && config.escalations.len() <= MAX_ESCALATIONS
        && config.dependencies.len() <= MAX_DEPENDENCIES
}

/// Whether the configuration has this period, if one is named.
fn has_period(config: &Config, period: Option<PeriodId>) -> bool
    ensures { IsTrue result → HasPeriod config.now period }
{
    match period {
        None => true,
        Some(period) => usize::from(period.0) < config.periods.len(),
    }
}

/// Whether the configuration has these contacts.
fn has_contacts(config: &Config, contacts: &[ContactId]) -> bool
    ensures { IsTrue result → HasContacts config.now contacts.now }
{
    contacts
        .iter()
        .all(|contact| usize::from(contact.0) < config.contacts.len())
}

/// Whether the object of this number is a host, if one is named.
fn is_host(config: &Config, host: Option<ObjectId>) -> bool
    ensures { IsTrue result → IfSome host (λ id. IsHost config.now id.0) }
{
    let Some(host) = host else {
        return true;
    };
    match config.objects.as_slice().get(usize::from(host.0)) {
        None => false,
        Some(object) => object.host.is_none(),
    }
}

/// Whether all that an object names is there, and its numbers keep their limits.
fn object_fits(config: &Config, object: &Object) -> bool
    ensures { IsTrue result → ObjectFits config.now object.now }
{
    is_host(config, object.host)
        && has_period(config, object.period)
        && object.interval <= MAX_NUMBER
        && object.delay <= MAX_NUMBER
        && has_contacts(config, object.contacts.as_slice())
}

/// Whether each object fits.
fn do_objects_fit(config: &Config) -> bool
    ensures { IsTrue result → All (ObjectFits config.now) config.now.objects }
{
    config
        .objects
        .as_slice()
        .iter()
        .all(|object| object_fits(config, object))
}

/// Whether the period and the lanes of these rights are there.
fn do_rights_fit(config: &Config, rights: &Rights) -> bool
    ensures { IsTrue result → RightsFit config.now rights.now }
{
    has_period(config, rights.period)
        && rights
            .lanes
            .as_slice()
            .iter()
            .all(|lane| usize::from(lane.0) < config.lanes.len())
}

/// Whether a contact's rights fit.
fn contact_fits(config: &Config, contact: &Contact) -> bool
    ensures { IsTrue result → ContactFits config.now contact.now }
{
    do_rights_fit(config, &contact.hosts) && do_rights_fit(config, &contact.services)
}

/// Whether each contact fits.
fn do_contacts_fit(config: &Config) -> bool
    ensures { IsTrue result → All (ContactFits config.now) config.now.contacts }
{
    config
        .contacts
        .as_slice()
        .iter()
        .all(|contact| contact_fits(config, contact))
}

/// Whether ranges lie within a day, and start no later than they end.
fn do_ranges_fit(ranges: &[Range]) -> bool
    ensures { IsTrue result → All RangeFits ranges.now }
{
    ranges
        .iter()
        .all(|range| range.start <= range.end && range.end <= 86_400)
}

/// Whether each of these periods has a smaller number than this.
fn are_below(excludes: &[PeriodId], place: usize) -> bool
    ensures { IsTrue result → All (λ excluded. excluded.0 < place) excludes.now }
{
    excludes
        .iter()
        .all(|excluded| usize::from(excluded.0) < place)
}

/// Whether a period may stand at this place: its ranges fit, and it excludes periods before it alone.
fn may_stand(period: &Period, place: usize) -> bool
    ensures { IsTrue result → IsStep place period.now }
{
    period
        .days
        .iter()
        .all(|ranges| do_ranges_fit(ranges.as_slice()))
        && period
            .dated
            .as_slice()
            .iter()
            .all(|line| do_ranges_fit(line.ranges.as_slice()))
        && are_below(period.excludes.as_slice(), place)
}

/// Whether each period may stand at its place.
fn are_periods_in_order(periods: &[Period]) -> bool
    ensures { IsTrue result → IsLadder periods.now }
{
    for (place, period) in periods.iter().enumerate() {
        if !may_stand(period, place) {
            return false;
        }
    }
    true
}

/// Whether all that an escalation names is there, and its numbers keep their limits.
fn escalation_fits(config: &Config, escalation: &Escalation) -> bool
    ensures { IsTrue result → EscalationFits config.now escalation.now }
{
    usize::from(escalation.object.0) < config.objects.len()
        && escalation.first <= MAX_NUMBER
        && escalation.last <= MAX_NUMBER
        && escalation.interval <= MAX_NUMBER
        && has_period(config, escalation.period)
        && has_contacts(config, escalation.contacts.as_slice())
}

/// Whether each escalation fits.
fn do_escalations_fit(config: &Config) -> bool
    ensures { IsTrue result → All (EscalationFits config.now) config.now.escalations }
{
    config
        .escalations
        .as_slice()
        .iter()
        .all(|escalation| escalation_fits(config, escalation))
}

/// Whether all that a dependency names is there, and its master stands before its dependent.
fn dependency_fits(config: &Config, dependency: &Dependency) -> bool
    ensures { IsTrue result → IsFall config.now dependency.now }
{
    usize::from(dependency.dependent.0) < config.objects.len()
        && dependency.master.0 < dependency.dependent.0
        && has_period(config, dependency.period)
}

/// Whether each dependency fits.
fn do_dependencies_fit(config: &Config) -> bool
    ensures { IsTrue result → All (IsFall config.now) config.now.dependencies }
{
    config
        .dependencies
        .as_slice()
        .iter()
        .all(|dependency| dependency_fits(config, dependency))
}
