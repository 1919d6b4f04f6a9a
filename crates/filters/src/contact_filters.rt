//! The filters of a contact.

ghost use Rattle.std.specs.Prelude.{◌≡◌, ◌<◌, ◌≤◌, not, length, slice_get, Some};
ghost use Rattle.std.specs.Result.{result_err};
ghost use Rattle.due_model.specs.declared.config.Contact.{Contact};
ghost use Rattle.due_model.specs.claims.Limits.{last_moment};
ghost use Rattle.due_model.specs.declared.config.Config.{Config};
ghost use Rattle.due_model.specs.claims.Rules.{contact_failing, first_failing, in_daemons_contact_order};
ghost use Rattle.due_model.specs.claims.Rules.{in_own_contact_order, is_untold, letter_of};
ghost use Rattle.time_period.specs.claims.Days.{AreCompiled};
ghost use Rattle.filters.specs.Attempt.{plain, rights_of};

use crate::attempt::Attempt;
use crate::verdict::stop_if;
use due_model::config::{Config, Contact, ContactId, Rights};
use due_model::notice::Filter;
use due_model::options::OptionLetters;

/// Tries the filters of a contact in their order, or in the daemon's where that is chosen. The error is the first one that
/// fails (chapter "Notifications"). The attempt's letter is that of its kind and state, and its periods are the configuration's. It takes no memory.
pub fn contact_verdict(
    config: &Config,
    contact: ContactId,
    attempt: &Attempt<'_>,
    told: Option<OptionLetters>,
) -> Result<(), Filter>
    requires contact { contact.0 < length config.now.contacts }
    requires periods { AreCompiled config.now attempt.now.periods.now }
    requires moment { attempt.now.moment ≤ last_moment }
    requires letter { attempt.now.letter ≡ letter_of attempt.now.kind attempt.now.state }
    ensures { (k : Contact) → slice_get config.now.contacts contact.0 ≡ Some k
        → result_err result ≡ contact_failing config.now attempt.now.zone.now
        (rights_of attempt.now.service k) (plain attempt.now) told }
{
    let rights = rights_of(
        attempt.service,
        &config.contacts.as_slice()[usize::from(contact.0)],
    );
    if config.choices.order {
        verdict_in_daemons_order(rights, attempt, told)
    } else {
        verdict_in_own_order(rights, attempt, told)
    }
}

/// Tries the filters of a contact with these rights in their order.
fn verdict_in_own_order(
    rights: &Rights,
    attempt: &Attempt<'_>,
    told: Option<OptionLetters>,
) -> Result<(), Filter>
    requires moment { attempt.now.moment ≤ last_moment }
    requires letter { attempt.now.letter ≡ letter_of attempt.now.kind attempt.now.state }
    ensures { (c : Config) → AreCompiled c attempt.now.periods.now
        → result_err result ≡ first_failing (in_own_contact_order c attempt.now.zone.now
        rights.now (plain attempt.now) told) }
{
    stop_if(is_disabled(rights), Filter::ContactDisabled)?;
    stop_if(attempt.lacks_letter(rights.options), Filter::ContactOptions)?;
    stop_if(attempt.is_outside(rights.period), Filter::ContactPeriod)?;
    stop_if(is_untold(told, rights), Filter::ContactNotTold)
}

/// Tries the filters of a contact with these rights in the daemon's order.
fn verdict_in_daemons_order(
    rights: &Rights,
    attempt: &Attempt<'_>,
    told: Option<OptionLetters>,
) -> Result<(), Filter>
    requires moment { attempt.now.moment ≤ last_moment }
    requires letter { attempt.now.letter ≡ letter_of attempt.now.kind attempt.now.state }
    ensures { (c : Config) → AreCompiled c attempt.now.periods.now
        → result_err result ≡ first_failing (in_daemons_contact_order c attempt.now.zone.now
        rights.now (plain attempt.now) told) }
{
    stop_if(is_disabled(rights), Filter::ContactDisabled)?;
    stop_if(attempt.is_outside(rights.period), Filter::ContactPeriod)?;
    stop_if(attempt.lacks_letter(rights.options), Filter::ContactOptions)?;
    stop_if(is_untold(told, rights), Filter::ContactNotTold)
}

/// None of these letters is one of the contact's.
fn is_untold(told: Option<OptionLetters>, rights: &Rights) -> bool
    ensures { result ≡ is_untold told rights.now.options }
{
    match told {
        Some(letters) => !letters.meets(rights.options),
        None => false,
    }
}

/// What a contact is notified of, and on which lanes: for services, or for hosts.
pub fn rights_of(service: bool, contact: &Contact) -> &Rights
    ensures { result.now ≡ rights_of service contact.now }
{
    if service {
        &contact.services
    } else {
        &contact.hosts
    }
}

/// The contact's notifications for this kind of object are off.
fn is_disabled(rights: &Rights) -> bool
    ensures { result ≡ not rights.now.enabled }
{
    !rights.enabled
}
