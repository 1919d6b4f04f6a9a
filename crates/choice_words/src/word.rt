//! A word that says whose rule decides in a field.

ghost use Rattle.std.specs.Prelude.{◌≡◌};
ghost use Rattle.choice_words.specs.Words.{of_field, of_hosts, of_reading, of_receivers, of_waits, said, so};

use crate::field::Field;

/// A field, and whether the daemon's rule decides in it.
#[derive(Clone, Copy, Debug, PartialEq, Eq)]
pub struct ChoiceWord {
    pub field: Field,
    pub daemons: bool,
}

/// A field, and whose rule decides in it.
fn so(field: Field, daemons: bool) -> Option<ChoiceWord>
    ensures { result ≡ so field daemons }
{
    Some(ChoiceWord { field, daemons })
}

/// What a word says of a field, if it is one of the two.
#[tactic(auto, unfolding(crate::specs::Words::of_field))]
fn of_field(field: Field, own: &str, nagios: &str, word: &str) -> Option<ChoiceWord>
    ensures { result ≡ of_field field own.now nagios.now word.now }
{
    if word == own {
        so(field, false)
    } else if word == nagios {
        so(field, true)
    } else {
        None
    }
}

/// Of hosts and dependencies.
fn of_hosts(word: &str) -> Option<ChoiceWord>
    ensures { result ≡ of_hosts word.now }
{
    of_field(Field::HostDown, "host_down=own", "host_down=nagios", word)
        .or(of_field(
            Field::HostRepeats,
            "host_repeats=own",
            "host_repeats=nagios",
            word,
        ))
        .or(of_field(Field::HostDep, "host_dep=own", "host_dep=nagios", word))
        .or(of_field(
            Field::DepPending,
            "dep_pending=own",
            "dep_pending=nagios",
            word,
        ))
}

/// Of who is told.
fn of_receivers(word: &str) -> Option<ChoiceWord>
    ensures { result ≡ of_receivers word.now }
{
    of_field(Field::Nobody, "nobody=own", "nobody=nagios", word)
        .or(of_field(Field::Told, "told=own", "told=nagios", word))
        .or(of_field(Field::EscOther, "esc_other=own", "esc_other=nagios", word))
        .or(of_field(
            Field::ContactNone,
            "contact_none=own",
            "contact_none=nagios",
            word,
        ))
}

/// Of waits and delays.
fn of_waits(word: &str) -> Option<ChoiceWord>
    ensures { result ≡ of_waits word.now }
{
    of_field(
        Field::ResetWait,
        "reset_wait=own",
        "reset_wait=nagios",
        word,
    )
    .or(of_field(Field::Delay, "delay=own", "delay=nagios", word))
    .or(of_field(
        Field::PeriodWait,
        "period_wait=own",
        "period_wait=nagios",
        word,
    ))
    .or(of_field(
        Field::DowntimeWait,
        "downtime_wait=own",
        "downtime_wait=nagios",
        word,
    ))
}

/// Of what is read, and what is named.
fn of_reading(word: &str) -> Option<ChoiceWord>
    ensures { result ≡ of_reading word.now }
{
    of_field(
        Field::AtResults,
        "at_results=own",
        "at_results=nagios",
        word,
    )
    .or(of_field(Field::Order, "order=own", "order=nagios", word))
    .or(of_field(Field::Text, "text=own", "text=nagios", word))
}

/// What a word says, if it is FIELD=own or FIELD=nagios.
pub(crate) fn said(word: &str) -> Option<ChoiceWord>
    ensures { result ≡ said word.now }
{
    of_hosts(word)
        .or(of_receivers(word))
        .or(of_waits(word))
        .or(of_reading(word))
}
