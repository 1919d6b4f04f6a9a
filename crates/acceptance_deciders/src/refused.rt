//! Rows of events, by a decider that decides an event again where its growth was refused. `tests/growths` runs them with
//! each growth refused in turn.

ghost use Rattle.std.specs.Prelude.{All};
ghost use Rattle.due_model.specs.claims.Accepted.{IsAccepted};
ghost use Rattle.due_model.specs.claims.Proper.{IsProper};

use crate::said::Said;
use acceptance_inputs::accepted::is_accepted;
use acceptance_inputs::events::{are_proper, clock, hard};
use acceptance_inputs::rows::{ContactRow, EscalationRow, ObjectRow, Rows, config_of};
use decider::Share;
use due_model::config::{Config, ContactId, ObjectId};
use due_model::event::Event;
use due_model::notice::Filter;
use due_model::options::OptionLetters;
use due_model::state::State;
use std::alloc::Global;
use std::process::Abort;
use std::test::Fail;

/// One decider.
const SOLE: Share = Share {
    decider: 0,
    deciders: 1,
};

/// A host whose first contact is told of it again after a minute.
const WEB: ObjectRow = ObjectRow {
    interval: 1,
    contacts: &[ContactId(0)],
    ..ObjectRow::PLAIN
};

/// The third notice goes to the second contact.
const THIRD: EscalationRow = EscalationRow {
    object: ObjectId(0),
    first: 3,
    last: 3,
    interval: 1,
    period: None,
    options: OptionLetters::ALL,
    contacts: &[ContactId(1)],
};

/// A contact who is told of hosts that are down, and of nothing else.
const OF_DOWN: ContactRow = ContactRow {
    options: OptionLetters {
        down: true,
        unreachable: false,
        warning: false,
        unknown: false,
        critical: false,
        recovery: false,
        flapping: false,
        downtime: false,
    },
    ..ContactRow::FREE
};

/// A service of that host.
const HTTP: ObjectRow = ObjectRow {
    host: Some(ObjectId(0)),
    ..WEB
};

/// A contact who is told of everything but warnings.
const BUT_OF_WARNINGS: ContactRow = ContactRow {
    options: OptionLetters {
        warning: false,
        ..OptionLetters::ALL
    },
    ..ContactRow::FREE
};

/// What a notice or a suppression tells: its event, its number, and its contact.
type Told = (u64, u64, u16);

/// Compares what was told, in order.
fn are_told(rt: &impl Abort, said: &Said, notices: &[Told], suppressed: &[(Told, Filter)]) {
    let sent = said.notices.as_slice();
    assert_eq!(rt; sent.len(), notices.len());
    for (notice, told) in sent.iter().zip(notices) {
        assert_eq!(rt; (notice.event, notice.number, notice.contact.0), *told);
    }
    let log = said.suppressions.as_slice();
    assert_eq!(rt; log.len(), suppressed.len());
    for (line, (told, filter)) in log.iter().zip(suppressed) {
        assert_eq!(rt;
            (line.event, line.number, line.contact),
            (told.0, told.1, Some(ContactId(told.2)))
        );
        assert_eq!(rt; line.filter, *filter);
    }
}

/// What a decider says of these events.
fn said(rt: &impl Abort, alloc: Global, config: &Config, events: &[Event]) -> Result<Said, Fail>
    requires { IsAccepted config.now }
{
    assert!(rt; are_proper(config, events));
    Said::of(alloc, config, events, SOLE)
}

/// Compares what a decider of this configuration tells of these events.
fn tells(
    rt: &impl Abort,
    alloc: Global,
    config: &Config,
    events: &[Event],
    notices: &[Told],
    suppressed: &[(Told, Filter)],
) -> Result<(), Fail> {
    assert!(rt; is_accepted(config));
    are_told(rt, &said(rt, alloc, config, events)?, notices, suppressed);
    Ok(())
}

#[test]
fn a_recovery_after_an_escalation(rt: HostRuntime) -> Result<(), Fail> {
    let rows = Rows {
        lanes: 2,
        contacts: &[ContactRow::FREE, ContactRow::FREE],
        objects: &[WEB],
        escalations: &[THIRD],
        ..Rows::NONE
    };
    let events = [
        hard(1_000, 0, State::Down),
        clock(1_060),
        clock(1_120),
        hard(1_130, 0, State::Up),
    ];
    let notices = [(0, 1, 0), (1, 2, 0), (2, 3, 1), (3, 4, 1)];
    let config = config_of(rt.alloc(), rows)?;
    tells(&rt, rt.alloc(), &config, &events, &notices, &[])
}

#[test]
fn options_of_a_contact(rt: HostRuntime) -> Result<(), Fail> {
    let rows = Rows {
        lanes: 2,
        contacts: &[OF_DOWN],
        objects: &[WEB],
        ..Rows::NONE
    };
    let events = [hard(1_000, 0, State::Down), hard(1_010, 0, State::Up)];
    let suppressed = [((1, 2, 0), Filter::ContactOptions)];
    let config = config_of(rt.alloc(), rows)?;
    tells(&rt, rt.alloc(), &config, &events, &[(0, 1, 0)], &suppressed)
}

/// A service's recovery goes to nobody who wasn't told of its problem, where the daemon's rule is chosen.
#[test]
fn a_recovery_to_one_who_was_not_told(rt: HostRuntime) -> Result<(), Fail> {
    let rows = Rows {
        lanes: 2,
        contacts: &[BUT_OF_WARNINGS],
        objects: &[WEB, HTTP],
        ..Rows::NONE
    };
    let events = [hard(1_000, 1, State::Warning), hard(1_010, 1, State::Fine)];
    let mut config = config_of(rt.alloc(), rows)?;
    let of_warnings = ((0, 1, 0), Filter::ContactOptions);
    tells(
        &rt,
        rt.alloc(),
        &config,
        &events,
        &[(1, 2, 0)],
        &[of_warnings],
    )?;
    config.choices.told = true;
    let suppressed = [of_warnings, ((1, 2, 0), Filter::ContactNotTold)];
    tells(&rt, rt.alloc(), &config, &events, &[], &suppressed)
}
