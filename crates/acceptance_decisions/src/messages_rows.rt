//! What becomes of each message of an outcome, by the rules of the manual's chapters "Notifications" and "Notification
//! Escalations". Values are reckoned by hand.

ghost use Rattle.std.specs.Prelude.{◌<◌, length};
ghost use Rattle.outcomes.specs.Outcome.{IsInRange};
ghost use Rattle.outcomes.specs.Rules.{AreRules};

use acceptance_inputs::accepted::is_accepted;
use acceptance_inputs::rows::{ContactRow, EscalationRow, ObjectRow, PeriodRow, Rows, config_of};
use due_model::config::{Config, ContactId, LaneId, ObjectId, PeriodId, Range};
use due_model::notice::{Filter, Kind, Notice, Outcome, Reach, Suppression};
use due_model::options::OptionLetters;
use due_model::proper::has_object;
use due_model::state::State;
use due_model::zone::Zone;
use messages::entries::{Entry, notices_for, suppressions};
use messages::outcome::add_messages;
use outcomes::rules::Rules;
use std::alloc::{AllocError, Global};
use std::process::Abort;
use time_period::compile::compile_all;
use zone_times::clock::ZoneClock;

/// When the notifications here are attempted.
const MOMENT: u64 = 1_000;

/// The number of their event.
const EVENT: u64 = 7;

/// Ann uses both lanes; of bob's period no moment here is. Web tells ann, and of its second notification both.
const WEB: Rows<'static> = Rows {
    lanes: 2,
    contacts: &[
        ContactRow {
            lanes: &[LaneId(1), LaneId(0)],
            ..ContactRow::FREE
        },
        ContactRow {
            period: Some(PeriodId(0)),
            ..ContactRow::FREE
        },
    ],
    objects: &[ObjectRow {
        contacts: &[ContactId(0)],
        ..ObjectRow::PLAIN
    }],
    periods: &[PeriodRow {
        range: Range {
            start: 43_200,
            end: 46_800,
        },
        excludes: &[],
    }],
    escalations: &[EscalationRow {
        object: ObjectId(0),
        first: 2,
        last: 2,
        interval: 1,
        period: None,
        options: OptionLetters::ALL,
        contacts: &[ContactId(1), ContactId(0)],
    }],
    ..Rows::NONE
};

/// What becomes of one message.
#[derive(Clone, Copy)]
enum Said {
    /// This contact has a notice on this lane.
    Told(u16, u8),
    /// This filter refused the contact, or stopped all where there is none.
    Stopped(Option<u16>, Filter),
}

/// A notification about web, the object's filter that stops it, if one does, and what is said of it in this order.
#[derive(Clone, Copy)]
struct Case {
    kind: Kind,
    state: State,
    number: u64,
    stopped: Option<Filter>,
    said: &'static [Said],
}

/// A problem's second notice, and the same where a filter of the object stops it. The others are rows of `tests/rows`.
const CASES: [Case; 2] = [
    Case {
        kind: Kind::Problem,
        state: State::Down,
        number: 2,
        stopped: None,
        said: &[
            Said::Told(0, 0),
            Said::Told(0, 1),
            Said::Stopped(Some(1), Filter::ContactPeriod),
        ],
    },
    Case {
        kind: Kind::Problem,
        state: State::Down,
        number: 2,
        stopped: Some(Filter::Interval),
        said: &[Said::Stopped(None, Filter::Interval)],
    },
];

/// The outcome of a case.
fn outcome(case: Case) -> Outcome
    ensures { IsInRange result }
{
    let Case {
        kind,
        state,
        number,
        ..
    } = case;
    match case.stopped {
        None => Outcome::Sent {
            kind,
            state,
            number,
            moment: MOMENT,
            gap: 60,
            reach: Reach {
                heard: true,
                told: None,
                standing: number.saturating_sub(1),
            },
        },
        Some(filter) => Outcome::Suppressed {
            kind,
            state,
            number,
            moment: MOMENT,
            filter,
        },
    }
}

/// What a row says of one message, as an entry.
fn entry(case: Case, said: Said) -> Entry {
    match said {
        Said::Told(contact, lane) => Entry::Sent(Notice {
            event: EVENT,
            moment: MOMENT,
            object: ObjectId(0),
            kind: case.kind,
            state: case.state,
            number: case.number,
            contact: ContactId(contact),
            lane: LaneId(lane),
        }),
        Said::Stopped(contact, filter) => Entry::Withheld(Suppression {
            event: EVENT,
            moment: MOMENT,
            object: ObjectId(0),
            kind: case.kind,
            state: case.state,
            number: case.number,
            filter,
            contact: contact.map(ContactId),
        }),
    }
}

/// Compares entries with what a case says.
fn are_said(rt: &impl Abort, found: &[Entry], case: Case) {
    assert!(rt; found.len() == case.said.len());
    for (found, said) in found.iter().zip(case.said) {
        assert!(rt; *found == entry(case, *said), "{found:?}");
    }
}

/// Compares what the outcome of a case adds to what stands there.
fn adds(rt: &impl Abort, alloc: Global, rules: &Rules<'_>, case: Case) -> Result<(), AllocError>
    requires rules { AreRules rules.now }
    requires object { 0 < length rules.now.config.now.objects }
{
    // What the list of receivers held is no matter.
    let mut receivers = Vec::from_slice(alloc, &[ContactId(0)])?;
    let mut entries = Vec::new(alloc);
    let now = outcome(case);
    let object = ObjectId(0);
    let _heard = add_messages(
        alloc,
        rules,
        object,
        EVENT,
        now,
        &mut receivers,
        &mut entries,
    )?;
    are_said(rt, entries.as_slice(), case);
    Ok(())
}

/// Compares what the outcome of each case adds, by these rules.
fn all_add(rt: &impl Abort, alloc: Global, rules: &Rules<'_>) -> Result<(), AllocError>
    requires rules { AreRules rules.now }
    requires object { 0 < length rules.now.config.now.objects }
{
    for case in &CASES {
        adds(rt, alloc, rules, *case)?;
    }
    Ok(())
}

/// The same in a configuration.
fn each_adds(rt: &impl Abort, alloc: Global, config: &Config) -> Result<(), AllocError> {
    assert!(rt; is_accepted(config) && has_object(config, ObjectId(0)));
    let all = compile_all(alloc, config)?;
    let zone = ZoneClock::new(&Zone::Utc);
    let rules = Rules {
        config,
        zone: &zone,
        periods: all.as_slice(),
    };
    all_add(rt, alloc, &rules)
}

#[test]
fn messages_of_outcomes(rt: HostRuntime) -> Result<(), AllocError> {
    let config = config_of(rt.alloc(), WEB)?;
    each_adds(&rt, rt.alloc(), &config)
}

#[test]
fn counts_of_entries(rt: HostRuntime) {
    let mut entries = [entry(CASES[0], Said::Told(1, 1)); 4];
    entries[1] = entry(CASES[0], Said::Told(0, 0));
    entries[2] = entry(CASES[0], Said::Stopped(Some(1), Filter::ContactPeriod));
    let counts = (notices_for(&entries, 0), notices_for(&entries, 1));
    assert!(&rt; counts == (1, 2), "{counts:?}");
    assert!(&rt; suppressions(&entries) == 1, "one is withheld");
}
