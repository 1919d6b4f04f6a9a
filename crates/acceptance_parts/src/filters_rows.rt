//! What the filters say of views and contacts, by the rules of the manual's chapter "Notifications".

ghost use Rattle.std.specs.Prelude.{◌≤◌, IfSome, IsTrue};
ghost use Rattle.due_model.specs.claims.Limits.{last_moment, max_number};
ghost use Rattle.filters.specs.Attempt.{IsLastInRange};
ghost use Rattle.time_period.specs.claims.Days.{AreCompiled};

use acceptance_inputs::periods::{Row, periods};
use acceptance_inputs::rows::NO_LETTER;
use due_model::config::{Config, Contact, ContactId, PeriodId, Rights};
use due_model::limits::{LAST_MOMENT, MAX_NUMBER};
use due_model::notice::{Filter, Kind};
use due_model::options::OptionLetters;
use due_model::rules::{Last, View};
use due_model::sequence::Sequence;
use due_model::short_list::Text;
use due_model::state::State;
use due_model::zone::Zone;
use filters::attempt::Attempt;
use filters::contact_filters::contact_verdict;
use filters::object_filters::object_verdict;
use std::alloc::{AllocError, Global};
use std::process::Abort;
use std::test::Fail;
use time_period::compile::compile_all;
use time_period::compiled::Compiled;
use zone_times::clock::ZoneClock;

/// A period that never holds, and Thursdays.
const PERIODS: [Row; 2] = [Row::NEVER, Row::THURSDAYS];

const NEVER: Option<PeriodId> = Some(PeriodId(0));

const THURSDAYS: Option<PeriodId> = Some(PeriodId(1));

/// When most notifications here are attempted.
const MOMENT: u64 = 1_000;

/// A notice went out long ago, and nothing stops the next one, whatever its kind.
const OPEN: View = View {
    program: true,
    enabled: true,
    down: false,
    flapping: false,
    options: OptionLetters::ALL,
    sent: 1,
    period: THURSDAYS,
    depends: false,
    acknowledged: false,
    began: 100,
    delay: 1,
    last: Some(Last {
        state: State::Down,
        moment: 100,
        gap: 60,
    }),
    renews: false,
    told: OptionLetters::NONE,
    host_problem: false,
};

const ALL: [Kind; 8] = [
    Kind::Problem,
    Kind::Recovery,
    Kind::FlappingStart,
    Kind::FlappingStop,
    Kind::DowntimeStart,
    Kind::DowntimeEnd,
    Kind::DowntimeCancelled,
    Kind::Acknowledgement,
];

// Views that a filter and each later one refuse.
const FROM_INTERVAL: View = View {
    last: Some(Last {
        state: State::Down,
        moment: 941,
        gap: 60,
    }),
    ..OPEN
};

const FROM_FIRST_DELAY: View = View {
    sent: 0,
    delay: 16,
    ..FROM_INTERVAL
};

const FROM_ACKNOWLEDGED: View = View {
    acknowledged: true,
    ..FROM_FIRST_DELAY
};

const FROM_DEPENDENCY: View = View {
    depends: true,
    ..FROM_ACKNOWLEDGED
};

const FROM_PERIOD: View = View {
    period: NEVER,
    ..FROM_DEPENDENCY
};

const FROM_OPTIONS: View = View {
    options: NO_LETTER,
    ..FROM_PERIOD
};

const FROM_FLAPPING: View = View {
    flapping: true,
    ..FROM_OPTIONS
};

const FROM_DOWNTIME: View = View {
    down: true,
    ..FROM_FLAPPING
};

const FROM_DISABLED: View = View {
    enabled: false,
    ..FROM_DOWNTIME
};

const FROM_PROGRAM: View = View {
    program: false,
    ..FROM_DISABLED
};

/// A view, a notification that is attempted, and the first filter that stops it.
#[derive(Clone, Copy)]
struct Case {
    view: View,
    kind: Kind,
    state: State,
    moment: u64,
    found: Option<Filter>,
}

/// Views that a filter and each later one refuse, a kind, and the first filter that stops it.
const CHAIN: [(View, Kind, Option<Filter>); 15] = [
    (FROM_PROGRAM, Kind::Problem, Some(Filter::Program)),
    (FROM_DISABLED, Kind::Recovery, Some(Filter::Disabled)),
    (FROM_DOWNTIME, Kind::Problem, Some(Filter::Downtime)),
    (FROM_DOWNTIME, Kind::DowntimeEnd, Some(Filter::Options)),
    (FROM_FLAPPING, Kind::Recovery, Some(Filter::Flapping)),
    (FROM_FLAPPING, Kind::FlappingStart, Some(Filter::Options)),
    (FROM_OPTIONS, Kind::Recovery, Some(Filter::Options)),
    (FROM_PERIOD, Kind::Recovery, Some(Filter::NoProblem)),
    (FROM_PERIOD, Kind::Problem, Some(Filter::Period)),
    (FROM_DEPENDENCY, Kind::Problem, Some(Filter::Dependency)),
    (FROM_ACKNOWLEDGED, Kind::Problem, Some(Filter::Acknowledged)),
    (FROM_ACKNOWLEDGED, Kind::Recovery, Some(Filter::NoProblem)),
    (FROM_FIRST_DELAY, Kind::Problem, Some(Filter::FirstDelay)),
    (FROM_INTERVAL, Kind::Problem, Some(Filter::Interval)),
    (FROM_INTERVAL, Kind::Recovery, None),
];

/// A problem that nothing stops.
const PASSES: Case = Case {
    view: OPEN,
    kind: Kind::Problem,
    state: State::Down,
    moment: MOMENT,
    found: None,
};

/// Moments at which a filter begins or ends to stop a problem, the last moment of all, and another state.
const MOMENTS: [Case; 6] = [
    Case {
        view: FROM_FIRST_DELAY,
        moment: 1_059,
        found: Some(Filter::FirstDelay),
        ..PASSES
    },
    Case {
        view: FROM_FIRST_DELAY,
        moment: 1_060,
        ..PASSES
    },
    Case {
        view: FROM_INTERVAL,
        moment: 1_001,
        ..PASSES
    },
    Case {
        view: FROM_INTERVAL,
        state: State::Unreachable,
        ..PASSES
    },
    Case {
        view: View {
            sent: 0,
            began: LAST_MOMENT,
            delay: MAX_NUMBER,
            period: None,
            ..OPEN
        },
        moment: LAST_MOMENT,
        found: Some(Filter::FirstDelay),
        ..PASSES
    },
    Case {
        moment: 86_400,
        found: Some(Filter::Period),
        ..PASSES
    },
];

/// What a contact has for one kind of object, and the first filter that stops a problem there, or another kind
/// of notification.
#[derive(Clone, Copy)]
struct Held {
    enabled: bool,
    options: OptionLetters,
    period: Option<PeriodId>,
    problem: Option<Filter>,
    other: Option<Filter>,
}

const FREE: Held = Held {
    enabled: true,
    options: OptionLetters::ALL,
    period: None,
    problem: None,
    other: None,
};

/// The first of several filters is named, and options let kinds through one by one.
const HELD: [Held; 4] = [
    Held {
        period: THURSDAYS,
        ..FREE
    },
    Held {
        options: OptionLetters {
            down: true,
            ..NO_LETTER
        },
        other: Some(Filter::ContactOptions),
        ..FREE
    },
    Held {
        options: NO_LETTER,
        period: NEVER,
        problem: Some(Filter::ContactOptions),
        other: Some(Filter::ContactOptions),
        ..FREE
    },
    Held {
        enabled: false,
        options: NO_LETTER,
        period: NEVER,
        problem: Some(Filter::ContactDisabled),
        other: Some(Filter::ContactDisabled),
    },
];

/// Whether the numbers of a view are within their limits.
fn is_within_limits(view: View) -> bool
    ensures began { IsTrue result → view.began ≤ last_moment }
    ensures delay { IsTrue result → view.delay ≤ max_number }
    ensures last { IsTrue result → IfSome view.last IsLastInRange }
{
    view.began <= LAST_MOMENT && view.delay <= MAX_NUMBER && is_last_within_limits(view.last)
}

/// The same of the last notice.
fn is_last_within_limits(last: Option<Last>) -> bool
    ensures { IsTrue result → IfSome last IsLastInRange }
{
    match last {
        Some(last) => last.moment <= LAST_MOMENT && last.gap <= 60 * u64::from(MAX_NUMBER),
        None => true,
    }
}

/// Compares what stops one attempt.
fn gives(rt: &impl Abort, periods: &[Compiled], case: Case) {
    let zone = ZoneClock::new(&Zone::Utc);
    let attempt = Attempt {
        moment: case.moment,
        kind: case.kind,
        state: case.state,
        letter: case.kind.letter(case.state),
        service: false,
        zone: &zone,
        periods,
    };
    assert!(rt; attempt.moment <= LAST_MOMENT && is_within_limits(case.view));
    let found = object_verdict(false, case.view, &attempt).err();
    assert_eq!(rt;
        found,
        case.found,
        "{:?} {:?} {:?}",
        case.kind, case.state, case.view
    );
}

/// The periods of `PERIODS`, worked out.
fn worked_out(alloc: Global) -> Result<Vec<Compiled>, AllocError> {
    let config = periods(alloc, &PERIODS)?;
    compile_all(alloc, &config)
}

/// Views that several refuse.
fn first_of_several(rt: &impl Abort, periods: &[Compiled]) {
    for row in &CHAIN {
        let (view, kind, found) = *row;
        let case = Case {
            view,
            kind,
            found,
            ..PASSES
        };
        gives(rt, periods, case);
    }
}

/// Moments at which filters begin and end.
fn at_moments(rt: &impl Abort, periods: &[Compiled]) {
    for case in &MOMENTS {
        gives(rt, periods, *case);
    }
}

#[test]
fn filters_of_objects(rt: HostRuntime) -> Result<(), Fail> {
    let all = worked_out(rt.alloc())?;
    first_of_several(&rt, all.as_slice());
    at_moments(&rt, all.as_slice());
    Ok(())
}

/// What a contact is notified of, by a row.
fn rights(alloc: Global, held: Held) -> Rights {
    Rights {
        enabled: held.enabled,
        options: held.options,
        period: held.period,
        lanes: Sequence::new(Vec::new(alloc)),
    }
}

/// Two contacts for each row: of the first it says what holds for hosts, of the second what holds for services.
/// They have no names and no lanes.
fn contacts(alloc: Global) -> Result<Vec<Contact>, AllocError> {
    let mut made = Vec::new(alloc);
    for held in &HELD {
        made.push(Contact {
            name: Text::new(alloc, &[])?,
            hosts: rights(alloc, *held),
            services: rights(alloc, FREE),
        })?;
        made.push(Contact {
            name: Text::new(alloc, &[])?,
            hosts: rights(alloc, FREE),
            services: rights(alloc, *held),
        })?;
    }
    Ok(made)
}

/// Compares what stops a notice to a contact, of each kind, about a service or a host.
fn contact_gives(
    rt: &impl Abort,
    config: &Config,
    periods: &[Compiled],
    place: usize,
    service: bool,
    held: Held,
)
    requires { AreCompiled config.now periods.now }
{
    assert!(rt; place < config.contacts.len() && place < 100);
    let zone = ZoneClock::new(&Zone::Utc);
    for kind in &ALL {
        let attempt = Attempt {
            moment: MOMENT,
            kind: *kind,
            state: State::Down,
            letter: kind.letter(State::Down),
            service,
            zone: &zone,
            periods,
        };
        let found = contact_verdict(config, ContactId(place as u16), &attempt, None).err();
        let wanted = if *kind == Kind::Problem || *kind == Kind::Acknowledgement {
            held.problem
        } else {
            held.other
        };
        assert_eq!(rt; found, wanted, "{kind:?} to {place}, service: {service}");
    }
}

/// Compares what stops notices to the contacts of `HELD`.
fn contacts_give(rt: &impl Abort, config: &Config, periods: &[Compiled])
    requires { AreCompiled config.now periods.now }
{
    for (place, held) in HELD.iter().enumerate() {
        contact_gives(rt, config, periods, 2 * place, false, *held);
        contact_gives(rt, config, periods, 2 * place, true, FREE);
        contact_gives(rt, config, periods, 2 * place + 1, false, FREE);
        contact_gives(rt, config, periods, 2 * place + 1, true, *held);
    }
}

#[test]
fn filters_of_contacts(rt: HostRuntime) -> Result<(), Fail> {
    let contacts = contacts(rt.alloc())?;
    let mut config = periods(rt.alloc(), &PERIODS)?;
    let all = compile_all(rt.alloc(), &config)?;
    config.contacts = Sequence::new(contacts);
    contacts_give(&rt, &config, all.as_slice());
    Ok(())
}
