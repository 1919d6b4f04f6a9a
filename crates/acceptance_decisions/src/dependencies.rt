//! Notification dependencies: which of them fail, by the search and by the plain look-up. Values are those of
//! worked examples, or reckoned by hand.

use acceptance_inputs::accepted::is_accepted;
use acceptance_inputs::dependencies::{ON_CRITICAL, Question, WORKED, entry, hosts};
use acceptance_inputs::periods::{Row, periods};
use dependency::search::Search;
use due_model::config::{Config, Dependency, ObjectId, PeriodId, Range};
use due_model::dependencies::Dependencies;
use due_model::limits::LAST_MOMENT;
use due_model::state::State;
use due_model::zone::Zone;
use slow_rules::dependencies::dependency_fails;
use std::alloc::{AllocError, Global};
use std::process::Abort;
use time_period::compile::compile_all;
use zone_times::clock::ZoneClock;

/// Tea, and lunch without tea. 1970-01-01 was a Thursday.
const PERIODS: [Row; 2] = [
    Row {
        ranges: &[Range {
            start: 45_000,
            end: 45_900,
        }],
        ..Row::THURSDAYS
    },
    Row {
        ranges: &[Range {
            start: 43_200,
            end: 46_800,
        }],
        excludes: &[PeriodId(0)],
        ..Row::THURSDAYS
    },
];

/// An entry that fails where its master is CRITICAL: the dependent, the master, whether it inherits, and its period.
type Given = (u16, u16, bool, Option<PeriodId>);

/// So many hosts with these entries, and what is answered of them, by the search and by the plain look-up.
#[derive(Clone, Copy)]
struct Case {
    hosts: u16,
    entries: &'static [Given],
    questions: &'static [Question<'static>],
}

/// The worked chain, whose upper link inherits; states that change between the questions to one search; and a link that is valid at lunch
/// without tea. Other criteria and periods are rows of `tests/tables`.
static CHAINS: [Case; 3] = [
    Case {
        hosts: 4,
        entries: &[(3, 2, true, None), (2, 1, false, None)],
        questions: &[
            (&WORKED, 1000, 3, true),
            (&WORKED, 1000, 2, true),
            (&WORKED, 1000, 1, false),
            (&WORKED, 1000, 4, false),
        ],
    },
    Case {
        hosts: 3,
        entries: &[(2, 1, true, None), (1, 0, true, None)],
        questions: &[
            (&[State::Fine; 3], 0, 2, false),
            (CHANGED, 0, 2, true),
            (&[State::Fine; 3], 0, 1, false),
            (CHANGED, 0, 1, true),
            (CHANGED, 0, 0, false),
        ],
    },
    Case {
        hosts: 3,
        entries: &[(1, 0, true, Some(PeriodId(1))), (2, 1, true, None)],
        questions: &[
            (CHANGED, 43_199, 2, false),
            (CHANGED, 43_200, 2, true),
            (CHANGED, 45_000, 2, false),
            (CHANGED, 45_900, 2, true),
            (CHANGED, LAST_MOMENT, 2, false),
        ],
    },
];

const CHANGED: &[State] = &[State::Critical, State::Fine, State::Warning];

/// How many layers the diamond has, of two objects each. Each object depends on both of the layer before it: from the last layer two to
/// the power of 2,000 chains lead to the first one.
const LAYERS: u16 = 2_000;

/// So many hosts, the periods and these entries.
fn config_of(alloc: Global, count: u16, entries: Vec<Dependency>) -> Result<Config, AllocError> {
    let mut config = periods(alloc, &PERIODS)?;
    config.dependencies = Dependencies::new(alloc, entries)?;
    config.objects = hosts(alloc, count)?;
    Ok(config)
}

/// Compares what one search answers, one question after another.
fn search_answers(
    rt: &impl Abort,
    alloc: Global,
    config: &Config,
    questions: &[Question<'_>],
) -> Result<(), AllocError> {
    assert!(rt; is_accepted(config));
    let periods = compile_all(alloc, config)?;
    let mut search = Search::new(alloc, config)?;
    let zone = ZoneClock::new(&Zone::Utc);
    for question in questions {
        let (states, moment, object, wanted) = *question;
        assert_eq!(rt; states.len(), config.objects.len());
        let t = moment.min(LAST_MOMENT);
        let found = search.fails(
            config,
            states,
            periods.as_slice(),
            &zone,
            t,
            ObjectId(object),
        );
        assert!(rt; found == wanted, "object {object} at {moment}");
    }
    Ok(())
}

/// Compares what is answered plainly.
fn plain_answers(
    rt: &impl Abort,
    alloc: Global,
    config: &Config,
    questions: &[Question<'_>],
) -> Result<(), AllocError> {
    assert!(rt; is_accepted(config));
    for question in questions {
        let (states, moment, object, wanted) = *question;
        let t = moment.min(LAST_MOMENT);
        let found = dependency_fails(alloc, config, &Zone::Utc, states, t, ObjectId(object))?;
        assert!(rt; found == wanted, "plainly, object {object} at {moment}");
    }
    Ok(())
}

/// The entries of a case.
fn entries_of(alloc: Global, given: &[Given]) -> Result<Vec<Dependency>, AllocError> {
    let mut made = Vec::new(alloc);
    for row in given {
        let (dependent, master, inherits, period) = *row;
        made.push(Dependency {
            period,
            ..entry(dependent, master, inherits, ON_CRITICAL)
        })?;
    }
    Ok(made)
}

/// Compares what both answer of a configuration.
fn answers(
    rt: &impl Abort,
    alloc: Global,
    config: &Config,
    questions: &[Question<'_>],
) -> Result<(), AllocError> {
    search_answers(rt, alloc, config, questions)?;
    plain_answers(rt, alloc, config, questions)
}

#[test]
fn chains(rt: HostRuntime) -> Result<(), AllocError> {
    for case in &CHAINS {
        let entries = entries_of(rt.alloc(), case.entries)?;
        let config = config_of(rt.alloc(), case.hosts, entries)?;
        answers(&rt, rt.alloc(), &config, case.questions)?;
    }
    Ok(())
}

/// A state for the first object and another one for the others.
fn one_and_others(
    alloc: Global,
    first: State,
    count: u16,
    state: State,
) -> Result<Vec<State>, AllocError> {
    let mut states = vec![in alloc; state; usize::from(count)]?;
    if let Some(place) = states.first_mut() {
        *place = first;
    }
    Ok(states)
}

/// The entries of a layer of the diamond.
fn layer_of(layer: u16) -> [Dependency; 4] {
    let low = layer.saturating_mul(2);
    let next = low.saturating_add(1);
    let under = low.saturating_sub(2);
    let beside = low.saturating_sub(1);
    [
        entry(low, under, true, ON_CRITICAL),
        entry(low, beside, true, ON_CRITICAL),
        entry(next, under, true, ON_CRITICAL),
        entry(next, beside, true, ON_CRITICAL),
    ]
}

fn diamond(alloc: Global) -> Result<Vec<Dependency>, AllocError> {
    let mut entries = Vec::new(alloc);
    for layer in 1..LAYERS {
        entries.extend_from_slice(&layer_of(layer))?;
    }
    Ok(entries)
}

/// The last two objects fail, and the first none of it.
#[test]
fn a_diamond(rt: HostRuntime) -> Result<(), AllocError> {
    let config = config_of(rt.alloc(), 2 * LAYERS, diamond(rt.alloc())?)?;
    let states = one_and_others(rt.alloc(), State::Critical, 2 * LAYERS, State::Fine)?;
    let questions = [
        (states.as_slice(), 0, 2 * LAYERS - 1, true),
        (states.as_slice(), 0, 3, true),
        (states.as_slice(), 0, 1, false),
    ];
    search_answers(&rt, rt.alloc(), &config, &questions)
}
