//! Generated configurations and events, with services, disabled objects, periods that exclude others, escalations of
//! some letters, dependencies, contacts restricted for hosts and for services, downtimes, flapping,
//! acknowledgements and switches, half of them by rules drawn from this project's and the daemon's. On each, the slow
//! program, one decider, and two, three and eight say the same.

ghost use Rattle.std.specs.Prelude.{◌<◌, ◌≤◌};

use crate::comparison;
use crate::numbers::Numbers;
use acceptance_inputs::accepted::is_accepted;
use acceptance_inputs::events::are_proper;
use acceptance_inputs::rows::{
    ContactRow, EscalationRow, ObjectRow, PeriodRow, RightsRow, Rows, config_of,
};
use due_model::config::{Config, ContactId, Dependency, LaneId, ObjectId, PeriodId, Range};
use due_model::event::{Acknowledgement, DowntimeChange, Event, EventKind};
use due_model::notice::{Filter, Suppression};
use due_model::options::OptionLetters;
use due_model::state::{State, StateSet};
use std::alloc::{AllocError, Global};
use std::process::Abort;
use std::test::Fail;

/// How many configurations are made.
const SEEDS: u64 = 60;

/// How many events are made for each.
const EVENTS: u64 = 24;

/// How many objects each has: two hosts, a service of each, and one more of the second.
const OBJECTS: u16 = 5;

/// How many filters stop something here: all but ContactNotTold, which is drawn too seldom and has a row of `refused`.
const FILTERS: usize = 15;

/// How many commands each has.
const LANES: u8 = 2;

/// How many periods each has.
const PERIODS: u16 = 3;

/// The last of the periods, the only one that objects name.
const LAST: PeriodId = PeriodId(2);

/// Which periods one excludes: the first may have the first of these, the second one of two, the last any. So a period
/// excludes earlier ones alone.
const EXCLUDED: [&[PeriodId]; 4] = [
    &[],
    &[PeriodId(0)],
    &[PeriodId(1)],
    &[PeriodId(1), PeriodId(0)],
];

/// The hosts of the objects.
const HOSTS: [Option<ObjectId>; 5] = [
    None,
    None,
    Some(ObjectId(0)),
    Some(ObjectId(1)),
    Some(ObjectId(1)),
];

/// Whom objects and escalations name.
const NAMED: [&[ContactId]; 4] = [
    &[ContactId(0)],
    &[ContactId(1), ContactId(0)],
    &[ContactId(2)],
    &[ContactId(2), ContactId(1), ContactId(2)],
];

/// On which lanes contacts are told.
const ON: [&[LaneId]; 4] = [
    &[LaneId(0)],
    &[LaneId(1)],
    &[LaneId(1), LaneId(0)],
    &[LaneId(0), LaneId(0)],
];

impl Numbers {
    /// A number less than this.
    fn below(&mut self, end: u64) -> u64
        requires { 0 < end }
        ensures { result < end }
    {
        self.next() % end
    }

    /// True once in so many times.
    fn once_in(&mut self, times: u64) -> bool
        requires { 0 < times }
    {
        self.below(times) == 0
    }

    /// Most of the letters.
    fn letters(&mut self) -> OptionLetters {
        OptionLetters {
            down: !self.once_in(4),
            unreachable: !self.once_in(4),
            warning: !self.once_in(4),
            unknown: !self.once_in(4),
            critical: !self.once_in(4),
            recovery: !self.once_in(4),
            flapping: !self.once_in(4),
            downtime: !self.once_in(4),
        }
    }

    /// A period, or none.
    fn period(&mut self) -> Option<PeriodId> {
        if self.once_in(2) {
            Some(PeriodId(self.below(u64::from(PERIODS)) as u16))
        } else {
            None
        }
    }

    /// Whom an object or an escalation names.
    fn named(&mut self) -> &'static [ContactId] {
        NAMED[self.below(4) as usize]
    }

    /// On which lanes a contact is told.
    fn on(&mut self) -> &'static [LaneId] {
        ON[self.below(4) as usize]
    }

    /// The states of a dependency's list.
    fn states(&mut self) -> StateSet {
        StateSet {
            pending: self.once_in(3),
            up: self.once_in(3),
            down: !self.once_in(3),
            unreachable: self.once_in(3),
            fine: self.once_in(3),
            warning: self.once_in(3),
            unknown: self.once_in(3),
            critical: !self.once_in(3),
        }
    }

    /// The last period, or none. The slow program goes over the seconds to the next one of an object's period, and
    /// over less than two hours of the last.
    fn from_a_moment_on(&mut self) -> Option<PeriodId> {
        if self.once_in(2) { Some(LAST) } else { None }
    }

    /// Which periods one excludes: none, or one of the first lists of `EXCLUDED`, so many.
    fn excluded(&mut self, lists: u64) -> &'static [PeriodId]
        requires none { 0 < lists }
        requires few { lists ≤ 4 }
    {
        if self.once_in(2) {
            EXCLUDED[self.below(lists) as usize]
        } else {
            &[]
        }
    }

    /// The last period: each day from a moment of its first hour on, without the minutes that it excludes.
    fn late(&mut self) -> PeriodRow {
        let start = self.below(3_600) as u32;
        PeriodRow {
            range: Range { start, end: 86_400 },
            excludes: self.excluded(4),
        }
    }

    /// A period of some minutes of each day, in its first two hours.
    fn minutes(&mut self, lists: u64) -> PeriodRow
        requires none { 0 < lists }
        requires few { lists ≤ 4 }
    {
        let start = self.below(3_600) as u32;
        let end = start + 1 + self.below(3_600) as u32;
        PeriodRow {
            range: Range { start, end },
            excludes: self.excluded(lists),
        }
    }

    /// What a contact is notified of, for one kind of object.
    fn rights(&mut self) -> RightsRow {
        RightsRow {
            enabled: !self.once_in(8),
            options: self.letters(),
            period: self.period(),
            lanes: self.on(),
        }
    }

    /// A contact: what holds for hosts, and what holds for services.
    fn contact(&mut self) -> ContactRow {
        let hosts = self.rights();
        ContactRow {
            name: "contact",
            enabled: hosts.enabled,
            options: hosts.options,
            period: hosts.period,
            lanes: hosts.lanes,
            services: Some(self.rights()),
        }
    }

    /// The object of this host, or a host.
    fn object(&mut self, host: Option<ObjectId>) -> ObjectRow {
        ObjectRow {
            name: "object",
            host,
            enabled: !self.once_in(12),
            options: self.letters(),
            period: self.from_a_moment_on(),
            interval: self.below(4) as u32,
            delay: self.below(2) as u32,
            volatile: host.is_some() && self.once_in(4),
            contacts: self.named(),
        }
    }

    /// An escalation of some object.
    fn escalation(&mut self) -> EscalationRow {
        let first = self.below(4) as u32;
        EscalationRow {
            object: ObjectId(self.below(u64::from(OBJECTS)) as u16),
            first,
            last: if self.once_in(2) { 0 } else { first + 1 },
            interval: self.below(4) as u32,
            period: self.period(),
            options: self.letters(),
            contacts: self.named(),
        }
    }

    /// A dependency of some object on one before it.
    fn dependency(&mut self) -> Dependency {
        let dependent = 1 + self.below(u64::from(OBJECTS) - 1);
        Dependency {
            dependent: ObjectId(dependent as u16),
            master: ObjectId(self.below(dependent) as u16),
            inherits: self.once_in(2),
            states: self.states(),
            period: self.period(),
        }
    }

    /// A hard state of a host.
    fn host_state(&mut self) -> State {
        match self.below(4) {
            0 => State::Up,
            1 => State::Unreachable,
            _ => State::Down,
        }
    }

    /// A hard state of a service.
    fn service_state(&mut self) -> State {
        match self.below(6) {
            0 | 1 => State::Fine,
            2 => State::Warning,
            3 => State::Unknown,
            _ => State::Critical,
        }
    }

    /// A hard state of this object.
    fn hard(&mut self, object: u16) -> EventKind {
        let state = if object < 2 {
            self.host_state()
        } else {
            self.service_state()
        };
        EventKind::Hard(ObjectId(object), state)
    }

    /// A change of the downtimes of this object.
    fn downtime(&mut self, object: u16) -> EventKind {
        let change = match self.below(5) {
            0 | 1 => DowntimeChange::Start,
            2 | 3 => DowntimeChange::End,
            _ => DowntimeChange::Cancelled,
        };
        EventKind::Downtime(ObjectId(object), change)
    }

    /// How a problem is acknowledged.
    fn acknowledgement(&mut self) -> Acknowledgement {
        let sticky = self.once_in(2);
        let notify = self.once_in(2);
        Acknowledgement { sticky, notify }
    }

    /// What an event says.
    fn event(&mut self) -> EventKind {
        let object = self.below(u64::from(OBJECTS)) as u16;
        match self.below(20) {
            0 => EventKind::Program(!self.once_in(3)),
            1 => EventKind::Flapping(ObjectId(object), self.once_in(2)),
            2 | 3 => self.downtime(object),
            4..=8 => EventKind::Clock,
            9 | 10 => EventKind::Ack(ObjectId(object), self.acknowledgement()),
            11 => EventKind::AckRemoved(ObjectId(object)),
            12 => EventKind::OwnSwitch(ObjectId(object), !self.once_in(3)),
            _ => self.hard(object),
        }
    }
}

/// The escalations of a configuration.
fn escalations(alloc: Global, numbers: &mut Numbers) -> Result<Vec<EscalationRow>, AllocError> {
    let mut made = Vec::new(alloc);
    for _escalation in 0..4u8 {
        made.push(numbers.escalation())?;
    }
    Ok(made)
}

/// The dependencies of a configuration.
fn dependencies(alloc: Global, numbers: &mut Numbers) -> Result<Vec<Dependency>, AllocError> {
    let mut made = Vec::new(alloc);
    for _dependency in 0..3u8 {
        made.push(numbers.dependency())?;
    }
    Ok(made)
}

/// The objects of a configuration.
fn objects(alloc: Global, numbers: &mut Numbers) -> Result<Vec<ObjectRow>, AllocError> {
    let mut made = Vec::new(alloc);
    for host in &HOSTS {
        made.push(numbers.object(*host))?;
    }
    Ok(made)
}

/// The configuration of a seed.
fn config(alloc: Global, numbers: &mut Numbers) -> Result<Config, AllocError> {
    let contacts = [numbers.contact(), numbers.contact(), numbers.contact()];
    let periods = [numbers.minutes(1), numbers.minutes(2), numbers.late()];
    let objects = objects(alloc, numbers)?;
    let escalations = escalations(alloc, numbers)?;
    let dependencies = dependencies(alloc, numbers)?;
    let rows = Rows {
        lanes: LANES,
        contacts: &contacts,
        objects: objects.as_slice(),
        periods: &periods,
        escalations: escalations.as_slice(),
        dependencies: dependencies.as_slice(),
    };
    let mut config = config_of(alloc, rows)?;
    config.choices = numbers.choices();
    Ok(config)
}

/// The events of a seed. Their stamps mostly rise, over some hours, and sometimes fall.
fn events(alloc: Global, numbers: &mut Numbers) -> Result<Vec<Event>, AllocError> {
    let mut made = Vec::new(alloc);
    for place in 0..EVENTS {
        let moment = place * 240 + numbers.below(400);
        let kind = numbers.event();
        made.push(Event { moment, kind })?;
    }
    Ok(made)
}

/// How much was compared.
#[derive(Debug, Drop)]
struct Counts {
    notices: usize,
    /// The filters that stopped something, each once.
    filters: Vec<Filter>,
}

impl Counts {
    /// Adds the filters of these suppressions.
    fn add_filters(&mut self, suppressions: &[Suppression]) -> Result<(), Fail> {
        for suppression in suppressions {
            if !self.filters.contains(&suppression.filter) {
                self.filters.push(suppression.filter)?;
            }
        }
        Ok(())
    }
}

/// Compares what a configuration says.
fn compare(
    rt: &impl Abort,
    alloc: Global,
    config: &Config,
    events: &[Event],
    counts: &mut Counts,
) -> Result<(), Fail> {
    assert!(rt; is_accepted(config) && are_proper(config, events));
    let said = comparison::compare(rt, alloc, config, events)?;
    counts.notices = counts.notices.saturating_add(said.notices.len());
    counts.add_filters(said.suppressions.as_slice())
}

/// Compares what the configuration of a seed says.
fn compare_seed(
    rt: &impl Abort,
    alloc: Global,
    seed: u64,
    counts: &mut Counts,
) -> Result<(), Fail> {
    let mut numbers = Numbers { state: seed };
    let events = events(alloc, &mut numbers)?;
    let config = config(alloc, &mut numbers)?;
    compare(rt, alloc, &config, events.as_slice(), counts)
}

#[test]
fn deciders_and_the_slow_program_say_the_same(rt: HostRuntime) -> Result<(), Fail> {
    let mut counts = Counts {
        notices: 0,
        filters: Vec::new(rt.alloc()),
    };
    for seed in 0..SEEDS {
        compare_seed(&rt, rt.alloc(), seed, &mut counts)?;
    }
    // On the average each configuration says several things, and each filter stops something.
    assert!(&rt; counts.notices > 200, "{counts:?}");
    assert_eq!(&rt; counts.filters.len(), FILTERS, "{counts:?}");
    Ok(())
}
