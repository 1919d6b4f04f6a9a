//! A configuration: what the object text gives, in numbers.

ghost use Rattle.std.specs.Prelude.{◌≡◌};
ghost use Rattle.due_model.specs.Choices.{nagios, own};
ghost use Rattle.due_model.specs.claims.Due.{uses_lane};
ghost use Rattle.due_model.specs.claims.Escalations.{has_contact};
ghost use Rattle.due_model.specs.claims.Histories.{is_enabled};

use crate::dependencies::Dependencies;
use crate::escalations::Escalations;
use crate::objects::Objects;
use crate::options::OptionLetters;
use crate::sequence::Sequence;
use crate::short_list::{ShortList, Text};
use crate::state::StateSet;

/// The number of a host or a service, its place in the configuration.
#[derive(Clone, Copy, Debug, PartialEq, Eq)]
pub struct ObjectId(pub u16);

/// The number of a contact.
#[derive(Clone, Copy, Debug, Default, PartialEq, Eq)]
pub struct ContactId(pub u16);

/// The contacts of an object or of an escalation: mostly few.
pub type ContactList = ShortList<ContactId, 12>;

/// The number of a lane: a notification command that some contact uses.
#[derive(Clone, Copy, Debug, PartialEq, Eq)]
pub struct LaneId(pub u8);

/// The number of a time period.
#[derive(Clone, Copy, Debug, PartialEq, Eq)]
pub struct PeriodId(pub u16);

/// A host or a service, with its notification settings (chapter "Object Definitions").
#[derive(Drop)]
pub struct Object {
    /// A host's name, or a service's description.
    pub name: Text,
    /// The host of a service; none for a host.
    pub host: Option<ObjectId>,
    /// `notifications_enabled`.
    pub enabled: bool,
    /// `notification_options`.
    pub options: OptionLetters,
    /// `notification_period`; none is always.
    pub period: Option<PeriodId>,
    /// `notification_interval`, in units of 60 seconds: 0 to 1,000,000, and 0 is "never again".
    pub interval: u32,
    /// `first_notification_delay`, in units of 60 seconds: 0 to 1,000,000.
    pub delay: u32,
    /// `is_volatile` of a service: each of its hard problem states is notified of, however soon.
    pub volatile: bool,
    /// The contacts that are notified where no escalation matches.
    pub contacts: ContactList,
}

impl Object {
    /// Whether the object's notifications are on: as its own switch says, if anything switched it.
    pub fn is_enabled(&self, own: Option<bool>) -> bool
        ensures { result ≡ is_enabled self.now own }
    {
        match own {
            Some(on) => on,
            None => self.enabled,
        }
    }

    /// Whether this contact is one of the object's own.
    pub fn has_contact(&self, contact: ContactId) -> bool
        ensures { result ≡ has_contact self.now.contacts contact.0 }
    {
        self.contacts
            .as_slice()
            .iter()
            .any(|other| other.0 == contact.0)
    }
}

/// Who is notified, of what and how (chapter "Object Definitions").
#[derive(Drop)]
pub struct Contact {
    pub name: Text,
    /// What holds for hosts.
    pub hosts: Rights,
    /// What holds for services.
    pub services: Rights,
}

/// What a contact is notified of, for one kind of object.
#[derive(Drop)]
pub struct Rights {
    /// `host_notifications_enabled` or `service_notifications_enabled`.
    pub enabled: bool,
    /// `host_notification_options` or `service_notification_options`.
    pub options: OptionLetters,
    /// `host_notification_period` or `service_notification_period`; none is always.
    pub period: Option<PeriodId>,
    /// `host_notification_commands` or `service_notification_commands`.
    pub lanes: Sequence<LaneId>,
}

impl Rights {
    /// Whether the contact's notices go out on this lane.
    pub fn uses_lane(&self, lane: LaneId) -> bool
        ensures { result ≡ uses_lane self.now lane.0 }
    {
        self.lanes.as_slice().iter().any(|other| other.0 == lane.0)
    }
}

/// A lane: a notification command that some contact uses.
#[derive(Drop)]
pub struct Lane {
    /// The name of the command.
    pub name: Text,
}

/// Seconds of a local day, from `start` on and before `end`: at most 86,400 both.
#[derive(Clone, Copy, Debug, PartialEq, Eq)]
pub struct Range {
    pub start: u32,
    pub end: u32,
}

/// The days that a dated line of a time period names (chapter "Time Periods", "Time Range Exceptions"). A month is 1 to
/// 12, a weekday 0 (Sunday) to 6. A day of a month is 1 to 31, or -1 to -31 from its end on; a place among the days of
/// one weekday in a month is 1 to 5, or -1 to -5 from its end on. A day that a month lacks never comes.
#[derive(Clone, Copy, Debug, PartialEq, Eq)]
pub enum DayRule {
    /// One date.
    Date { year: i16, month: u8, day: u8 },
    /// A day of one month, each year.
    OfMonth { month: u8, day: i8 },
    /// A day of each month.
    OfEachMonth { day: i8 },
    /// The weekday at this place in one month, each year.
    WeekdayOfMonth { weekday: u8, place: i8, month: u8 },
    /// The weekday at this place in each month.
    WeekdayOfEachMonth { weekday: u8, place: i8 },
}

/// A dated line of a time period: what holds on the days that it names.
#[derive(Drop)]
pub struct Dated {
    pub day: DayRule,
    pub ranges: Sequence<Range>,
}

/// A time period (chapter "Time Periods").
#[derive(Drop)]
pub struct Period {
    pub name: Text,
    /// The ranges of each weekday, Sunday first.
    pub days: [Sequence<Range>; 7],
    /// The dated lines, which decide on the days that they name.
    pub dated: Sequence<Dated>,
    /// The periods that are taken out of this one.
    pub excludes: Sequence<PeriodId>,
}

/// An escalation of one object (chapter "Notification Escalations").
#[derive(Drop)]
pub struct Escalation {
    pub object: ObjectId,
    /// `first_notification`: 0 to 1,000,000.
    pub first: u32,
    /// `last_notification`: 0 to 1,000,000, and 0 is "without end".
    pub last: u32,
    /// `notification_interval`, in units of 60 seconds: 0 to 1,000,000.
    pub interval: u32,
    /// `escalation_period`; none is always.
    pub period: Option<PeriodId>,
    /// `escalation_options`.
    pub options: OptionLetters,
    pub contacts: ContactList,
}

/// A notification dependency of one object on another (chapter "Host and Service Dependencies").
#[derive(Clone, Copy, Debug)]
pub struct Dependency {
    pub dependent: ObjectId,
    pub master: ObjectId,
    /// `inherits_parent`.
    pub inherits: bool,
    /// `notification_failure_criteria`.
    pub states: StateSet,
    /// `dependency_period`; none is always.
    pub period: Option<PeriodId>,
}

/// Whose rule decides where this project and the daemon of Nagios Core 4.4.6 differ, rule by rule: false is this
/// project's, true the daemon's. Where a chapter of the manual speaks of the rule it is named; of the others no chapter
/// speaks.
#[derive(Clone, Copy, Debug, PartialEq, Eq)]
pub struct Choices {
    /// A service whose host isn't UP. Here it is told of as any other. The daemon tells of no problem and no recovery
    /// of it, so a host that fails is one notice and not one for each of its services.
    pub host_down: bool,
    /// A service's result that is a problem in the state that it had, while its host isn't UP. Here it says nothing of the
    /// host. The daemon attempts the problem of the host again with it.
    pub host_repeats: bool,
    /// The notification dependencies of a service's host. Here they hold back the host alone (chapter "Host and Service
    /// Dependencies"). The daemon holds back the service by them too.
    pub host_dep: bool,
    /// A notice that every receiver's filters refuse. Here it counts: the next has the next number, and waits. By the
    /// daemon it leaves number, wait and told states as they were.
    pub nobody: bool,
    /// A service's recovery. Here it goes to all that the last problem notice's number reaches. The daemon leaves out
    /// who takes no state that was told in the problem.
    pub told: bool,
    /// A hard state that changes within a problem, and changes back. Here the wait after the last notice of that state
    /// runs on (chapter "Notifications"). By the daemon each change ends it.
    pub reset_wait: bool,
    /// The first delay. Here it runs from where the problem began (chapter "Object Definitions",
    /// `first_notification_delay`). By the daemon it runs anew from each change of the hard state.
    pub delay: bool,
    /// A dependency whose master is pending. Here it fails where its options have `p` (chapter "Host and Service
    /// Dependencies"). By the daemon a pending master counts as one that is UP or OK, and `p` says nothing.
    pub dep_pending: bool,
    /// An attempt outside the object's period. Here the wait after the last notice runs on. The daemon sets its end to
    /// the period's next moment (chapter "Notifications").
    pub period_wait: bool,
    /// An attempt that is stopped while a service of interval 0, or its host, is in downtime. Here the wait after the last
    /// notice runs on. By the daemon it is over.
    pub downtime_wait: bool,
    /// Whom flapping and downtimes are told. Here it is the object's own contacts. The daemon matches escalations with the
    /// number of the last problem notice.
    pub esc_other: bool,
    /// What attempts a problem again. Here the clock does, once its ready moment has come. The daemon attempts with
    /// results of the object alone.
    pub at_results: bool,
    /// Which filter is named, where several fail. Here downtime and flapping are asked before the options and the period. The
    /// daemon asks for the period first, and for flapping and downtime last.
    pub order: bool,
    /// A contact whose object text has no option list. Here it is told of everything. By the daemon it is told of nothing
    /// (chapter "Object Definitions" asks for the list). Object text is read by it; nothing here asks for it again.
    pub contact_none: bool,
    /// Object text that Nagios reads and this project refuses by name: directives without a value, other spellings, volatile
    /// services, ranges that end before they begin. By the daemon it is read as Nagios reads it.
    pub text: bool,
}

impl Choices {
    /// This project's rules: what is decided unless somebody asks for the daemon's.
    pub fn own() -> Choices
        ensures { result ≡ own }
    {
        Choices {
            host_down: false,
            host_repeats: false,
            host_dep: false,
            nobody: false,
            told: false,
            reset_wait: false,
            delay: false,
            dep_pending: false,
            period_wait: false,
            downtime_wait: false,
            esc_other: false,
            at_results: false,
            order: false,
            contact_none: false,
            text: false,
        }
    }

    /// The daemon's rules.
    pub fn nagios() -> Choices
        ensures { result ≡ nagios }
    {
        Choices {
            host_down: true,
            host_repeats: true,
            host_dep: true,
            nobody: true,
            told: true,
            reset_wait: true,
            delay: true,
            dep_pending: true,
            period_wait: true,
            downtime_wait: true,
            esc_other: true,
            at_results: true,
            order: true,
            contact_none: true,
            text: true,
        }
    }
}

/// All that the object text gives.
#[derive(Drop)]
pub struct Config {
    /// Whose rules decide.
    pub choices: Choices,
    pub objects: Objects,
    pub contacts: Sequence<Contact>,
    pub lanes: Sequence<Lane>,
    pub periods: Sequence<Period>,
    pub escalations: Escalations,
    pub dependencies: Dependencies,
}
