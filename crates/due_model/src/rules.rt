//! The rules of what an event changes and what it attempts, over values already read.

ghost use Rattle.std.specs.Prelude.{◌≡◌, ◌+◌, ◌^◌, ◌<◌, Some, IfSome};
ghost use Rattle.due_model.specs.claims.Readings.{is_ok_state, is_problem_state, switch_after, hard_after};
ghost use Rattle.due_model.specs.claims.Readings.{depth_changed, is_hard_of, is_problem_of, switched_after};
ghost use Rattle.due_model.specs.claims.Acknowledgements.{is_removal_of};
ghost use Rattle.due_model.specs.Acknowledgements.{ack_after, kept_in_state};
ghost use Rattle.due_model.specs.claims.Rules.{asks_options, attempted, attempted_by_ack, attempted_by_state};
ghost use Rattle.due_model.specs.claims.Rules.{attempted_by_downtime};
ghost use Rattle.due_model.specs.claims.Rules.{attempted_by_flapping, downtime_kind, has_come, state_letter};
ghost use Rattle.due_model.specs.claims.Rules.{letter_of, has_letter, meets, with_letter, is_too_soon, next_notice};
ghost use Rattle.due_model.specs.claims.Rules.{same_state};
ghost use Rattle.due_model.specs.claims.Rules.{is_problem, is_recovery, is_of_problem, is_told_in_downtime};
ghost use Rattle.due_model.specs.claims.Dependencies.{counted, fails_at, has_state};
ghost use Rattle.due_model.specs.claims.Histories.{number_after};

use crate::config::{ObjectId, PeriodId};
use crate::event::{Acknowledgement, DowntimeChange, EventKind};
use crate::notice::Kind;
use crate::options::{OptionLetter, OptionLetters};
use crate::state::{State, StateSet};

impl State {
    /// Whether this is an OK state (chapter "State Types").
    pub fn is_ok(self) -> bool
        ensures { result ≡ is_ok_state self }
    {
        matches!(self, State::Up | State::Fine)
    }

    /// Whether this is a problem state: neither OK nor pending (chapter "State Types").
    pub fn is_problem(self) -> bool
        ensures { result ≡ is_problem_state self }
    {
        !matches!(self, State::Pending | State::Up | State::Fine)
    }

    /// The letter of a problem state; an OK or a pending state has that of a recovery.
    pub fn letter(self) -> OptionLetter
        ensures { result ≡ state_letter self }
    {
        match self {
            State::Pending | State::Up | State::Fine => OptionLetter::Recovery,
            State::Down => OptionLetter::Down,
            State::Unreachable => OptionLetter::Unreachable,
            State::Warning => OptionLetter::Warning,
            State::Unknown => OptionLetter::Unknown,
            State::Critical => OptionLetter::Critical,
        }
    }
}

impl StateSet {
    /// Whether the state is in the set.
    pub fn contains(&self, state: State) -> bool
        ensures { result ≡ has_state self.now state }
    {
        match state {
            State::Pending => self.pending,
            State::Up => self.up,
            State::Down => self.down,
            State::Unreachable => self.unreachable,
            State::Fine => self.fine,
            State::Warning => self.warning,
            State::Unknown => self.unknown,
            State::Critical => self.critical,
        }
    }

    /// Whether a dependency with these states fails by the hard state of its master. By the daemon's rule a pending
    /// master counts as one that is UP or OK.
    pub fn fails_at(&self, daemons: bool, state: State) -> bool
        ensures { result ≡ fails_at daemons self.now state }
    {
        self.counted(daemons).contains(state)
    }

    /// The states by which a dependency with these fails: by the daemon's rule, pending where UP or OK is among them.
    fn counted(self, daemons: bool) -> StateSet
        ensures { result ≡ counted daemons self }
    {
        let mut states = self;
        if daemons {
            states.pending = self.up || self.fine;
        }
        states
    }
}

impl OptionLetters {
    /// Whether the letter is in the set.
    pub fn contains(&self, letter: OptionLetter) -> bool
        ensures { result ≡ has_letter self.now letter }
    {
        match letter {
            OptionLetter::Down => self.down,
            OptionLetter::Unreachable => self.unreachable,
            OptionLetter::Warning => self.warning,
            OptionLetter::Unknown => self.unknown,
            OptionLetter::Critical => self.critical,
            OptionLetter::Recovery => self.recovery,
            OptionLetter::Flapping => self.flapping,
            OptionLetter::Downtime => self.downtime,
        }
    }
}

impl OptionLetters {
    /// The set of no letter.
    pub const NONE: OptionLetters = OptionLetters {
        down: false,
        unreachable: false,
        warning: false,
        unknown: false,
        critical: false,
        recovery: false,
        flapping: false,
        downtime: false,
    };

    /// Whether this set and another have a letter in common.
    pub fn meets(self, other: OptionLetters) -> bool
        ensures { result ≡ meets self other }
    {
        (self.down && other.down)
            || (self.unreachable && other.unreachable)
            || (self.warning && other.warning)
            || (self.unknown && other.unknown)
            || (self.critical && other.critical)
            || (self.recovery && other.recovery)
            || (self.flapping && other.flapping)
            || (self.downtime && other.downtime)
    }

    /// The set with a letter.
    pub fn with(self, letter: OptionLetter) -> OptionLetters
        ensures { result ≡ with_letter letter self }
    {
        let mut set = self;
        match letter {
            OptionLetter::Down => set.down = true,
            OptionLetter::Unreachable => set.unreachable = true,
            OptionLetter::Warning => set.warning = true,
            OptionLetter::Unknown => set.unknown = true,
            OptionLetter::Critical => set.critical = true,
            OptionLetter::Recovery => set.recovery = true,
            OptionLetter::Flapping => set.flapping = true,
            OptionLetter::Downtime => set.downtime = true,
        }
        set
    }
}

impl Kind {
    /// The letter of a notification of this kind, about an object in this state (chapter "Object
    /// Definitions", `notification_options`).
    pub fn letter(self, state: State) -> OptionLetter
        ensures { result ≡ letter_of self state }
    {
        match self {
            Kind::Problem | Kind::Acknowledgement => state.letter(),
            Kind::Recovery => OptionLetter::Recovery,
            Kind::FlappingStart | Kind::FlappingStop => OptionLetter::Flapping,
            Kind::DowntimeStart | Kind::DowntimeEnd | Kind::DowntimeCancelled =>
                OptionLetter::Downtime,
        }
    }

    /// Whether this is a problem notification.
    pub fn is_problem(self) -> bool
        ensures { result ≡ is_problem self }
    {
        matches!(self, Kind::Problem)
    }

    /// Whether this is a recovery notification.
    pub fn is_recovery(self) -> bool
        ensures { result ≡ is_recovery self }
    {
        matches!(self, Kind::Recovery)
    }

    /// Whether this notification is about a problem, or the recovery from one.
    pub fn is_of_problem(self) -> bool
        ensures { result ≡ is_of_problem self }
    {
        matches!(self, Kind::Problem | Kind::Recovery)
    }

    /// Whether this notification goes out in a downtime too: it is about a downtime, or an acknowledgement.
    pub fn is_told_in_downtime(self) -> bool
        ensures { result ≡ is_told_in_downtime self }
    {
        matches!(
            self,
            Kind::DowntimeStart
                | Kind::DowntimeCancelled
                | Kind::DowntimeEnd
                | Kind::Acknowledgement
        )
    }

    /// Whether the object's options are asked for the letter of this notification: of all but an acknowledgement.
    pub fn asks_options(self) -> bool
        ensures { result ≡ asks_options self }
    {
        !matches!(self, Kind::Acknowledgement)
    }

    /// The number of a notification of this kind in its problem, of which so many problem notices went out
    /// before it; 0 for the kinds that have none.
    pub fn number_after(self, sent: u64) -> u64
        requires { sent + 1 < 2 ^ 64 }
        ensures { result ≡ number_after sent self }
    {
        match self {
            Kind::Problem | Kind::Recovery => sent + 1,
            _ => 0,
        }
    }
}

impl EventKind {
    /// The program switch after this event, which was `on` before it (chapter "External Commands").
    pub fn switch_after(self, on: bool) -> bool
        ensures { result ≡ switch_after self on }
    {
        match self {
            EventKind::Program(now) => now,
            _ => on,
        }
    }

    /// The hard state of an object after this event, which was `state` before it (chapter "State Types").
    pub fn hard_after(self, object: ObjectId, state: State) -> State
        ensures { result ≡ hard_after object.0 self state }
    {
        match self {
            EventKind::Hard(named, now) => { if named.0 == object.0 { now } else { state } }
            _ => state,
        }
    }

    /// Whether this event is a hard problem state of the object.
    pub fn is_problem_of(self, object: ObjectId) -> bool
        ensures { result ≡ is_problem_of object.0 self }
    {
        match self {
            EventKind::Hard(named, now) => named.0 == object.0 && now.is_problem(),
            _ => false,
        }
    }

    /// How the running problem of an object is acknowledged after this event: sticky or not; none where it
    /// isn't. Before the event the object was in this hard state, and `kept` was the acknowledgement
    /// (chapter "External Commands").
    pub fn ack_after(self, object: ObjectId, state: State, kept: Option<bool>) -> Option<bool>
        ensures { result ≡ ack_after object.0 self state kept }
    {
        match self {
            EventKind::Hard(named, now) => {
                if named.0 == object.0 {
                    kept_in_state(kept, state, now)
                } else {
                    kept
                }
            }
            EventKind::Ack(named, ack) => {
                if named.0 == object.0 && state.is_problem() {
                    Some(ack.sticky)
                } else {
                    kept
                }
            }
            EventKind::AckRemoved(named) => { if named.0 == object.0 { None } else { kept } }
            _ => kept,
        }
    }

    /// The object's own switch after this event, which was so before it; none, where nothing switched it (chapter
    /// "External Commands").
    pub fn switched_after(self, object: ObjectId, own: Option<bool>) -> Option<bool>
        ensures { result ≡ switched_after object.0 self own }
    {
        match self {
            EventKind::OwnSwitch(named, on) => { if named.0 == object.0 { Some(on) } else { own } }
            _ => own,
        }
    }

    /// Whether this event gives the object a hard state.
    pub fn is_hard_of(self, object: ObjectId) -> bool
        ensures { result ≡ is_hard_of object.0 self }
    {
        match self {
            EventKind::Hard(named, _) => named.0 == object.0,
            _ => false,
        }
    }

    /// Whether this event takes back an acknowledgement of the object.
    pub fn is_removal_of(self, object: ObjectId) -> bool
        ensures { result ≡ is_removal_of object.0 self }
    {
        match self {
            EventKind::AckRemoved(named) => named.0 == object.0,
            _ => false,
        }
    }
}

/// What is left of an acknowledgement when an object in hard state `old` has the hard state `now`: nothing
/// after an OK state, and nothing after a change of state unless it is sticky.
fn kept_in_state(kept: Option<bool>, old: State, now: State) -> Option<bool>
    ensures { result ≡ kept_in_state kept old now }
{
    match kept {
        Some(sticky) => {
            if !now.is_ok() && (sticky || same_state(now, old)) {
                Some(sticky)
            } else {
                None
            }
        }
        None => None,
    }
}

impl DowntimeChange {
    /// How many downtimes run after this change, of `depth` before it. They nest, and an end with none
    /// running does nothing (chapter "Scheduled Downtime").
    pub fn depth_after(self, depth: u64) -> u64
        requires { depth + 1 < 2 ^ 64 }
        ensures { result ≡ depth_changed self depth }
    {
        match self {
            DowntimeChange::Start => depth + 1,
            DowntimeChange::End | DowntimeChange::Cancelled => depth.saturating_sub(1),
        }
    }

    /// The kind of notification about this change.
    pub fn kind(self) -> Kind
        ensures { result ≡ downtime_kind self }
    {
        match self {
            DowntimeChange::Start => Kind::DowntimeStart,
            DowntimeChange::End => Kind::DowntimeEnd,
            DowntimeChange::Cancelled => Kind::DowntimeCancelled,
        }
    }
}

/// The status of an object: what is known of it, apart from its notices.
#[derive(Clone, Copy, Debug, PartialEq, Eq)]
pub struct ObjectStatus {
    /// The last hard state.
    pub state: State,
    /// How many downtimes run.
    pub depth: u64,
    pub flapping: bool,
    /// How the running problem is acknowledged: sticky (`true`) or not; none where it isn't.
    pub acknowledged: Option<bool>,
    /// The object's own switch; none, where nothing switched it.
    pub switched: Option<bool>,
}

/// What a hard state attempts on an object that was in state `old`.
pub fn attempted_by_state(old: State, now: State) -> Option<Kind>
    ensures { result ≡ attempted_by_state old now }
{
    if now.is_problem() {
        Some(Kind::Problem)
    } else if now.is_ok() && old.is_problem() {
        Some(Kind::Recovery)
    } else {
        None
    }
}

/// What a change of a downtime attempts on an object of which `depth` downtimes ran.
pub fn attempted_by_downtime(depth: u64, change: DowntimeChange) -> Option<Kind>
    requires { depth + 1 < 2 ^ 64 }
    ensures { result ≡ attempted_by_downtime depth change }
{
    let was_down = 0 < depth;
    let is_down = 0 < change.depth_after(depth);
    if was_down {
        if is_down { None } else { Some(change.kind()) }
    } else if is_down {
        Some(change.kind())
    } else {
        None
    }
}

/// What a start or a stop of flapping attempts on an object that was flapping or not.
pub fn attempted_by_flapping(flapping: bool, starts: bool) -> Option<Kind>
    ensures { result ≡ attempted_by_flapping flapping starts }
{
    match (starts, flapping) {
        (true, false) => Some(Kind::FlappingStart),
        (false, true) => Some(Kind::FlappingStop),
        _ => None,
    }
}

/// What an acknowledgement attempts on an object in this hard state: only a problem is acknowledged.
pub fn attempted_by_ack(state: State, ack: Acknowledgement) -> Option<Kind>
    ensures { result ≡ attempted_by_ack state ack }
{
    if state.is_problem() && ack.notify {
        Some(Kind::Acknowledgement)
    } else {
        None
    }
}

/// What an event attempts on an object, of which `old` was the status before it and `ready` the ready moment,
/// at moment `t` (chapter "Notifications", "When Do Notifications Occur?"). None is "nothing".
pub fn attempted(
    object: ObjectId,
    event: EventKind,
    old: ObjectStatus,
    ready: Option<u64>,
    t: u64,
) -> Option<Kind>
    requires { old.depth + 1 < 2 ^ 64 }
    ensures { result ≡ attempted object.0 event old ready t }
{
    match event {
        EventKind::Clock => {
            if old.state.is_problem() && has_come(ready, t) {
                Some(Kind::Problem)
            } else {
                None
            }
        }
        EventKind::Program(_) => None,
        EventKind::Hard(named, now) => {
            if named.0 == object.0 {
                attempted_by_state(old.state, now)
            } else {
                None
            }
        }
        EventKind::Downtime(named, change) => {
            if named.0 == object.0 {
                attempted_by_downtime(old.depth, change)
            } else {
                None
            }
        }
        EventKind::Flapping(named, starts) => {
            if named.0 == object.0 {
                attempted_by_flapping(old.flapping, starts)
            } else {
                None
            }
        }
        EventKind::Ack(named, ack) => {
            if named.0 == object.0 {
                attempted_by_ack(old.state, ack)
            } else {
                None
            }
        }
        EventKind::AckRemoved(_) | EventKind::OwnSwitch(_, _) => None,
    }
}

/// The last problem notice of the running problem.
#[derive(Clone, Copy, Debug, PartialEq, Eq)]
pub struct Last {
    /// The state that it reported.
    pub state: State,
    /// When it went out, in seconds since the epoch.
    pub moment: u64,
    /// How long the next of the same state has to wait, in seconds; 0 is for ever.
    pub gap: u64,
}

/// A notification that is attempted.
#[derive(Clone, Copy, Debug, PartialEq, Eq)]
pub struct Attempt {
    pub kind: Kind,
    /// The object's last hard state, the event's own counted.
    pub state: State,
    /// In seconds since the epoch.
    pub moment: u64,
}

/// What the filters of an object read at an event, the event itself counted.
#[derive(Clone, Copy, Debug, PartialEq, Eq)]
pub struct View {
    /// Whether the program switch is on.
    pub program: bool,
    /// Whether the object's notifications are on.
    pub enabled: bool,
    /// Whether the object, or a service's host, is in downtime.
    pub down: bool,
    pub flapping: bool,
    /// `notification_options`.
    pub options: OptionLetters,
    /// How many problem notices of this problem went out.
    pub sent: u64,
    /// `notification_period`; none is always.
    pub period: Option<PeriodId>,
    /// Whether a notification dependency fails.
    pub depends: bool,
    /// Whether the problem is acknowledged.
    pub acknowledged: bool,
    /// Since when the first delay runs, in seconds since the epoch.
    pub began: u64,
    /// `first_notification_delay`, in units of 60 seconds.
    pub delay: u32,
    /// The last problem notice of this problem, if its wait wasn't ended.
    pub last: Option<Last>,
    /// Whether this is a hard state of a volatile service.
    pub renews: bool,
    /// The letters of the states that were told in this problem.
    pub told: OptionLetters,
    /// Whether the host of a service isn't UP, where that holds notices back.
    pub host_problem: bool,
}

/// Whether a problem notice of this state comes too soon at moment `t`: the last one reported the same
/// state, and its gap is 0 or hasn't passed (chapter "Notifications").
pub fn is_too_soon(last: Option<Last>, state: State, t: u64) -> bool
    requires { IfSome last (λ l. l.moment + l.gap < 2 ^ 64) }
    ensures { result ≡ is_too_soon last state t }
{
    match last {
        Some(l) => same_state(l.state, state) && !has_come(next_notice(l.moment, l.gap), t),
        None => false,
    }
}

/// Whether two states are one.
pub fn same_state(a: State, b: State) -> bool
    ensures { result ≡ same_state a b }
{
    a as u8 == b as u8
}

/// Whether a ready moment has come at moment `t`; none never comes.
pub fn has_come(ready: Option<u64>, t: u64) -> bool
    ensures { result ≡ has_come ready t }
{
    match ready {
        Some(moment) => moment <= t,
        None => false,
    }
}

/// The moment of the next notice of the same state, in seconds since the epoch, after one at `moment`
/// with this gap in seconds; none, where the gap is 0.
pub fn next_notice(moment: u64, gap: u64) -> Option<u64>
    requires { moment + gap < 2 ^ 64 }
    ensures { result ≡ next_notice moment gap }
{
    if gap == 0 { None } else { Some(moment + gap) }
}
