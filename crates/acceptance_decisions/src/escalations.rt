//! The interval after a notification, and who is notified. Values are those of the manual's escalations that overlap
//! (chapter "Notification Escalations"), or reckoned by hand.

ghost use Rattle.due_model.specs.claims.Accepted.{IsAccepted};
ghost use Rattle.time_period.specs.claims.Days.{AreCompiled};

use acceptance_inputs::accepted::is_accepted;
use acceptance_inputs::periods::{Row, periods};
use acceptance_inputs::rows::{ContactRow, EscalationRow, NO_LETTER, ObjectRow, Rows, config_of};
use due_model::config::{Config, ContactId, ObjectId, Period, PeriodId, Range};
use due_model::limits::LAST_MOMENT;
use due_model::options::{OptionLetter, OptionLetters};
use due_model::proper::has_object;
use due_model::sequence::Sequence;
use due_model::zone::Zone;
use escalation::contacts::{contacts, own_contacts};
use escalation::interval::matching_interval;
use std::alloc::{AllocError, Global};
use std::process::Abort;
use time_period::compile::compile_all;
use time_period::compiled::Compiled;
use zone_times::clock::ZoneClock;

const ANN: ContactId = ContactId(0);

const BOB: ContactId = ContactId(1);

const CAT: ContactId = ContactId(2);

const DAN: ContactId = ContactId(3);

const WEB: ObjectId = ObjectId(0);

const MAIL: ObjectId = ObjectId(1);

/// Recoveries alone.
const RECOVERY: OptionLetters = OptionLetters {
    recovery: true,
    ..NO_LETTER
};

/// Noon to one o'clock on Thursday.
const LUNCH: Row = Row {
    first: 4,
    last: 4,
    ranges: &[Range {
        start: 43_200,
        end: 46_800,
    }],
    excludes: &[],
};

/// Hosts with their own intervals and contacts.
const OWN: [ObjectRow; 2] = [
    ObjectRow {
        interval: 10,
        contacts: &[ANN],
        ..ObjectRow::PLAIN
    },
    ObjectRow {
        interval: 1,
        contacts: &[DAN, BOB, DAN],
        ..ObjectRow::PLAIN
    },
];

/// A contact without restrictions, on no lane.
const SOMEBODY: ContactRow = ContactRow {
    lanes: &[],
    ..ContactRow::FREE
};

/// Web's third to fifth notice.
const THIRD: EscalationRow = EscalationRow {
    object: WEB,
    first: 3,
    last: 5,
    interval: 45,
    period: None,
    options: OptionLetters::ALL,
    contacts: &[BOB],
};

/// Two hosts, four contacts, and escalations: those of web overlap as in the manual; of mail's one is valid at lunch, and one of
/// recoveries alone.
const ROWS: Rows<'static> = Rows {
    lanes: 0,
    contacts: &[SOMEBODY; 4],
    objects: &OWN,
    escalations: &[
        EscalationRow {
            object: MAIL,
            first: 1,
            last: 0,
            interval: 30,
            period: Some(PeriodId(0)),
            contacts: &[CAT, ANN, CAT],
            ..THIRD
        },
        THIRD,
        EscalationRow {
            first: 4,
            last: 0,
            interval: 60,
            contacts: &[CAT],
            ..THIRD
        },
        EscalationRow {
            object: MAIL,
            first: 0,
            last: 3,
            interval: 0,
            options: RECOVERY,
            contacts: &[DAN, ANN],
            ..THIRD
        },
    ],
    ..Rows::NONE
};

/// A host, the number, letter and moment of a notification, the seconds until the next one, and who is notified.
type Case = (ObjectId, u64, OptionLetter, u64, u64, &'static [ContactId]);

const DOWN: OptionLetter = OptionLetter::Down;

const UP: OptionLetter = OptionLetter::Recovery;

/// Of web, whose numbers are in no escalation, in one, in both, and in the one without end; and of mail, whose escalations a period or
/// options leave out.
const CASES: [Case; 9] = [
    (WEB, 2, DOWN, 600, 600, &[ANN]),
    (WEB, 3, DOWN, 1_200, 2_700, &[BOB]),
    (WEB, 4, DOWN, 3_900, 2_700, &[BOB, CAT]),
    (
        WEB,
        18_446_744_073_709_551_615,
        UP,
        LAST_MOMENT,
        3_600,
        &[CAT],
    ),
    (MAIL, 1, DOWN, 43_199, 60, &[BOB, DAN]),
    (MAIL, 1, DOWN, 43_200, 1_800, &[ANN, CAT]),
    (MAIL, 3, UP, 43_200, 0, &[ANN, CAT, DAN]),
    (MAIL, 3, UP, 46_800, 0, &[ANN, DAN]),
    (MAIL, 4, UP, 46_800, 60, &[BOB, DAN]),
];

/// Compares the interval and the contacts of one notification.
fn is_as_told(
    rt: &impl Abort,
    alloc: Global,
    config: &Config,
    all: &[Compiled],
    zone: &ZoneClock<'_>,
    case: Case,
) -> Result<(), AllocError>
    requires accepted { IsAccepted config.now }
    requires compiled { AreCompiled config.now all.now }
{
    let (object, number, letter, moment, wanted, wanted_contacts) = case;
    let t = moment.min(LAST_MOMENT);
    assert!(rt; has_object(config, object));
    let seconds = matching_interval(config, object, number, letter, t, all, zone);
    let mut told = Vec::new(alloc);
    contacts(
        alloc, config, object, number, letter, t, all, zone, &mut told,
    )?;
    assert_eq!(rt;
        (seconds, told.as_slice()),
        (wanted, wanted_contacts),
        "{object:?}, number {number}"
    );
    Ok(())
}

/// Compares those of each case.
fn are_as_told(
    rt: &impl Abort,
    alloc: Global,
    config: &Config,
    all: &[Compiled],
    zone: &ZoneClock<'_>,
) -> Result<(), AllocError>
    requires accepted { IsAccepted config.now }
    requires compiled { AreCompiled config.now all.now }
{
    for case in &CASES {
        is_as_told(rt, alloc, config, all, zone, *case)?;
    }
    Ok(())
}

/// The same with the periods worked out.
fn compiled_as_told(rt: &impl Abort, alloc: Global, config: &Config) -> Result<(), AllocError>
    requires { IsAccepted config.now }
{
    let all = compile_all(alloc, config)?;
    let zone = ZoneClock::new(&Zone::Utc);
    are_as_told(rt, alloc, config, all.as_slice(), &zone)
}

/// Each host's own contacts are added to those of the host before.
fn own_alone(rt: &impl Abort, alloc: Global, config: &Config) -> Result<(), AllocError>
    requires { IsAccepted config.now }
{
    let mut told = Vec::new(alloc);
    for number in 0..config.objects.len() {
        own_contacts(alloc, config, ObjectId(number as u16), &mut told)?;
    }
    assert_eq!(rt; told.as_slice(), [ANN, BOB, DAN].as_slice());
    Ok(())
}

/// Compares what each case says, and the own contacts.
fn says(rt: &impl Abort, alloc: Global, config: &Config) -> Result<(), AllocError> {
    assert!(rt; is_accepted(config));
    compiled_as_told(rt, alloc, config)?;
    own_alone(rt, alloc, config)
}

/// One period.
fn lunch(alloc: Global) -> Result<Sequence<Period>, AllocError> {
    let Config { periods, .. } = periods(alloc, &[LUNCH])?;
    Ok(periods)
}

/// The rows and the period.
fn config(alloc: Global) -> Result<Config, AllocError> {
    let mut config = config_of(alloc, ROWS)?;
    config.periods = lunch(alloc)?;
    Ok(config)
}

#[test]
fn intervals_and_contacts(rt: HostRuntime) -> Result<(), AllocError> {
    let config = config(rt.alloc())?;
    says(&rt, rt.alloc(), &config)
}
