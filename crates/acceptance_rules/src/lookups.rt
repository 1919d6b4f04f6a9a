//! The plain look-ups of periods and dependencies, and periods as they are worked out, in a zone with summer time. Values are reckoned by
//! hand; those of other periods and zones are rows of `tests/rows`.

use acceptance_inputs::accepted::is_accepted;
use acceptance_inputs::dependencies::{ON_CRITICAL, WORKED, entry, hosts};
use acceptance_inputs::periods::{Row, periods};
use due_model::config::{Config, ObjectId, PeriodId, Range};
use due_model::dependencies::Dependencies;
use due_model::limits::LAST_MOMENT;
use due_model::zone::Zone;
use slow_rules::dependencies::dependency_fails;
use slow_rules::periods::{in_period, next_in};
use std::alloc::{AllocError, Global};
use std::process::Abort;
use std::test::Fail;
use time_period::compile::compile_all;
use time_period::compiled::Compiled;
use zone_times::clock::ZoneClock;
use zone_times::given::zone_given;

/// Two hours of Sunday, one of them, and the two without the one.
const ROWS: [Row; 3] = [
    Row {
        first: 0,
        last: 0,
        ranges: &[Range {
            start: 3_600,
            end: 10_800,
        }],
        excludes: &[],
    },
    Row {
        first: 0,
        last: 0,
        ranges: &[Range {
            start: 3_600,
            end: 7_200,
        }],
        excludes: &[],
    },
    Row {
        first: 0,
        last: 0,
        ranges: &[Range {
            start: 3_600,
            end: 10_800,
        }],
        excludes: &[PeriodId(1)],
    },
];

/// A period's number, a moment, and the least moment of the period from there on: in New York, before the hour that is left out in March
/// 2024, and at the one that comes twice in November. The plain look-up goes second by second.
const CASES: [(u16, u64, Option<u64>); 5] = [
    (0, 1_710_046_800, Some(1_710_050_400)),
    (1, 1_730_609_999, Some(1_730_610_000)),
    (1, 1_730_613_600, Some(1_730_613_600)),
    (1, 1_730_617_199, Some(1_730_617_199)),
    (2, 1_730_617_199, Some(1_730_617_200)),
];

/// What a period is looked up in: plainly, and as it is worked out.
#[derive(Clone, Copy)]
struct Looked<'a> {
    alloc: Global,
    config: &'a Config,
    zone: &'a Zone,
    all: &'a [Compiled],
    clock: &'a ZoneClock<'a>,
}

/// Compares what comes first of a period from a moment on.
fn comes(
    rt: &impl Abort,
    looked: Looked<'_>,
    case: (u16, u64, Option<u64>),
) -> Result<(), AllocError> {
    let (number, moment, wanted) = case;
    let t = moment.min(LAST_MOMENT);
    let period = Some(PeriodId(number));
    let next = next_in(looked.alloc, looked.config, looked.zone, period, t)?;
    let is_in = in_period(looked.alloc, looked.config, looked.zone, period, t)?;
    assert_eq!(rt;
        (next, is_in),
        (wanted, wanted == Some(t)),
        "period {number} from {t}"
    );
    let found = looked.all.get(usize::from(number));
    let worked = found.map(|it| (it.next(looked.clock, t), it.contains(looked.clock, t)));
    assert_eq!(rt;
        worked,
        Some((next, is_in)),
        "worked out, period {number} from {t}"
    );
    Ok(())
}

#[test]
fn summer_time(rt: HostRuntime) -> Result<(), Fail> {
    let config = periods(rt.alloc(), &ROWS)?;
    let all = compile_all(rt.alloc(), &config)?;
    match zone_given(rt.alloc(), Some("EST5EDT,M3.2.0,M11.1.0"), None) {
        Ok(zone) => {
            let clock = ZoneClock::new(&zone);
            let looked = Looked {
                alloc: rt.alloc(),
                config: &config,
                zone: &zone,
                all: all.as_slice(),
                clock: &clock,
            };
            for case in CASES {
                comes(&rt, looked, case)?;
            }
            Ok(())
        }
        Err(fault) => panic!(&rt; "{fault:?}"),
    }
}

/// An object of the worked chain, and whether a dependency of it fails: that of 3 inherits, that of 2 doesn't.
const FAILS: [(u16, bool); 4] = [(3, true), (2, true), (1, false), (4, false)];

#[test]
fn worked_chain(rt: HostRuntime) -> Result<(), Fail> {
    let entries = [
        entry(3, 2, true, ON_CRITICAL),
        entry(2, 1, false, ON_CRITICAL),
    ];
    let mut config = periods(rt.alloc(), &[])?;
    config.objects = hosts(rt.alloc(), 4)?;
    config.dependencies = Dependencies::new(rt.alloc(), Vec::from_slice(rt.alloc(), &entries)?)?;
    assert!(rt; is_accepted(&config));
    for (object, wanted) in FAILS {
        let object = ObjectId(object);
        let fails = dependency_fails(rt.alloc(), &config, &Zone::Utc, &WORKED, 1000, object)?;
        assert_eq!(rt; fails, wanted, "{object:?}");
    }
    Ok(())
}
