//! Two feeds in one thread, and why no more events come of them.

use crate::alone::{Wanted, run_alone};
use crate::given::{MOST_EVENTS, no_objects};
use caller_feeds::{Intake, IntakeStop, feeds};
use std::test::Fail;

/// How many events are taken at most, and what comes: both feeds to their end, one whose handle is dropped without it, and two in turn up
/// to a limit.
const CASES: [(usize, Wanted); 3] = [
    (
        MOST_EVENTS,
        Wanted {
            ended: true,
            stop: IntakeStop::Over,
            first: 100,
            second: 3,
        },
    ),
    (
        MOST_EVENTS,
        Wanted {
            ended: false,
            stop: IntakeStop::HandleDropped,
            first: 100,
            second: 3,
        },
    ),
    (
        4,
        Wanted {
            ended: true,
            stop: IntakeStop::Ended,
            first: 2,
            second: 2,
        },
    ),
];

#[test]
fn two_feeds(rt: HostRuntime) -> Result<(), Fail> {
    let config = no_objects(rt.alloc())?;
    for (most, wanted) in CASES {
        let (handles, ends) = feeds(rt.alloc(), 2)?;
        let intake = Intake::new(rt.alloc(), ends, most);
        run_alone(&rt, &config, handles, intake, wanted);
    }
    Ok(())
}
