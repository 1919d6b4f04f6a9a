//! Feeds whose handles and ends are in one thread.

ghost use Rattle.caller_feeds.specs.Feeds.{AreUnsent};

use crate::given::{count_of, end, event, improper, last_handle, post_all, take_all};
use caller_feeds::{EndFull, FeedHandle, Full, Intake, IntakeStop, feeds, meet_all};
use due_model::config::Config;
use std::process::Abort;
use std::sync::Wait;
use std::test::Fail;
use std::time::Clock;

/// The 257th event finds no place, and comes back; nor does the end.
fn fill(rt: &impl Abort, handles: &mut Vec<FeedHandle>)
    requires { AreUnsent handles.old.items }
{
    let mut handle = last_handle(rt, handles);
    for number in 0..256 {
        assert!(rt;
            handle.post(event(0, number)).is_ok(),
            "a place for {number}"
        );
    }
    let last = event(0, 256);
    assert!(rt;
        handle.post(last) == Err(Full { event: last }),
        "it comes back"
    );
    assert!(rt; handle.end() == Err(EndFull), "no place for the end");
}

#[test]
fn full_at_the_257th(rt: HostRuntime) -> Result<(), Fail> {
    let (mut handles, _ends) = feeds(rt.alloc(), 1)?;
    fill(&rt, &mut handles);
    Ok(())
}

/// Handles and ends are compared before anything is sent, and nothing comes of it.
#[test]
fn unsent_feeds_meet(rt: HostRuntime) -> Result<(), Fail> {
    let (mut handles, mut ends) = feeds(rt.alloc(), 2)?;
    meet_all(&mut handles, &mut ends);
    assert!(&rt; handles.len() == 2 && ends.len() == 2, "both are there");
    for end in &ends {
        assert!(&rt;
            !end.is_over() && end.improper() == 0,
            "nothing was received"
        );
    }
    Ok(())
}

/// What comes of two feeds with 100 events and with 3.
#[derive(Clone, Copy)]
pub(crate) struct Wanted {
    /// Whether the second one's end is sent.
    pub(crate) ended: bool,
    /// Why no more events come.
    pub(crate) stop: IntakeStop,
    /// How many come of the first, and of the second.
    pub(crate) first: u64,
    pub(crate) second: u64,
}

/// Posts so many events of a caller, after one of an object that isn't there, and drops the handle. Its end is sent where that is
/// wanted.
fn send(rt: &impl Abort, handles: &mut Vec<FeedHandle>, caller: u16, count: u64, ended: bool)
    requires { AreUnsent handles.old.items }
    ensures { AreUnsent handles.new.items }
{
    let mut handle = last_handle(rt, handles);
    let place = handle.post(improper());
    assert!(rt; place.is_ok(), "a place for the first");
    post_all(rt, &mut handle, caller, count);
    if ended {
        end(rt, &mut handle);
    }
}

/// What is taken is what is wanted, and no more comes when it is asked for again.
fn takes(rt: &(impl Wait + Clock + Abort), config: &Config, intake: Intake, wanted: Wanted) {
    let mut intake = intake;
    for _time in 0..2 {
        let stop = take_all(rt, config, &mut intake);
        assert!(rt; stop == wanted.stop, "it stops for {stop:?}");
    }
    let (events, ends) = intake.into_lists();
    let first = count_of(rt, &events, 0);
    let second = count_of(rt, &events, 1);
    let all = events.len() as u64;
    assert!(rt;
        first == wanted.first && second == wanted.second && all == first.saturating_add(second),
        "{first} and {second} of {all}"
    );
    for end in &ends {
        assert!(rt; end.improper() == 1, "one of an object that isn't there");
    }
}

/// Two callers post, and then their events are taken.
pub(crate) fn run_alone(
    rt: &(impl Wait + Clock + Abort),
    config: &Config,
    handles: Vec<FeedHandle>,
    intake: Intake,
    wanted: Wanted,
)
    requires { AreUnsent handles.items }
{
    let mut handles = handles;
    send(rt, &mut handles, 0, 100, true);
    send(rt, &mut handles, 1, 3, wanted.ended);
    takes(rt, config, intake, wanted);
}
