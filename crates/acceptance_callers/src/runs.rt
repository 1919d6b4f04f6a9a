//! What runs over feeds leave, with one, two and eight deciders.

ghost use Rattle.caller_feeds.specs.Feeds.{AreUnsent};

use crate::engines::{has_taken, have_taken, post_flips, run, run_beside};
use crate::given::{end, last_handle, post_in_turn};
use crate::sites::eight_hosts;
use acceptance_inputs::events::hard;
use caller_feeds::FeedHandle;
use due_model::config::Config;
use due_model::state::State;
use engine::Engine;
use std::alloc::{AllocError, Global};
use std::process::Abort;
use std::sync::Wait;
use std::test::Fail;
use std::thread::Threads;
use std::time::Clock;

/// How many deciders the runs have.
const DECIDERS: [u8; 3] = [1, 2, 8];

/// What two callers in one thread post.
#[derive(Clone, Copy)]
struct Posted {
    /// How many events, each of the host of its number.
    events: u64,
    /// Whether the second posts one of an object that isn't there.
    stray: bool,
    /// Whether the first sends its end; else its handle is dropped without it.
    ended: bool,
}

/// Posts what the callers have, the second first.
fn post_both(rt: &impl Abort, handles: &mut Vec<FeedHandle>, posted: Posted)
    requires { AreUnsent handles.old.items }
{
    for object in [1, 0] {
        let mut handle = last_handle(rt, handles);
        post_flips(rt, &mut handle, object, posted.events);
        if object == 1 && posted.stray {
            post_in_turn(rt, &mut handle, hard(0, 9, State::Down));
        }
        if object == 1 || posted.ended {
            end(rt, &mut handle);
        }
    }
}

/// Both post, and then a run takes what they have posted.
fn alone(
    rt: &(impl Abort + Threads + Wait + Clock + Sync),
    alloc: Global,
    config: &Config,
    deciders: u8,
    posted: Posted,
) -> Result<(), AllocError> {
    let (mut handles, ends) = Engine::feeds(alloc, 2)?;
    post_both(rt, &mut handles, posted);
    let (left, ends) = run(rt, alloc, config, ends, deciders)?;
    has_taken(rt, &left, 200, !posted.ended);
    have_taken(rt, &left, 2, 2, posted.events);
    let improper = u64::from(posted.stray);
    match ends.as_slice() {
        [first, second] => {
            assert!(rt;
                first.is_over() == posted.ended && second.is_over(),
                "which end is missing"
            );
            assert!(rt;
                first.improper() == 0 && second.improper() == improper,
                "{improper} stray"
            );
        }
        _ => panic!(rt; "two ends"),
    }
    Ok(())
}

/// Two hundred events, and for each host a hundred notices in order; with an event of an object that isn't there; and where a handle is
/// dropped without its end: the run ends, and is cut.
#[test]
fn two_hosts(rt: HostRuntime) -> Result<(), Fail> {
    let config = eight_hosts(rt.alloc())?;
    for (stray, ended) in [(false, true), (true, true), (true, false)] {
        let posted = Posted {
            events: 100,
            stray,
            ended,
        };
        for deciders in DECIDERS {
            alone(&rt, rt.alloc(), &config, deciders, posted)?;
        }
    }
    Ok(())
}

/// So many callers post a thousand events each while a run takes them.
fn beside(
    rt: &(impl Abort + Threads + Wait + Clock + Sync),
    alloc: Global,
    callers: u16,
) -> Result<(), AllocError> {
    let config = eight_hosts(alloc)?;
    for deciders in DECIDERS {
        let (handles, ends) = Engine::feeds(alloc, usize::from(callers))?;
        let (left, _ends) = run_beside(rt, alloc, &config, handles, ends, deciders, 1_000)?;
        has_taken(rt, &left, usize::from(callers) * 1_000, false);
        have_taken(rt, &left, 2, callers, 1_000);
    }
    Ok(())
}

/// One, two and eight callers, each in a thread of its own.
#[test]
fn callers_beside_a_run(rt: HostRuntime) -> Result<(), Fail> {
    for callers in [1, 2, 8] {
        beside(&rt, rt.alloc(), callers)?;
    }
    Ok(())
}
