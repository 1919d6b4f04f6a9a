//! Reports of runs, where a channel fails and where the output does. What else a run writes is seen in `tests/run`.

use crate::watchers::Noting;
use crate::writers::Stubborn;
use acceptance_inputs::accepted::is_accepted;
use acceptance_inputs::configs::base;
use channel::memory::MemoryChannel;
use command_output::{CommandFault, Ending, Sink};
use due_model::config::{Config, LaneId};
use due_model::zone::Zone;
use engine::{Closers, LimitedFeed, OpenGate, OpenHorizon, Post, Settings, are_few};
use run_command::run;
use std::alloc::{AllocError, Global};
use std::process::Abort;
use std::sync::Wait;
use std::test::Fail;
use std::thread::Threads;
use std::time::Clock;
use text_lines::AnyReader;

/// The greatest length of a letter's text.
const LIMIT: u64 = 65_536;

/// How a run ends.
type Ended = Result<Ending, CommandFault>;

/// How a run of the feed ends, where a letter is tried twice at most, the one lane has a channel in memory, which fails at these calls, and
/// somebody watches.
fn ends<W: Sink, T: Abort + Threads + Wait + Clock + Sync>(
    rt: &T,
    alloc: Global,
    config: &Config,
    fails: &[u64],
    out: &mut W,
    watcher: &mut Noting,
) -> Result<Ended, AllocError> {
    assert!(rt; is_accepted(config), "the configuration is accepted");
    let settings = Settings::new(2, 4, 2).expect(rt, "settings in range");
    let mut posts = Vec::new(alloc);
    let channel = MemoryChannel::new(alloc, LIMIT, fails)?;
    posts.push(Post {
        lane: LaneId(0),
        channel,
    })?;
    assert!(rt; are_few(&posts), "no lane has too many channels");
    let closers = Closers::new(alloc, 1)?;
    let zone = Zone::Utc;
    let feed = LimitedFeed {
        reader: AnyReader::new(FEED.as_bytes()),
        horizon: OpenHorizon,
    };
    let (ended, _channels) = run(
        rt, alloc, config, &zone, settings, posts, feed, out, &closers, &OpenGate, watcher,
    );
    Ok(ended)
}

/// A host that is down, and told of again after a minute; in between, one event that is suppressed and one line that is no event.
const FEED: &str =
    "[1000] HOST_STATE;web;DOWN\n[1030] HOST_STATE;web;DOWN\n[x] CLOCK\n[1059] CLOCK\n[1060] CLOCK\n";

/// What is written of it where the first letter is undelivered.
const REPORT: &str =
    "R;3;BadStamp\nS;1;1030;web;PROBLEM;DOWN;Interval\nU;mail;0;web;ann\nU;mail;3;web;ann\nZ;mail;Failed\n";

/// A writer of five bytes a call that fails after so many calls takes a front of the report, and the watcher makes way once. The report
/// has 105 bytes.
#[test]
fn what_failed(rt: HostRuntime) -> Result<(), Fail> {
    let config = base(rt.alloc())?;
    for (calls, wanted) in [
        (0, Err(CommandFault::Output)),
        (1, Err(CommandFault::Output)),
        (6, Err(CommandFault::Output)),
        (1_000, Ok(Ending::Undelivered)),
    ] {
        let mut out = Stubborn {
            calls,
            fails: true,
            taken: Vec::new(rt.alloc()),
        };
        let mut watcher = Noting { ways: 0 };
        let ended = ends(&rt, rt.alloc(), &config, &[1, 2], &mut out, &mut watcher)?;
        let front = &REPORT.as_bytes()[..calls.saturating_mul(5).min(REPORT.len())];
        assert_eq!(rt; (ended, watcher.ways), (wanted, 1), "after {calls} calls");
        assert_eq!(rt; out.taken.as_slice(), front, "after {calls} calls");
    }
    Ok(())
}
