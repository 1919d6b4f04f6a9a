//! Runs of the engine over feeds, and what they leave.

ghost use Rattle.caller_feeds.specs.Feeds.{AreUnread, AreUnsent, IsOpen};

use crate::given::{end, last_handle, post_in_turn};
use acceptance_inputs::accepted::is_accepted;
use acceptance_inputs::events::hard;
use caller_feeds::{FeedEnd, FeedHandle};
use channel::memory::MemoryChannel;
use due_model::config::{Config, LaneId, ObjectId};
use due_model::event::Event;
use due_model::notice::Notice;
use due_model::state::State;
use due_model::zone::Zone;
use engine::{Closers, Engine, OpenGate, Post, RunEnd, Settings, are_few};
use std::alloc::{AllocError, Global};
use std::process::Abort;
use std::sync::Wait;
use std::thread;
use std::thread::Threads;
use std::time::Clock;
use undelivered::Why;

/// The greatest length of a letter's text.
const LIMIT: u64 = 65_536;

/// The event of this number of a host that is down and up again in turn.
fn flip(object: u16, number: u64) -> Event {
    let state = if number % 2 == 0 {
        State::Down
    } else {
        State::Up
    };
    hard(number, object, state)
}

/// Posts so many events of a host that is down and up again in turn, each again while the feed is full.
pub(crate) fn post_flips(rt: &impl Abort, handle: &mut FeedHandle, object: u16, count: u64)
    requires { IsOpen handle.old }
    ensures { IsOpen handle.new }
{
    for number in 0..count {
        post_in_turn(rt, handle, flip(object, number));
    }
}

/// A channel in memory, which never fails, for each of so many lanes.
fn in_memory(alloc: Global, lanes: u8) -> Result<Vec<Post<MemoryChannel>>, AllocError> {
    let mut posts = Vec::new(alloc);
    for lane in 0..lanes {
        let channel = MemoryChannel::new(alloc, LIMIT, &[])?;
        posts.push(Post {
            lane: LaneId(lane),
            channel,
        })?;
    }
    Ok(posts)
}

/// The end of a run over feeds by so many deciders, where each lane has a channel in memory, and the queue of each holds one notice.
pub(crate) fn run<R: Abort + Threads + Wait + Clock + Sync>(
    rt: &R,
    alloc: Global,
    config: &Config,
    ends: Vec<FeedEnd>,
    deciders: u8,
) -> Result<(RunEnd, Vec<FeedEnd>), AllocError>
    requires { AreUnread ends.items }
{
    assert!(rt; is_accepted(config), "the configuration is accepted");
    let lanes = (config.lanes.len() % 256) as u8;
    let posts = in_memory(alloc, lanes)?;
    assert!(rt; are_few(&posts), "no lane has too many channels");
    let closers = Closers::new(alloc, lanes)?;
    let settings = Settings::new(deciders, 1, 3).expect(rt, "settings in range");
    let (end, ends, _channels) = Engine::run_feeds(
        rt,
        alloc,
        config,
        &Zone::Utc,
        ends,
        posts,
        settings,
        &closers,
        &OpenGate,
    );
    Ok((end, ends))
}

/// The same, while the callers post, each in a thread of its own: so many events of the host of its number, and its end.
pub(crate) fn run_beside(
    rt: &(impl Abort + Threads + Wait + Clock + Sync),
    alloc: Global,
    config: &Config,
    handles: Vec<FeedHandle>,
    ends: Vec<FeedEnd>,
    deciders: u8,
    events: u64,
) -> Result<(RunEnd, Vec<FeedEnd>), AllocError>
    requires handles { AreUnsent handles.items }
    requires ends { AreUnread ends.items }
{
    thread::scope(
        thread::scope_env(),
        rt,
        move |scope| -> Result<(RunEnd, Vec<FeedEnd>), AllocError>
            requires { AreUnsent handles.items × AreUnread ends.items }
        {
            let mut handles = handles;
            for object in 0..ends.len() {
                let object = (object % 256) as u16;
                let handle = last_handle(rt, &mut handles);
                let started = scope.spawn(
                    move ||
                        requires { IsOpen handle }
                    {
                        let mut handle = handle;
                        post_flips(rt, &mut handle, object, events);
                        end(rt, &mut handle);
                    },
                );
                assert!(rt; started.is_ok(), "the thread is started");
            }
            run(rt, alloc, config, ends, deciders)
        },
    )
}

/// So many events were taken, and nothing was refused; the feeds were cut or not.
pub(crate) fn has_taken(rt: &impl Abort, left: &RunEnd, events: usize, cut: bool) {
    let whole = !left.memory && left.cut == cut && left.refused.is_empty();
    assert!(rt; whole && left.events.len() == events, "{events} events");
}

/// How many notices of an object there are. They stand in order, and have the numbers 1 and 2 in turn.
fn count_of(rt: &impl Abort, notices: &[Notice], object: u16) -> u64 {
    let mut count = 0u64;
    let mut last = None;
    for notice in notices {
        if notice.object == ObjectId(object) {
            let number = u64::from(notice.number);
            assert!(rt;
                number == count % 2 + 1,
                "the number of {count} of {object}"
            );
            assert!(rt; last < Some(notice.event), "{count} of {object} is later");
            last = Some(notice.event);
            count = count.saturating_add(1);
        }
    }
    count
}

/// Each lane has taken so many notices of each of so many hosts, and no other, and has given nothing up.
pub(crate) fn have_taken(rt: &impl Abort, left: &RunEnd, lanes: usize, hosts: u16, each: u64) {
    assert!(rt; left.lanes.len() == lanes, "{lanes} lanes");
    for lane in &left.lanes {
        let taken = lane.record(0).unwrap_or(&[]);
        let mut all = 0u64;
        for host in 0..hosts {
            let count = count_of(rt, taken, host);
            assert!(rt; count == each, "{count} of {host}");
            all = all.saturating_add(count);
        }
        assert!(rt; taken.len() as u64 == all, "no other notice");
        assert!(rt;
            lane.undelivered().is_empty() && lane.why() == Why::FeedOver,
            "all went out"
        );
    }
}
