//! A run whose deciders have logs of their own.

ghost use Rattle.std.specs.Prelude.{◌≡◌, ◌≤◌, ℕ, [], length, IfErr, IfOk, OnOk};
ghost use Rattle.due_model.specs.claims.Accepted.{IsAccepted};
ghost use Rattle.engine.specs.claims.Lanes.{AreTold, channels_on, count_of};
ghost use Rattle.command_output.specs.claims.Outcome.{IsWriteFault};
ghost use Rattle.written.specs.claims.Written.{Writes, WritesFront};
ghost use Rattle.run_command.specs.Report.{WritesEnds, WritesEndsFront, ends_text};

use crate::ends::write_ends;
use crate::outcome_of;
use channel::Channel;
use command_output::{CommandFault, Ending, Lines, Sink};
use due_model::config::Config;
use due_model::zone::Zone;
use engine::{DeciderLog, Engine, Gate, Horizon, LaneEnd, LimitedFeed, Outlets, Settings, Setup};
use progress::Watcher;
use std::sync::Wait;
use std::thread::Threads;
use std::time::Clock;
use text_lines::Input;

/// What a run leaves that had logs.
#[derive(Drop)]
pub struct LoggedEnd<C: Channel, L: DeciderLog> {
    /// How it ended.
    pub outcome: Result<Ending, CommandFault>,
    /// The channels of each lane, in the order of its posts.
    pub channels: Vec<Vec<C>>,
    /// The log of each decider, in order; none where the run didn't begin.
    pub logs: Vec<L>,
}

/// Reads a feed to its end, and hands what its events make due to the channels of the lanes, in threads. Each decider tells its log what
/// it suppresses, as soon as an event is decided. Once the feed is over and all lanes are closed, the end of each lane is written, and nothing else: where it
/// was given several channels the `G` lines of how many each that served has taken, and its `Z` line. Where there is no memory for these lines nothing is read
/// and nothing is sent. The rest is as in `run`.
pub fn run_logged<
    C: Channel,
    L: DeciderLog,
    R: Input + Drop,
    W: Sink,
    H: Horizon + Drop,
    G: Gate + Sync,
    P: Watcher,
    T: Threads + Wait + Clock + Sync,
>(
    setup: Setup<'_, Zone, G, T>,
    settings: Settings,
    outlets: Outlets<C, L>,
    feed: LimitedFeed<R, H>,
    writer: &mut W,
    watcher: &mut P,
) -> LoggedEnd<C, L>
    requires accepted { IsAccepted setup.config.now }
    // Of each lane there are at most eight posts.
    requires few { (l : ℕ) → count_of (λ post. post.lane.0) outlets.posts.items l ≤ 8 }
    // There is a log for each decider.
    requires logs { length outlets.logs.items ≡ settings.deciders }
    // What is written is the ends of the lanes of a run of the feed, whose logs were told what it suppressed.
    ensures report { IfOk result.outcome (λ ending. WritesEnds L.tells L.failed R.can_fail (H.is_open feed.horizon)
        setup.entry.config.now setup.entry.zone.now (count_of (λ post. post.lane.0) outlets.posts.items)
        (AreTold C.account C.offered (λ cs. cs.items) settings.tries setup.entry.config.now
        (λ l. channels_on (λ post. post.lane.0) (λ post. post.channel) l outlets.posts.items) result.channels.items)
        (R.remaining feed.reader) outlets.logs.items result.logs.items ending
        (W.contents writer.old) (W.contents writer.new)) }
    // Or a front of it, or nothing was read.
    ensures front { IfErr result.outcome (λ fault. WritesEndsFront L.tells L.failed R.can_fail (H.is_open feed.horizon)
        setup.entry.config.now setup.entry.zone.now (count_of (λ post. post.lane.0) outlets.posts.items)
        (AreTold C.account C.offered (λ cs. cs.items) settings.tries setup.entry.config.now
        (λ l. channels_on (λ post. post.lane.0) (λ post. post.channel) l outlets.posts.items) result.channels.items)
        (R.remaining feed.reader) outlets.logs.items result.logs.items fault
        (W.contents writer.old) (W.contents writer.new)) }
    ensures fault { IfErr result.outcome (λ fault. IsWriteFault W.can_fail fault) }
{
    let Ok(lines) = Lines::new(setup.alloc) else {
        return LoggedEnd {
            outcome: Err(CommandFault::NoMemory),
            channels: Vec::new(setup.alloc),
            logs: Vec::new(setup.alloc),
        };
    };
    let (end, channels, logs) = Engine::run_told(setup, feed, outlets, settings);
    watcher.make_way();
    let told = tell_ends(lines, writer, setup.config, &end.lanes);
    LoggedEnd {
        outcome: outcome_of(&end, told),
        channels,
        logs,
    }
}

/// Writes the ends of lanes.
fn tell_ends<W: Sink>(
    mut lines: Lines,
    writer: &mut W,
    config: &Config,
    lanes: &[LaneEnd],
) -> Result<(), CommandFault>
    requires { lines ≡ [] }
    ensures ok { OnOk result (Writes (W.contents writer.old) (W.contents writer.new)
        (ends_text config.now lanes.now)) }
    ensures front { WritesFront (W.contents writer.old) (W.contents writer.new)
        (ends_text config.now lanes.now) }
    ensures fault { IfErr result (λ fault. IsWriteFault W.can_fail fault) }
{
    write_ends(&mut lines, writer, config, lanes)?;
    lines.flush(writer)
}
