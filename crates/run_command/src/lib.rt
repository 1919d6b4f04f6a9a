//! The command `run`: the events of a feed, and the channels that take what they make due.
#![tactic(auto)]

ghost use Rattle.std.specs.Prelude.{◌≡◌, ◌≤◌, ℕ, [], false, IsOk};
ghost use Rattle.std.specs.Prelude.{IfErr, IfOk, IsErrOf, OnOk, ◌⊎◌};
ghost use Rattle.due_model.specs.claims.Accepted.{IsAccepted};
ghost use Rattle.engine.specs.claims.Lanes.{AreTold, channels_on, count_of};
ghost use Rattle.command_output.specs.claims.Outcome.{IsWriteFault};
ghost use Rattle.written.specs.claims.Written.{Writes, WritesFront};
ghost use Rattle.run_command.specs.claims.Report.{WritesReport, WritesReportFront, ending_of, report_text};

mod ends;
mod feed_lines;
mod lanes;
mod line_log;
mod logged;
mod repeats;

use channel::Channel;
use command_output::{CommandFault, Ending, Lines, Sink};
use due_model::config::Config;
use due_model::zone::Zone;
use engine::{Closers, Engine, Gate, Horizon, LimitedFeed, Post, RunEnd, Settings, Setup};
use feed_lines::{write_log, write_refused};
use lanes::{has_undelivered, write_lanes};
pub use line_log::LineLog;
pub use logged::{LoggedEnd, run_logged};
use progress::Watcher;
use std::alloc::Global;
use std::sync::Wait;
use std::thread::Threads;
use std::time::Clock;
use text_lines::Input;

/// Reads a feed to its end, hands what its events make due to the channels of the lanes, in threads, and writes the report of
/// that once the feed is over and all lanes are closed: the `R` lines of refused lines of the feed; the `S` and `C` lines of
/// what was suppressed; and lane by lane the `T` lines of what its channels have taken, the `U` lines of what it gave up, each in
/// order, where it was given several channels the `G` lines of how many each that served has taken, and its `Z` line. Where there is no memory for these lines
/// nothing is read and nothing is sent. Where the output fails, a front of the report was written. Where memory runs out in the run it reads
/// no further, and what is there is told. A line whose stamp is past the feed's horizon is refused as `Ahead`. The
/// watcher is told before lines are written. `Undelivered` says that a lane gave
/// something up, `Short` that the feed ended before its input; of both, the latter is said.
pub fn run<
    C: Channel,
    R: Input + Drop,
    W: Sink,
    H: Horizon + Drop,
    G: Gate + Sync,
    P: Watcher,
    T: Threads + Wait + Clock + Sync,
>(
    rt: &T,
    alloc: Global,
    config: &Config,
    zone: &Zone,
    settings: Settings,
    posts: Vec<Post<C>>,
    feed: LimitedFeed<R, H>,
    writer: &mut W,
    closers: &Closers,
    gate: &G,
    watcher: &mut P,
) -> (Result<Ending, CommandFault>, Vec<Vec<C>>)
    requires accepted { IsAccepted config.now }
    // Of each lane there are at most eight posts.
    requires few { (l : ℕ) → count_of (λ post. post.lane.0) posts.items l ≤ 8 }
    // What is written is the report of a run of the feed, and nothing else.
    ensures report { IfOk result.0 (λ ending. WritesReport R.can_fail (H.is_open feed.horizon) config.now zone.now
        (count_of (λ post. post.lane.0) posts.items)
        (AreTold C.account C.offered (λ cs. cs.items) settings.tries config.now
        (λ l. channels_on (λ post. post.lane.0) (λ post. post.channel) l posts.items) result.1.items)
        (R.remaining feed.reader) ending
        (W.contents writer.old) (W.contents writer.new)) }
    // Or a front of it, or nothing was read.
    ensures front { IfErr result.0 (λ fault. WritesReportFront R.can_fail (H.is_open feed.horizon) config.now zone.now
        (count_of (λ post. post.lane.0) posts.items)
        (AreTold C.account C.offered (λ cs. cs.items) settings.tries config.now
        (λ l. channels_on (λ post. post.lane.0) (λ post. post.channel) l posts.items) result.1.items)
        (R.remaining feed.reader) fault
        (W.contents writer.old) (W.contents writer.new)) }
    ensures fault { IfErr result.0 (λ fault. IsWriteFault W.can_fail fault) }
{
    let Ok(lines) = Lines::new(alloc) else {
        return (Err(CommandFault::NoMemory), Vec::new(alloc));
    };
    let setup = Setup {
        rt,
        alloc,
        config,
        zone,
        closers,
        gate,
    };
    let (end, channels) = Engine::run_within(setup, feed, posts, settings);
    watcher.make_way();
    let told = tell(lines, writer, config, &end);
    (outcome_of(&end, told), channels)
}

/// Writes the report of a run.
fn tell<W: Sink>(
    mut lines: Lines,
    writer: &mut W,
    config: &Config,
    end: &RunEnd,
) -> Result<(), CommandFault>
    requires { lines ≡ [] }
    ensures ok { OnOk result (Writes (W.contents writer.old) (W.contents writer.new)
        (report_text config.now end.now)) }
    ensures front { WritesFront (W.contents writer.old) (W.contents writer.new)
        (report_text config.now end.now) }
    ensures fault { IfErr result (λ fault. IsWriteFault W.can_fail fault) }
{
    write_refused(&mut lines, writer, config, &end.refused)?;
    write_log(&mut lines, writer, config, &end.log)?;
    write_lanes(&mut lines, writer, config, &end.lanes)?;
    lines.flush(writer)
}

/// How a run ended whose report was written, or not for a fault.
fn outcome_of(end: &RunEnd, told: Result<(), CommandFault>) -> Result<Ending, CommandFault>
    ensures ok { IfOk result (λ ending. (end.now.memory ≡ false)
        × (ending ≡ ending_of end.now) × IsOk told) }
    ensures output { IsErrOf result CommandFault.Output → end.now.memory ≡ false }
    ensures fault { IfErr result (λ found. (found ≡ CommandFault.NoMemory) ⊎ IsErrOf told found) }
{
    if end.memory {
        return Err(CommandFault::NoMemory);
    }
    told?;
    Ok(ending_of(end))
}

/// How a run ended whose report was written.
fn ending_of(end: &RunEnd) -> Ending
    ensures { result ≡ ending_of end.now }
{
    if end.cut {
        Ending::Short
    } else if has_undelivered(&end.lanes) {
        Ending::Undelivered
    } else {
        Ending::Whole
    }
}
