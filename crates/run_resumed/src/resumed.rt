//! A run that goes on.

ghost use Rattle.std.specs.Prelude.{◌≡◌, ◌≤◌, ℕ, [], is_none, length, map, unwrap_or, All, IfErr, IfOk};
ghost use Rattle.std.specs.Arc.{arc_value};
ghost use Rattle.std.specs.Option.{option_map};
ghost use Rattle.channel_words.specs.Lanes.{channels_for};
ghost use Rattle.due_model.specs.claims.Accepted.{IsAccepted};
ghost use Rattle.run_devices.specs.Channels.{numbered_from, opened};
ghost use Rattle.run_resumed.specs.Fault.{IsNoChannelFault, ResumeFails};
ghost use Rattle.run_resumed.specs.Resumed.{AreFresh, AreKept, IsGoneOn, IsLoggedOn, IsResumedPost, LogsWith, ResumesWith, WritesEndsAndLines, WritesRunAndLines};

use crate::fault::{ResumeFault, told};
use crate::inner::RunChannel;
use crate::journal_lines::write_journal_lines;
use crate::journaled_run::{log_journaled, run_journaled};
use crate::posts::{ResumedChannel, resumed_posts};
use crate::ready::{Kept, KeptFault, Ready, ready_run};
use crate::settings::ResumedSettings;
use channel::Channel;
use command_output::{CommandFault, Ending, Sink};
use due_model::config::{Config, LaneId};
use due_model::zone::Zone;
use earlier_runs::{FolderJournals, Journals};
use engine::Post;
use journal_folder::FileJournal;
use journaled::Journal;
use run_devices::channels::OpenedChannel;
use run_devices::logged_run::opened_log;
use run_devices::run::posts_of;
use run_devices::{LogPlace, RunSettings, RunWords, Watched, metrics_at};
use std::alloc::Global;
use std::sync::{Arc, Wait};
use std::thread::Threads;
use std::time::Clock;
use text_lines::Input;

/// What a run leaves that went on.
#[derive(Drop)]
pub struct Resumed {
    /// How it ended.
    pub ending: Ending,
    /// The channels of each lane, in the order of their words.
    pub channels: Vec<Vec<ResumedChannel>>,
}

/// Does a run that goes on where earlier runs of the same feed have ended. The shape of all words is looked at before the object text is
/// read, and their names once that is accepted; then the journals are read, and the channels opened in the order of the words; and then
/// the feed is read, from its start.
pub fn do_resumed_run<'m, 'a, T: Threads + Wait + Clock + Sync, R: Input + Drop, W: Sink>(
    rt: &HostRuntime,
    threads: &T,
    zone: &Zone,
    words: RunWords<'m, 'a>,
    settings: ResumedSettings<'_>,
    feed: R,
    writer: &mut W,
) -> Result<Resumed, ResumeFault<'a>>
    // It is done only where all checks of the words went well, and what the feed's file makes due is what was sent. Its channels are those
    // of the words, each over a journal of its lane; of what they took, what no earlier run settled is what the channels below have taken.
    ensures ok { let texts = map (λ text. text.now)
        (unwrap_or (option_map (λ given. given.now) words.entry.channels) [])
        in IfOk result (λ done. IsGoneOn ⟦<RunChannel as Channel>⟧.account
        ⟦<ResumedChannel as Channel>⟧.account ⟦<ResumedChannel as Channel>⟧.offered (λ cs. cs.items) (λ c. opened c.sent.channel)
        (λ c states. AreKept
        ⟦<FolderJournals as Journals<FileJournal>>⟧.says ⟦<FolderJournals as Journals<FileJournal>>⟧.goes_on
        ⟦<FolderJournals as Journals<FileJournal>>⟧.knows ⟦<FolderJournals as Journals<FileJournal>>⟧.begins
        ⟦<FolderJournals as Journals<FileJournal>>⟧.replaced ⟦<FileJournal as Journal>⟧.wrote
        settings.entry.state.drops_doubt settings.entry.state.from_now c zone.now states)
        settings.entry.run.choices texts R.can_fail (is_none settings.entry.run.ahead) zone.now settings.entry.run.settings.tries done.channels.items
        (R.remaining feed) done.ending (W.contents writer.old) (W.contents writer.new)) }
    // What it fails with, and that the earlier checks went well.
    ensures fault { let texts = map (λ text. text.now)
        (unwrap_or (option_map (λ given. given.now) words.entry.channels) [])
        in IfErr result (ResumeFails texts) }
{
    let ready = ready_run(rt, zone, words, settings)?;
    let deciders = settings.run.settings.deciders;
    let metrics = metrics_at(rt, &ready.config, deciders, words.metrics)?;
    let watched = Watched::new(rt, threads, settings.run.quiet, None, metrics)?;
    let done = resume(watched, zone, settings, ready, feed, writer)?;
    Ok(done)
}

/// The same of a run with a log: the lines of its report go there as they happen, and the ends of its lanes and the lines of its journals to
/// the writer once the feed is over. The log has what this run did: of what earlier runs settled it has no line of a message.
pub fn do_logged_resumed_run<'m, 'a, T: Threads + Wait + Clock + Sync, R: Input + Drop, W: Sink>(
    rt: &HostRuntime,
    threads: &T,
    zone: &Zone,
    words: RunWords<'m, 'a>,
    settings: ResumedSettings<'_>,
    log: LogPlace<'_>,
    feed: R,
    writer: &mut W,
) -> Result<Resumed, ResumeFault<'a>>
    ensures ok { let texts = map (λ text. text.now)
        (unwrap_or (option_map (λ given. given.now) words.entry.channels) [])
        in IfOk result (λ done. IsLoggedOn ⟦<RunChannel as Channel>⟧.account
        ⟦<ResumedChannel as Channel>⟧.account ⟦<ResumedChannel as Channel>⟧.offered (λ cs. cs.items) (λ c. opened c.sent.channel)
        (λ c states. AreKept
        ⟦<FolderJournals as Journals<FileJournal>>⟧.says ⟦<FolderJournals as Journals<FileJournal>>⟧.goes_on
        ⟦<FolderJournals as Journals<FileJournal>>⟧.knows ⟦<FolderJournals as Journals<FileJournal>>⟧.begins
        ⟦<FolderJournals as Journals<FileJournal>>⟧.replaced ⟦<FileJournal as Journal>⟧.wrote
        settings.entry.state.drops_doubt settings.entry.state.from_now c zone.now states)
        settings.entry.run.choices texts R.can_fail (is_none settings.entry.run.ahead) zone.now settings.entry.run.settings.tries done.channels.items
        (R.remaining feed) done.ending (W.contents writer.old) (W.contents writer.new)) }
    ensures fault { let texts = map (λ text. text.now)
        (unwrap_or (option_map (λ given. given.now) words.entry.channels) [])
        in IfErr result (ResumeFails texts) }
{
    let ready = ready_run(rt, zone, words, settings)?;
    let deciders = settings.run.settings.deciders;
    let file = opened_log(rt, Arc::try_clone(&ready.config)?, log.file)?;
    let metrics = metrics_at(rt, &ready.config, deciders, words.metrics)?;
    let watched = Watched::new(rt, threads, settings.run.quiet, Some(file), metrics)?;
    let done = log_on(watched, zone, settings, log.fold, ready, feed, writer)?;
    Ok(done)
}

/// The posts of channels that were opened, one on each of these lanes in order, each over its journal. What is wrong with a journal is said on
/// standard error, and so is which lanes have no channel.
fn posts_on<'a, T: Threads>(
    watched: &Watched<'_, T>,
    folder: &str,
    config: &Arc<Config, Global>,
    lanes: &[LaneId],
    kept: &Kept,
    opened: Vec<OpenedChannel>,
) -> Result<Vec<Post<ResumedChannel>>, ResumeFault<'a>>
    requires each { length opened.items ≡ length lanes.now }
    requires unused { All (λ channel. channel.kept.taken ≡ []) opened.items }
    ensures lanes { IfOk result (λ found. map (λ post. post.lane) found.items ≡ lanes.now) }
    ensures inner { IfOk result (λ found. map (λ post. post.channel.inner.sent.channel) found.items
        ≡ numbered_from 0 opened.items) }
    ensures each { IfOk result (λ found.
        All (IsResumedPost (arc_value config.now) kept.now.states.items) found.items) }
    ensures fresh { IfOk result (λ found.
        AreFresh ⟦<RunChannel as Channel>⟧.account kept.now.states.items found.items) }
    ensures fault { IfErr result IsNoChannelFault }
{
    let alloc = watched.rt.alloc();
    let posts = posts_of(
        alloc,
        config,
        lanes,
        opened,
        &watched.counts,
        &watched.teller,
    )?;
    match resumed_posts(alloc, kept.journals.folder(), config, &kept.states, posts) {
        Ok(posts) => {
            watched.teller.say_unserved(config, lanes);
            Ok(posts)
        }
        Err(fault) => Err(told(watched.rt, folder, config, KeptFault::Folder(fault))),
    }
}

/// Reads the feed, with channels that were opened, each over its journal.
fn resume<'a, T: Threads + Wait + Clock + Sync, R: Input + Drop, W: Sink>(
    watched: Watched<'_, T>,
    zone: &Zone,
    settings: ResumedSettings<'_>,
    ready: Ready,
    feed: R,
    writer: &mut W,
) -> Result<Resumed, ResumeFault<'a>>
    requires accepted { IsAccepted (arc_value ready.config) }
    requires each { length ready.opened.items ≡ length ready.lanes.items }
    requires few { (l : ℕ) → channels_for ready.lanes.items l ≤ 8 }
    requires unused { All (λ channel. channel.kept.taken ≡ []) ready.opened.items }
    ensures report { IfOk result (λ done. ResumesWith ⟦<RunChannel as Channel>⟧.account
        ⟦<ResumedChannel as Channel>⟧.account ⟦<ResumedChannel as Channel>⟧.offered (λ cs. cs.items) (λ c. c.sent.channel)
        R.can_fail (is_none settings.entry.run.ahead) (arc_value ready.config) zone.now settings.entry.run.settings.tries
        ready.kept.states.items ready.lanes.items (numbered_from 0 ready.opened.items) done.channels.items
        (R.remaining feed) done.ending (W.contents writer.old) (W.contents writer.new)) }
    ensures fault { IfErr result IsNoChannelFault }
{
    let Ready {
        config,
        lanes,
        opened,
        kept,
    } = ready;
    let posts = posts_on(
        &watched,
        settings.state.folder,
        &config,
        &lanes,
        &kept,
        opened,
    )?;
    let done = run_posted(
        watched,
        &config,
        zone,
        settings.run,
        &kept,
        posts,
        feed,
        writer,
    )?;
    Ok(done)
}

/// The same with a log.
fn log_on<'a, T: Threads + Wait + Clock + Sync, R: Input + Drop, W: Sink>(
    watched: Watched<'_, T>,
    zone: &Zone,
    settings: ResumedSettings<'_>,
    fold: bool,
    ready: Ready,
    feed: R,
    writer: &mut W,
) -> Result<Resumed, ResumeFault<'a>>
    requires accepted { IsAccepted (arc_value ready.config) }
    requires each { length ready.opened.items ≡ length ready.lanes.items }
    requires few { (l : ℕ) → channels_for ready.lanes.items l ≤ 8 }
    requires unused { All (λ channel. channel.kept.taken ≡ []) ready.opened.items }
    ensures report { IfOk result (λ done. LogsWith ⟦<RunChannel as Channel>⟧.account
        ⟦<ResumedChannel as Channel>⟧.account ⟦<ResumedChannel as Channel>⟧.offered (λ cs. cs.items) (λ c. c.sent.channel)
        R.can_fail (is_none settings.entry.run.ahead) (arc_value ready.config) zone.now settings.entry.run.settings.tries
        ready.kept.states.items ready.lanes.items (numbered_from 0 ready.opened.items) done.channels.items
        (R.remaining feed) done.ending (W.contents writer.old) (W.contents writer.new)) }
    ensures fault { IfErr result IsNoChannelFault }
{
    let Ready {
        config,
        lanes,
        opened,
        kept,
    } = ready;
    let posts = posts_on(
        &watched,
        settings.state.folder,
        &config,
        &lanes,
        &kept,
        opened,
    )?;
    let logged = LoggedSettings {
        run: settings.run,
        fold,
    };
    let done = log_posted(watched, &config, zone, logged, &kept, posts, feed, writer)?;
    Ok(done)
}

/// How a run with a log is set up.
#[derive(Clone, Copy, Debug)]
struct LoggedSettings {
    run: RunSettings,
    /// Whether lines of the log that repeat the one before are folded.
    fold: bool,
}

/// Reads the feed, with these posts, and writes the line of each lane's journals after the report.
fn run_posted<T: Threads + Wait + Clock + Sync, R: Input + Drop, W: Sink>(
    watched: Watched<'_, T>,
    config: &Arc<Config, Global>,
    zone: &Zone,
    settings: RunSettings,
    kept: &Kept,
    posts: Vec<Post<ResumedChannel>>,
    feed: R,
    writer: &mut W,
) -> Result<Resumed, CommandFault>
    requires accepted { IsAccepted (arc_value config.now) }
    requires few { (l : ℕ) → channels_for (map (λ post. post.lane) posts.items) l ≤ 8 }
    requires fresh { AreFresh ⟦<RunChannel as Channel>⟧.account kept.now.states.items posts.items }
    ensures { IfOk result (λ done. WritesRunAndLines ⟦<RunChannel as Channel>⟧.account
        ⟦<ResumedChannel as Channel>⟧.account ⟦<ResumedChannel as Channel>⟧.offered (λ cs. cs.items)
        R.can_fail (is_none settings.ahead) (arc_value config.now) zone.now settings.settings.tries kept.now.states.items
        posts.items done.channels.items (R.remaining feed) done.ending (W.contents writer.old) (W.contents writer.new)) }
{
    let alloc = watched.rt.alloc();
    let (ending, channels) = run_journaled(watched, config, zone, settings, posts, feed, writer)?;
    write_journal_lines(alloc, config, &kept.states, &channels, writer)?;
    Ok(Resumed { ending, channels })
}

/// The same with a log.
fn log_posted<T: Threads + Wait + Clock + Sync, R: Input + Drop, W: Sink>(
    watched: Watched<'_, T>,
    config: &Arc<Config, Global>,
    zone: &Zone,
    settings: LoggedSettings,
    kept: &Kept,
    posts: Vec<Post<ResumedChannel>>,
    feed: R,
    writer: &mut W,
) -> Result<Resumed, CommandFault>
    requires accepted { IsAccepted (arc_value config.now) }
    requires few { (l : ℕ) → channels_for (map (λ post. post.lane) posts.items) l ≤ 8 }
    requires fresh { AreFresh ⟦<RunChannel as Channel>⟧.account kept.now.states.items posts.items }
    ensures { IfOk result (λ done. WritesEndsAndLines ⟦<RunChannel as Channel>⟧.account
        ⟦<ResumedChannel as Channel>⟧.account ⟦<ResumedChannel as Channel>⟧.offered (λ cs. cs.items)
        R.can_fail (is_none settings.run.ahead) (arc_value config.now) zone.now settings.run.settings.tries kept.now.states.items
        posts.items done.channels.items (R.remaining feed) done.ending (W.contents writer.old) (W.contents writer.new)) }
{
    let alloc = watched.rt.alloc();
    let LoggedSettings { run, fold } = settings;
    let (ending, channels) = log_journaled(watched, config, zone, run, fold, posts, feed, writer)?;
    write_journal_lines(alloc, config, &kept.states, &channels, writer)?;
    Ok(Resumed { ending, channels })
}
