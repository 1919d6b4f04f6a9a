//! A feed that is read once for two configurations.

ghost use Rattle.std.specs.Prelude.{◌≡◌, ◌+◌, ◌≤◌, IfNone, IfOk, IfSome, None};
ghost use Rattle.due_model.specs.claims.Limits.{last_moment};
ghost use Rattle.due_model.specs.claims.Proper.{IsProper};
ghost use Rattle.event_feed.specs.claims.Feed.{feed_limit, moment_after, text_reading};
ghost use Rattle.event_feed.specs.Feed.{feed_of};
ghost use Rattle.paired_feed.specs.Paired.{EndsPair, GivesPair, is_too_long, other_reading, since};
ghost use Rattle.text_lines.specs.claims.Lines.{has_line};

use due_model::config::Config;
use due_model::event::Event;
use event_feed::{FeedFault, Feeder, read_line};
use std::io::Read;
use text_lines::{Input, LineReader, Stop};

/// What a line of a feed gives by two configurations.
#[derive(Clone, Copy, Debug, PartialEq, Eq)]
pub struct PairedLine {
    /// Its number; lines are numbered from 1, empty ones too.
    pub line: u64,
    /// What it gives by the first.
    pub first: Result<Event, FeedFault>,
    /// What it gives by the second.
    pub second: Result<Event, FeedFault>,
}

/// A feed that is read once for two configurations. Each has a last moment of its own, as it may refuse lines that the other takes.
#[derive(Drop)]
pub struct PairedFeed<R: Read> {
    /// The feed as the first configuration reads it.
    pub feeder: Feeder<R>,
    /// The last moment of the second.
    pub last: u64,
    ghost early: { last ≤ last_moment },
}

impl<R: Input + Drop> PairedFeed<R> {
    /// A feed whose first line is the next of this reader. It takes no memory.
    pub fn new(lines: LineReader<R>) -> Self
        ensures feeder { result.feeder ≡ feed_of lines 0 0 None }
        ensures last { result.last ≡ 0 }
    {
        PairedFeed {
            feeder: Feeder::new(lines),
            last: 0,
        }
    }

    /// Why the feed is over, if it is.
    pub fn stop(&self) -> Option<Stop>
        ensures { result ≡ self.now.feeder.stop }
    {
        self.feeder.stop()
    }

    /// Whether a line that isn't empty is held whole, so that `next` calls no reader.
    pub fn has_line(&self) -> bool
        ensures { result ≡ has_line self.now.feeder.held }
    {
        self.feeder.has_line()
    }

    /// The next line that says something, and what it gives by each configuration, or `None` where the feed is over; `stop` says
    /// why it is. It takes no memory.
    pub fn next(&mut self, first: &Config, second: &Config) -> Option<PairedLine>
        requires goes_on { self.old.feeder.stop ≡ None }
        ensures line { IfSome result (λ pair. GivesPair first.now second.now self.old.feeder
            self.old.last pair self.new.feeder self.new.last) }
        ensures first { IfSome result (λ pair. IfOk pair.first (IsProper first.now)) }
        ensures second { IfSome result (λ pair. IfOk pair.second (IsProper second.now)) }
        ensures over { IfNone result (EndsPair R.can_fail first.now.objects second.now.objects
            self.old.feeder self.old.last self.new.feeder.stop) }
        ensures limit { self.new.feeder.line ≤ feed_limit + 1 }
    {
        match self.feeder.next(first) {
            Ok(None) => None,
            Ok(Some(event)) => Some(self.pair(second, Ok(event))),
            Err(refused) => match self.feeder.stop() {
                Some(_) => None,
                None => Some(self.pair(second, Err(refused.fault))),
            },
        }
    }

    /// The line that was read last, and gives this by the first configuration.
    fn pair(&mut self, second: &Config, given: Result<Event, FeedFault>) -> PairedLine
        ensures feeder { self.new.feeder ≡ self.old.feeder }
        ensures line { result.line ≡ self.old.feeder.line }
        ensures first { result.first ≡ given }
        ensures second { result.second
            ≡ other_reading second.now.objects self.old.last self.old.feeder.text given }
        ensures proper { IfOk result.second (IsProper second.now) }
        ensures last { self.new.last ≡ moment_after self.old.last result.second }
    {
        let other = if is_too_long(given) {
            Err(FeedFault::LineTooLong)
        } else {
            read_after(second, self.feeder.text(), self.last)
        };
        if let Ok(event) = other {
            self.last = event.moment;
        }
        PairedLine {
            line: self.feeder.line(),
            first: given,
            second: other,
        }
    }
}

/// Whether a line was refused for its length, so that its text isn't there.
fn is_too_long(given: Result<Event, FeedFault>) -> bool
    ensures { result ≡ is_too_long given }
{
    matches!(given, Err(FeedFault::LineTooLong))
}

/// What a line says, its moment raised to the last one.
fn read_after(config: &Config, line: &[u8], last: u64) -> Result<Event, FeedFault>
    requires { last ≤ last_moment }
    ensures reading { result ≡ text_reading config.now.objects last line.now }
    ensures proper { IfOk result (IsProper config.now) }
{
    let event = read_line(config, line)?;
    Ok(Event {
        moment: event.moment.max(last),
        kind: event.kind,
    })
}
