//! A pager that dials again: after a failure the next letter goes over a new stream to its peer.

ghost use Rattle.std.specs.Prelude.{◌≡◌, None, Some};
ghost use Rattle.channel_kinds.specs.Pager.{pager_limit};

use crate::device::TextDevice;
use crate::pager::Pager;
use crate::stream::Stream;
use channel::Kind;
use std::marker::Model;

/// How many bytes a letter to a pager has at most.
const LIMIT: u64 = 1_024;

/// What opens streams to a pager's peer, and limits the time of each try.
pub trait Dialer<S: Stream>: Drop {
    /// A try over a new stream begins. None where the peer can't be had in time.
    fn dial(&mut self) -> Option<S>;

    /// A try over a stream that stands begins.
    fn begin(&mut self, stream: &mut S)
        ensures { stream.new ≡ stream.old };
}

/// A pager over the streams of a dialer. A letter goes over the stream that stands, or over a new one where none does; it is taken
/// where the peer answers `OK`, as a `Pager` hears it. After any other answer and after a fault that stream gets the farewell and is
/// given back, and so it does at a drop.
pub struct DialledPager<S: Stream, D: Dialer<S>> {
    dialer: D,
    /// The stream to the peer; none after a failure.
    line: Option<S>,
}

impl<S: Stream, D: Dialer<S>> Model for DialledPager<S, D> {
    ghost use Rattle.channel_kinds.specs.Dialled.{Dialled};

    ghost Value = { Dialled S };

    ghost view = { λ s. record { line = s.line } };
}

impl<S: Stream, D: Dialer<S>> DialledPager<S, D> {
    /// A pager over a stream to the peer that this dialer dials. It writes and reads nothing.
    pub fn new(dialer: D, line: S) -> DialledPager<S, D>
        ensures { result.line ≡ Some line }
    {
        DialledPager {
            dialer,
            line: Some(line),
        }
    }

    /// The stream for the next try, which begins: the one that stands, or a new one.
    fn next_line(&mut self) -> Option<S>
        ensures stands { (line : S) → self.old.line ≡ Some line → result ≡ Some line }
        ensures taken { self.new.line ≡ None }
    {
        match self.line.take() {
            Some(mut line) => {
                self.dialer.begin(&mut line);
                Some(line)
            }
            None => self.dialer.dial(),
        }
    }
}

impl<S: Stream, D: Dialer<S>> Drop for DialledPager<S, D> {
    fn drop(self) {
        let DialledPager {
            mut dialer,
            mut line,
        } = self;
        hang_up(&mut dialer, &mut line);
    }
}

impl<S: Stream, D: Dialer<S>> TextDevice for DialledPager<S, D> {
    ghost use Rattle.channel.specs.declared.Kind.TheVariants as kinds;
    ghost use Rattle.channel_kinds.specs.Dialled.{Redials};
    ghost use Rattle.channel_kinds.specs.Pager.{pager_limit};

    ghost kind = { λ _. kinds.Pager };

    ghost limit = { λ _. pager_limit };

    ghost sends = { Redials S.contents S.remaining S.is_flushed S.reads };

    fn kind(&self) -> Kind {
        Kind::Pager
    }

    fn limit(&self) -> u64 {
        LIMIT
    }

    /// Asks the peer, over a new stream where none stands, and takes the text where it answers `OK`. Any other answer, the end of
    /// input and a fault end that stream.
    fn send(&mut self, text: &[u8]) -> bool {
        let Some(line) = self.next_line() else {
            return false;
        };
        let mut pager = Pager::new(line);
        if !pager.send(text) {
            return false;
        }
        self.line = Some(pager.into_stream());
        true
    }
}

/// Says farewell over the stream that stands, if one does, and gives it back.
fn hang_up<S: Stream, D: Dialer<S>>(dialer: &mut D, line: &mut Option<S>) {
    if let Some(mut line) = line.take() {
        dialer.begin(&mut line);
        let _stream = Pager::new(line).close();
    }
}
