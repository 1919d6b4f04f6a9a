//! A mailbox: letters one after another in a file that others read.

ghost use Rattle.std.specs.Prelude.{◌≡◌};
ghost use Rattle.channel_kinds.specs.Mailbox.{closing_line};
ghost use Rattle.written.specs.claims.Written.{WritesFront};

use crate::device::TextDevice;
use crate::stream::Outlet;
use crate::writing::write_flushed;
use channel::Kind;
use std::marker::Model;

/// How many bytes a letter to a mailbox has at most.
const LIMIT: u64 = 65_536;

/// What is written last.
const CLOSING_LINE: &[u8] = b"-- closed\n";

/// A mailbox over a writer. Each letter is written by as few calls as the writer takes, and flushed; where the
/// writer fails, or the program ends between two calls, a front of the text stands there. A drop without `close`
/// writes the closing line too, and swallows a fault.
pub struct Mailbox<W: Outlet> {
    writer: W,
}

impl<W: Outlet> Model for Mailbox<W> {
    ghost use Rattle.channel_kinds.specs.Mailbox.{Mail};

    ghost Value = { Mail W };

    ghost view = { λ s. record { writer = s.writer } };
}

impl<W: Outlet> Mailbox<W> {
    /// A mailbox over a writer. It writes nothing.
    pub fn new(writer: W) -> Mailbox<W>
        ensures { result.writer ≡ writer }
    {
        Mailbox { writer }
    }

    /// Writes the closing line and gives the writer back. Where the writer fails, a front of the line was
    /// written.
    pub fn close(self) -> W
        ensures { WritesFront (W.contents self.writer) (W.contents result) closing_line }
    {
        let Mailbox { mut writer } = self;
        let _swallowed = write_flushed(&mut writer, CLOSING_LINE);
        writer
    }
}

impl<W: Outlet> Drop for Mailbox<W> {
    fn drop(self) {
        let Mailbox { mut writer } = self;
        let _swallowed = write_flushed(&mut writer, CLOSING_LINE);
    }
}

impl<W: Outlet> TextDevice for Mailbox<W> {
    ghost use Rattle.channel.specs.declared.Kind.TheVariants as kinds;
    ghost use Rattle.channel_kinds.specs.Mailbox.{mailbox_limit, Posts};

    ghost kind = { λ _. kinds.Mailbox };

    ghost limit = { λ _. mailbox_limit };

    ghost sends = { Posts W.contents W.is_flushed };

    fn kind(&self) -> Kind {
        Kind::Mailbox
    }

    fn limit(&self) -> u64 {
        LIMIT
    }

    /// Writes the text and flushes. One that isn't taken leaves a front of it.
    fn send(&mut self, text: &[u8]) -> bool {
        write_flushed(&mut self.writer, text).is_ok()
    }
}
