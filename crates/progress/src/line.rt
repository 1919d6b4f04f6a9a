//! A line on standard error that is written over.

ghost use Rattle.std.specs.Prelude.{◌≡◌, false, None};

use crate::{Progress, Watcher};
use std::io::Eprint;

/// What takes the line back to its beginning, and what empties it.
const BEGIN: &str = "\r";

const EMPTY: &str = "\r\x1b[K";

/// The progress of a command as one line on standard error, written over each time that the command may wait, and taken away
/// before lines of the report. Where standard error is no terminal, nothing is written. What can't be written is left out.
#[derive(Drop)]
pub struct ProgressLine<'a, E: Eprint> {
    errors: &'a E,
    is_terminal: bool,
    /// Whether the line stands on the terminal.
    stands: bool,
    /// What was told last.
    last: Option<Progress>,
}

impl<'a, E: Eprint> ProgressLine<'a, E> {
    /// Nothing is written yet.
    pub fn new(errors: &'a E, is_terminal: bool) -> Self
        ensures terminal { result.is_terminal ≡ is_terminal }
        ensures stands { result.stands ≡ false }
        ensures told { result.last ≡ None }
    {
        ProgressLine {
            errors,
            is_terminal,
            stands: false,
            last: None,
        }
    }

    /// The command is over: what was told last stays, on a line of its own.
    pub fn finish(mut self) {
        if let Some(progress) = self.last {
            self.write(progress);
            let _ = self.errors.eprintln("");
        }
    }

    /// The command is over, and this is how far it came: that stays, on a line of its own.
    pub fn finish_at(mut self, progress: Progress) {
        if self.is_terminal {
            self.last = Some(progress);
        }
        self.finish();
    }

    /// Another line has taken its place, and it stands no more.
    pub(crate) fn was_taken(&mut self)
        ensures { self.new.stands ≡ false }
    {
        self.stands = false;
    }

    /// Writes the line.
    fn write(&mut self, progress: Progress) {
        let Progress { events, messages } = progress;
        let _ = self.errors.eprint(format_args!("{BEGIN}events: {events}, messages: {messages}"));
        self.stands = true;
    }
}

impl<E: Eprint> Watcher for ProgressLine<'_, E> {
    fn tell(&mut self, progress: Progress) {
        if self.is_terminal && (!self.stands || self.last != Some(progress)) {
            self.last = Some(progress);
            self.write(progress);
        }
    }

    fn make_way(&mut self) {
        if self.stands {
            let _ = self.errors.eprint(EMPTY);
            self.stands = false;
        }
    }
}
