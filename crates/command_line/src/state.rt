//! The words of `run` that say what is kept for later runs of its feed.

ghost use Rattle.std.specs.Prelude.{◌≡◌, codes, false, IfOk};
ghost use Rattle.std.specs.Option.{option_copied};
ghost use Rattle.clap.specs.Matches.{found_of};
ghost use Rattle.clap.specs.Words.{app_of};
ghost use Rattle.command_line.specs.State.{IsStateOf, drops_doubt, is_doubt_word, state_fault, with_state_options};

use crate::options::{flag_option, text_option};
use clap::{ArgMatches, Command};
use std::alloc::{AllocError, Global};

/// What a command line says of what a run keeps for later runs of its feed.
#[derive(Clone, Copy, Debug, PartialEq, Eq)]
pub struct StateWords<'a> {
    /// The folder in which it is kept; none keeps nothing.
    pub folder: Option<&'a str>,
    /// What becomes of letters in doubt: `again`, also where it is left out, or `drop`.
    pub in_doubt: Option<&'a str>,
    /// Whether what is due so far and was never handed over is given up.
    pub from_now: bool,
}

/// What is wrong with what a command line says of the feed of a run.
#[derive(Clone, Copy, Debug, PartialEq, Eq)]
pub enum FeedFault {
    /// It says how a file is read, or what is kept for it, and names none.
    NoFeed,
    /// It says how what is kept is used, and names no folder.
    NoState,
    /// What becomes of letters in doubt is neither `again` nor `drop`.
    BadDoubt,
    /// It keeps what it has done, and limits how far ahead a stamp may be: a later run would read the feed at another time.
    Ahead,
}

impl FeedFault {
    /// What is said of it.
    pub fn text(self) -> &'static str {
        match self {
            FeedFault::NoFeed => "--follow, --clock and --state need --feed",
            FeedFault::NoState => "--in-doubt and --from-now need --state",
            FeedFault::BadDoubt => "bad in-doubt",
            FeedFault::Ahead => "--ahead and --state",
        }
    }
}

/// Whether a word says what becomes of letters in doubt.
fn is_doubt_word(word: Option<&str>) -> bool
    ensures { result ≡ is_doubt_word (option_copied word.entry) }
{
    match word {
        None => true,
        Some(word) => word == "again" || word == "drop",
    }
}

impl StateWords<'_> {
    /// Whether letters in doubt are given up.
    pub fn drops_doubt(self) -> bool
        ensures { result ≡ drops_doubt self.entry }
    {
        match self.in_doubt {
            None => false,
            Some(word) => word == "drop",
        }
    }

    /// What is wrong with it, where stamps may be so far ahead, if there is a limit.
    pub(crate) fn fault(self, ahead: Option<u32>) -> Option<FeedFault>
        ensures { result ≡ state_fault self.entry ahead }
    {
        if self.folder.is_none() && (self.in_doubt.is_some() || self.from_now) {
            return Some(FeedFault::NoState);
        }
        if !is_doubt_word(self.in_doubt) {
            return Some(FeedFault::BadDoubt);
        }
        if self.folder.is_some() && ahead.is_some() {
            return Some(FeedFault::Ahead);
        }
        None
    }
}

/// Adds the options that say what is kept for later runs of the feed.
pub(crate) fn with_state_options<'a>(
    alloc: Global,
    command: Command<'a>,
) -> Result<Command<'a>, AllocError>
    ensures words { IfOk result (λ command_with.
        app_of command_with ≡ with_state_options (app_of command.entry)) }
{
    let folder = text_option(
        alloc,
        "state",
        "DIR",
        "A folder in which it is written down what was sent, so that a run that follows goes on there",
    );
    let doubt = text_option(
        alloc,
        "in-doubt",
        "WHAT",
        "What becomes of a message that was about to be sent when a run was killed: again, or drop",
    );
    let now = "Gives up what is due by FILE as it is and was never sent, and goes on from there";
    command
        .arg(folder)?
        .arg(doubt)?
        .arg(flag_option(alloc, "from-now", now))
}

/// What the options of `run` say of what it keeps.
pub(crate) fn state_words<'a>(options: &ArgMatches<'a>) -> StateWords<'a>
    ensures { IsStateOf (found_of options.now) result }
{
    StateWords {
        folder: options.get_str("state"),
        in_doubt: options.get_str("in-doubt"),
        from_now: options.get_flag("from-now"),
    }
}
