//! The words of `diff`, and what they ask.

ghost use Rattle.std.specs.Prelude.{◌≡◌, codes, IfNone, IfOk, IfSome};
ghost use Rattle.clap.specs.Matches.{found_of};
ghost use Rattle.clap.specs.Words.{app_of};
ghost use Rattle.command_line.specs.Words.{AreSettingsFit, DiffLacks, IsRequestOf, diff_words};
ghost use Rattle.command_line.specs.Words.{request_name};

use crate::options::{flag_option, text_option, with_site, zone_words};
use crate::words::Request;
use clap::{ArgMatches, Command};
use std::alloc::{AllocError, Global};

/// What `notify-run diff --help` says.
const DIFF: &str = "\
Reads a feed of events from standard input, and writes what the change from the object
text of one file to that of another does to its notices, line by line of the feed:

  -;event;moment;object;kind;state;number;contact;command   given by --objects alone
  +;event;moment;object;kind;state;number;contact;command   given by --with alone

A notice of a line is the same by both if it tells of the same object, to the same
contact, by the same command. Once the feed is over, there is a line for each contact: how
many notices it gets before and after the change, how many of them at night, from 22:00 to
07:00, and the longest silence of a problem, in seconds between two of its messages:

  P;contact;before;after;night_before;night_after;silence_before;silence_after

Events are numbered by each as it takes them: a line that it refuses gives no event, and no
notice. --json writes each line as a JSON object. On a terminal lines are for people, with
colours unless NO_COLOR is set.";

/// The command `diff` and its options.
pub(crate) fn diff_command<'a>(alloc: Global) -> Result<Command<'a>, AllocError>
    ensures words { IfOk result (λ command. app_of command ≡ diff_words) }
{
    let objects = text_option(alloc, "objects", "FILE", "The file of object text as it is");
    let changed = text_option(
        alloc,
        "with",
        "FILE",
        "The file of object text as it would be",
    );
    let json = flag_option(alloc, "json", "Each line as a JSON object");
    let command = Command::new(alloc, "diff")
        .about("What a change of the object text does to the notices of a feed")
        .long_about(DIFF)
        .arg(objects.required(true))?
        .arg(changed.required(true))?
        .arg(json)?;
    with_site(alloc, command)
}

/// What the options of `diff` ask.
pub(crate) fn diff_request<'m, 'a>(options: &'m ArgMatches<'a>) -> Option<Request<'m, 'a>>
    ensures named { IfSome result (λ request. request_name request ≡ codes "diff") }
    ensures options { IfSome result (IsRequestOf (found_of options.now)) }
    ensures settings { IfSome result AreSettingsFit }
    ensures lacking { IfNone result (DiffLacks (found_of options.now)) }
{
    Some(Request::Diff {
        objects: options.get_str("objects")?,
        changed: options.get_str("with")?,
        zone: zone_words(options),
        json: options.get_flag("json"),
    })
}
