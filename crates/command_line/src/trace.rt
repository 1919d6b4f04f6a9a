//! The words of `trace`.

ghost use Rattle.std.specs.Prelude.{◌≡◌, codes, IfNone, IfOk, IfSome};
ghost use Rattle.clap.specs.Matches.{found_of};
ghost use Rattle.clap.specs.Words.{app_of};
ghost use Rattle.command_line.specs.Words.{AreSettingsFit, IsRequestOf, TraceLacks, request_name};
ghost use Rattle.command_line.specs.Words.{trace_words};

use crate::options::{
    deciders_option, settings_of, standbys_option, with_lane_options, with_site, zone_words,
};
use crate::words::Request;
use clap::{ArgMatches, Command};
use std::alloc::{AllocError, Global};
use steps::MAX_CHANNELS;

/// What `notify-run trace --help` says.
const TRACE: &str = "\
Shows the design of the notification engine at work: deciders, queues and channels as
one state, in which you choose which part acts next. Whatever the order, each channel
takes what `replay` reports for its lane, of each host or service in the order of the
events; use it to see how a notice gets there, or where it stands when a lane fails or
closes.

Reads object text, a line `%events`, a feed of events, a line `%steps` and steps
from standard input, one step a line, and does them one by one:

  post            the next event of the feed is posted
  decide D        decider D, counted from 0, decides the next posted event
  put D LANE      the front of decider D's outbox goes to the lane's queue
  pick LANE       the queue's front goes into the lane's hand
  settle LANE     the lane's channel takes the message in hand
  fail LANE       the lane's channel doesn't take it
  ask LANE        the lane is asked to close
  replace LANE    a channel that stands by takes over, the message still in hand
  close LANE      the lane is shut
  drain LANE      the front of a shut lane's queue is given up

A lane is named by its command: one that a contact lists. Standard output gets

  R;line;fault                                             a refused line of the feed
  E;line;BadStep                                           a line after `%steps` that is no step
  E;line;NotEnabled                                        a step that can't be done
  L;lane;object;taken;hand;undelivered;queue;outbox        at the end, what the lane holds of the object

where each list is `event:contact`, separated by commas, or `-`.";

/// The command `trace` and its options.
pub(crate) fn trace_command<'a>(alloc: Global) -> Result<Command<'a>, AllocError>
    ensures words { IfOk result (λ command. app_of command ≡ trace_words) }
{
    let command = Command::new(alloc, "trace")
        .about("The engine's design at work, step by step, in an order that you choose")
        .long_about(TRACE)
        .arg(deciders_option(alloc, "1"))?
        .arg(standbys_option(alloc))?;
    let queue = "How many notices the queue of a lane holds, 1 to 1024";
    let with_lanes = with_lane_options(alloc, command, queue)?;
    with_site(alloc, with_lanes)
}

/// What the options of `trace` ask.
pub(crate) fn trace_request<'m, 'a>(options: &'m ArgMatches<'a>) -> Option<Request<'m, 'a>>
    ensures settings { IfSome result AreSettingsFit }
    ensures named { IfSome result (λ request. request_name request ≡ codes "trace") }
    ensures options { IfSome result (IsRequestOf (found_of options.now)) }
    ensures lacking { IfNone result (TraceLacks (found_of options.now)) }
{
    let deciders = options.get_one::<u8>("deciders")?;
    let standbys = options.get_one::<u8>("standbys")?;
    if standbys >= MAX_CHANNELS {
        return None;
    }
    Some(Request::Trace {
        settings: settings_of(options, deciders)?,
        standbys,
        zone: zone_words(options),
    })
}
