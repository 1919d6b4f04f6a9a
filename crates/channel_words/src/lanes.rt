//! The lanes that channel words name.

ghost use Rattle.std.specs.Prelude.{◌≡◌, ◌≤◌, All, filter, length, map, IfErr, IfNone, IfOk, IfSome};
ghost use Rattle.std.specs.Prelude.{OnOk, Some};
ghost use Rattle.std.specs.Str.{bytes_eq};
ghost use Rattle.std.specs.Option.{option_map};
ghost use Rattle.due_model.specs.claims.Limits.{max_lanes};
ghost use Rattle.channel_words.specs.Lanes.{AreFew, AreLanesOf, IsFirstNinth, IsUnknown};
ghost use Rattle.channel_words.specs.Lanes.{NamesFail};
ghost use Rattle.channel_words.specs.Lanes.{lane_named, names_of};

use crate::fault::ChannelFault;
use crate::word::ChannelWord;
use due_model::config::{Config, LaneId};
use std::alloc::Global;

/// How many words may name one command: its channel, and those that stand by for it.
const MOST: usize = 8;

/// The lanes that words name, one for each in order. The first word whose command no contact uses is the fault; where there is
/// none, the first that is the ninth of its command. Want of memory says nothing of them.
pub fn lanes_of<'a>(
    alloc: Global,
    config: &Config,
    words: &[ChannelWord<'a>],
) -> Result<Vec<LaneId>, ChannelFault<'a>>
    requires { length config.now.lanes ≤ max_lanes }
    ensures ok { IfOk result (λ lanes. AreLanesOf config.now (names_of words.now) lanes.items) }
    ensures fault { IfErr result (NamesFail config.now (names_of words.now)) }
{
    let lanes = named_lanes(alloc, config, words)?;
    match first_ninth(words) {
        Some(name) => Err(ChannelFault::Doubled(name)),
        None => Ok(lanes),
    }
}

/// The lanes that words name, however often.
fn named_lanes<'a>(
    alloc: Global,
    config: &Config,
    words: &[ChannelWord<'a>],
) -> Result<Vec<LaneId>, ChannelFault<'a>>
    requires { length config.now.lanes ≤ max_lanes }
    ensures ok { IfOk result (λ lanes. map (lane_named config.now) (names_of words.now)
        ≡ map (λ lane. Some lane.0) lanes.items) }
    ensures known { OnOk result
        (All (λ name. ¬ IsUnknown config.now name) (names_of words.now)) }
    ensures fault { IfErr result (NamesFail config.now (names_of words.now)) }
{
    let mut lanes = Vec::new(alloc);
    for word in words {
        match lane_named(config, word.name) {
            Some(lane) => lanes.push(lane)?,
            None => return Err(ChannelFault::NoCommand(word.name)),
        };
    }
    Ok(lanes)
}

/// The lane of that name.
fn lane_named(config: &Config, name: &str) -> Option<LaneId>
    requires { length config.now.lanes ≤ max_lanes }
    ensures { option_map (λ lane. lane.0) result ≡ lane_named config.now name.now }
{
    match place_named(config, name) {
        Some(place) => Some(LaneId(place as u8)),
        None => None,
    }
}

/// The place of the first lane of that name.
fn place_named(config: &Config, name: &str) -> Option<usize>
    ensures { result ≡ lane_named config.now name.now }
{
    let name = name.as_bytes();
    config
        .lanes
        .as_slice()
        .iter()
        .position(|lane| lane.name.as_slice() == name)
}

/// The first name that eight earlier words have too.
fn first_ninth<'a>(words: &[ChannelWord<'a>]) -> Option<&'a str>
    ensures some { IfSome result (λ name. IsFirstNinth name.now (names_of words.now)) }
    ensures none { IfNone result (AreFew (names_of words.now)) }
{
    for (place, word) in words.iter().enumerate() {
        if words_named(&words[..place], word.name) >= MOST {
            return Some(word.name);
        }
    }
    None
}

/// How many of the words have that name.
fn words_named(words: &[ChannelWord<'_>], name: &str) -> usize
    ensures { result ≡ length (filter (λ word. bytes_eq word.name.now name.now) words.now) }
{
    words.iter().filter(|word| word.name == name).count()
}
