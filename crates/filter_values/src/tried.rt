//! The filters that were tried of an attempt, as an object of JSON.

ghost use Rattle.std.specs.Prelude.{◌≡◌, ◌++◌, OnOk};
ghost use Rattle.line_forms.specs.Json.{string_json};
ghost use Rattle.filter_values.specs.Tried.{at_json, first_json, known_json, passed_json, passed_json_at};
ghost use Rattle.filter_values.specs.Tried.{stop_json, stopped_json, tried_json};
ghost use Rattle.filter_values.specs.Values.{filter_text};

use crate::values::{filter_at, push_decimal, push_filter};
use due_model::config::{Config, ObjectId};
use due_model::notice::Filter;
use line_forms::push_string;
use std::alloc::{AllocError, Global};

/// Adds a filter of an object, with its value, as a string.
fn push_filter_string(
    alloc: Global,
    text: &mut Vec<u8>,
    config: &Config,
    object: ObjectId,
    filter: Filter,
) -> Result<(), AllocError>
    ensures { OnOk result (text.new.items
        ≡ text.old.items ++ string_json (filter_text config.now object.0 filter)) }
{
    let mut value = Vec::new(alloc);
    push_filter(&mut value, config, object, filter)?;
    push_string(text, &value)
}

/// Adds the filter at a place, after a comma where it isn't the first.
fn push_passed_at(
    alloc: Global,
    text: &mut Vec<u8>,
    config: &Config,
    object: ObjectId,
    place: usize,
) -> Result<(), AllocError>
    ensures { OnOk result
        (text.new.items ≡ text.old.items ++ passed_json_at config.now object.0 place) }
{
    let filter = filter_at(config.choices, place);
    if place == 0 {
        return push_filter_string(alloc, text, config, object, filter);
    }
    text.extend_from_slice(b",")?;
    push_filter_string(alloc, text, config, object, filter)
}

/// Adds the first filters.
fn push_first(
    alloc: Global,
    text: &mut Vec<u8>,
    config: &Config,
    object: ObjectId,
    count: usize,
) -> Result<(), AllocError>
    ensures { OnOk result
        (text.new.items ≡ text.old.items ++ first_json config.now object.0 count) }
{
    for place in 0..count {
        push_passed_at(alloc, text, config, object, place)?;
    }
    Ok(())
}

/// Adds those that passed as a member: the first ones, so many.
#[tactic(auto, unfolding(crate::specs::Tried::passed_json))]
fn push_passed(
    alloc: Global,
    text: &mut Vec<u8>,
    config: &Config,
    object: ObjectId,
    count: usize,
) -> Result<(), AllocError>
    ensures { OnOk result
        (text.new.items ≡ text.old.items ++ passed_json config.now object.0 count) }
{
    text.extend_from_slice(b",\"passed\":[")?;
    push_first(alloc, text, config, object, count)?;
    text.extend_from_slice(b"]")
}

/// Adds a filter that stopped it as a member.
#[tactic(auto, unfolding(crate::specs::Tried::stop_json))]
fn push_stop(
    alloc: Global,
    text: &mut Vec<u8>,
    config: &Config,
    object: ObjectId,
    filter: Filter,
) -> Result<(), AllocError>
    ensures { OnOk result
        (text.new.items ≡ text.old.items ++ stop_json config.now object.0 filter) }
{
    text.extend_from_slice(b",\"stopped\":")?;
    push_filter_string(alloc, text, config, object, filter)?;
    Ok(())
}

/// Adds the one that stopped it, null where none did.
fn push_stopped(
    alloc: Global,
    text: &mut Vec<u8>,
    config: &Config,
    object: ObjectId,
    filter: Option<Filter>,
) -> Result<(), AllocError>
    ensures { OnOk result
        (text.new.items ≡ text.old.items ++ stopped_json config.now object.0 filter) }
{
    match filter {
        None => text.extend_from_slice(b",\"stopped\":null"),
        Some(filter) => push_stop(alloc, text, config, object, filter),
    }
}

/// Adds where the value stands that it goes by as the last member, and the end of the object.
#[tactic(auto, unfolding(crate::specs::Tried::known_json))]
fn push_known(text: &mut Vec<u8>, at: &[u8]) -> Result<(), AllocError>
    ensures { OnOk result (text.new.items ≡ text.old.items ++ known_json at.now) }
{
    text.extend_from_slice(b",\"at\":")?;
    push_string(text, at)?;
    text.extend_from_slice(b"}\n")
}

/// The same, null where that isn't known.
fn push_at(text: &mut Vec<u8>, at: &[u8]) -> Result<(), AllocError>
    ensures { OnOk result (text.new.items ≡ text.old.items ++ at_json at.now) }
{
    let [_, ..] = at else {
        return text.extend_from_slice(b",\"at\":null}\n");
    };
    push_known(text, at)
}

/// Adds what was tried of the attempt of an event: the filters that passed, so many, and the one that stopped it, if one did, with
/// the place where its value stands, which is empty where that isn't known. A refused growth is the only error.
#[tactic(auto, unfolding(crate::specs::Tried::tried_json))]
pub fn push_tried(
    alloc: Global,
    text: &mut Vec<u8>,
    config: &Config,
    event: u64,
    object: ObjectId,
    count: usize,
    filter: Option<Filter>,
    at: &[u8],
) -> Result<(), AllocError>
    ensures { OnOk result (text.new.items
        ≡ text.old.items ++ tried_json config.now event object.0 count filter at.now) }
{
    text.extend_from_slice(b"{\"letter\":\"A\",\"event\":")?;
    push_decimal(text, event)?;
    push_passed(alloc, text, config, object, count)?;
    push_stopped(alloc, text, config, object, filter)?;
    push_at(text, at)
}
