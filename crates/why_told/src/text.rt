//! What is written of an object's attempts, line by line of its report.

ghost use Rattle.std.specs.Prelude.{◌≡◌, ◌++◌, OnOk};
ghost use Rattle.why_told.specs.Why.{again_text, begin_text, close_text, ending_text, is_open, line_text};
ghost use Rattle.why_told.specs.Why.{new_stop_text, out_rows, out_text, rest_of, sent_attempt, sent_text};
ghost use Rattle.why_told.specs.Why.{stop_json, stop_rows, stop_text, withheld_attempt, withheld_text};

use crate::attempts::Open;
use crate::missing::push_missing;
use crate::nothing::push_nothing;
use crate::places::{Places, object_place};
use crate::rows::{push_head, push_more, push_refused, push_stopped_text, push_told};
use crate::teller::Asked;
use due_model::config::{Config, ContactId, ObjectId};
use due_model::notice::{Kind, Notice, Suppression};
use due_model::state::State;
use filter_values::{filter_count, place_of, push_passed, push_tried};
use line_forms::{ReportLine, push_json};
use messages::entries::Entry;
use std::alloc::{AllocError, Global};
use who_missed::{RowForm, is_coloured, is_json};
use zone_times::clock::ZoneClock;

/// What an attempt is of.
#[derive(Clone, Copy)]
pub(crate) struct Attempt {
    event: u64,
    object: ObjectId,
    moment: u64,
    kind: Kind,
    state: State,
    number: u64,
}

/// What a notice says of it.
fn sent_attempt(notice: &Notice) -> Attempt
    ensures { result ≡ sent_attempt notice.now }
{
    Attempt {
        event: notice.event,
        object: notice.object,
        moment: notice.moment,
        kind: notice.kind,
        state: notice.state,
        number: notice.number,
    }
}

/// What the refusal of a contact says of it.
fn withheld_attempt(withheld: &Suppression) -> Attempt
    ensures { result ≡ withheld_attempt withheld.now }
{
    Attempt {
        event: withheld.event,
        object: withheld.object,
        moment: withheld.moment,
        kind: withheld.kind,
        state: withheld.state,
        number: withheld.number,
    }
}

/// Adds how a row of what a filter stopped went on, if it did.
fn push_rest(
    text: &mut Vec<u8>,
    form: RowForm,
    clock: &ZoneClock<'_>,
    more: u64,
    stopped: Option<Suppression>,
) -> Result<(), AllocError>
    ensures { OnOk result
        (text.new.items ≡ text.old.items ++ rest_of form clock.now more stopped) }
{
    let Some(last) = stopped else {
        return Ok(());
    };
    if more == 0 || is_json(form) {
        return Ok(());
    }
    push_more(text, clock, last.moment, more)
}

/// Adds how what is open ends.
#[tactic(auto, unfolding(crate::specs::Why::close_text))]
fn push_close(
    alloc: Global,
    text: &mut Vec<u8>,
    config: &Config,
    clock: &ZoneClock<'_>,
    asked: Asked<'_>,
    current: &Open,
) -> Result<(), AllocError>
    ensures { OnOk result (text.new.items
        ≡ text.old.items ++ close_text asked.entry config.now clock.now current.now) }
{
    push_rest(text, asked.form, clock, current.more, current.stopped)?;
    let lines = current.met.as_slice();
    push_missing(alloc, text, config, asked, lines, lines.get(0))
}

/// Whether something is open.
fn is_open(current: &Open) -> bool
    ensures { result ≡ is_open current.now }
{
    current.stopped.is_some() || 0 < current.met.as_slice().len()
}

/// Adds how all of it ends, given the last line of the object before the span.
pub(crate) fn push_ending(
    alloc: Global,
    text: &mut Vec<u8>,
    config: &Config,
    clock: &ZoneClock<'_>,
    asked: Asked<'_>,
    before: Option<ReportLine>,
    current: &Open,
) -> Result<(), AllocError>
    ensures { OnOk result (text.new.items ≡ text.old.items
        ++ ending_text asked.entry config.now clock.now before current.now) }
{
    if is_open(current) {
        push_close(alloc, text, config, clock, asked, current)
    } else {
        push_nothing(text, clock, asked, before)
    }
}

/// Adds what a filter of the object stopped: its filters, and the one that did.
#[tactic(auto, unfolding(crate::specs::Why::stop_rows))]
fn push_stop_rows(
    text: &mut Vec<u8>,
    coloured: bool,
    places: &Places,
    config: &Config,
    clock: &ZoneClock<'_>,
    stop: &Suppression,
) -> Result<(), AllocError>
    ensures { OnOk result (text.new.items
        ≡ text.old.items ++ stop_rows coloured places.now config.now clock.now stop.now) }
{
    push_head(text, clock, stop.moment, stop.kind, stop.state, 0)?;
    push_passed(
        text,
        config,
        stop.object,
        place_of(config.choices, stop.filter),
    )?;
    push_stopped_text(text, coloured, places, config, stop)
}

/// The same as JSON.
#[tactic(auto, unfolding(crate::specs::Why::stop_json))]
fn push_stop_json(
    alloc: Global,
    text: &mut Vec<u8>,
    places: &Places,
    config: &Config,
    clock: &ZoneClock<'_>,
    stop: &Suppression,
) -> Result<(), AllocError>
    ensures { OnOk result (text.new.items
        ≡ text.old.items ++ stop_json places.now config.now clock.now stop.now) }
{
    let (object, place) = (stop.object, place_of(config.choices, stop.filter));
    push_tried(
        alloc,
        text,
        config,
        stop.event,
        object,
        place,
        Some(stop.filter),
        places.place(object_place(stop.filter)),
    )?;
    let line = ReportLine::Decided(Entry::Withheld(*stop));
    push_json(alloc, text, config, clock, &line)
}

/// The same in a form.
fn push_new_stop(
    alloc: Global,
    text: &mut Vec<u8>,
    config: &Config,
    clock: &ZoneClock<'_>,
    asked: Asked<'_>,
    stop: &Suppression,
) -> Result<(), AllocError>
    ensures { OnOk result (text.new.items
        ≡ text.old.items ++ new_stop_text asked.entry config.now clock.now stop.now) }
{
    if is_json(asked.form) {
        push_stop_json(alloc, text, asked.places, config, clock, stop)
    } else {
        let coloured = is_coloured(asked.form);
        push_stop_rows(text, coloured, asked.places, config, clock, stop)
    }
}

/// Adds one that goes on with the row that is open.
fn push_again(
    alloc: Global,
    text: &mut Vec<u8>,
    config: &Config,
    clock: &ZoneClock<'_>,
    asked: Asked<'_>,
    stop: &Suppression,
) -> Result<(), AllocError>
    ensures { OnOk result (text.new.items
        ≡ text.old.items ++ again_text asked.entry config.now clock.now stop.now) }
{
    if is_json(asked.form) {
        push_stop_json(alloc, text, asked.places, config, clock, stop)
    } else {
        Ok(())
    }
}

/// Adds what a filter of the object stops.
fn push_stop(
    alloc: Global,
    text: &mut Vec<u8>,
    config: &Config,
    clock: &ZoneClock<'_>,
    asked: Asked<'_>,
    current: &Open,
    stop: &Suppression,
) -> Result<(), AllocError>
    ensures { OnOk result (text.new.items
        ≡ text.old.items ++ stop_text asked.entry config.now clock.now current.now stop.now) }
{
    if current.goes_on(stop) {
        return push_again(alloc, text, config, clock, asked, stop);
    }
    push_close(alloc, text, config, clock, asked, current)?;
    push_new_stop(alloc, text, config, clock, asked, stop)
}

/// Adds how an attempt begins that goes out.
#[tactic(auto, unfolding(crate::specs::Why::out_rows))]
fn push_out_rows(
    text: &mut Vec<u8>,
    config: &Config,
    clock: &ZoneClock<'_>,
    attempt: Attempt,
) -> Result<(), AllocError>
    ensures { OnOk result
        (text.new.items ≡ text.old.items ++ out_rows config.now clock.now attempt) }
{
    let (moment, number) = (attempt.moment, attempt.number);
    push_head(text, clock, moment, attempt.kind, attempt.state, number)?;
    push_passed(text, config, attempt.object, filter_count(config.choices))
}

/// The same in a form.
fn push_out(
    alloc: Global,
    text: &mut Vec<u8>,
    form: RowForm,
    config: &Config,
    clock: &ZoneClock<'_>,
    attempt: Attempt,
) -> Result<(), AllocError>
    ensures { OnOk result
        (text.new.items ≡ text.old.items ++ out_text form config.now clock.now attempt) }
{
    if is_json(form) {
        let (event, object) = (attempt.event, attempt.object);
        let count = filter_count(config.choices);
        push_tried(alloc, text, config, event, object, count, None, &[])
    } else {
        push_out_rows(text, config, clock, attempt)
    }
}

/// The same, where it isn't open.
fn push_begin(
    alloc: Global,
    text: &mut Vec<u8>,
    config: &Config,
    clock: &ZoneClock<'_>,
    asked: Asked<'_>,
    current: &Open,
    attempt: Attempt,
) -> Result<(), AllocError>
    ensures { OnOk result (text.new.items
        ≡ text.old.items ++ begin_text asked.entry config.now clock.now current.now attempt) }
{
    if current.has_event(attempt.event) {
        return Ok(());
    }
    push_close(alloc, text, config, clock, asked, current)?;
    push_out(alloc, text, asked.form, config, clock, attempt)
}

/// Adds what a suppression does, which has this contact or none.
fn push_withheld(
    alloc: Global,
    text: &mut Vec<u8>,
    config: &Config,
    clock: &ZoneClock<'_>,
    asked: Asked<'_>,
    current: &Open,
    withheld: &Suppression,
    contact: Option<ContactId>,
) -> Result<(), AllocError>
    ensures { OnOk result (text.new.items ≡ text.old.items
        ++ withheld_text asked.entry config.now clock.now current.now withheld.now contact) }
{
    let Some(contact) = contact else {
        return push_stop(alloc, text, config, clock, asked, current, withheld);
    };
    let attempt = withheld_attempt(withheld);
    push_begin(alloc, text, config, clock, asked, current, attempt)?;
    push_refused(alloc, text, config, clock, asked, withheld, contact)
}

/// Adds what a notice does.
fn push_sent(
    alloc: Global,
    text: &mut Vec<u8>,
    config: &Config,
    clock: &ZoneClock<'_>,
    asked: Asked<'_>,
    current: &Open,
    notice: &Notice,
) -> Result<(), AllocError>
    ensures { OnOk result (text.new.items
        ≡ text.old.items ++ sent_text asked.entry config.now clock.now current.now notice.now) }
{
    let attempt = sent_attempt(notice);
    push_begin(alloc, text, config, clock, asked, current, attempt)?;
    push_told(alloc, text, config, clock, asked, notice)
}

/// Adds what a line of the object's report does, after what is open.
pub(crate) fn push_line(
    alloc: Global,
    text: &mut Vec<u8>,
    config: &Config,
    clock: &ZoneClock<'_>,
    asked: Asked<'_>,
    current: &Open,
    line: &ReportLine,
) -> Result<(), AllocError>
    ensures { OnOk result (text.new.items
        ≡ text.old.items ++ line_text asked.entry config.now clock.now current.now line.now) }
{
    match line {
        ReportLine::Decided(Entry::Sent(notice)) => {
            push_sent(alloc, text, config, clock, asked, current, notice)
        }
        ReportLine::Decided(Entry::Withheld(withheld)) => push_withheld(
            alloc,
            text,
            config,
            clock,
            asked,
            current,
            withheld,
            withheld.contact,
        ),
        ReportLine::Refused(_) => Ok(()),
    }
}
