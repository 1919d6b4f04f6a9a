//! What is written where nothing was attempted.

ghost use Rattle.std.specs.Prelude.{◌≡◌, ◌++◌, OnOk};
ghost use Rattle.why_told.specs.Nothing.{before_text, condition_text, from_text, last_text, nothing_front};
ghost use Rattle.why_told.specs.Nothing.{nothing_row, nothing_text, to_text};

use crate::teller::Asked;
use due_model::limits::LAST_MOMENT;
use due_model::notice::Kind;
use due_model::state::State;
use line_forms::ReportLine;
use local_text::push_local;
use messages::entries::Entry;
use notice_text::names::{kind_name, state_name};
use std::alloc::AllocError;
use who_missed::is_json;
use zone_times::clock::ZoneClock;

/// Adds from when on it is asked, where that isn't from the beginning.
fn push_from(text: &mut Vec<u8>, clock: &ZoneClock<'_>, moment: u64) -> Result<(), AllocError>
    ensures { OnOk result (text.new.items ≡ text.old.items ++ from_text clock.now moment) }
{
    if moment == 0 {
        return Ok(());
    }
    text.extend_from_slice(b" from ")?;
    push_local(text, clock, moment)
}

/// Adds up to when, where that isn't to the end.
fn push_to(text: &mut Vec<u8>, clock: &ZoneClock<'_>, moment: u64) -> Result<(), AllocError>
    ensures { OnOk result (text.new.items ≡ text.old.items ++ to_text clock.now moment) }
{
    if moment == LAST_MOMENT {
        return Ok(());
    }
    text.extend_from_slice(b" up to ")?;
    push_local(text, clock, moment)
}

/// Adds of what there was no attempt.
#[tactic(auto, unfolding(crate::specs::Nothing::nothing_front))]
fn push_front(text: &mut Vec<u8>, clock: &ZoneClock<'_>, asked: Asked<'_>) -> Result<(), AllocError>
    ensures { OnOk result (text.new.items ≡ text.old.items ++ nothing_front asked.entry clock.now) }
{
    text.extend_from_slice(b"no attempt on ")?;
    text.extend_from_slice(asked.object.as_bytes())?;
    push_from(text, clock, asked.from)?;
    push_to(text, clock, asked.to)
}

/// Adds a kind and a state.
#[tactic(auto, unfolding(crate::specs::Nothing::condition_text))]
fn push_condition(text: &mut Vec<u8>, kind: Kind, state: State) -> Result<(), AllocError>
    ensures { OnOk result (text.new.items ≡ text.old.items ++ condition_text kind state) }
{
    text.extend_from_slice(kind_name(kind).as_bytes())?;
    text.extend_from_slice(b" ")?;
    text.extend_from_slice(state_name(state).as_bytes())
}

/// Adds when the last attempt before was, and of what.
#[tactic(auto, unfolding(crate::specs::Nothing::last_text))]
fn push_last(
    text: &mut Vec<u8>,
    clock: &ZoneClock<'_>,
    moment: u64,
    kind: Kind,
    state: State,
) -> Result<(), AllocError>
    ensures { OnOk result
        (text.new.items ≡ text.old.items ++ last_text clock.now moment kind state) }
{
    text.extend_from_slice(b"; the last one before: ")?;
    push_local(text, clock, moment)?;
    text.extend_from_slice(b"  ")?;
    push_condition(text, kind, state)
}

/// The same of a line, if there is one.
fn push_before(
    text: &mut Vec<u8>,
    clock: &ZoneClock<'_>,
    before: Option<ReportLine>,
) -> Result<(), AllocError>
    ensures { OnOk result (text.new.items ≡ text.old.items ++ before_text clock.now before) }
{
    match before {
        None => Ok(()),
        Some(ReportLine::Decided(Entry::Sent(notice))) => {
            push_last(text, clock, notice.moment, notice.kind, notice.state)
        }
        Some(ReportLine::Decided(Entry::Withheld(withheld))) => {
            push_last(text, clock, withheld.moment, withheld.kind, withheld.state)
        }
        Some(ReportLine::Refused(_)) => Ok(()),
    }
}

/// Adds that there was no attempt, and which was the last before.
#[tactic(auto, unfolding(crate::specs::Nothing::nothing_row))]
fn push_row(
    text: &mut Vec<u8>,
    clock: &ZoneClock<'_>,
    asked: Asked<'_>,
    before: Option<ReportLine>,
) -> Result<(), AllocError>
    ensures { OnOk result
        (text.new.items ≡ text.old.items ++ nothing_row asked.entry clock.now before) }
{
    push_front(text, clock, asked)?;
    push_before(text, clock, before)?;
    text.extend_from_slice(b"\n")
}

/// The same in the form that is asked for.
pub(crate) fn push_nothing(
    text: &mut Vec<u8>,
    clock: &ZoneClock<'_>,
    asked: Asked<'_>,
    before: Option<ReportLine>,
) -> Result<(), AllocError>
    ensures { OnOk result
        (text.new.items ≡ text.old.items ++ nothing_text asked.entry clock.now before) }
{
    if is_json(asked.form) {
        Ok(())
    } else {
        push_row(text, clock, asked, before)
    }
}
