//! The row of an object: its state, its bands, and its marks, with time to the right.

ghost use Rattle.std.specs.Prelude.{◌≡◌, ◌≤◌, ◌++◌, find, flat_map, OnOk};
ghost use Rattle.night_marks.specs.Lists.{is_of, mark_object};
ghost use Rattle.night_picture.specs.Rows.{ack_band, ack_change, ack_start, band_text, change_in};
ghost use Rattle.night_picture.specs.Rows.{change_text, downtime_band};
ghost use Rattle.night_picture.specs.Rows.{downtime_change, downtime_start, first_condition};
ghost use Rattle.night_picture.specs.Rows.{first_rows, mark_in, mark_state, mark_text, paint_of};
ghost use Rattle.night_picture.specs.Rows.{marked_condition, name_text, row_at, row_text};
ghost use Rattle.night_picture.specs.Rows.{rows_text, start_text, state_band};
ghost use Rattle.night_picture.specs.Rows.{state_change, stopped_mark, told_mark, told_paint, x_at};
ghost use Rattle.night_picture.specs.Rows.{y_at};
ghost use Rattle.night_picture.specs.Shapes.{escaped_text};
ghost use Rattle.notice_text.specs.claims.Texts.{object_text};

use crate::shapes::{Place, push_bar, push_cut, push_round, push_text};
use crate::titles::{contact_colour, push_stopped_title, push_told_title, state_colour};
use due_model::config::{Config, ContactId, ObjectId};
use due_model::notice::{Notice, Suppression};
use due_model::rules::same_state;
use due_model::state::State;
use messages::entries::Entry;
use night_marks::{Change, Condition, Span, is_of, mark_object, same};
use notice_text::names::state_name;
use notice_text::texts::push_object;
use std::alloc::{AllocError, Global};
use zone_times::clock::ZoneClock;

/// Where the time of the picture ends.
const RIGHT: u64 = 1_200;

/// What is drawn of a feed.
#[derive(Clone, Copy)]
pub(crate) struct Drawn<'a> {
    pub(crate) changes: &'a [Change],
    pub(crate) marks: &'a [Entry],
}

/// Where a moment is.
pub(crate) fn x_at(span: Span, moment: u64) -> u64
    ensures value { result ≡ x_at span moment }
    ensures bound { result ≤ 1200 }
{
    let length = span.last.saturating_sub(span.first).max(1);
    let since = moment.min(span.last).saturating_sub(span.first);
    240 + (since.saturating_mul(960) / length).min(960)
}

/// Where a row is.
fn y_at(place: usize) -> u64
    ensures value { result ≡ y_at place }
    ensures bound { result ≤ 4480 }
{
    80 + 22 * (place.min(200) as u64)
}

/// Adds a bar from a moment to the right end.
#[tactic(auto, unfolding(crate::specs::Rows::band_text))]
fn push_band(
    text: &mut Vec<u8>,
    span: Span,
    y: u64,
    height: u64,
    moment: u64,
    colour: &[u8],
    title: &[u8],
) -> Result<(), AllocError>
    ensures { OnOk result (text.new.items ≡ text.old.items
        ++ band_text span y height moment colour.now title.now) }
{
    let x = x_at(span, moment);
    let place = Place {
        x,
        y,
        width: RIGHT.saturating_sub(x),
        height,
    };
    push_bar(text, place, colour, title)
}

/// Adds a state.
#[tactic(auto, unfolding(crate::specs::Rows::state_band))]
fn push_state(
    text: &mut Vec<u8>,
    span: Span,
    y: u64,
    moment: u64,
    state: State,
) -> Result<(), AllocError>
    requires { y ≤ 4480 }
    ensures { OnOk result (text.new.items ≡ text.old.items ++ state_band span y moment state) }
{
    push_band(
        text,
        span,
        y + 7,
        8,
        moment,
        state_colour(state),
        state_name(state).as_bytes(),
    )
}

/// Adds that there is downtime, or none.
#[tactic(auto, unfolding(crate::specs::Rows::downtime_band))]
fn push_downtime(
    text: &mut Vec<u8>,
    span: Span,
    y: u64,
    moment: u64,
    is: bool,
) -> Result<(), AllocError>
    requires { y ≤ 4480 }
    ensures { OnOk result (text.new.items ≡ text.old.items ++ downtime_band span y moment is) }
{
    if is {
        push_band(text, span, y + 17, 3, moment, b"#4263eb", b"downtime")
    } else {
        push_band(text, span, y + 17, 3, moment, b"#ffffff", b"no downtime")
    }
}

/// Adds that there is an acknowledgement, or none.
#[tactic(auto, unfolding(crate::specs::Rows::ack_band))]
fn push_ack(text: &mut Vec<u8>, span: Span, y: u64, moment: u64, is: bool) -> Result<(), AllocError>
    requires { y ≤ 4480 }
    ensures { OnOk result (text.new.items ≡ text.old.items ++ ack_band span y moment is) }
{
    if is {
        push_band(text, span, y + 2, 3, moment, b"#be4bdb", b"acknowledged")
    } else {
        push_band(
            text,
            span,
            y + 2,
            3,
            moment,
            b"#ffffff",
            b"not acknowledged",
        )
    }
}

/// Adds a change of state.
fn push_state_change(
    text: &mut Vec<u8>,
    span: Span,
    y: u64,
    change: &Change,
) -> Result<(), AllocError>
    requires { y ≤ 4480 }
    ensures { OnOk result (text.new.items ≡ text.old.items ++ state_change span y change.entry.now) }
{
    if same_state(change.before.state, change.now.state) {
        return Ok(());
    }
    push_state(text, span, y, change.moment, change.now.state)
}

/// Adds that a downtime begins or ends.
fn push_downtime_change(
    text: &mut Vec<u8>,
    span: Span,
    y: u64,
    change: &Change,
) -> Result<(), AllocError>
    requires { y ≤ 4480 }
    ensures { OnOk result (text.new.items ≡ text.old.items ++ downtime_change span y change.entry.now) }
{
    if same(0 < change.before.depth, 0 < change.now.depth) {
        return Ok(());
    }
    push_downtime(text, span, y, change.moment, 0 < change.now.depth)
}

/// Adds that an acknowledgement begins or ends.
fn push_ack_change(
    text: &mut Vec<u8>,
    span: Span,
    y: u64,
    change: &Change,
) -> Result<(), AllocError>
    requires { y ≤ 4480 }
    ensures { OnOk result (text.new.items ≡ text.old.items ++ ack_change span y change.entry.now) }
{
    if same(change.before.ack.is_some(), change.now.ack.is_some()) {
        return Ok(());
    }
    push_ack(text, span, y, change.moment, change.now.ack.is_some())
}

/// Adds what looks different after a change.
#[tactic(auto, unfolding(crate::specs::Rows::change_text))]
fn push_change(text: &mut Vec<u8>, span: Span, y: u64, change: &Change) -> Result<(), AllocError>
    requires { y ≤ 4480 }
    ensures { OnOk result (text.new.items ≡ text.old.items ++ change_text span y change.entry.now) }
{
    push_state_change(text, span, y, change)?;
    push_downtime_change(text, span, y, change)?;
    push_ack_change(text, span, y, change)
}

/// The same, where it is of an object.
fn push_change_in(
    text: &mut Vec<u8>,
    span: Span,
    y: u64,
    object: ObjectId,
    change: &Change,
) -> Result<(), AllocError>
    requires { y ≤ 4480 }
    ensures { OnOk result
        (text.new.items ≡ text.old.items ++ change_in span y object.0 change.entry.now) }
{
    if is_of(object, change.object) {
        push_change(text, span, y, change)
    } else {
        Ok(())
    }
}

/// Adds the changes of an object.
fn push_changes(
    text: &mut Vec<u8>,
    span: Span,
    y: u64,
    object: ObjectId,
    changes: &[Change],
) -> Result<(), AllocError>
    requires { y ≤ 4480 }
    ensures { OnOk result (text.new.items
        ≡ text.old.items ++ flat_map (change_in span y object.0) changes.now) }
{
    for change in changes {
        push_change_in(text, span, y, object, change)?;
    }
    Ok(())
}

/// The state that a mark tells.
fn mark_state(mark: &Entry) -> State
    ensures { result ≡ mark_state mark.now }
{
    match mark {
        Entry::Sent(notice) => notice.state,
        Entry::Withheld(withheld) => withheld.state,
    }
}

/// The first change of an object.
fn first_change(object: ObjectId, changes: &[Change]) -> Option<Change>
    ensures { result ≡ find (λ change. is_of object.0 change.object) changes.now }
{
    changes
        .iter()
        .copied()
        .find(|change| is_of(object, change.object))
}

/// Its first mark.
fn first_mark(object: ObjectId, marks: &[Entry]) -> Option<Entry>
    ensures { result ≡ find (λ mark. is_of object.0 (mark_object mark)) marks.now }
{
    marks
        .iter()
        .copied()
        .find(|mark| is_of(object, mark_object(mark)))
}

/// What its row begins with.
fn first_condition(object: ObjectId, drawn: Drawn<'_>) -> Condition
    ensures { result ≡ first_condition object.0 drawn.entry.changes.now drawn.entry.marks.now }
{
    if let Some(change) = first_change(object, drawn.changes) {
        return change.before;
    }
    let state = match first_mark(object, drawn.marks) {
        Some(mark) => mark_state(&mark),
        None => State::Pending,
    };
    Condition {
        state,
        depth: 0,
        ack: None,
    }
}

/// Adds a downtime that runs at first.
fn push_downtime_start(
    text: &mut Vec<u8>,
    span: Span,
    y: u64,
    first: &Condition,
) -> Result<(), AllocError>
    requires { y ≤ 4480 }
    ensures { OnOk result (text.new.items ≡ text.old.items ++ downtime_start span y first.now) }
{
    if 0 < first.depth {
        push_downtime(text, span, y, span.first, true)
    } else {
        Ok(())
    }
}

/// Adds an acknowledgement that is there at first.
fn push_ack_start(
    text: &mut Vec<u8>,
    span: Span,
    y: u64,
    first: &Condition,
) -> Result<(), AllocError>
    requires { y ≤ 4480 }
    ensures { OnOk result (text.new.items ≡ text.old.items ++ ack_start span y first.now) }
{
    if first.ack.is_some() {
        push_ack(text, span, y, span.first, true)
    } else {
        Ok(())
    }
}

/// Adds what a row begins with.
#[tactic(auto, unfolding(crate::specs::Rows::start_text))]
fn push_start(text: &mut Vec<u8>, span: Span, y: u64, first: &Condition) -> Result<(), AllocError>
    requires { y ≤ 4480 }
    ensures { OnOk result (text.new.items ≡ text.old.items ++ start_text span y first.now) }
{
    push_state(text, span, y, span.first, first.state)?;
    push_downtime_start(text, span, y, first)?;
    push_ack_start(text, span, y, first)
}

/// Adds the paint of a filled mark.
#[tactic(auto, unfolding(crate::specs::Rows::paint_of))]
fn push_paint(text: &mut Vec<u8>, colour: &[u8]) -> Result<(), AllocError>
    ensures { OnOk result (text.new.items ≡ text.old.items ++ paint_of colour.now) }
{
    text.extend_from_slice(b" stroke=\"#222222\" fill=\"")?;
    text.extend_from_slice(colour)
}

/// Adds the paint of a notice.
pub(crate) fn push_told_paint(text: &mut Vec<u8>, contact: ContactId) -> Result<(), AllocError>
    ensures { OnOk result (text.new.items ≡ text.old.items ++ told_paint contact.0) }
{
    push_paint(text, contact_colour(contact))
}

/// Adds the mark of a notice.
#[tactic(auto, unfolding(crate::specs::Rows::told_mark))]
fn push_told(
    alloc: Global,
    text: &mut Vec<u8>,
    config: &Config,
    clock: &ZoneClock<'_>,
    span: Span,
    y: u64,
    notice: &Notice,
) -> Result<(), AllocError>
    requires { y ≤ 4480 }
    ensures { OnOk result (text.new.items
        ≡ text.old.items ++ told_mark config.now clock.now span y notice.now) }
{
    let mut paint = Vec::new(alloc);
    push_told_paint(&mut paint, notice.contact)?;
    let mut title = Vec::new(alloc);
    push_told_title(&mut title, config, clock, notice)?;
    let x = x_at(span, notice.moment);
    let front = b"<circle class=\"told\" r=\"4\" cx=\"";
    push_round(text, front, x, y + 11, &paint, &title)
}

/// Adds the mark of a suppression.
#[tactic(auto, unfolding(crate::specs::Rows::stopped_mark))]
fn push_stopped(
    alloc: Global,
    text: &mut Vec<u8>,
    config: &Config,
    clock: &ZoneClock<'_>,
    span: Span,
    y: u64,
    withheld: &Suppression,
) -> Result<(), AllocError>
    requires { y ≤ 4480 }
    ensures { OnOk result (text.new.items
        ≡ text.old.items ++ stopped_mark config.now clock.now span y withheld.now) }
{
    let mut title = Vec::new(alloc);
    push_stopped_title(&mut title, config, clock, withheld)?;
    let x = x_at(span, withheld.moment);
    let front = b"<circle class=\"stopped\" r=\"5\" cx=\"";
    let paint = b" stroke=\"#000000\" pointer-events=\"all\" fill=\"none";
    push_round(text, front, x, y + 11, paint, &title)
}

/// Adds a mark.
fn push_mark(
    alloc: Global,
    text: &mut Vec<u8>,
    config: &Config,
    clock: &ZoneClock<'_>,
    span: Span,
    y: u64,
    mark: &Entry,
) -> Result<(), AllocError>
    requires { y ≤ 4480 }
    ensures { OnOk result (text.new.items
        ≡ text.old.items ++ mark_text config.now clock.now span y mark.now) }
{
    match mark {
        Entry::Sent(notice) => push_told(alloc, text, config, clock, span, y, notice),
        Entry::Withheld(withheld) => push_stopped(alloc, text, config, clock, span, y, withheld),
    }
}

/// The same, where it is of an object.
fn push_mark_in(
    alloc: Global,
    text: &mut Vec<u8>,
    config: &Config,
    clock: &ZoneClock<'_>,
    span: Span,
    y: u64,
    object: ObjectId,
    mark: &Entry,
) -> Result<(), AllocError>
    requires { y ≤ 4480 }
    ensures { OnOk result (text.new.items
        ≡ text.old.items ++ mark_in config.now clock.now span y object.0 mark.now) }
{
    if is_of(object, mark_object(mark)) {
        push_mark(alloc, text, config, clock, span, y, mark)
    } else {
        Ok(())
    }
}

/// Adds the marks of an object.
fn push_marks(
    alloc: Global,
    text: &mut Vec<u8>,
    config: &Config,
    clock: &ZoneClock<'_>,
    span: Span,
    y: u64,
    object: ObjectId,
    marks: &[Entry],
) -> Result<(), AllocError>
    requires { y ≤ 4480 }
    ensures { OnOk result (text.new.items ≡ text.old.items
        ++ flat_map (mark_in config.now clock.now span y object.0) marks.now) }
{
    for mark in marks {
        push_mark_in(alloc, text, config, clock, span, y, object, mark)?;
    }
    Ok(())
}

/// Adds the name of an object.
#[tactic(auto, unfolding(crate::specs::Rows::name_text))]
fn push_name(
    alloc: Global,
    text: &mut Vec<u8>,
    config: &Config,
    y: u64,
    object: ObjectId,
) -> Result<(), AllocError>
    ensures { OnOk result (text.new.items ≡ text.old.items ++ name_text config.now y object.0) }
{
    let mut name = Vec::new(alloc);
    push_object(&mut name, config, object)?;
    let mut shown = Vec::new(alloc);
    push_text(&mut shown, &name)?;
    let place = Place {
        x: 0,
        y,
        width: 236,
        height: 22,
    };
    push_cut(text, place, &shown)
}

/// Adds the row of an object.
#[tactic(auto, unfolding(crate::specs::Rows::row_text))]
fn push_row(
    alloc: Global,
    text: &mut Vec<u8>,
    config: &Config,
    clock: &ZoneClock<'_>,
    span: Span,
    y: u64,
    object: ObjectId,
    drawn: Drawn<'_>,
) -> Result<(), AllocError>
    requires { y ≤ 4480 }
    ensures { OnOk result (text.new.items ≡ text.old.items
        ++ row_text config.now clock.now span y object.0 drawn.entry.changes.now drawn.entry.marks.now) }
{
    push_name(alloc, text, config, y, object)?;
    push_start(text, span, y, &first_condition(object, drawn))?;
    push_changes(text, span, y, object, drawn.changes)?;
    push_marks(alloc, text, config, clock, span, y, object, drawn.marks)
}

/// Adds the row at a place, if there is one.
fn push_row_at(
    alloc: Global,
    text: &mut Vec<u8>,
    config: &Config,
    clock: &ZoneClock<'_>,
    span: Span,
    drawn: Drawn<'_>,
    shown: &[u16],
    place: usize,
) -> Result<(), AllocError>
    ensures { OnOk result (text.new.items ≡ text.old.items
        ++ row_at config.now clock.now span drawn.entry.changes.now drawn.entry.marks.now shown.now place) }
{
    let Some(object) = shown.get(place) else {
        return Ok(());
    };
    let object = ObjectId(*object);
    push_row(alloc, text, config, clock, span, y_at(place), object, drawn)
}

/// Adds the rows of the objects that are shown.
#[tactic(auto, unfolding(crate::specs::Rows::rows_text))]
pub(crate) fn push_rows(
    alloc: Global,
    text: &mut Vec<u8>,
    config: &Config,
    clock: &ZoneClock<'_>,
    span: Span,
    drawn: Drawn<'_>,
    shown: &[u16],
) -> Result<(), AllocError>
    ensures { OnOk result (text.new.items ≡ text.old.items
        ++ rows_text config.now clock.now span drawn.entry.changes.now drawn.entry.marks.now shown.now) }
{
    for place in 0..shown.len() {
        push_row_at(alloc, text, config, clock, span, drawn, shown, place)?;
    }
    Ok(())
}
