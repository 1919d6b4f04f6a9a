//! The picture of a feed.

ghost use Rattle.std.specs.Prelude.{◌≡◌, ◌++◌, IfOk, OnOk};
ghost use Rattle.night_picture.specs.Picture.{body_text, drawn_text, head_text, is_shown_mark};
ghost use Rattle.night_picture.specs.Picture.{left_out, picture_text};
ghost use Rattle.night_picture.specs.Picture.{shown_marks, span_of};

use crate::frame::{push_keys, push_left, push_open, push_period, push_ticks};
use crate::rows::{Drawn, push_rows};
use due_model::config::Config;
use messages::entries::Entry;
use night_marks::{Night, Span, mark_object, shown_objects};
use std::alloc::{AllocError, Global};
use zone_times::clock::ZoneClock;

/// How many lines the time has.
const TICKS: u64 = 7;

/// The time of the picture.
fn span_of(night: &Night) -> Span
    ensures { result ≡ span_of night.now }
{
    match night.span {
        Some(span) => span,
        None => Span { first: 0, last: 0 },
    }
}

/// Whether a mark is of an object that is shown.
fn is_shown_mark(shown: &[u16], mark: &Entry) -> bool
    ensures { result ≡ is_shown_mark shown.now mark.now }
{
    let object = mark_object(mark);
    shown.iter().any(|number| *number == object.0)
}

/// How many marks are shown.
fn shown_marks(shown: &[u16], marks: &[Entry]) -> usize
    ensures { result ≡ shown_marks shown.now marks.now }
{
    marks
        .iter()
        .filter(|mark| is_shown_mark(shown, mark))
        .count()
}

/// How many marks aren't shown: of objects that are less busy than those, or before what is kept begins. A refused growth is the
/// only error.
#[tactic(auto, unfolding(crate::specs::Picture::left_out))]
pub fn left_out(alloc: Global, night: &Night) -> Result<u64, AllocError>
    ensures { IfOk result (λ left. left ≡ left_out night.now) }
{
    let marks = night.kept.marks.as_slice();
    let shown = shown_objects(alloc, marks, night.kept.changes.as_slice())?;
    Ok(night.told.saturating_sub(shown_marks(&shown, marks) as u64))
}

/// Adds what is above the rows.
#[tactic(auto, unfolding(crate::specs::Picture::head_text))]
fn push_head(
    alloc: Global,
    text: &mut Vec<u8>,
    clock: &ZoneClock<'_>,
    night: &Night,
    shown: &[u16],
) -> Result<(), AllocError>
    ensures { OnOk result
        (text.new.items ≡ text.old.items ++ head_text clock.now night.now shown.now) }
{
    let marks = shown_marks(shown, night.kept.marks.as_slice()) as u64;
    let span = span_of(night);
    push_open(text, shown.len())?;
    push_period(alloc, text, clock, span)?;
    push_left(alloc, text, clock, marks, night.told, night.kept.begin)?;
    push_ticks(alloc, text, clock, span, shown.len(), TICKS)
}

/// Adds the rows, and what is below them.
#[tactic(auto, unfolding(crate::specs::Picture::body_text))]
fn push_body(
    alloc: Global,
    text: &mut Vec<u8>,
    config: &Config,
    clock: &ZoneClock<'_>,
    night: &Night,
    shown: &[u16],
) -> Result<(), AllocError>
    ensures { OnOk result
        (text.new.items ≡ text.old.items ++ body_text config.now clock.now night.now shown.now) }
{
    let drawn = Drawn {
        changes: night.kept.changes.as_slice(),
        marks: night.kept.marks.as_slice(),
    };
    push_rows(alloc, text, config, clock, span_of(night), drawn, shown)?;
    push_keys(alloc, text, config, shown.len())?;
    text.extend_from_slice(b"</svg>\n")
}

/// Adds a picture of these objects.
#[tactic(auto, unfolding(crate::specs::Picture::drawn_text))]
fn push_drawn(
    alloc: Global,
    text: &mut Vec<u8>,
    config: &Config,
    clock: &ZoneClock<'_>,
    night: &Night,
    shown: &[u16],
) -> Result<(), AllocError>
    ensures { OnOk result
        (text.new.items ≡ text.old.items ++ drawn_text config.now clock.now night.now shown.now) }
{
    push_head(alloc, text, clock, night, shown)?;
    push_body(alloc, text, config, clock, night, shown)
}

/// Adds the picture of a feed, of which this is kept, as SVG: one row for each of the busiest objects, at most 200, with one filled mark
/// for each of its notices that are kept and one hollow mark for each of its suppressions. A refused growth is the only error.
pub fn push_picture(
    alloc: Global,
    text: &mut Vec<u8>,
    config: &Config,
    clock: &ZoneClock<'_>,
    night: &Night,
) -> Result<(), AllocError>
    ensures { OnOk result
        (text.new.items ≡ text.old.items ++ picture_text config.now clock.now night.now) }
{
    let kept = &night.kept;
    let shown = shown_objects(alloc, kept.marks.as_slice(), kept.changes.as_slice())?;
    push_drawn(alloc, text, config, clock, night, &shown)
}
