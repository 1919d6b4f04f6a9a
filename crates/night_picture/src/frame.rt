//! What is around the rows: the head, the time, and what the colours say.

ghost use Rattle.std.specs.Prelude.{◌≡◌, ◌<◌, ◌≤◌, ◌++◌, OnOk};
ghost use Rattle.night_picture.specs.Frame.{begin_words, bottom, contact_dot, contact_key};
ghost use Rattle.night_picture.specs.Frame.{contact_keys, contact_words, ground_text, height};
ghost use Rattle.night_picture.specs.Frame.{key_text};
ghost use Rattle.night_picture.specs.Frame.{keys_text, left_line, left_text, left_words, mark_key};
ghost use Rattle.night_picture.specs.Frame.{named_key, open_text, other_keys};
ghost use Rattle.night_picture.specs.Frame.{period_text, period_words, state_keys, tick_line};
ghost use Rattle.night_picture.specs.Frame.{tick_moment, tick_text};
ghost use Rattle.night_picture.specs.Frame.{tick_words, tag_text, ticks_text};

use crate::rows::push_told_paint;
use crate::shapes::{
    Place, push_bar, push_cut, push_decimal, push_round, push_size, push_text, push_words,
};
use due_model::config::{Config, ContactId};
use local_text::{push_iso, push_local};
use night_marks::Span;
use std::alloc::{AllocError, Global};
use zone_times::clock::ZoneClock;

/// Where the rows end.
pub(crate) fn bottom(rows: usize) -> u64
    ensures value { result ≡ bottom rows }
    ensures bound { result ≤ 4480 }
    ensures least { 80 ≤ result }
{
    80 + 22 * (rows.min(200) as u64)
}

/// How high the picture is.
fn height(rows: usize) -> u64
    ensures { result ≡ height rows }
{
    bottom(rows) + 140
}

/// Adds how the text begins.
#[tactic(auto, unfolding(crate::specs::Frame::tag_text))]
fn push_tag(text: &mut Vec<u8>, height: u64) -> Result<(), AllocError>
    ensures { OnOk result (text.new.items ≡ text.old.items ++ tag_text height) }
{
    text.extend_from_slice(
        b"<?xml version=\"1.0\" encoding=\"UTF-8\"?>\n<svg xmlns=\"http://www.w3.org/2000/svg\"",
    )?;
    push_size(text, 1_260, height)?;
    text.extend_from_slice(
        b" font-family=\"sans-serif\" font-size=\"12\">\n<title>Notices and suppressions</title>\n",
    )
}

/// Adds the ground.
#[tactic(auto, unfolding(crate::specs::Frame::ground_text))]
fn push_ground(text: &mut Vec<u8>, height: u64) -> Result<(), AllocError>
    ensures { OnOk result (text.new.items ≡ text.old.items ++ ground_text height) }
{
    let ground = Place {
        x: 0,
        y: 0,
        width: 1_260,
        height,
    };
    push_bar(text, ground, b"#ffffff", b"Notices and suppressions")
}

/// Adds how the picture begins.
#[tactic(auto, unfolding(crate::specs::Frame::open_text))]
pub(crate) fn push_open(text: &mut Vec<u8>, rows: usize) -> Result<(), AllocError>
    ensures { OnOk result (text.new.items ≡ text.old.items ++ open_text rows) }
{
    let height = height(rows);
    push_tag(text, height)?;
    push_ground(text, height)
}

/// Adds from when to when it is, as words.
#[tactic(auto, unfolding(crate::specs::Frame::period_words))]
fn push_period_words(
    text: &mut Vec<u8>,
    clock: &ZoneClock<'_>,
    span: Span,
) -> Result<(), AllocError>
    ensures { OnOk result (text.new.items ≡ text.old.items ++ period_words clock.now span) }
{
    push_iso(text, clock, span.first)?;
    text.extend_from_slice(b" to ")?;
    push_iso(text, clock, span.last)
}

/// Adds from when to when it is.
#[tactic(auto, unfolding(crate::specs::Frame::period_text))]
pub(crate) fn push_period(
    alloc: Global,
    text: &mut Vec<u8>,
    clock: &ZoneClock<'_>,
    span: Span,
) -> Result<(), AllocError>
    ensures { OnOk result (text.new.items ≡ text.old.items ++ period_text clock.now span) }
{
    let mut words = Vec::new(alloc);
    push_period_words(&mut words, clock, span)?;
    let front = b"<text class=\"period\" font-size=\"14\"";
    push_words(text, front, 4, 22, &words)
}

/// Adds from which moment on there is something.
fn push_begin(text: &mut Vec<u8>, clock: &ZoneClock<'_>, begin: u64) -> Result<(), AllocError>
    ensures { OnOk result (text.new.items ≡ text.old.items ++ begin_words clock.now begin) }
{
    if begin == 0 {
        return Ok(());
    }
    text.extend_from_slice(b", from ")?;
    push_iso(text, clock, begin)?;
    text.extend_from_slice(b" on")
}

/// Adds how many marks of how many are shown, as words.
#[tactic(auto, unfolding(crate::specs::Frame::left_words))]
fn push_left_words(text: &mut Vec<u8>, shown: u64, told: u64) -> Result<(), AllocError>
    ensures { OnOk result (text.new.items ≡ text.old.items ++ left_words shown told) }
{
    push_decimal(text, shown)?;
    text.extend_from_slice(b" of ")?;
    push_decimal(text, told)?;
    text.extend_from_slice(b" marks: those of the busiest objects")
}

/// Adds how many marks of how many are shown.
#[tactic(auto, unfolding(crate::specs::Frame::left_line))]
fn push_left_line(
    alloc: Global,
    text: &mut Vec<u8>,
    clock: &ZoneClock<'_>,
    shown: u64,
    told: u64,
    begin: u64,
) -> Result<(), AllocError>
    ensures { OnOk result
        (text.new.items ≡ text.old.items ++ left_line clock.now shown told begin) }
{
    let mut words = Vec::new(alloc);
    push_left_words(&mut words, shown, told)?;
    push_begin(&mut words, clock, begin)?;
    let front = b"<text class=\"left-out\" fill=\"#b00020\"";
    push_words(text, front, 4, 44, &words)
}

/// The same, where it isn't all.
pub(crate) fn push_left(
    alloc: Global,
    text: &mut Vec<u8>,
    clock: &ZoneClock<'_>,
    shown: u64,
    told: u64,
    begin: u64,
) -> Result<(), AllocError>
    ensures { OnOk result
        (text.new.items ≡ text.old.items ++ left_text clock.now shown told begin) }
{
    if told.saturating_sub(shown) == 0 {
        return Ok(());
    }
    push_left_line(alloc, text, clock, shown, told, begin)
}

/// The moment of a line of the time.
fn tick_moment(span: Span, k: u64) -> u64
    ensures { result ≡ tick_moment span k }
{
    let length = span.last.saturating_sub(span.first);
    span.first.saturating_add(length.saturating_mul(k) / 6)
}

/// Adds a line of the time.
#[tactic(auto, unfolding(crate::specs::Frame::tick_line))]
fn push_tick_line(text: &mut Vec<u8>, rows: usize, k: u64, title: &[u8]) -> Result<(), AllocError>
    requires { k < 7 }
    ensures { OnOk result (text.new.items ≡ text.old.items ++ tick_line rows k title.now) }
{
    let place = Place {
        x: 240 + 160 * k,
        y: 72,
        width: 1,
        height: bottom(rows).saturating_sub(72),
    };
    push_bar(text, place, b"#cccccc", title)
}

/// Adds its moment.
#[tactic(auto, unfolding(crate::specs::Frame::tick_words))]
fn push_tick_words(text: &mut Vec<u8>, k: u64, words: &[u8]) -> Result<(), AllocError>
    requires { k < 7 }
    ensures { OnOk result (text.new.items ≡ text.old.items ++ tick_words k words.now) }
{
    let front = b"<text text-anchor=\"middle\" font-size=\"10\"";
    push_words(text, front, 240 + 160 * k, 66, words)
}

/// Adds a line of the time, and its moment.
#[tactic(auto, unfolding(crate::specs::Frame::tick_text))]
fn push_tick(
    alloc: Global,
    text: &mut Vec<u8>,
    clock: &ZoneClock<'_>,
    span: Span,
    rows: usize,
    k: u64,
) -> Result<(), AllocError>
    requires { k < 7 }
    ensures { OnOk result (text.new.items ≡ text.old.items ++ tick_text clock.now span rows k) }
{
    let mut words = Vec::new(alloc);
    push_local(&mut words, clock, tick_moment(span, k))?;
    push_tick_line(text, rows, k, &words)?;
    push_tick_words(text, k, &words)
}

/// Adds the first lines of the time.
pub(crate) fn push_ticks(
    alloc: Global,
    text: &mut Vec<u8>,
    clock: &ZoneClock<'_>,
    span: Span,
    rows: usize,
    count: u64,
) -> Result<(), AllocError>
    requires { count ≤ 7 }
    ensures { OnOk result
        (text.new.items ≡ text.old.items ++ ticks_text clock.now span rows count) }
{
    for k in 0..count {
        push_tick(alloc, text, clock, span, rows, k)?;
    }
    Ok(())
}

/// Adds what a colour says.
#[tactic(auto, unfolding(crate::specs::Frame::key_text))]
fn push_key(
    text: &mut Vec<u8>,
    x: u64,
    y: u64,
    colour: &[u8],
    name: &[u8],
) -> Result<(), AllocError>
    requires x { x ≤ 1200 }
    requires y { y ≤ 5000 }
    ensures { OnOk result (text.new.items ≡ text.old.items ++ key_text x y colour.now name.now) }
{
    let place = Place {
        x,
        y,
        width: 14,
        height: 10,
    };
    push_bar(text, place, colour, name)?;
    push_words(text, b"<text", x + 20, y + 10, name)
}

/// Adds what the colours of states say.
#[tactic(auto, unfolding(crate::specs::Frame::state_keys))]
fn push_state_keys(text: &mut Vec<u8>, y: u64) -> Result<(), AllocError>
    requires { y ≤ 5000 }
    ensures { OnOk result (text.new.items ≡ text.old.items ++ state_keys y) }
{
    push_key(text, 240, y, b"#2e9e4f", b"UP, OK")?;
    push_key(text, 400, y, b"#e6b800", b"WARNING")?;
    push_key(text, 560, y, b"#d0342c", b"DOWN, CRITICAL")?;
    push_key(text, 720, y, b"#e07b39", b"UNREACHABLE, UNKNOWN")
}

/// Adds what the others say.
#[tactic(auto, unfolding(crate::specs::Frame::other_keys))]
fn push_other_keys(text: &mut Vec<u8>, y: u64) -> Result<(), AllocError>
    requires { y ≤ 5000 }
    ensures { OnOk result (text.new.items ≡ text.old.items ++ other_keys y) }
{
    push_key(text, 240, y, b"#dddddd", b"PENDING")?;
    push_key(text, 400, y, b"#4263eb", b"downtime")?;
    push_key(text, 560, y, b"#be4bdb", b"acknowledged")
}

/// Adds what the marks say.
#[tactic(auto, unfolding(crate::specs::Frame::mark_key))]
fn push_mark_key(text: &mut Vec<u8>, y: u64) -> Result<(), AllocError>
    requires { y ≤ 5000 }
    ensures { OnOk result (text.new.items ≡ text.old.items ++ mark_key y) }
{
    let words = b"filled: a notice, by contact; hollow: a suppression";
    push_words(text, b"<text", 720, y + 10, words)
}

/// Adds the mark of a contact.
#[tactic(auto, unfolding(crate::specs::Frame::contact_dot))]
fn push_contact_dot(
    alloc: Global,
    text: &mut Vec<u8>,
    y: u64,
    k: u16,
    name: &[u8],
) -> Result<(), AllocError>
    requires y { y ≤ 5000 }
    requires k { k < 24 }
    ensures { OnOk result (text.new.items ≡ text.old.items ++ contact_dot y k name.now) }
{
    let mut paint = Vec::new(alloc);
    push_told_paint(&mut paint, ContactId(k))?;
    let x = 247 + 160 * (u64::from(k) % 6);
    let front = b"<circle class=\"contact\" r=\"4\" cx=\"";
    push_round(
        text,
        front,
        x,
        y + 18 * (u64::from(k) / 6) + 6,
        &paint,
        name,
    )
}

/// Adds its name.
#[tactic(auto, unfolding(crate::specs::Frame::contact_words))]
fn push_contact_words(text: &mut Vec<u8>, y: u64, k: u16, name: &[u8]) -> Result<(), AllocError>
    requires y { y ≤ 5000 }
    requires k { k < 24 }
    ensures { OnOk result (text.new.items ≡ text.old.items ++ contact_words y k name.now) }
{
    let place = Place {
        x: 256 + 160 * (u64::from(k) % 6),
        y: (y + 18 * (u64::from(k) / 6)).saturating_sub(5),
        width: 140,
        height: 20,
    };
    push_cut(text, place, name)
}

/// Adds both.
#[tactic(auto, unfolding(crate::specs::Frame::named_key))]
fn push_named_key(
    alloc: Global,
    text: &mut Vec<u8>,
    y: u64,
    k: u16,
    name: &[u8],
) -> Result<(), AllocError>
    requires y { y ≤ 5000 }
    requires k { k < 24 }
    ensures { OnOk result (text.new.items ≡ text.old.items ++ named_key y k name.now) }
{
    push_contact_dot(alloc, text, y, k, name)?;
    push_contact_words(text, y, k, name)
}

/// Adds a contact and its colour, if there is one of this number.
fn push_contact_key(
    alloc: Global,
    text: &mut Vec<u8>,
    config: &Config,
    y: u64,
    k: u16,
) -> Result<(), AllocError>
    requires y { y ≤ 5000 }
    requires k { k < 24 }
    ensures { OnOk result (text.new.items ≡ text.old.items ++ contact_key config.now y k) }
{
    let Some(contact) = config.contacts.as_slice().get(usize::from(k)) else {
        return Ok(());
    };
    let mut name = Vec::new(alloc);
    push_text(&mut name, contact.name.as_slice())?;
    push_named_key(alloc, text, y, k, &name)
}

/// Adds the first contacts.
fn push_contact_keys(
    alloc: Global,
    text: &mut Vec<u8>,
    config: &Config,
    y: u64,
    count: u16,
) -> Result<(), AllocError>
    requires y { y ≤ 5000 }
    requires count { count ≤ 24 }
    ensures { OnOk result (text.new.items ≡ text.old.items ++ contact_keys config.now y count) }
{
    for k in 0..count {
        push_contact_key(alloc, text, config, y, k)?;
    }
    Ok(())
}

/// Adds what all colours say.
#[tactic(auto, unfolding(crate::specs::Frame::keys_text))]
pub(crate) fn push_keys(
    alloc: Global,
    text: &mut Vec<u8>,
    config: &Config,
    rows: usize,
) -> Result<(), AllocError>
    ensures { OnOk result (text.new.items ≡ text.old.items ++ keys_text config.now rows) }
{
    let y = bottom(rows);
    push_state_keys(text, y + 14)?;
    push_other_keys(text, y + 32)?;
    push_mark_key(text, y + 32)?;
    push_contact_keys(alloc, text, config, y + 54, 24)
}
