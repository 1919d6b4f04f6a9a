//! The lines of notices that one of two configurations alone gives.

ghost use Rattle.std.specs.Prelude.{◌≡◌, ◌∷◌, ◌++◌, drop, OnOk};
ghost use Rattle.changed_notices.specs.Changed.{change_look, changed_line, changed_lines, changes_of, pretty_line};
ghost use Rattle.changed_notices.specs.Changed.{sign_colour, sign_front};

use crate::left::left_of;
use due_model::config::Config;
use due_model::notice::Notice;
use line_forms::{ReportLine, push_json, push_plain};
use messages::entries::Entry;
use pretty_lines::{Look, Widths, push_line, push_paint, push_unpaint};
use std::alloc::{AllocError, Global};
use zone_times::clock::ZoneClock;

/// How lines of changes are written.
#[derive(Clone, Copy, Debug, PartialEq, Eq)]
pub enum ChangeForm {
    /// As `replay` writes a notice.
    Plain,
    /// For people, with colours or without.
    Pretty(bool),
    /// As an object of JSON.
    Json,
}

/// How lines of changes are written, and where they are made.
#[derive(Clone, Copy)]
pub struct Form {
    pub alloc: Global,
    pub form: ChangeForm,
}

/// What stands in a line after so many bytes.
fn after(line: &[u8], count: usize) -> &[u8]
    ensures { result.now ≡ drop count line.now }
{
    line.get(count..).unwrap_or(&[])
}

/// Adds what stands before a letter, a sign in its place, and what follows.
fn push_signed(text: &mut Vec<u8>, front: &[u8], sign: u8, rest: &[u8]) -> Result<(), AllocError>
    ensures { OnOk result (text.new.items ≡ text.old.items ++ front.now ++ sign ∷ rest.now) }
{
    text.extend_from_slice(front)?;
    text.push(sign)?;
    text.extend_from_slice(rest)
}

/// The colour of a sign.
fn sign_colour(sign: u8) -> &'static [u8]
    ensures { result.now ≡ sign_colour sign }
{
    if sign == b'-' { b"31" } else { b"32" }
}

/// Adds a sign and a blank, with the sign's colour.
#[tactic(auto, unfolding(crate::specs::Changed::sign_front))]
fn push_sign(text: &mut Vec<u8>, coloured: bool, sign: u8) -> Result<(), AllocError>
    ensures { OnOk result (text.new.items ≡ text.old.items ++ sign_front coloured sign) }
{
    push_paint(text, coloured, sign_colour(sign))?;
    text.push(sign)?;
    push_unpaint(text, coloured)?;
    text.extend_from_slice(b" ")
}

/// How lines for people look: their columns are of these widths, whatever names the configurations have.
fn change_look(coloured: bool) -> Look
    ensures { result ≡ change_look coloured }
{
    let widths = Widths {
        object: 24,
        contact: 12,
    };
    Look { widths, coloured }
}

/// Adds a notice's line for people, after a sign.
#[tactic(auto, unfolding(crate::specs::Changed::pretty_line))]
fn push_pretty(
    alloc: Global,
    text: &mut Vec<u8>,
    coloured: bool,
    sign: u8,
    config: &Config,
    clock: &ZoneClock<'_>,
    notice: &Notice,
) -> Result<(), AllocError>
    ensures { OnOk result (text.new.items
        ≡ text.old.items ++ pretty_line coloured sign config.now clock.now notice.now) }
{
    push_sign(text, coloured, sign)?;
    let told = ReportLine::Decided(Entry::Sent(*notice));
    push_line(alloc, text, config, clock, change_look(coloured), &told)
}

/// Adds a notice's line of a report, with a sign in place of its letter.
fn push_changed(
    form: Form,
    text: &mut Vec<u8>,
    sign: u8,
    config: &Config,
    clock: &ZoneClock<'_>,
    notice: &Notice,
) -> Result<(), AllocError>
    ensures { OnOk result (text.new.items
        ≡ text.old.items ++ changed_line form.form sign config.now clock.now notice.now) }
{
    let mut line = Vec::new(form.alloc);
    let told = ReportLine::Decided(Entry::Sent(*notice));
    match form.form {
        ChangeForm::Plain => {
            push_plain(&mut line, config, &told)?;
            push_signed(text, b"", sign, after(&line, 1))
        }
        ChangeForm::Pretty(coloured) => {
            push_pretty(form.alloc, text, coloured, sign, config, clock, notice)
        }
        ChangeForm::Json => {
            push_json(form.alloc, &mut line, config, clock, &told)?;
            push_signed(text, b"{\"letter\":\"", sign, after(&line, 12))
        }
    }
}

/// Adds the lines of notices.
fn push_lines(
    form: Form,
    text: &mut Vec<u8>,
    sign: u8,
    config: &Config,
    clock: &ZoneClock<'_>,
    notices: &[Notice],
) -> Result<(), AllocError>
    ensures { OnOk result (text.new.items
        ≡ text.old.items ++ changed_lines form.form sign config.now clock.now notices.now) }
{
    for notice in notices {
        push_changed(form, text, sign, config, clock, notice)?;
    }
    Ok(())
}

/// What two configurations give of a line of the feed.
#[derive(Clone, Copy)]
pub struct Given<'a> {
    /// The first.
    pub a: &'a Config,
    /// The second.
    pub b: &'a Config,
    /// The notices by the first.
    pub before: &'a [Notice],
    /// Those by the second.
    pub after: &'a [Notice],
}

/// Adds the lines of the notices that one of two configurations alone gives: after a minus those of the first, after a plus those
/// of the second. A refused growth is the only error.
pub fn push_changes(
    form: Form,
    text: &mut Vec<u8>,
    clock: &ZoneClock<'_>,
    given: Given<'_>,
) -> Result<(), AllocError>
    ensures { OnOk result (text.new.items ≡ text.old.items
        ++ changes_of form.form given.entry.a.now given.entry.b.now clock.now
        given.entry.before.now given.entry.after.now) }
{
    let Given {
        a,
        b,
        before,
        after,
    } = given;
    let lost = left_of(form.alloc, b, a, after, before)?;
    push_lines(form, text, b'-', a, clock, lost.as_slice())?;
    let gained = left_of(form.alloc, a, b, before, after)?;
    push_lines(form, text, b'+', b, clock, gained.as_slice())
}
