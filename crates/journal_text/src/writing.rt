//! The lines of a journal.

ghost use Rattle.std.specs.Prelude.{◌≡◌, ◌≢◌, ◌<◌, ◌≤◌, ◌++◌, ◌∷◌, [], decimal, length, false, true, IfNone, IfOk, IfSome, OnOk, Some};
ghost use Rattle.due_model.specs.claims.Limits.{line_limit};
ghost use Rattle.text_lines.specs.Lines.{IsUnbroken};
ghost use Rattle.journal_text.specs.Cuts.{IsEntryBack, IsReadBack};
ghost use Rattle.notice_text.specs.claims.Texts.{own_name};
ghost use Rattle.journal_text.specs.Entries.{body, entry_said, field, first_line, first_said};
ghost use Rattle.journal_text.specs.Entries.{news_fields, notice_fields, subject_fields};
ghost use Rattle.journal_text.specs.Lines.{within};
ghost use Rattle.journal_text.specs.Told.{line_said};
ghost use Rattle.journal_text.specs.Names.{host_of, host_word, service_word};

use crate::entry::Entry;
use crate::reading::{entry_of, first_of};
use due_model::config::{Config, LaneId, ObjectId};
use due_model::limits::LINE_LIMIT;
use due_model::notice::Notice;
use itoa::Buffer;
use notice_text::names::{kind_name, state_name};
use notice_text::texts;
use std::alloc::{AllocError, Global};
use text_lines::find_byte;

/// Adds a field.
fn push_field(text: &mut Vec<u8>, word: &[u8]) -> Result<(), AllocError>
    ensures { OnOk result (text.new.items ≡ text.old.items ++ field word.now) }
{
    text.extend_from_slice(word)?;
    text.push(b';')?;
    Ok(())
}

/// Adds a number as a field.
fn push_number(text: &mut Vec<u8>, number: u64) -> Result<(), AllocError>
    ensures { OnOk result (text.new.items ≡ text.old.items ++ field (decimal number)) }
{
    let mut buffer = Buffer::new();
    push_field(text, buffer.format(number).as_bytes())
}

/// The host of a service.
fn host_of(config: &Config, object: ObjectId) -> Option<ObjectId>
    ensures { result ≡ host_of config.now object.0 }
{
    match config.objects.as_slice().get(object.0 as usize) {
        Some(object) => object.host,
        None => None,
    }
}

/// An object's own name.
fn own_name(config: &Config, object: ObjectId) -> &[u8]
    ensures { result.now ≡ own_name config.now object.0 }
{
    match config.objects.as_slice().get(object.0 as usize) {
        Some(object) => object.name.as_slice(),
        None => b"",
    }
}

/// Adds an object's two fields.
fn push_object(text: &mut Vec<u8>, config: &Config, object: ObjectId) -> Result<(), AllocError>
    ensures { OnOk result (text.new.items
        ≡ text.old.items ++ field (host_word config.now object.0) ++ field (service_word config.now object.0)) }
{
    match host_of(config, object) {
        None => {
            push_field(text, own_name(config, object))?;
            push_field(text, b"")
        }
        Some(host) => {
            push_field(text, own_name(config, host))?;
            push_field(text, own_name(config, object))
        }
    }
}

/// Adds which event, and of which object.
#[tactic(auto, unfolding(crate::specs::Entries::subject_fields))]
fn push_subject(text: &mut Vec<u8>, config: &Config, notice: &Notice) -> Result<(), AllocError>
    ensures { OnOk result (text.new.items ≡ text.old.items ++ subject_fields config.now notice.now) }
{
    push_number(text, notice.event)?;
    push_number(text, notice.moment)?;
    push_object(text, config, notice.object)
}

/// Adds what, and for whom.
#[tactic(auto, unfolding(crate::specs::Entries::news_fields))]
fn push_news(text: &mut Vec<u8>, config: &Config, notice: &Notice) -> Result<(), AllocError>
    ensures { OnOk result (text.new.items ≡ text.old.items ++ news_fields config.now notice.now) }
{
    push_field(text, kind_name(notice.kind).as_bytes())?;
    push_field(text, state_name(notice.state).as_bytes())?;
    push_number(text, notice.number)?;
    push_field(text, texts::contact_name(config, notice.contact))
}

/// Adds a letter and a notice's fields.
fn push_notice(
    text: &mut Vec<u8>,
    config: &Config,
    letter: u8,
    notice: &Notice,
) -> Result<(), AllocError>
    ensures { OnOk result
        (text.new.items ≡ text.old.items ++ field (letter ∷ []) ++ notice_fields config.now notice.now) }
{
    push_field(text, &[letter])?;
    push_subject(text, config, notice)?;
    push_news(text, config, notice)
}

/// Adds the line of an entry, without its newline.
fn push_entry(text: &mut Vec<u8>, config: &Config, entry: &Entry) -> Result<(), AllocError>
    ensures { OnOk result (text.new.items ≡ text.old.items ++ body config.now entry.now) }
{
    match entry {
        Entry::Begun(notice) => push_notice(text, config, b'B', notice),
        Entry::Taken(notice) => push_notice(text, config, b'T', notice),
        Entry::GivenUp(notice) => push_notice(text, config, b'U', notice),
    }
}

/// Adds the first line, without its newline.
#[tactic(auto, unfolding(crate::specs::Entries::first_line))]
fn push_first(
    text: &mut Vec<u8>,
    config: &Config,
    lane: LaneId,
    from: u64,
) -> Result<(), AllocError>
    ensures { OnOk result (text.new.items ≡ text.old.items ++ first_line config.now lane from) }
{
    push_field(text, b"J")?;
    push_field(text, b"1")?;
    push_field(text, texts::lane_name(config, lane))?;
    push_number(text, from)
}

/// Whether a line can stand in a journal: no newline is in it, and it isn't too long.
fn is_line(line: &[u8]) -> bool
    ensures whole { result ≡ true → IsUnbroken line.now }
    ensures short { result ≡ true → length line.now ≤ line_limit }
    ensures none { result ≡ false → IsUnbroken line.now → line_limit < length line.now }
{
    find_byte(b'\n', line) == line.len() && line.len() <= LINE_LIMIT
}

/// Whether two entries are the same.
fn are_same(one: Entry, other: Entry) -> bool
    ensures yes { result ≡ true → one ≡ other }
    ensures no { result ≡ false → one ≢ other }
{
    match (one, other) {
        (Entry::Begun(one), Entry::Begun(other)) => one == other,
        (Entry::Taken(one), Entry::Taken(other)) => one == other,
        (Entry::GivenUp(one), Entry::GivenUp(other)) => one == other,
        _ => false,
    }
}

/// Whether this entry is what a line says.
fn is_said(config: &Config, lane: LaneId, line: &[u8], entry: Entry) -> bool
    ensures yes { result ≡ true → entry_said config.now lane line.now ≡ Some entry }
    ensures no { result ≡ false → entry_said config.now lane line.now ≢ Some entry }
{
    match entry_of(config, lane, line) {
        Some(said) => are_same(said, entry),
        None => false,
    }
}

/// Whether a line is read as this entry.
fn says(config: &Config, lane: LaneId, line: &[u8], entry: Entry) -> bool
    ensures yes { result ≡ true → IsReadBack line.now (line_said config.now lane) entry }
    ensures no { result ≡ false → ¬ IsReadBack line.now (line_said config.now lane) entry }
{
    is_line(line) && is_said(config, lane, line, entry)
}

/// Whether a line is read as the first of a lane's journal, from this event on.
fn says_first(config: &Config, lane: LaneId, line: &[u8], from: u64) -> bool
    ensures yes { result ≡ true → IsReadBack line.now (within (first_said config.now lane)) from }
    ensures no { result ≡ false → ¬ IsReadBack line.now (within (first_said config.now lane)) from }
{
    is_line(line) && first_of(config, lane, line) == Some(from)
}

/// The line of an entry, with its newline; none where it wouldn't be read as that entry, for a name that a line can't hold.
pub fn line_of(
    alloc: Global,
    config: &Config,
    lane: LaneId,
    entry: Entry,
) -> Result<Option<Vec<u8>>, AllocError>
    ensures line { IfOk result (λ found. IfSome found (λ line. line.items ≡ body config.now entry ++ 10 ∷ [])) }
    ensures back { IfOk result (λ found. IfSome found (λ line. IsEntryBack config.now lane entry)) }
    ensures none { IfOk result (λ found. IfNone found (¬ IsEntryBack config.now lane entry)) }
{
    let mut line = Vec::new(alloc);
    push_entry(&mut line, config, &entry)?;
    if !says(config, lane, &line, entry) {
        return Ok(None);
    }
    line.push(b'\n')?;
    Ok(Some(line))
}

/// The first line of a lane's journal, with its newline; none where it wouldn't be read as that, for the lane's name.
pub fn first_line_of(
    alloc: Global,
    config: &Config,
    lane: LaneId,
    from: u64,
) -> Result<Option<Vec<u8>>, AllocError>
    ensures line { IfOk result (λ found. IfSome found
        (λ line. line.items ≡ first_line config.now lane from ++ 10 ∷ [])) }
    ensures back { IfOk result (λ found. IfSome found (λ line.
        IsReadBack (first_line config.now lane from) (within (first_said config.now lane)) from)) }
    ensures none { IfOk result (λ found. IfNone found
        (¬ IsReadBack (first_line config.now lane from) (within (first_said config.now lane)) from)) }
{
    let mut line = Vec::new(alloc);
    push_first(&mut line, config, lane, from)?;
    if !says_first(config, lane, &line, from) {
        return Ok(None);
    }
    line.push(b'\n')?;
    Ok(Some(line))
}
