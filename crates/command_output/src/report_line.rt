//! The lines of a report: a notice, a suppression, a refused line.

ghost use Rattle.std.specs.Prelude.{◌≡◌, [], ◌∷◌, ◌++◌, decimal, OnOk};
ghost use Rattle.command_output.specs.claims.Fields.{field};
ghost use Rattle.command_output.specs.LineHead.{contact_field, entry_end, entry_head, entry_letter};
ghost use Rattle.command_output.specs.LineHead.{head_text, notice_end, suppression_end};
ghost use Rattle.command_output.specs.claims.OutputLine.{entry_text};

use crate::fields::{push_contact, push_field, push_lane, push_number};
use crate::line_head::{entry_head, push_head};
use due_model::config::{Config, ContactId};
use due_model::notice::{Notice, Suppression};
use messages::entries::Entry;
use notice_text::names::filter_name;
use std::alloc::AllocError;

/// The letter of the line of an entry: `N` for a notice, `S` or `C` for what a filter of the object, or of the contact,
/// stopped.
#[inline(always)]
fn entry_letter(entry: &Entry) -> u8
    ensures { result ≡ entry_letter entry.now }
{
    match entry {
        Entry::Sent(_) => b'N',
        Entry::Withheld(suppression) => match suppression.contact {
            None => b'S',
            Some(_) => b'C',
        },
    }
}

/// Adds what the line of a notice ends with: the contact and the lane.
#[inline(always)]
fn push_notice_end(line: &mut Vec<u8>, config: &Config, notice: &Notice) -> Result<(), AllocError>
    ensures { OnOk result (line.new.items ≡ line.old.items ++ notice_end config.now notice.now) }
{
    push_contact(line, config, notice.contact)?;
    push_lane(line, config, notice.lane)?;
    line.push(b'\n')?;
    Ok(())
}

/// Adds the contact whose filter stopped a message, if one did.
#[inline(always)]
fn push_contact_field(
    line: &mut Vec<u8>,
    config: &Config,
    contact: Option<ContactId>,
) -> Result<(), AllocError>
    ensures { OnOk result (line.new.items ≡ line.old.items ++ contact_field config.now contact) }
{
    match contact {
        None => Ok(()),
        Some(contact) => push_contact(line, config, contact),
    }
}

/// Adds what the line of a suppression ends with: the contact, if it was one's filter, and the filter.
#[inline(always)]
fn push_suppression_end(
    line: &mut Vec<u8>,
    config: &Config,
    suppression: &Suppression,
) -> Result<(), AllocError>
    ensures { OnOk result
        (line.new.items ≡ line.old.items ++ suppression_end config.now suppression.now) }
{
    push_contact_field(line, config, suppression.contact)?;
    push_field(line, filter_name(suppression.filter).as_bytes())?;
    line.push(b'\n')?;
    Ok(())
}

/// Adds what the line of an entry ends with, after its head.
#[inline(always)]
fn push_end(line: &mut Vec<u8>, config: &Config, entry: &Entry) -> Result<(), AllocError>
    ensures { OnOk result (line.new.items ≡ line.old.items ++ entry_end config.now entry.now) }
{
    match entry {
        Entry::Sent(notice) => push_notice_end(line, config, notice),
        Entry::Withheld(suppression) => push_suppression_end(line, config, suppression),
    }
}

/// Adds the line of an entry.
#[tactic(auto, using(crate::proofs::EntryLaws::entry_parts))]
pub(crate) fn push_entry(
    line: &mut Vec<u8>,
    config: &Config,
    entry: &Entry,
) -> Result<(), AllocError>
    ensures { OnOk result (line.new.items ≡ line.old.items ++ entry_text config.now entry.now) }
{
    line.push(entry_letter(entry))?;
    push_head(line, config, entry_head(entry))?;
    push_end(line, config, entry)
}

/// Adds the line of an entry whose head has this text.
#[tactic(auto, using(crate::proofs::EntryLaws::entry_parts))]
#[inline(always)]
pub(crate) fn push_entry_after(
    line: &mut Vec<u8>,
    config: &Config,
    head: &[u8],
    entry: &Entry,
) -> Result<(), AllocError>
    requires { head.now ≡ head_text config.now (entry_head entry.now) }
    ensures { OnOk result (line.new.items ≡ line.old.items ++ entry_text config.now entry.now) }
{
    line.push(entry_letter(entry))?;
    line.extend_from_slice(head)?;
    push_end(line, config, entry)
}

/// Adds the line of a refused line, which begins with this letter: its number, and why it is refused.
pub(crate) fn push_refused(
    line: &mut Vec<u8>,
    letter: u8,
    number: u64,
    fault: &str,
) -> Result<(), AllocError>
    ensures { OnOk result (line.new.items ≡ line.old.items
        ++ letter ∷ field (decimal number) ++ field fault.now ++ 10 ∷ []) }
{
    line.push(letter)?;
    push_number(line, number)?;
    push_field(line, fault.as_bytes())?;
    line.extend_from_slice(b"\n")
}
