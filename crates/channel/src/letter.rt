//! The letter of a notice.

ghost use Rattle.std.specs.Prelude.{◌≡◌, ◌++◌, decimal, IfOk, OnOk};
ghost use Rattle.channel.specs.claims.Letter.{letter_of, line, number_lines};
ghost use Rattle.channel.specs.Letter.{AgainIsALine, IsLetter, again_of};
ghost use Rattle.channel.specs.claims.Letter.{subject_lines};
ghost use Rattle.notice_text.specs.claims.Texts.{number_text, object_text};

use due_model::config::{Config, ObjectId};
use due_model::notice::Notice;
use due_model::sequence::Sequence;
use itoa::Buffer;
use notice_text::names::{kind_name, state_name};
use notice_text::texts;
use std::alloc::{AllocError, Global};

/// What a channel is given: a notice, and the text that tells it. No letter says anything else, but that it goes out again.
#[derive(Drop)]
pub struct Letter {
    pub notice: Notice,
    /// The bytes that go out.
    pub text: Sequence<u8>,
    ghost said: { ¬ ¬ IsLetter notice text },
}

/// The letter of a notice: a line each for the contact, the kind, the object, its state, the number of the
/// notification (a dash where there is none), the moment and the number of the event, and an empty line. A
/// refused growth is the only error.
pub fn letter_text(alloc: Global, config: &Config, notice: Notice) -> Result<Letter, AllocError>
    ensures notice { IfOk result (λ letter. letter.notice ≡ notice) }
    ensures text { IfOk result (λ letter. letter.text ≡ letter_of config.now notice) }
{
    let mut text = Vec::with_capacity(alloc, room_for(config, &notice))?;
    push_subject(&mut text, config, &notice)?;
    push_numbers(&mut text, &notice)?;
    text.push(b'\n')?;
    Ok(Letter {
        notice,
        text: Sequence::new(text),
    })
}

/// The line that a letter has before its empty line where it may have gone out before, and the empty line.
const AGAIN: &[u8] = b"Again: yes\n\n";

impl Letter {
    /// The same letter, for who hands it over again that may have gone out before: one line more says so. A refused growth is the
    /// only error.
    pub fn again(&self, alloc: Global) -> Result<Letter, AllocError>
        ensures notice { IfOk result (λ letter. letter.notice ≡ self.now.notice) }
        ensures text { IfOk result (λ letter. letter.text ≡ again_of self.now.text) }
    {
        let text = again_text(alloc, self.text.as_slice())?;
        Ok(Letter {
            notice: self.notice,
            text: Sequence::new(text),
        })
    }
}

/// A text with the line more.
fn again_text(alloc: Global, text: &[u8]) -> Result<Vec<u8>, AllocError>
    ensures { IfOk result (λ found. found.items ≡ again_of text.now) }
{
    let front = &text[..text.len().saturating_sub(1)];
    let mut again = Vec::with_capacity(alloc, front.len().saturating_add(AGAIN.len()))?;
    again.extend_from_slice(front)?;
    again.extend_from_slice(AGAIN)?;
    Ok(again)
}

/// A letter that goes out again says one line more, and nothing else.
pub fn again_is_a_line()
    ensures { AgainIsALine }
{}

/// A letter without names, as long as one can be.
const LONGEST: &str =
    "To: \nKind: DOWNTIMECANCELLED\nObject: /\nState: UNREACHABLE\nNumber: 18446744073709551615\nMoment: 18446744073709551615\nEvent: 18446744073709551615\n\n";

/// How many bytes a letter has at most. One growth makes the room for them all.
fn room_for(config: &Config, notice: &Notice) -> usize {
    let contact = texts::contact_name(config, notice.contact).len();
    let object = object_len(config, notice.object);
    LONGEST.len().saturating_add(contact).saturating_add(object)
}

/// How long the names are that tell an object: its own, and its host's.
fn object_len(config: &Config, object: ObjectId) -> usize {
    let Some(object) = config.objects.as_slice().get(object.0 as usize) else {
        return 0;
    };
    let host = match object.host {
        Some(host) => own_len(config, host),
        None => 0,
    };
    object.name.len().saturating_add(host)
}

/// How long an object's own name is.
fn own_len(config: &Config, object: ObjectId) -> usize {
    match config.objects.as_slice().get(object.0 as usize) {
        Some(object) => object.name.len(),
        None => 0,
    }
}

/// Adds the lines for the contact, the kind, the object and its state.
#[tactic(auto, unfolding(crate::specs::claims::Letter::subject_lines))]
fn push_subject(text: &mut Vec<u8>, config: &Config, notice: &Notice) -> Result<(), AllocError>
    ensures { OnOk result
        (text.new.items ≡ text.old.items ++ subject_lines config.now notice.now) }
{
    push_line(text, b"To: ", texts::contact_name(config, notice.contact))?;
    push_line(text, b"Kind: ", kind_name(notice.kind).as_bytes())?;
    push_object_line(text, b"Object: ", config, notice.object)?;
    push_line(text, b"State: ", state_name(notice.state).as_bytes())
}

/// Adds the lines for the number of the notice, the moment and the number of its event.
#[tactic(auto, unfolding(crate::specs::claims::Letter::number_lines))]
fn push_numbers(text: &mut Vec<u8>, notice: &Notice) -> Result<(), AllocError>
    ensures { OnOk result (text.new.items ≡ text.old.items ++ number_lines notice.now) }
{
    push_notice_number(text, b"Number: ", notice.number)?;
    push_number(text, b"Moment: ", notice.moment)?;
    push_number(text, b"Event: ", notice.event)
}

/// Adds a line.
fn push_line(text: &mut Vec<u8>, label: &[u8], said: &[u8]) -> Result<(), AllocError>
    ensures { OnOk result (text.new.items ≡ text.old.items ++ line label.now said.now) }
{
    text.extend_from_slice(label)?;
    text.extend_from_slice(said)?;
    text.push(b'\n')?;
    Ok(())
}

/// Adds a line that says a number.
fn push_number(text: &mut Vec<u8>, label: &[u8], number: u64) -> Result<(), AllocError>
    ensures { OnOk result (text.new.items ≡ text.old.items ++ line label.now (decimal number)) }
{
    let mut buffer = Buffer::new();
    push_line(text, label, buffer.format(number).as_bytes())
}

/// Adds a line that says the number of a notice.
fn push_notice_number(text: &mut Vec<u8>, label: &[u8], number: u64) -> Result<(), AllocError>
    ensures { OnOk result (text.new.items ≡ text.old.items ++ line label.now (number_text number)) }
{
    text.extend_from_slice(label)?;
    texts::push_notice_number(text, number)?;
    text.push(b'\n')?;
    Ok(())
}

/// Adds a line that says an object.
fn push_object_line(
    text: &mut Vec<u8>,
    label: &[u8],
    config: &Config,
    object: ObjectId,
) -> Result<(), AllocError>
    ensures { OnOk result
        (text.new.items ≡ text.old.items ++ line label.now (object_text config.now object.0)) }
{
    text.extend_from_slice(label)?;
    texts::push_object(text, config, object)?;
    text.push(b'\n')?;
    Ok(())
}
