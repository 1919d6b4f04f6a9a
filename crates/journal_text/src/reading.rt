//! What a line of a journal says.

ghost use Rattle.std.specs.Prelude.{◌≡◌, ◌∷◌, []};
ghost use Rattle.std.specs.Option.{option_map};
ghost use Rattle.due_model.specs.claims.Objects.{object_named};
ghost use Rattle.journal_text.specs.Names.{contact_named, contact_said, kind_said, number_from, number_said, service_said, state_said};
ghost use Rattle.journal_text.specs.Entries.{at_end, entry_said, first_said, from_of, kind_at, news_at, notice_said};
ghost use Rattle.journal_text.specs.Entries.{number_at, object_at, subject_at, word_at};

use crate::entry::Entry;
use due_model::config::{Config, ContactId, LaneId, ObjectId};
use due_model::notice::{Kind, Notice};
use due_model::state::State;
use notice_text::texts::lane_name;
use text_lines::find_near;

/// A field's word, and the bytes after its mark.
fn word_of(bytes: &[u8]) -> Option<(&[u8], &[u8])>
    ensures { option_map (λ w. (w.0.now, w.1.now)) result ≡ word_at bytes.now }
{
    let end = find_near(b';', bytes);
    if end < bytes.len() {
        Some((&bytes[..end], &bytes[end + 1..]))
    } else {
        None
    }
}

/// The number that digits write; none from 2^64 on.
fn number_of(word: &[u8]) -> Option<u64>
    ensures { result ≡ number_said word.now }
{
    if word.is_empty() {
        return None;
    }
    let mut number: u64 = 0;
    for digit in word {
        number = with_digit(number, *digit)?;
    }
    Some(number)
}

/// A number and one digit more.
fn with_digit(number: u64, digit: u8) -> Option<u64>
    ensures { result ≡ number_from number (digit ∷ []) }
{
    if !digit.is_ascii_digit() {
        return None;
    }
    number.checked_mul(10)?.checked_add(u64::from(digit - b'0'))
}

/// A field that is a number, and the bytes after its mark.
#[tactic(auto, unfolding(crate::specs::Entries::number_at))]
fn number_in(bytes: &[u8]) -> Option<(u64, &[u8])>
    ensures { option_map (λ w. (w.0, w.1.now)) result ≡ number_at bytes.now }
{
    let (word, rest) = word_of(bytes)?;
    Some((number_of(word)?, rest))
}

/// The kind of a name.
fn kind_of(word: &[u8]) -> Option<Kind>
    ensures { result ≡ kind_said word.now }
{
    if word == b"PROBLEM".as_slice() {
        Some(Kind::Problem)
    } else if word == b"RECOVERY".as_slice() {
        Some(Kind::Recovery)
    } else if word == b"FLAPPINGSTART".as_slice() {
        Some(Kind::FlappingStart)
    } else if word == b"FLAPPINGSTOP".as_slice() {
        Some(Kind::FlappingStop)
    } else if word == b"DOWNTIMESTART".as_slice() {
        Some(Kind::DowntimeStart)
    } else if word == b"DOWNTIMEEND".as_slice() {
        Some(Kind::DowntimeEnd)
    } else if word == b"DOWNTIMECANCELLED".as_slice() {
        Some(Kind::DowntimeCancelled)
    } else if word == b"ACKNOWLEDGEMENT".as_slice() {
        Some(Kind::Acknowledgement)
    } else {
        None
    }
}

/// The state of a name.
fn state_of(word: &[u8]) -> Option<State>
    ensures { result ≡ state_said word.now }
{
    if word == b"PENDING".as_slice() {
        Some(State::Pending)
    } else if word == b"UP".as_slice() {
        Some(State::Up)
    } else if word == b"DOWN".as_slice() {
        Some(State::Down)
    } else if word == b"UNREACHABLE".as_slice() {
        Some(State::Unreachable)
    } else if word == b"OK".as_slice() {
        Some(State::Fine)
    } else if word == b"WARNING".as_slice() {
        Some(State::Warning)
    } else if word == b"UNKNOWN".as_slice() {
        Some(State::Unknown)
    } else if word == b"CRITICAL".as_slice() {
        Some(State::Critical)
    } else {
        None
    }
}

/// The place of the first contact of a name.
fn contact_named(config: &Config, name: &[u8]) -> Option<usize>
    ensures { result ≡ contact_named config.now name.now }
{
    config
        .contacts
        .as_slice()
        .iter()
        .position(|contact| contact.name.as_slice() == name)
}

/// The first contact of a name.
fn contact_of(config: &Config, name: &[u8]) -> Option<ContactId>
    ensures { result ≡ contact_said config.now name.now }
{
    let place = contact_named(config, name)?;
    if place <= u16::MAX as usize {
        Some(ContactId(place as u16))
    } else {
        None
    }
}

/// What stands at the front of a notice's fields.
#[derive(Clone, Copy)]
struct Subject {
    event: u64,
    moment: u64,
    object: ObjectId,
}

/// What stands behind it.
#[derive(Clone, Copy)]
struct News {
    kind: Kind,
    state: State,
    number: u64,
    contact: ContactId,
}

/// The object of a host's name and a description, which is empty for a host.
fn object_of(config: &Config, host: &[u8], service: &[u8]) -> Option<ObjectId>
    ensures { result ≡ object_named config.now.objects host.now (service_said service.now) }
{
    match service {
        [] => config.objects.find(host, None),
        [_, ..] => config.objects.find(host, Some(service)),
    }
}

/// The object's two fields, and the bytes after them.
#[tactic(auto, unfolding(crate::specs::Entries::object_at))]
fn object_in<'a>(config: &Config, bytes: &'a [u8]) -> Option<(ObjectId, &'a [u8])>
    ensures { option_map (λ w. (w.0, w.1.now)) result ≡ object_at config.now bytes.now }
{
    let (host, rest) = word_of(bytes)?;
    let (service, rest) = word_of(rest)?;
    Some((object_of(config, host, service)?, rest))
}

/// Which event, and of which object; and the bytes after it.
#[tactic(auto, unfolding(crate::specs::Entries::subject_at))]
fn subject_in<'a>(config: &Config, bytes: &'a [u8]) -> Option<(Subject, &'a [u8])>
    ensures { option_map (λ w. (w.0, w.1.now)) result ≡ subject_at config.now bytes.now }
{
    let (event, rest) = number_in(bytes)?;
    let (moment, rest) = number_in(rest)?;
    let (object, rest) = object_in(config, rest)?;
    Some((
        Subject {
            event,
            moment,
            object,
        },
        rest,
    ))
}

/// The kind and the state, and the bytes after them.
#[tactic(auto, unfolding(crate::specs::Entries::kind_at))]
fn kind_in(bytes: &[u8]) -> Option<(Kind, State, &[u8])>
    ensures { option_map (λ w. (w.0, w.1, w.2.now)) result ≡ kind_at bytes.now }
{
    let (kind, rest) = word_of(bytes)?;
    let (state, rest) = word_of(rest)?;
    Some((kind_of(kind)?, state_of(state)?, rest))
}

/// What, and for whom; and the bytes after it.
#[tactic(auto, unfolding(crate::specs::Entries::news_at))]
fn news_in<'a>(config: &Config, bytes: &'a [u8]) -> Option<(News, &'a [u8])>
    ensures { option_map (λ w. (w.0, w.1.now)) result ≡ news_at config.now bytes.now }
{
    let (kind, state, rest) = kind_in(bytes)?;
    let (number, rest) = number_in(rest)?;
    let (contact, rest) = word_of(rest)?;
    Some((
        News {
            kind,
            state,
            number,
            contact: contact_of(config, contact)?,
        },
        rest,
    ))
}

/// The notice of a lane that fields tell, with nothing after them.
#[tactic(auto, unfolding(crate::specs::Entries::notice_said))]
fn notice_of(config: &Config, lane: LaneId, bytes: &[u8]) -> Option<Notice>
    ensures { result ≡ notice_said config.now lane bytes.now }
{
    let (subject, rest) = subject_in(config, bytes)?;
    let (news, rest) = news_in(config, rest)?;
    if !rest.is_empty() {
        return None;
    }
    Some(Notice {
        event: subject.event,
        moment: subject.moment,
        object: subject.object,
        kind: news.kind,
        state: news.state,
        number: news.number,
        contact: news.contact,
        lane,
    })
}

/// The entry that a line says.
pub fn entry_of(config: &Config, lane: LaneId, line: &[u8]) -> Option<Entry>
    ensures { result ≡ entry_said config.now lane line.now }
{
    let [letter, mark, rest @ ..] = line else {
        return None;
    };
    if *mark != b';' {
        return None;
    }
    if *letter == b'B' {
        return Some(Entry::Begun(notice_of(config, lane, rest)?));
    }
    if *letter == b'T' {
        return Some(Entry::Taken(notice_of(config, lane, rest)?));
    }
    if *letter == b'U' {
        return Some(Entry::GivenUp(notice_of(config, lane, rest)?));
    }
    None
}

/// From which event on, where the words are those of the first line of this lane's journal.
fn from_of(
    config: &Config,
    lane: LaneId,
    mark: &[u8],
    format: &[u8],
    name: &[u8],
    from: u64,
) -> Option<u64>
    ensures { result ≡ from_of config.now lane mark.now format.now name.now from }
{
    if mark == b"J".as_slice() && format == b"1".as_slice() && name == lane_name(config, lane) {
        Some(from)
    } else {
        None
    }
}

/// The number, where nothing comes after it.
fn at_end(number: u64, rest: &[u8]) -> Option<u64>
    ensures { result ≡ at_end number rest.now }
{
    match rest {
        [] => Some(number),
        [_, ..] => None,
    }
}

/// From which event on the first line of a lane's journal says that its letters are handed over.
#[tactic(auto, unfolding(crate::specs::Entries::first_said))]
pub fn first_of(config: &Config, lane: LaneId, line: &[u8]) -> Option<u64>
    ensures { result ≡ first_said config.now lane line.now }
{
    let (mark, rest) = word_of(line)?;
    let (format, rest) = word_of(rest)?;
    let (name, rest) = word_of(rest)?;
    let (from, rest) = number_in(rest)?;
    at_end(from_of(config, lane, mark, format, name, from)?, rest)
}
