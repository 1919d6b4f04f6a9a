//! One line of the feed.

ghost use Rattle.std.specs.Prelude.{◌≡◌, ◌+◌, ◌≤◌, ◌∷◌, ◌==◌, ℕ, List};
ghost use Rattle.std.specs.Prelude.{Some, None, IfOk, IfSome, nat_le};
ghost use Rattle.std.specs.Prelude.{◌<◌, ◌^◌, All, IsTrue, length, min, take_while};
ghost use Rattle.std.specs.Prelude.{if◌then◌else◌};
ghost use Rattle.std.specs.Option.{option_copied, option_map};
ghost use Rattle.std.specs.Str.{bytes_eq, is_utf8};
ghost use Rattle.std.specs.List.{prefix_len};
ghost use Rattle.due_model.specs.claims.Proper.{IsProper};
ghost use Rattle.due_model.specs.claims.Limits.{last_moment};
ghost use Rattle.std.specs.Char.{is_ascii_digit};
ghost use Rattle.event_feed.specs.declared.fault.FeedFault.TheVariants.{BadState, UnknownObject};
ghost use Rattle.event_feed.specs.declared.line.Subject.{Subject};
ghost use Rattle.event_feed.specs.declared.line.Words.TheVariants.{Acks};
ghost use Rattle.event_feed.specs.claims.Line.{ack_given, ack_said, all_said, bare_reading, command_named};
ghost use Rattle.event_feed.specs.claims.Line.{command_of};
ghost use Rattle.event_feed.specs.claims.Line.{command_reading, digits_number};
ghost use Rattle.event_feed.specs.claims.Line.{downtime_said, fields, flapping_said};
ghost use Rattle.event_feed.specs.Line.{fields_after};
ghost use Rattle.event_feed.specs.claims.Line.{host_state_said};
ghost use Rattle.event_feed.specs.claims.Line.{last_reading, line_reading, object_reading};
ghost use Rattle.event_feed.specs.claims.Line.{own_switch_said, told_ack_said};
ghost use Rattle.event_feed.specs.claims.Line.{service_reading, service_state_said, stamp_of};
ghost use Rattle.event_feed.specs.Line.{unknown_fault};

use crate::fault::FeedFault;
use due_model::config::{Config, ObjectId};
use due_model::event::{Acknowledgement, DowntimeChange, Event, EventKind};
use due_model::limits::{LAST_MOMENT, LINE_LIMIT};
use due_model::state::State;
use std::simd::prelude::*;
use text_lines::find_near;

/// What the name of a line says that happened.
#[derive(Clone, Copy)]
pub(crate) enum Command {
    /// The clock has come to the stamp. There are no arguments.
    TellTime,
    /// The program switch was turned on or off. There are no arguments.
    Switch(bool),
    /// Something happened to such an object: the arguments name it, and one of these words comes last.
    Tell(Words, Subject),
}

/// Which words a command takes.
#[derive(Clone, Copy)]
pub(crate) enum Words {
    /// The hard states of such an object (chapter "State Types").
    States,
    /// What happens to a downtime (chapter "Scheduled Downtime").
    Downtimes,
    /// Flapping starts or stops (chapter "State Flapping").
    Flaps,
    /// The problem is acknowledged: until it is over, or until the state changes, and another word may say that contacts
    /// are to be notified; or it isn't any more (chapter "External Commands").
    Acks,
    /// The object's notifications are switched on or off (chapter "External Commands").
    Switches,
}

/// What the arguments of a command name.
#[derive(Clone, Copy)]
pub(crate) enum Subject {
    /// A host, by its name.
    Host,
    /// A service, by the name of its host and its description.
    Service,
}

/// The event that a line says, without its newline, or the first reason why it says none: LineTooLong,
/// NotUtf8, BadStamp, UnknownKind, BadState for a wrong number of arguments, UnknownObject, BadState
/// (chapter "External Commands"). It takes no memory, and no more work than the line is long.
pub fn read_line(config: &Config, line: &[u8]) -> Result<Event, FeedFault>
    ensures reading { result ≡ line_reading config.now.objects line.now }
    ensures proper { IfOk result (IsProper config.now) }
{
    if line.len() > LINE_LIMIT {
        return Err(FeedFault::LineTooLong);
    }
    if !is_text(line) {
        return Err(FeedFault::NotUtf8);
    }
    let Some(stamp) = read_stamp(line) else {
        return Err(FeedFault::BadStamp);
    };
    let kind = read_command(config, stamp.command)?;
    Ok(Event {
        moment: stamp.moment,
        kind,
    })
}

/// Whether the bytes are UTF-8.
fn is_text(bytes: &[u8]) -> bool
    ensures { result ≡ is_utf8 bytes.now }
{
    if bytes.is_ascii() {
        return true;
    }
    match std::str::from_utf8(bytes) {
        Ok(_) => true,
        Err(_) => false,
    }
}

/// The front of a line, and the rest.
#[derive(Clone, Copy)]
struct Stamp<'a> {
    moment: u64,
    command: &'a [u8],
}

/// The stamp at the front of a line, and what follows it.
fn read_stamp<'a>(line: &'a [u8]) -> Option<Stamp<'a>>
    ensures moment { option_map (λ stamp. stamp.moment) result ≡ stamp_of line.now }
    ensures command { IfSome result (λ stamp. stamp.command.now ≡ command_of line.now) }
{
    let after = line.strip_prefix(b"[".as_slice())?;
    let digits = read_digits(after);
    let command = after[digits.count..].strip_prefix(b"] ".as_slice())?;
    if digits.count == 0 || digits.number > LAST_MOMENT {
        return None;
    }
    Some(Stamp {
        moment: digits.number,
        command,
    })
}

/// The decimal digits at the front of bytes.
#[derive(Clone, Copy)]
struct Digits {
    /// How many there are.
    count: usize,
    /// The number that they write, up to the first after the range of stamps.
    number: u64,
}

/// The decimal digits that the bytes begin with. A stamp has ten, but for those of long ago and of the years to come.
#[inline(always)]
fn read_digits(bytes: &[u8]) -> Digits
    ensures count { result.count ≡ length (take_while is_ascii_digit bytes.now) }
    ensures number { result.number
        ≡ min (digits_number (take_while is_ascii_digit bytes.now)) (last_moment + 1) }
{
    match (bytes.first_chunk::<16>(), bytes.first_chunk::<10>()) {
        (Some(front), Some(digits)) if count_digits(front) == 10 => Digits {
            count: 10,
            number: read_ten_digits(digits),
        },
        _ => read_other_digits(bytes),
    }
}

/// How many decimal digits sixteen bytes begin with.
#[inline(always)]
fn count_digits(bytes: &[u8; 16]) -> usize
    ensures { result ≡ prefix_len is_ascii_digit bytes.now }
{
    let lanes = u8x16::from_array(*bytes);
    let others = lanes.simd_lt(u8x16::splat(b'0')) | lanes.simd_gt(u8x16::splat(b'9'));
    let marks = others.to_bitmask();
    if marks == 0 {
        16
    } else {
        marks.trailing_zeros() as usize
    }
}

/// The number that ten decimal digits write.
#[inline(always)]
fn read_ten_digits(digits: &[u8; 10]) -> u64
    requires { All (λ digit. IsTrue (is_ascii_digit digit)) digits.now }
    ensures number { result ≡ digits_number digits.now }
    ensures few { result < 10 ^ 10 }
{
    let mut number = 0;
    for digit in digits {
        number = number * 10 + u64::from(*digit) - 48;
    }
    number
}

/// Any decimal digits that the bytes begin with, read once.
fn read_other_digits(bytes: &[u8]) -> Digits
    ensures count { result.count ≡ length (take_while is_ascii_digit bytes.now) }
    ensures number { result.number
        ≡ min (digits_number (take_while is_ascii_digit bytes.now)) (last_moment + 1) }
{
    let mut number = 0;
    for (at, byte) in bytes.iter().enumerate() {
        if !byte.is_ascii_digit() {
            return Digits { count: at, number };
        }
        number = (number * 10 + u64::from(*byte - b'0')).min(LAST_MOMENT + 1);
    }
    Digits {
        count: bytes.len(),
        number,
    }
}

/// The number that decimal digits write, where it is at most this one; leading zeros are allowed. Whether the bytes
/// are digits is the caller's to know.
pub fn read_number(digits: &[u8], most: u64) -> Option<u64>
    requires { most ≤ last_moment }
    ensures { result ≡ (if nat_le (digits_number digits.now) most
        then Some (digits_number digits.now) else None) }
{
    let mut number = 0;
    for digit in digits {
        let value = u64::from(digit.saturating_sub(b'0'));
        number = (number * 10 + value).min(most + 1);
    }
    if number > most { None } else { Some(number) }
}

/// What a command says.
fn read_command(config: &Config, command: &[u8]) -> Result<EventKind, FeedFault>
    ensures { result ≡ command_reading config.now.objects (fields command.now) }
{
    let (name, arguments) = split_field(command);
    match find_command(name) {
        None => Err(FeedFault::UnknownKind),
        Some(Command::TellTime) => read_bare(EventKind::Clock, arguments),
        Some(Command::Switch(on)) => read_bare(EventKind::Program(on), arguments),
        Some(Command::Tell(words, subject)) => read_object(config, words, subject, arguments),
    }
}

/// The first field, and what follows its `;`, if it has one.
#[inline(always)]
fn split_field(bytes: &[u8]) -> (&[u8], Option<&[u8]>)
    ensures { fields bytes.now ≡ result.0.now ∷ fields_after (option_copied result.1) }
{
    let end = find_near(b';', bytes);
    if end < bytes.len() {
        (&bytes[..end], Some(&bytes[end + 1..]))
    } else {
        (bytes, None)
    }
}

/// Whether bytes are this word. As arrays they are compared at once, with no call.
#[inline(always)]
fn is_word<const N: usize>(bytes: &[u8], word: &[u8; N]) -> bool
    ensures { result ≡ bytes_eq bytes.now word.now }
{
    match bytes.as_array::<N>() {
        Some(array) => array == word,
        None => false,
    }
}

/// The commands, one after another: the name, what it names, and its words.
fn find_command(name: &[u8]) -> Option<Command>
    ensures { result ≡ command_named name.now }
{
    if is_word(name, b"CLOCK") {
        Some(Command::TellTime)
    } else if is_word(name, b"ENABLE_NOTIFICATIONS") {
        Some(Command::Switch(true))
    } else if is_word(name, b"DISABLE_NOTIFICATIONS") {
        Some(Command::Switch(false))
    } else if is_word(name, b"HOST_STATE") {
        Some(Command::Tell(Words::States, Subject::Host))
    } else if is_word(name, b"SERVICE_STATE") {
        Some(Command::Tell(Words::States, Subject::Service))
    } else if is_word(name, b"HOST_DOWNTIME") {
        Some(Command::Tell(Words::Downtimes, Subject::Host))
    } else if is_word(name, b"SERVICE_DOWNTIME") {
        Some(Command::Tell(Words::Downtimes, Subject::Service))
    } else if is_word(name, b"HOST_FLAPPING") {
        Some(Command::Tell(Words::Flaps, Subject::Host))
    } else if is_word(name, b"SERVICE_FLAPPING") {
        Some(Command::Tell(Words::Flaps, Subject::Service))
    } else if is_word(name, b"HOST_ACK") {
        Some(Command::Tell(Words::Acks, Subject::Host))
    } else if is_word(name, b"SERVICE_ACK") {
        Some(Command::Tell(Words::Acks, Subject::Service))
    } else if is_word(name, b"HOST_NOTIFICATIONS") {
        Some(Command::Tell(Words::Switches, Subject::Host))
    } else if is_word(name, b"SERVICE_NOTIFICATIONS") {
        Some(Command::Tell(Words::Switches, Subject::Service))
    } else {
        None
    }
}

/// A command that takes no arguments.
fn read_bare(kind: EventKind, arguments: Option<&[u8]>) -> Result<EventKind, FeedFault>
    ensures { result ≡ bare_reading kind (fields_after (option_copied arguments.entry)) }
{
    match arguments {
        None => Ok(kind),
        Some(_) => Err(FeedFault::BadState),
    }
}

/// A command that tells of an object, from its arguments.
fn read_object(
    config: &Config,
    words: Words,
    subject: Subject,
    arguments: Option<&[u8]>,
) -> Result<EventKind, FeedFault>
    ensures { result ≡ object_reading config.now.objects words subject
        (fields_after (option_copied arguments.entry)) }
{
    let Some(arguments) = arguments else {
        return Err(FeedFault::BadState);
    };
    let (host, rest) = split_field(arguments);
    match subject {
        Subject::Host => read_last(config, words, Subject::Host, host, None, rest),
        Subject::Service => read_service(config, words, host, rest),
    }
}

/// A command that tells of a service of a host, from the arguments after the host's name.
fn read_service(
    config: &Config,
    words: Words,
    host: &[u8],
    arguments: Option<&[u8]>,
) -> Result<EventKind, FeedFault>
    ensures { result ≡ service_reading config.now.objects words host.now
        (fields_after (option_copied arguments.entry)) }
{
    let Some(arguments) = arguments else {
        return Err(FeedFault::BadState);
    };
    let (service, rest) = split_field(arguments);
    read_last(config, words, Subject::Service, host, Some(service), rest)
}

/// A command that tells of the object of a name, from what follows the name. Of an object that is known a wrong word and
/// an argument too many are told at once. It is put in line, since it is handed so much.
#[inline(always)]
fn read_last(
    config: &Config,
    words: Words,
    subject: Subject,
    host: &[u8],
    service: Option<&[u8]>,
    arguments: Option<&[u8]>,
) -> Result<EventKind, FeedFault>
    ensures { result ≡ last_reading config.now.objects words subject host.now
        (option_copied service.entry) (fields_after (option_copied arguments.entry)) }
{
    let Some(arguments) = arguments else {
        return Err(FeedFault::BadState);
    };
    match config.objects.find(host, service) {
        Some(object) => find_said(words, subject, object, arguments).ok_or(FeedFault::BadState),
        None => Err(unknown_fault(words, arguments)),
    }
}

/// Why a line is refused whose object isn't known: an argument too many is told before that.
fn unknown_fault(words: Words, arguments: &[u8]) -> FeedFault
    ensures { result ≡ unknown_fault words (fields arguments.now) }
{
    match split_field(arguments) {
        (_, None) => FeedFault::UnknownObject,
        (_, Some(more)) => unknown_fault_after(words, more),
    }
}

/// The fault of an object that isn't known, where the number of arguments is right.
fn fault_by(right: bool) -> FeedFault
    ensures { result ≡ if right then UnknownObject else BadState }
{
    if right {
        FeedFault::UnknownObject
    } else {
        FeedFault::BadState
    }
}

/// The same where more follows a word.
fn unknown_fault_after(words: Words, more: &[u8]) -> FeedFault
    ensures { (word : List ℕ) → result ≡ unknown_fault words (word ∷ fields more.now) }
{
    match words {
        Words::Acks => fault_by(is_word(more, b"NOTIFY")),
        _ => FeedFault::BadState,
    }
}

/// What these words say of an object. No word of those that stand alone has a `;`.
#[inline(always)]
fn find_said(
    words: Words,
    subject: Subject,
    object: ObjectId,
    arguments: &[u8],
) -> Option<EventKind>
    ensures { result ≡ all_said words subject object (fields arguments.now) }
{
    match words {
        Words::States => match subject {
            Subject::Host => find_host_state(object, arguments),
            Subject::Service => find_service_state(object, arguments),
        },
        Words::Downtimes => find_downtime(object, arguments),
        Words::Flaps => find_flapping(object, arguments),
        Words::Acks => find_ack(object, arguments),
        Words::Switches => find_own_switch(object, arguments),
    }
}

/// What a word says of a host's state.
fn find_host_state(object: ObjectId, word: &[u8]) -> Option<EventKind>
    ensures { result ≡ host_state_said object word.now }
{
    if is_word(word, b"UP") {
        Some(EventKind::Hard(object, State::Up))
    } else if is_word(word, b"DOWN") {
        Some(EventKind::Hard(object, State::Down))
    } else if is_word(word, b"UNREACHABLE") {
        Some(EventKind::Hard(object, State::Unreachable))
    } else {
        None
    }
}

/// What a word says of a service's state.
fn find_service_state(object: ObjectId, word: &[u8]) -> Option<EventKind>
    ensures { result ≡ service_state_said object word.now }
{
    if is_word(word, b"OK") {
        Some(EventKind::Hard(object, State::Fine))
    } else if is_word(word, b"WARNING") {
        Some(EventKind::Hard(object, State::Warning))
    } else if is_word(word, b"UNKNOWN") {
        Some(EventKind::Hard(object, State::Unknown))
    } else if is_word(word, b"CRITICAL") {
        Some(EventKind::Hard(object, State::Critical))
    } else {
        None
    }
}

/// What a word says of a downtime of an object.
fn find_downtime(object: ObjectId, word: &[u8]) -> Option<EventKind>
    ensures { result ≡ downtime_said object word.now }
{
    if is_word(word, b"START") {
        Some(EventKind::Downtime(object, DowntimeChange::Start))
    } else if is_word(word, b"END") {
        Some(EventKind::Downtime(object, DowntimeChange::End))
    } else if is_word(word, b"CANCELLED") {
        Some(EventKind::Downtime(object, DowntimeChange::Cancelled))
    } else {
        None
    }
}

/// What a word says of an object's flapping.
fn find_flapping(object: ObjectId, word: &[u8]) -> Option<EventKind>
    ensures { result ≡ flapping_said object word.now }
{
    if is_word(word, b"START") {
        Some(EventKind::Flapping(object, true))
    } else if is_word(word, b"STOP") {
        Some(EventKind::Flapping(object, false))
    } else {
        None
    }
}

/// What words say of an acknowledgement of an object's problem: one, and another behind it where contacts are to be
/// notified.
fn find_ack(object: ObjectId, arguments: &[u8]) -> Option<EventKind>
    ensures { (subject : Subject) → result ≡ all_said Acks subject object (fields arguments.now) }
{
    match split_field(arguments) {
        (word, None) => find_quiet_ack(object, word),
        (word, Some(more)) => find_told_ack(object, word, more),
    }
}

/// What a word says of it that stands alone.
fn find_quiet_ack(object: ObjectId, word: &[u8]) -> Option<EventKind>
    ensures { result ≡ ack_said object word.now }
{
    if is_word(word, b"NONE") {
        Some(EventKind::AckRemoved(object))
    } else {
        find_given_ack(object, false, word)
    }
}

/// What a word says of it, and another behind it.
fn find_told_ack(object: ObjectId, word: &[u8], more: &[u8]) -> Option<EventKind>
    ensures { result ≡ told_ack_said object word.now more.now }
{
    if is_word(more, b"NOTIFY") {
        find_given_ack(object, true, word)
    } else {
        None
    }
}

/// What a word says of one that is given, of which contacts are to be notified or not.
fn find_given_ack(object: ObjectId, notify: bool, word: &[u8]) -> Option<EventKind>
    ensures { result ≡ ack_given object notify word.now }
{
    if is_word(word, b"STICKY") {
        let sticky = true;
        Some(EventKind::Ack(object, Acknowledgement { sticky, notify }))
    } else if is_word(word, b"NORMAL") {
        let sticky = false;
        Some(EventKind::Ack(object, Acknowledgement { sticky, notify }))
    } else {
        None
    }
}

/// What a word says of an object's own switch.
fn find_own_switch(object: ObjectId, word: &[u8]) -> Option<EventKind>
    ensures { result ≡ own_switch_said object word.now }
{
    if is_word(word, b"ON") {
        Some(EventKind::OwnSwitch(object, true))
    } else if is_word(word, b"OFF") {
        Some(EventKind::OwnSwitch(object, false))
    } else {
        None
    }
}
