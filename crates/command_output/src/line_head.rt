//! What the lines of notices and suppressions begin with, after their letter. Lines of one event and object share it.

ghost use Rattle.std.specs.Prelude.{◌≡◌, ◌++◌, true, IfSome, OnOk};
ghost use Rattle.command_output.specs.claims.Fields.{field};
ghost use Rattle.command_output.specs.LineHead.{entry_head, head_text, notice_head};
ghost use Rattle.command_output.specs.LineHead.{number_field, suppression_head, suppression_number};
ghost use Rattle.notice_text.specs.claims.Names.{kind_name, state_name};

use crate::fields::{push_field, push_notice_number, push_numbers, push_object};
use due_model::config::{Config, ObjectId};
use due_model::notice::{Kind, Notice, Suppression};
use due_model::state::State;
use messages::entries::Entry;
use notice_text::names::{kind_name, state_name};
use std::alloc::AllocError;

/// What the lines of notices and suppressions begin with, after their letter.
#[derive(Clone, Copy)]
pub(crate) struct LineHead {
    event: u64,
    moment: u64,
    object: ObjectId,
    kind: Kind,
    state: State,
    /// The number of the notice; none where an object's filter stopped it.
    number: Option<u64>,
}

/// Adds the head of a line.
#[tactic(auto, unfolding(crate::specs::claims::ReportLine::head_fields))]
pub(crate) fn push_head(
    line: &mut Vec<u8>,
    config: &Config,
    head: LineHead,
) -> Result<(), AllocError>
    ensures { OnOk result (line.new.items ≡ line.old.items ++ head_text config.now head) }
{
    push_numbers(line, head.event, head.moment)?;
    push_object(line, config, head.object)?;
    push_condition(line, head.kind, head.state)?;
    push_number_field(line, head.number)
}

/// Adds the kind and the state, as two fields.
#[inline(always)]
fn push_condition(line: &mut Vec<u8>, kind: Kind, state: State) -> Result<(), AllocError>
    ensures { OnOk result
        (line.new.items ≡ line.old.items ++ field (kind_name kind) ++ field (state_name state)) }
{
    if let Some(text) = common_condition(kind, state) {
        return line.extend_from_slice(text.as_bytes());
    }
    push_field(line, kind_name(kind).as_bytes())?;
    push_field(line, state_name(state).as_bytes())
}

/// The two fields at once, for what a feed tells most: problems and recoveries.
#[inline(always)]
fn common_condition(kind: Kind, state: State) -> Option<&'static str>
    ensures { IfSome result (λ text.
        text.now ≡ field (kind_name kind) ++ field (state_name state)) }
{
    match (kind, state) {
        (Kind::Problem, State::Down) => Some(";PROBLEM;DOWN"),
        (Kind::Problem, State::Unreachable) => Some(";PROBLEM;UNREACHABLE"),
        (Kind::Problem, State::Warning) => Some(";PROBLEM;WARNING"),
        (Kind::Problem, State::Unknown) => Some(";PROBLEM;UNKNOWN"),
        (Kind::Problem, State::Critical) => Some(";PROBLEM;CRITICAL"),
        (Kind::Recovery, State::Up) => Some(";RECOVERY;UP"),
        (Kind::Recovery, State::Fine) => Some(";RECOVERY;OK"),
        _ => None,
    }
}

/// Adds the number of a notice, where there is one to say.
#[inline(always)]
fn push_number_field(line: &mut Vec<u8>, number: Option<u64>) -> Result<(), AllocError>
    ensures { OnOk result (line.new.items ≡ line.old.items ++ number_field number) }
{
    match number {
        None => Ok(()),
        Some(number) => push_notice_number(line, number),
    }
}

/// What the line of a notice begins with.
#[inline(always)]
fn notice_head(notice: &Notice) -> LineHead
    ensures { result ≡ notice_head notice.now }
{
    LineHead {
        event: notice.event,
        moment: notice.moment,
        object: notice.object,
        kind: notice.kind,
        state: notice.state,
        number: Some(notice.number),
    }
}

/// What the line of a suppression begins with.
#[inline(always)]
fn suppression_head(suppression: &Suppression) -> LineHead
    ensures { result ≡ suppression_head suppression.now }
{
    LineHead {
        event: suppression.event,
        moment: suppression.moment,
        object: suppression.object,
        kind: suppression.kind,
        state: suppression.state,
        number: suppression_number(suppression),
    }
}

/// The number that the line of a suppression says.
#[inline(always)]
fn suppression_number(suppression: &Suppression) -> Option<u64>
    ensures { result ≡ suppression_number suppression.now suppression.now.contact }
{
    match suppression.contact {
        None => None,
        Some(_) => Some(suppression.number),
    }
}

/// What the line of an entry begins with.
#[inline(always)]
pub(crate) fn entry_head(entry: &Entry) -> LineHead
    ensures { result ≡ entry_head entry.now }
{
    match entry {
        Entry::Sent(notice) => notice_head(notice),
        Entry::Withheld(suppression) => suppression_head(suppression),
    }
}

/// Whether two numbers, if there are any, are the same.
#[inline(always)]
fn is_same_number(last: Option<u64>, number: Option<u64>) -> bool
    ensures { result ≡ true → last ≡ number }
{
    match (last, number) {
        (None, None) => true,
        (Some(last), Some(number)) => last == number,
        _ => false,
    }
}

/// Whether a line begins as the line before.
#[inline(always)]
fn is_same(last: LineHead, head: LineHead) -> bool
    ensures { result ≡ true → last ≡ head }
{
    last.object == head.object
        && last.event == head.event
        && last.moment == head.moment
        && last.kind == head.kind
        && last.state == head.state
        && is_same_number(last.number, head.number)
}

/// Makes the text of the head of an entry's line from that of the entry before.
#[inline(always)]
pub(crate) fn make_head(
    text: &mut Vec<u8>,
    config: &Config,
    last: &Entry,
    entry: &Entry,
) -> Result<(), AllocError>
    requires { text.old.items ≡ head_text config.now (entry_head last.now) }
    ensures { OnOk result (text.new.items ≡ head_text config.now (entry_head entry.now)) }
{
    if is_same(entry_head(last), entry_head(entry)) {
        return Ok(());
    }
    text.clear();
    push_head(text, config, entry_head(entry))
}
