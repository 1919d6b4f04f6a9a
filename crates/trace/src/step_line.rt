//! The step lines of `trace`: one step a line.

ghost use Rattle.std.specs.Prelude.{◌≡◌, ◌≢◌, ◌≤◌, ℕ, List, ◌++◌, length, IfNone};
ghost use Rattle.std.specs.Prelude.{IfSome, MatchOption};
ghost use Rattle.std.specs.Char.{is_ascii_digit};
ghost use Rattle.std.specs.List.{list_all};
ghost use Rattle.due_model.specs.claims.Limits.{max_deciders, max_lanes};
ghost use Rattle.notice_text.specs.claims.Texts.{lane_text};
ghost use Rattle.trace.specs.declared.step_line.StepLine.{StepLine};
ghost use Rattle.trace.specs.StepLine.{BeginsWithWord, IsDecider, NamesLane, Spells, SpellsDecide};
ghost use Rattle.trace.specs.StepLine.{SpellsLane, SpellsPut};

use due_model::config::{Config, LaneId};
use event_feed::read_number;
use notice_text::texts::lane_name;
use text_lines::find_byte;
use world_steps::{LaneStep, Step};

/// What a step line says.
#[derive(Clone, Copy, Debug, PartialEq, Eq)]
pub(crate) enum StepLine {
    /// The next event of the feed is posted.
    PostNext,
    /// This step is done. It is never a post.
    Do(Step),
}

/// What a step line says, without its newline, if it says a step of a run with so many deciders. Its words
/// are separated by one blank, and a lane is the rest of the line.
pub(crate) fn read_step(config: &Config, deciders: u8, line: &[u8]) -> Option<StepLine>
    requires deciders { (1 ≤ deciders) × (deciders ≤ max_deciders) }
    requires lanes { length config.now.lanes ≤ max_lanes }
    ensures some { IfSome result (λ said. Spells config.now deciders said line.now) }
    ensures none { IfNone result ((said : StepLine) → ¬ Spells config.now deciders said line.now) }
{
    if line == b"post".as_slice() {
        return Some(StepLine::PostNext);
    }
    if let Some(decider) = read_decide(deciders, line) {
        return Some(StepLine::Do(Step::Decide(decider)));
    }
    if let Some((decider, lane)) = read_put(config, deciders, line) {
        return Some(StepLine::Do(Step::Put(decider, lane)));
    }
    if let Some(lane) = read_lane(config, b"pick ", line) {
        return Some(StepLine::Do(Step::Lane(lane, LaneStep::Pick)));
    }
    if let Some(lane) = read_lane(config, b"settle ", line) {
        return Some(StepLine::Do(Step::Lane(lane, LaneStep::Settle)));
    }
    if let Some(lane) = read_lane(config, b"fail ", line) {
        return Some(StepLine::Do(Step::Lane(lane, LaneStep::Fail)));
    }
    if let Some(lane) = read_lane(config, b"ask ", line) {
        return Some(StepLine::Do(Step::Lane(lane, LaneStep::Ask)));
    }
    if let Some(lane) = read_lane(config, b"replace ", line) {
        return Some(StepLine::Do(Step::Lane(lane, LaneStep::Replace)));
    }
    if let Some(lane) = read_lane(config, b"close ", line) {
        return Some(StepLine::Do(Step::Lane(lane, LaneStep::Close)));
    }
    match read_lane(config, b"drain ", line) {
        Some(lane) => Some(StepLine::Do(Step::Lane(lane, LaneStep::Drain))),
        None => None,
    }
}

/// The decider of a line `decide D`.
fn read_decide(deciders: u8, line: &[u8]) -> Option<u8>
    requires { (1 ≤ deciders) × (deciders ≤ max_deciders) }
    ensures some { IfSome result (λ decider. SpellsDecide deciders decider line.now) }
    ensures none { IfNone result ((decider : ℕ) → ¬ SpellsDecide deciders decider line.now) }
{
    read_decider(deciders, line.strip_prefix(b"decide ".as_slice())?)
}

/// The decider and the lane of a line `put D LANE`.
fn read_put(config: &Config, deciders: u8, line: &[u8]) -> Option<(u8, LaneId)>
    requires deciders { (1 ≤ deciders) × (deciders ≤ max_deciders) }
    requires lanes { length config.now.lanes ≤ max_lanes }
    ensures some { IfSome result (λ put. SpellsPut config.now deciders put.0 put.1 line.now) }
    ensures none { IfNone result ((decider : ℕ) (lane : LaneId)
        → ¬ SpellsPut config.now deciders decider lane line.now) }
{
    let Some(words) = after_word(b"put ", line) else {
        return None;
    };
    let Some((digits, name)) = split_word(words) else {
        return None;
    };
    let Some(decider) = read_decider(deciders, digits) else {
        return None;
    };
    match find_lane(config, name) {
        Some(lane) => Some((decider, lane)),
        None => None,
    }
}

/// What comes after a word, with the blank after it, if the line begins with that.
fn after_word<'a>(word: &[u8], line: &'a [u8]) -> Option<&'a [u8]>
    ensures { MatchOption result ((rest : List ℕ) → line.now ≢ word.now ++ rest)
        (λ rest. line.now ≡ word.now ++ rest.now) }
{
    line.strip_prefix(word)
}

/// The first word, and what comes after its blank, if there is one.
fn split_word(words: &[u8]) -> Option<(&[u8], &[u8])>
    ensures some { IfSome result (λ parts. BeginsWithWord words.now parts.0.now parts.1.now) }
    ensures none { IfNone result ((word rest : List ℕ) → ¬ BeginsWithWord words.now word rest) }
{
    let blank = find_byte(b' ', words);
    if blank == words.len() {
        None
    } else {
        Some((&words[..blank], &words[blank + 1..]))
    }
}

/// The lane of a line that is a word, with the blank after it, and a lane.
fn read_lane(config: &Config, word: &[u8], line: &[u8]) -> Option<LaneId>
    requires { length config.now.lanes ≤ max_lanes }
    ensures some { IfSome result (λ lane. SpellsLane config.now word.now lane line.now) }
    ensures none { IfNone result ((lane : LaneId)
        → ¬ SpellsLane config.now word.now lane line.now) }
{
    match after_word(word, line) {
        Some(name) => find_lane(config, name),
        None => None,
    }
}

/// The decider whose number decimal digits write, if there is one.
fn read_decider(deciders: u8, digits: &[u8]) -> Option<u8>
    requires { (1 ≤ deciders) × (deciders ≤ max_deciders) }
    ensures some { IfSome result (λ decider. IsDecider deciders decider digits.now) }
    ensures none { IfNone result ((decider : ℕ) → ¬ IsDecider deciders decider digits.now) }
{
    if digits.is_empty() || !are_digits(digits) {
        return None;
    }
    let number = read_number(digits, u64::from(deciders - 1))?;
    Some(number as u8)
}

/// Whether all of the bytes are decimal digits.
fn are_digits(bytes: &[u8]) -> bool
    ensures { result ≡ list_all is_ascii_digit bytes.now }
{
    bytes.iter().all(|byte| byte.is_ascii_digit())
}

/// The first lane of that name, if there is one.
fn find_lane(config: &Config, name: &[u8]) -> Option<LaneId>
    requires { length config.now.lanes ≤ max_lanes }
    ensures some { IfSome result (λ lane. NamesLane config.now lane name.now) }
    ensures none { IfNone result ((lane : LaneId) → ¬ NamesLane config.now lane name.now) }
{
    for number in 0..config.lanes.len() {
        let lane = LaneId(number as u8);
        if lane_name(config, lane) == name {
            return Some(lane);
        }
    }
    None
}
