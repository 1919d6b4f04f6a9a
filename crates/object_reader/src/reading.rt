//! Object text, read in one pass over its bytes.

ghost use Rattle.std.specs.Prelude.{◌≡◌, ◌⊎◌, List, ◌∷◌, [], Ok, Err, length, ◌≤◌};
ghost use Rattle.std.specs.Prelude.{IfOk, IfErr, OnOk, MatchResult, MatchOption};
ghost use Rattle.std.specs.Cow.{cow_slice_items};
ghost use Rattle.object_reader.specs.claims.Statements.{Statement};
ghost use Rattle.object_reader.specs.Statements.{statements_in};
ghost use Rattle.object_reader.specs.declared.block.Block.{Block};
ghost use Rattle.object_reader.specs.declared.fault.ReadFault.{ReadFault};
ghost use Rattle.object_reader.specs.declared.fault.ReadFault.TheVariants.{NoMemory};
ghost use Rattle.object_reader.specs.claims.Grammar.{IsObjectText, IsRefused};
ghost use Rattle.object_reader.specs.Grammar.{ArePlain};
ghost use Rattle.object_reader.specs.Blocks.{Gives, FailsFirst, before_blocks, at_line, is_period};
ghost use Rattle.object_reader.specs.Blocks.{name_and_value, directive_of, block_of, blocks_of, read_text};
ghost use Rattle.object_reader.specs.DayLines.{day_line};

use crate::block::{Block, BlockKind, Directive};
use crate::day_line::{day_front, spaced, without_blanks};
use crate::fault::{LineFault, ReadFault};
use crate::joined::JoinedReader;
use crate::statement::{is_close, is_define, opened, statement};
use crate::text::LineText;
use crate::words::Words;
pub use due_model::limits::TEXT_LIMIT;
use due_model::sequence::Sequence;
use due_model::short_list::Text;
use std::alloc::{AllocError, Global};

/// The next statement of the lines. Lines that say nothing are skipped.
fn next_statement<'a>(
    alloc: Global,
    lines: &mut JoinedReader<'a>,
) -> Result<Option<LineText<'a>>, ReadFault>
    ensures { MatchResult result
        (λ found. MatchOption found (statements_in lines.old ≡ [])
        (λ s. statements_in lines.old
        ≡ (record { line = s.line; text = Ok (cow_slice_items s.text) }) ∷ statements_in lines.new))
        (λ fault. FailsFirst fault (statements_in lines.old)) }
{
    while let Some(joined) = lines.next(alloc)? {
        let text = statement(alloc, joined.text, joined.plain)?;
        if text.len() > 0 {
            return Ok(Some(LineText {
                line: joined.line,
                text,
            }));
        }
    }
    Ok(None)
}

/// The directive with the first word of a statement as its name.
#[tactic(auto, unfolding(crate::specs::Blocks::name_and_value))]
fn name_and_value(alloc: Global, line: u64, words: &Words<'_>) -> Result<Directive, ReadFault>
    ensures { Gives result (at_line line (name_and_value words.now)) }
{
    let value = words.after();
    if value.is_empty() {
        return Err(ReadFault::AtLine {
            line,
            fault: LineFault::NoValue,
        });
    }
    Ok(Directive {
        name: Text::new(alloc, words.first())?,
        value: Text::new(alloc, value)?,
    })
}

/// The directive that a day line is, whose name is these words.
fn day_line(alloc: Global, text: &[u8], front: &[u8]) -> Result<Directive, AllocError>
    requires { length front.now ≤ length text.now }
    ensures { IfOk result (λ d. d ≡ day_line text.now front.now) }
{
    let name = spaced(alloc, front)?;
    let value = without_blanks(alloc, &text[front.len()..])?;
    Ok(Directive {
        name: Text::new(alloc, name.as_slice())?,
        value: Text::new(alloc, value.as_slice())?,
    })
}

/// Whether blocks of a kind are time periods.
fn is_period(kind: BlockKind) -> bool
    ensures { result ≡ is_period kind }
{
    matches!(kind, BlockKind::TimePeriod)
}

/// The directive that a statement is, in a block of the kind.
#[tactic(auto, unfolding(crate::specs::Blocks::directive_of))]
fn directive(
    alloc: Global,
    kind: BlockKind,
    line: u64,
    words: &Words<'_>,
) -> Result<Directive, ReadFault>
    ensures { Gives result (at_line line (directive_of kind words.now)) }
{
    if is_period(kind) {
        let front = day_front(words);
        if !front.is_empty() {
            return Ok(day_line(alloc, words.all(), front)?);
        }
    }
    name_and_value(alloc, line, words)
}

/// These directives, without room for more: a site has many blocks with few directives.
fn without_room(directives: Vec<Directive>) -> Sequence<Directive>
    ensures { result ≡ directives.items }
{
    let mut fitted = directives;
    fitted.shrink_to_fit();
    Sequence::new(fitted)
}

/// The directives of the block of the kind that the line `define` opened, up to its end.
fn directives(
    alloc: Global,
    kind: BlockKind,
    define: u64,
    lines: &mut JoinedReader<'_>,
) -> Result<Sequence<Directive>, ReadFault>
    ensures ok { IfOk result (λ directives. block_of kind define (statements_in lines.old)
        ≡ before_blocks directives (blocks_of (statements_in lines.new))) }
    ensures fault { IfErr result (λ fault.
        Gives (Err fault) (block_of kind define (statements_in lines.old))) }
    ensures fewer { OnOk result
        (length (statements_in lines.new) ≤ length (statements_in lines.old)) }
{
    let mut directives = Vec::new(alloc);
    while let Some(statement) = next_statement(alloc, lines)? {
        let text = statement.text.as_slice();
        if is_close(text) {
            return Ok(without_room(directives));
        }
        let words = Words::new(text);
        if is_define(&words) {
            break;
        }
        directives.push(directive(alloc, kind, statement.line, &words)?)?;
    }
    Err(ReadFault::AtLine {
        line: define,
        fault: LineFault::Unclosed,
    })
}

/// The blocks of an object text, or its first fault.
fn read_text(alloc: Global, bytes: &[u8]) -> Result<Sequence<Block>, ReadFault>
    ensures { Gives result (read_text bytes.now) }
{
    if bytes.len() > TEXT_LIMIT {
        return Err(ReadFault::TooLarge);
    }
    let mut lines = JoinedReader::new(bytes);
    let mut found = Vec::new(alloc);
    while let Some(statement) = next_statement(alloc, &mut lines)? {
        let line = statement.line;
        let words = Words::new(statement.text.as_slice());
        let kind = match opened(&words) {
            Ok(kind) => kind,
            Err(fault) => return Err(ReadFault::AtLine { line, fault }),
        };
        let directives = directives(alloc, kind, line, &mut lines)?;
        found.push(Block {
            kind,
            line,
            directives,
        })?;
    }
    Ok(Sequence::new(found))
}

/// The blocks of an object text, in its order (chapter "Object Configuration Overview").
///
/// The text has at most 16,777,216 bytes, newlines counted, and its lines have at most 4,096 bytes
/// each without their newline, before they are joined. Blocks of all types are read alike, but for
/// the day lines of a time period.
///
/// It reads each byte a fixed number of times, and takes memory in proportion to the text. A refusal
/// gives nothing beside the fault, which is the first in the text, and `NoMemory` says nothing of
/// the text.
pub fn read(alloc: Global, bytes: &[u8]) -> Result<Sequence<Block>, ReadFault>
    // What is read is the text's blocks.
    ensures blocks { IfOk result (λ blocks. IsObjectText bytes.now blocks) }
    // Names and values are UTF-8, and names aren't empty.
    ensures texts { IfOk result (λ blocks. ArePlain blocks) }
    // A text of blocks is read, unless memory runs out.
    ensures only { (blocks : List Block)
        → IsObjectText bytes.now blocks → Gives result (Ok blocks) }
    // What is refused has this fault as its first.
    ensures fault { IfErr result (λ fault. (fault ≡ NoMemory) ⊎ IsRefused bytes.now fault) }
    // A text with a first fault is refused with it, unless memory runs out.
    ensures refused { (fault : ReadFault) → IsRefused bytes.now fault → Gives result (Err fault) }
    // By the definition that reads from the front to the end.
    ensures exact { Gives result (read_text bytes.now) }
{
    read_text(alloc, bytes)
}
