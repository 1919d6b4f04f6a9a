//! What the joined lines of object text say (chapter "Object Configuration Overview").

ghost use Rattle.std.specs.Prelude.{◌≡◌, ◌&&◌, ◌==◌, true, IfOk};
ghost use Rattle.std.specs.Cow.{cow_slice_items};
ghost use Rattle.std.specs.List.{position};
ghost use Rattle.std.specs.Str.{bytes_eq};
ghost use Rattle.object_reader.specs.claims.Blanks.{is_blank};
ghost use Rattle.object_reader.specs.Lines.{HasNoSemicolon};
ghost use Rattle.object_reader.specs.Statements.{starts_comment, starts_semicolon, bare_from, unescaped};
ghost use Rattle.object_reader.specs.claims.Statements.{is_define, is_close, kind_of, ends_type};
ghost use Rattle.object_reader.specs.Statements.{statement};
ghost use Rattle.object_reader.specs.Statements.{opened};

use crate::blanks::{is_blank, trim, trim_end, trim_start};
use crate::block::BlockKind;
use crate::fault::LineFault;
use crate::words::Words;
use std::alloc::{AllocError, Global};
use std::borrow::CowSlice;

/// Whether the bytes are those of the word.
pub(crate) fn is_word(bytes: &[u8], word: &str) -> bool
    ensures { result ≡ bytes_eq bytes.now word.now }
{
    bytes == word.as_bytes()
}

/// The place of the first byte that ends a type.
fn type_end(bytes: &[u8]) -> Option<usize>
    ensures { result ≡ position ends_type bytes.now }
{
    bytes.iter().position(|b| is_blank(*b) || *b == b'{')
}

/// Whether the first byte is `#` or `;`.
fn starts_comment(bytes: &[u8]) -> bool
    ensures { result ≡ starts_comment bytes.now }
{
    match bytes {
        [] => false,
        [first, ..] => *first == b'#' || *first == b';',
    }
}

/// The bytes before the first `;` that has no backslash before it.
fn before_comment(bytes: &[u8]) -> &[u8]
    ensures { result.now ≡ bare_from 0 bytes.now }
{
    let mut last = 0;
    for (i, byte) in bytes.iter().enumerate() {
        if *byte == b';' && last != b'\\' {
            return &bytes[..i];
        }
        last = *byte;
    }
    bytes
}

/// What a joined line says, without its comment and the blanks at both ends, and its escapes as
/// written.
#[tactic(auto, unfolding(crate::specs::Statements::statement, crate::specs::Statements::unescaped))]
fn core(bytes: &[u8]) -> &[u8]
    ensures { statement bytes.now ≡ unescaped result.now }
{
    if starts_comment(trim_start(bytes)) {
        return &bytes[..0];
    }
    trim(before_comment(bytes))
}

/// Whether the first byte is `;`.
fn starts_semicolon(bytes: &[u8]) -> bool
    ensures { result ≡ starts_semicolon bytes.now }
{
    match bytes {
        [] => false,
        [first, ..] => *first == b';',
    }
}

/// Whether a byte is a backslash before a `;`.
fn is_escape(byte: u8, rest: &[u8]) -> bool
    ensures { result ≡ ((byte == 92) && starts_semicolon rest.now) }
{
    byte == b'\\' && starts_semicolon(rest)
}

/// The bytes with `;` for each `\;`.
fn unescape(alloc: Global, bytes: &[u8]) -> Result<Vec<u8>, AllocError>
    ensures { IfOk result (λ meant. meant.items ≡ unescaped bytes.now) }
{
    let mut meant = Vec::with_capacity(alloc, bytes.len())?;
    let mut left = bytes;
    while let [byte, rest @ ..] = left {
        if !is_escape(*byte, rest) {
            meant.push(*byte)?;
        }
        left = rest;
    }
    Ok(meant)
}

/// What a joined line without a `;` says: it has no comment but a `#` at its start, and no escape.
#[tactic(auto, unfolding(crate::specs::Statements::statement), using(crate::proofs::Escapes::plain_meant))]
fn plain(bytes: &[u8]) -> &[u8]
    requires { HasNoSemicolon bytes.now }
    ensures { result.now ≡ statement bytes.now }
{
    let start = trim_start(bytes);
    if starts_comment(start) {
        return &start[..0];
    }
    trim_end(start)
}

/// What a joined line says. It is a part of the line where that is a part of the text and was seen to
/// have no `;`, as most lines are.
pub(crate) fn statement<'a>(
    alloc: Global,
    line: CowSlice<'a, u8>,
    seen_plain: bool,
) -> Result<CowSlice<'a, u8>, AllocError>
    requires { seen_plain ≡ true → HasNoSemicolon (cow_slice_items line) }
    ensures { IfOk result (λ said. cow_slice_items said ≡ statement (cow_slice_items line.entry)) }
{
    match line {
        CowSlice::Borrowed(bytes) => {
            if seen_plain {
                Ok(CowSlice::Borrowed(plain(bytes)))
            } else {
                Ok(CowSlice::Owned(unescape(alloc, core(bytes))?))
            }
        }
        CowSlice::Owned(bytes) => Ok(CowSlice::Owned(unescape(alloc, core(bytes.as_slice()))?)),
    }
}

/// Whether a statement closes a block.
pub(crate) fn is_close(statement: &[u8]) -> bool
    ensures { result ≡ is_close statement.now }
{
    is_word(statement, "}")
}

/// Whether a statement begins as the opening of a block does.
pub(crate) fn is_define(words: &Words<'_>) -> bool
    ensures { result ≡ is_define words.now }
{
    is_word(words.first(), "define")
}

/// The kind of block that a type means.
#[tactic(auto, unfolding(crate::specs::claims::Statements::kind_of))]
fn kind_of(name: &[u8]) -> Result<BlockKind, LineFault>
    ensures { result ≡ kind_of name.now }
{
    if is_word(name, "host") {
        Ok(BlockKind::Host)
    } else if is_word(name, "hostgroup") {
        Ok(BlockKind::HostGroup)
    } else if is_word(name, "service") {
        Ok(BlockKind::Service)
    } else if is_word(name, "servicegroup") {
        Ok(BlockKind::ServiceGroup)
    } else if is_word(name, "contact") {
        Ok(BlockKind::Contact)
    } else if is_word(name, "contactgroup") {
        Ok(BlockKind::ContactGroup)
    } else if is_word(name, "timeperiod") {
        Ok(BlockKind::TimePeriod)
    } else if is_word(name, "command") {
        Ok(BlockKind::Command)
    } else if is_word(name, "hostescalation") {
        Ok(BlockKind::HostEscalation)
    } else if is_word(name, "serviceescalation") {
        Ok(BlockKind::ServiceEscalation)
    } else if is_word(name, "hostdependency") {
        Ok(BlockKind::HostDependency)
    } else if is_word(name, "servicedependency") {
        Ok(BlockKind::ServiceDependency)
    } else if is_word(name, "hostextinfo") {
        Ok(BlockKind::HostExtInfo)
    } else if is_word(name, "serviceextinfo") {
        Ok(BlockKind::ServiceExtInfo)
    } else {
        Err(LineFault::UnknownType)
    }
}

/// The kind of block that a statement opens.
#[tactic(auto, unfolding(crate::specs::Statements::opened))]
pub(crate) fn opened(words: &Words<'_>) -> Result<BlockKind, LineFault>
    ensures { result ≡ opened words.now }
{
    let rest = words.after();
    let end = type_end(rest).unwrap_or(rest.len());
    if is_define(words) && end > 0 && is_word(trim_start(&rest[end..]), "{") {
        kind_of(&rest[..end])
    } else {
        Err(LineFault::NotADefine)
    }
}
