//! Blocks as Nagios reads them.

ghost use Rattle.std.specs.Prelude.{◌≡◌, ◌++◌, ◌∷◌, [], IfOk, OnOk};
ghost use Rattle.nagios_text.specs.claims.Blocks.{emptied, is_volatile, looked_at, made, plain_block, plain_blocks};
ghost use Rattle.nagios_text.specs.claims.Blocks.{plain_directive, said, value_said, volatile_said};

use crate::lone::MARK;
use crate::names::{is_word, plain_name};
use crate::values::{day_value, is_day, is_naming, takes_none};
use due_model::sequence::Sequence;
use due_model::short_list::Text;
use object_reader::block::{Block, BlockKind, Directive};
use object_values::values::number_in;
use std::alloc::{AllocError, Global};

/// Adds a directive.
fn push(
    alloc: Global,
    directives: &mut Vec<Directive>,
    name: &[u8],
    value: &[u8],
) -> Result<(), AllocError>
    ensures { OnOk result
        (directives.new.items ≡ directives.old.items ++ made name.now value.now ∷ []) }
{
    let name = Text::new(alloc, name)?;
    let value = Text::new(alloc, value)?;
    directives.push(Directive { name, value })?;
    Ok(())
}

/// Adds what a directive without a value means: of a list or a period nothing; one that names isn't there.
fn push_emptied(
    alloc: Global,
    directives: &mut Vec<Directive>,
    kind: BlockKind,
    name: &[u8],
) -> Result<(), AllocError>
    ensures { OnOk result
        (directives.new.items ≡ directives.old.items ++ emptied kind name.now) }
{
    if is_naming(kind, name) {
        Ok(())
    } else if takes_none(name) {
        push(alloc, directives, name, b"null")
    } else {
        push(alloc, directives, name, MARK)
    }
}

/// Whether the directive says that a service is volatile.
fn is_volatile(kind: BlockKind, name: &[u8]) -> bool
    ensures { result ≡ is_volatile kind name.now }
{
    matches!(kind, BlockKind::Service) && is_word(name, "is_volatile")
}

/// The value that is looked at for a fault: a number has none.
fn looked_at(value: &[u8]) -> &[u8]
    ensures { result.now ≡ looked_at value.now }
{
    if number_in(value).is_some() {
        "0".as_bytes()
    } else {
        value
    }
}

/// Adds what that means: the number stands by a name that no text has, and what isn't one is looked at as ever.
fn push_volatile(
    alloc: Global,
    directives: &mut Vec<Directive>,
    value: &[u8],
) -> Result<(), AllocError>
    ensures { OnOk result
        (directives.new.items ≡ directives.old.items ++ volatile_said value.now) }
{
    push(
        alloc,
        directives,
        "is_volatile".as_bytes(),
        looked_at(value),
    )?;
    push(alloc, directives, "is volatile".as_bytes(), value)
}

/// Adds a directive with its value, as it is read here: of a day line without ranges that end before they begin.
fn push_value(
    alloc: Global,
    directives: &mut Vec<Directive>,
    kind: BlockKind,
    name: &[u8],
    value: &[u8],
) -> Result<(), AllocError>
    ensures { OnOk result (directives.new.items
        ≡ directives.old.items ++ made name.now (value_said kind name.now value.now) ∷ []) }
{
    if matches!(kind, BlockKind::TimePeriod) && is_day(name) {
        let ranges = day_value(alloc, value)?;
        push(alloc, directives, name, ranges.as_slice())
    } else {
        push(alloc, directives, name, value)
    }
}

/// Adds what a directive of this name means.
fn push_said(
    alloc: Global,
    directives: &mut Vec<Directive>,
    kind: BlockKind,
    name: &[u8],
    value: &[u8],
) -> Result<(), AllocError>
    ensures { OnOk result
        (directives.new.items ≡ directives.old.items ++ said kind name.now value.now) }
{
    if value == MARK {
        push_emptied(alloc, directives, kind, name)
    } else if is_volatile(kind, name) {
        push_volatile(alloc, directives, value)
    } else {
        push_value(alloc, directives, kind, name, value)
    }
}

/// Adds what a directive means.
fn push_plain(
    alloc: Global,
    directives: &mut Vec<Directive>,
    kind: BlockKind,
    directive: &Directive,
) -> Result<(), AllocError>
    ensures { OnOk result
        (directives.new.items ≡ directives.old.items ++ plain_directive kind directive.now) }
{
    let name = plain_name(kind, directive.name.as_slice());
    push_said(alloc, directives, kind, name, directive.value.as_slice())
}

/// A block with what its directives mean.
fn plain_block(alloc: Global, block: &Block) -> Result<Block, AllocError>
    ensures { IfOk result (λ plain. plain ≡ plain_block block.now) }
{
    let given = block.directives.as_slice();
    let mut directives = Vec::with_capacity(alloc, given.len())?;
    for directive in given {
        push_plain(alloc, &mut directives, block.kind, directive)?;
    }
    Ok(Block {
        kind: block.kind,
        line: block.line,
        directives: Sequence::new(directives),
    })
}

/// The blocks that say here what Nagios reads in these, which were read of marked text: directives by other spellings have their standard names; those without a
/// value are given and empty; a service may be volatile; a range of times that ends before it begins holds nothing. A refused growth leaves nothing.
pub fn plain_blocks(alloc: Global, blocks: &[Block]) -> Result<Sequence<Block>, AllocError>
    ensures { IfOk result (λ plain. plain ≡ plain_blocks blocks.now) }
{
    let mut plain = Vec::with_capacity(alloc, blocks.len())?;
    for block in blocks {
        plain.push(plain_block(alloc, block)?)?;
    }
    Ok(Sequence::new(plain))
}
