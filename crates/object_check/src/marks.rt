//! The blocks that have the fault of a row, row by row.

ghost use Rattle.std.specs.Prelude.{◌≡◌, ℕ, ◌<◌, ◌&&◌, ◌==◌, ◌++◌, ◌∷◌, [], List, false, length, map, true};
ghost use Rattle.std.specs.Prelude.{slice_index_or, IfOk, OnOk};
ghost use Rattle.object_check.specs.Answered.{AreAnswered, AreAnsweredNames};
ghost use Rattle.object_check.specs.Marks.{AreColumns, AreFound, IsColumn, breaks, breaks_row};
ghost use Rattle.object_check.specs.Marks.{is_of_lines, is_of_value, name_misfits, value_misfits};
ghost use Rattle.object_check.specs.Misfits.{misfits_in};
ghost use Rattle.object_check.specs.Rows.{said_by};
ghost use Rattle.object_check.specs.declared.rows.Must.TheVariants as musts;
ghost use Rattle.object_faults.specs.claims.Faults.{is_registered, lacks};
ghost use Rattle.object_inheritance.specs.LineSearch.{AreMarks};
ghost use Rattle.object_inheritance.specs.claims.Templates.{kind_number};
ghost use Rattle.object_reader.specs.declared.block.BlockKind.{BlockKind};

use crate::asked::is_unfit_once;
use crate::dates::has_unfit_line;
use crate::misfits::{Misfit, is_marked, misfits_in};
use crate::needs::Needs;
use crate::rows::{Must, Row, name_rows, value_rows};
use object_faults::needs::Side;
use object_inheritance::dated_lines::{LineMarks, line_marks};
use object_inheritance::inherited::Values;
use object_inheritance::kinds::{kind_number, means_nothing};
use object_inheritance::registered::registers;
use object_inheritance::templates::Templates;
use object_names::named::NamedObjects;
use object_reader::block::{Block, BlockKind};
use object_values::values::value_in;
use std::alloc::{AllocError, Global};

/// Whether a block is an object: its type means something, and it isn't a template alone.
fn is_registered(block: &Block) -> bool
    ensures { result ≡ is_registered block.now }
{
    !means_nothing(block.kind)
        && registers(value_in(block.directives.as_slice(), "register".as_bytes()))
}

/// Of each block whether it is an object.
fn registered_blocks(alloc: Global, blocks: &[Block]) -> Result<Vec<bool>, AllocError>
    ensures { IfOk result (λ registered. registered.items ≡ map is_registered blocks.now) }
{
    let mut registered = Vec::with_capacity(alloc, blocks.len())?;
    for block in blocks {
        registered.push(is_registered(block))?;
    }
    Ok(registered)
}

/// Whether the block, which stands at the place, is an object of the type.
fn is_asked(registered: &[bool], kind: BlockKind, block: &Block, place: usize) -> bool
    ensures { result ≡ (kind_number block.now.kind == kind_number kind
        && slice_index_or registered.now place false) }
{
    kind_number(block.kind) == kind_number(kind) && is_marked(registered, place)
}

/// Whether the block at the place is asked, and what it has for the directive of the values isn't what it must be.
fn is_unfit_if_asked<'a>(
    alloc: Global,
    values: &Values<'a>,
    objects: &NamedObjects<'a>,
    must: Must,
    found: &mut Vec<Option<bool>>,
    asked: bool,
    place: usize,
) -> Result<bool, AllocError>
    requires of_value { is_of_value must ≡ true }
    requires objects { objects.now ≡ values.now.blocks }
    requires found { AreFound must values.now found.old.items }
    ensures found { OnOk result (AreFound must values.now found.new.items) }
    ensures unfit { IfOk result (λ unfit. (kind : BlockKind)
        → unfit ≡ (asked && breaks values.now.blocks place kind must values.now.directive)) }
{
    if asked {
        is_unfit_once(alloc, values, objects, must, found, place)
    } else {
        Ok(false)
    }
}

/// The blocks of the type of which what they have for the directive isn't what it must be.
fn column_of_value<'a>(
    alloc: Global,
    templates: &Templates<'a>,
    objects: &NamedObjects<'a>,
    registered: &[bool],
    kind: BlockKind,
    must: Must,
    directive: &'static str,
) -> Result<Vec<bool>, AllocError>
    requires of_value { is_of_value must ≡ true }
    requires objects { objects.now ≡ templates.now }
    requires registered { registered.now ≡ map is_registered templates.now }
    ensures { IfOk result (λ column. IsColumn templates.now
        (record { kind = kind; must = must; directive = directive.now }) column.items) }
{
    let values = Values::new(alloc, templates, directive.as_bytes())?;
    let blocks = templates.blocks();
    let mut found = vec![in alloc; None; blocks.len()]?;
    let mut column = Vec::with_capacity(alloc, blocks.len())?;
    for (place, block) in blocks.iter().enumerate() {
        let asked = is_asked(registered, kind, block, place);
        let unfit = is_unfit_if_asked(alloc, &values, objects, must, &mut found, asked, place)?;
        column.push(unfit)?;
    }
    Ok(column)
}

/// Whether the block at the place is asked, and lacks what it must list on the side of the needs.
fn lacks_if_asked(needs: &Needs<'_>, kind: BlockKind, asked: bool, place: usize) -> bool
    ensures { result ≡ (asked && lacks needs.now.blocks place kind needs.now.side) }
{
    asked && needs.lacks(kind, place)
}

/// The blocks of the type that lack what they must list on the side.
fn column_of_side<'a>(
    alloc: Global,
    templates: &Templates<'a>,
    registered: &[bool],
    kind: BlockKind,
    side: Side,
) -> Result<Vec<bool>, AllocError>
    requires registered { registered.now ≡ map is_registered templates.now }
    ensures { IfOk result (λ column. (directive : List ℕ) → IsColumn templates.now
        (record { kind = kind; must = musts.List side; directive = directive }) column.items) }
{
    let needs = Needs::new(alloc, templates, side)?;
    let blocks = templates.blocks();
    let mut column = Vec::with_capacity(alloc, blocks.len())?;
    for (place, block) in blocks.iter().enumerate() {
        let asked = is_asked(registered, kind, block, place);
        let lacks = lacks_if_asked(&needs, kind, asked, place);
        column.push(lacks)?;
    }
    Ok(column)
}

/// Whether the block at the place is asked, and has a line of dates that isn't what it must be.
fn has_unfit_line_if_asked(
    alloc: Global,
    templates: &Templates<'_>,
    marks: &mut LineMarks,
    must: Must,
    asked: bool,
    place: usize,
) -> Result<bool, AllocError>
    requires of_lines { is_of_lines must ≡ true }
    requires within { place < length templates.now }
    requires marks { AreMarks templates.now marks.old }
    ensures marks { OnOk result (AreMarks templates.now marks.new) }
    ensures unfit { IfOk result (λ unfit. (kind : BlockKind) (directive : List ℕ)
        → unfit ≡ (asked && breaks templates.now place kind must directive)) }
{
    if asked {
        has_unfit_line(alloc, templates, marks, must, place)
    } else {
        Ok(false)
    }
}

/// The blocks of the type with a line of dates that isn't what it must be.
fn column_of_lines<'a>(
    alloc: Global,
    templates: &Templates<'a>,
    registered: &[bool],
    kind: BlockKind,
    must: Must,
) -> Result<Vec<bool>, AllocError>
    requires of_lines { is_of_lines must ≡ true }
    requires registered { registered.now ≡ map is_registered templates.now }
    ensures { IfOk result (λ column. (directive : List ℕ) → IsColumn templates.now
        (record { kind = kind; must = must; directive = directive }) column.items) }
{
    let mut marks = line_marks(alloc, templates)?;
    let blocks = templates.blocks();
    let mut column = Vec::with_capacity(alloc, blocks.len())?;
    for (place, block) in blocks.iter().enumerate() {
        let asked = is_asked(registered, kind, block, place);
        let unfit = has_unfit_line_if_asked(alloc, templates, &mut marks, must, asked, place)?;
        column.push(unfit)?;
    }
    Ok(column)
}

/// The blocks that have the fault of the row.
fn column_of<'a>(
    alloc: Global,
    templates: &Templates<'a>,
    objects: &NamedObjects<'a>,
    registered: &[bool],
    row: Row,
) -> Result<Vec<bool>, AllocError>
    requires objects { objects.now ≡ templates.now }
    requires registered { registered.now ≡ map is_registered templates.now }
    ensures { IfOk result (λ column. IsColumn templates.now (said_by row.entry) column.items) }
{
    let (kind, must, directive) = row;
    match must {
        Must::Be(_) | Must::Name(_, _) => column_of_value(
            alloc, templates, objects, registered, kind, must, directive,
        ),
        Must::List(side) => column_of_side(alloc, templates, registered, kind, side),
        Must::HaveWholeLines | Must::HaveDayLines => {
            column_of_lines(alloc, templates, registered, kind, must)
        }
    }
}

/// The column without its marks, where it has none. It takes no memory then.
fn without_none(alloc: Global, column: Vec<bool>) -> Vec<bool>
    ensures { (place : ℕ) → slice_index_or result.items place false
        ≡ slice_index_or column.items place false }
{
    if column.as_slice().iter().any(|mark| *mark) {
        column
    } else {
        Vec::new(alloc)
    }
}

/// The columns of the rows.
fn columns_of<'a>(
    alloc: Global,
    templates: &Templates<'a>,
    objects: &NamedObjects<'a>,
    rows: &[Row],
) -> Result<Vec<Vec<bool>>, AllocError>
    requires { objects.now ≡ templates.now }
    ensures { IfOk result (λ columns. AreColumns templates.now (map said_by rows.now)
        (map (λ column. column.items) columns.items)) }
{
    let marks = registered_blocks(alloc, templates.blocks())?;
    let registered = marks.as_slice();
    let mut columns = Vec::with_capacity(alloc, rows.len())?;
    for row in rows {
        let column = column_of(alloc, templates, objects, registered, *row)?;
        columns.push(without_none(alloc, column))?;
    }
    Ok(columns)
}

/// The faults that blocks have by the rows: in file order, and of each block in the order of the rows.
fn misfits_by<'a>(
    alloc: Global,
    templates: &Templates<'a>,
    objects: &NamedObjects<'a>,
    rows: &[Row],
) -> Result<Vec<Misfit>, AllocError>
    requires { objects.now ≡ templates.now }
    ensures { IfOk result (λ found. found.items ≡ misfits_in (breaks_row templates.now (map said_by rows.now))
        (length rows.now) (length templates.now)) }
{
    let columns = columns_of(alloc, templates, objects, rows)?;
    misfits_in(alloc, columns.as_slice(), templates.blocks().len())
}

/// All faults of the values of registered blocks: in file order, and of each block in the order of the rows of
/// `value_rows`. `objects` are those of the same blocks. There are none exactly where the pass of values is free, and the
/// first is the one that it answers. The time grows with the rows and the blocks, and with the entries of lists, where one
/// that many blocks take from a template counts once; the memory with the blocks and their faults: 24 bytes a block, and
/// as many for each row that some block breaks. A refused growth leaves nothing.
pub fn value_misfits<'a>(
    alloc: Global,
    templates: &Templates<'a>,
    objects: &NamedObjects<'a>,
) -> Result<Vec<Misfit>, AllocError>
    requires { objects.now ≡ templates.now }
    ensures all { IfOk result (λ found. found.items ≡ value_misfits templates.now) }
    ensures answered { IfOk result (λ found. AreAnswered templates.now found.items) }
{
    misfits_by(alloc, templates, objects, value_rows())
}

/// All directives of registered blocks by which they name something that isn't there, block by block in file order, and of
/// each block in the order of the rows of `name_rows`. The members of service groups and the descriptions of services aren't
/// looked at here. As `value_misfits`.
pub fn name_misfits<'a>(
    alloc: Global,
    templates: &Templates<'a>,
    objects: &NamedObjects<'a>,
) -> Result<Vec<Misfit>, AllocError>
    requires { objects.now ≡ templates.now }
    ensures all { IfOk result (λ found. found.items ≡ name_misfits templates.now) }
    ensures answered { IfOk result (λ found. AreAnsweredNames templates.now found.items) }
{
    misfits_by(alloc, templates, objects, name_rows())
}
