//! Objects and templates that nothing names (chapters "Object Definitions" and "Object Inheritance").

ghost use Rattle.std.specs.Prelude.{◌≡◌, ◌++◌, ◌∷◌, [], codes, flat_map, length, map, slice_index_or};
ghost use Rattle.std.specs.Prelude.{IfOk, OnOk, if◌then◌else◌};
ghost use Rattle.std.specs.Option.{option_copied};
ghost use Rattle.object_check.specs.Rows.{said_by};
ghost use Rattle.object_groups.specs.claims.Objects.{objects_in};
ghost use Rattle.object_inheritance.specs.claims.Inherited.{is_additive, name_of, own_entries};
ghost use Rattle.object_names.specs.claims.Named.{block_kind};
ghost use Rattle.object_reader.specs.declared.block.Block.{Block};
ghost use Rattle.object_values.specs.claims.Values.{command_name};
ghost use Rattle.object_values.specs.Values.{texts};
ghost use Rattle.object_warnings.specs.Numbers.{numbers_where};
ghost use Rattle.object_warnings.specs.Unused.{has_unused_name, is_kind, is_named, is_template};
ghost use Rattle.object_warnings.specs.Unused.{is_unused, is_unused_at, is_unused_template, joins};
ghost use Rattle.object_warnings.specs.Unused.{named_by, named_in, named_of, names_by, names_given};
ghost use Rattle.object_warnings.specs.Unused.{names_kind, names_read, reads_all, used_in, used_of};

use crate::numbers::push_where;
use object_check::rows::{Must, Row, name_rows};
use object_groups::names::Names;
use object_groups::objects::Objects;
use object_inheritance::inherited::{Values, values_of};
use object_inheritance::kinds::kind_number;
use object_inheritance::registered::registers;
use object_inheritance::templates::Templates;
use object_names::named::NamedKind;
use object_names::references::Reading;
use object_reader::block::{Block, BlockKind};
use object_values::values::{command_name, entries, entries_in, equals, value_in};
use std::alloc::{AllocError, Global};

/// Whether a list is added to what is inherited: it begins with `+`.
fn is_additive(text: &[u8]) -> bool
    ensures { result ≡ is_additive text.now }
{
    match text {
        [] => false,
        [first, ..] => *first == b'+',
    }
}

/// A name; `null` is given and empty.
fn name_of(text: &[u8]) -> &[u8]
    ensures { result.now ≡ name_of text.now }
{
    if equals(text, "null") {
        &text[..0]
    } else {
        text
    }
}

/// The entries that a list has itself.
fn own_entries<'a>(alloc: Global, text: &'a [u8]) -> Result<Vec<&'a [u8]>, AllocError>
    ensures { IfOk result (λ list. texts list.items ≡ own_entries text.now) }
{
    if is_additive(text) {
        entries(alloc, &text[1..])
    } else {
        entries(alloc, name_of(text))
    }
}

/// The commands that entries name.
fn commands_of<'a>(alloc: Global, list: &[&'a [u8]]) -> Result<Vec<&'a [u8]>, AllocError>
    ensures { IfOk result (λ names. texts names.items ≡ map command_name (texts list.now)) }
{
    let mut names = Vec::with_capacity(alloc, list.len())?;
    for entry in list {
        names.push(command_name(*entry))?;
    }
    Ok(names)
}

/// The names that a value has.
fn names_read<'a>(
    alloc: Global,
    reading: Reading,
    text: &'a [u8],
) -> Result<Vec<&'a [u8]>, AllocError>
    ensures { IfOk result (λ names. texts names.items ≡ names_read reading text.now) }
{
    match reading {
        Reading::NamesOrAll => own_entries(alloc, text),
        Reading::Names => own_entries(alloc, text),
        Reading::Period => Vec::from_slice(alloc, &[name_of(text)]),
        Reading::Commands => {
            let list = own_entries(alloc, text)?;
            commands_of(alloc, list.as_slice())
        }
    }
}

/// Those that a value has, if one is given.
fn names_given<'a>(
    alloc: Global,
    reading: Reading,
    given: Option<&'a [u8]>,
) -> Result<Vec<&'a [u8]>, AllocError>
    ensures { IfOk result (λ names. texts names.items ≡ names_given reading (option_copied given.entry)) }
{
    match given {
        None => Ok(Vec::new(alloc)),
        Some(text) => names_read(alloc, reading, text),
    }
}

/// Whether two types of object are one.
fn is_kind(kind: NamedKind, other: NamedKind) -> bool
    ensures { result ≡ is_kind kind other }
{
    kind_number(kind.block_kind()) == kind_number(other.block_kind())
}

/// Those of objects of the type, where a directive must name any.
fn names_by<'a>(
    alloc: Global,
    kind: NamedKind,
    must: Must,
    given: Option<&'a [u8]>,
) -> Result<Vec<&'a [u8]>, AllocError>
    ensures { IfOk result (λ names. texts names.items ≡ names_by kind must (option_copied given.entry)) }
{
    match must {
        Must::Name(named, reading) => {
            if is_kind(named, kind) {
                names_given(alloc, reading, given)
            } else {
                Ok(Vec::new(alloc))
            }
        }
        Must::Be(_) => Ok(Vec::new(alloc)),
        Must::List(_) => Ok(Vec::new(alloc)),
        Must::HaveWholeLines => Ok(Vec::new(alloc)),
        Must::HaveDayLines => Ok(Vec::new(alloc)),
    }
}

/// Those that a block has by the directive of a row.
fn named_by<'a>(
    alloc: Global,
    kind: NamedKind,
    block: &'a Block,
    row: Row,
) -> Result<Vec<&'a [u8]>, AllocError>
    ensures { IfOk result (λ names. texts names.items ≡ named_by kind block.now (said_by row.entry)) }
{
    let (of, must, directive) = row;
    if kind_number(block.kind) == kind_number(of) {
        let given = value_in(block.directives.as_slice(), directive.as_bytes());
        names_by(alloc, kind, must, given)
    } else {
        Ok(Vec::new(alloc))
    }
}

/// Adds those that a block has by the directives of rows.
fn push_named<'a>(
    alloc: Global,
    names: &mut Vec<&'a [u8]>,
    kind: NamedKind,
    block: &'a Block,
    rows: &[Row],
) -> Result<(), AllocError>
    ensures { OnOk result (texts names.new.items
        ≡ texts names.old.items ++ flat_map (named_by kind block.now) (map said_by rows.now)) }
{
    for row in rows {
        let more = named_by(alloc, kind, block, *row)?;
        names.extend_from_slice(more.as_slice())?;
    }
    Ok(())
}

/// Whether a directive that must be so names objects of the type.
fn names_kind(kind: NamedKind, must: Must) -> bool
    ensures { result ≡ names_kind kind must }
{
    match must {
        Must::Name(named, _) => is_kind(named, kind),
        Must::Be(_) => false,
        Must::List(_) => false,
        Must::HaveWholeLines => false,
        Must::HaveDayLines => false,
    }
}

/// Adds a row, where it is asked for.
fn push_row(rows: &mut Vec<Row>, row: Row, asked: bool) -> Result<(), AllocError>
    ensures { OnOk result (map said_by rows.new.items ≡ map said_by rows.old.items
        ++ (if asked then said_by row.entry ∷ [] else [])) }
{
    if asked {
        rows.push(row)?;
        return Ok(());
    }
    Ok(())
}

/// Whether the directive of a row names objects of the type.
fn is_row_of(kind: NamedKind, row: Row) -> bool
    ensures { result ≡ names_kind kind (said_by row.entry).must }
{
    let (_, must, _) = row;
    names_kind(kind, must)
}

/// The rows whose directives name objects of the type: no block has a name of one by any other.
fn rows_of(alloc: Global, kind: NamedKind, all: &[Row]) -> Result<Vec<Row>, AllocError>
    ensures { IfOk result (λ rows. (block : Block) → flat_map (named_by kind block) (map said_by rows.items)
        ≡ flat_map (named_by kind block) (map said_by all.now)) }
{
    let mut rows = Vec::new(alloc);
    for row in all {
        let asked = is_row_of(kind, *row);
        push_row(&mut rows, *row, asked)?;
    }
    Ok(rows)
}

/// What the blocks name of the type by these rows.
fn named_by_rows<'a>(
    alloc: Global,
    blocks: &'a [Block],
    kind: NamedKind,
    rows: &[Row],
) -> Result<Names<'a>, AllocError>
    requires { (block : Block) → flat_map (named_by kind block) (map said_by rows.now) ≡ named_in kind block }
    ensures { IfOk result (λ names. names ≡ named_of blocks.now kind) }
{
    let mut names = Vec::new(alloc);
    for block in blocks {
        push_named(alloc, &mut names, kind, block, rows)?;
    }
    Names::new(alloc, names)
}

/// What the blocks name of the type.
fn named_of<'a>(
    alloc: Global,
    blocks: &'a [Block],
    kind: NamedKind,
) -> Result<Names<'a>, AllocError>
    ensures { IfOk result (λ names. names ≡ named_of blocks.now kind) }
{
    let rows = rows_of(alloc, kind, name_rows())?;
    let names = named_by_rows(alloc, blocks, kind, rows.as_slice())?;
    Ok(names)
}

/// Whether `*` is all objects of the type.
fn reads_all(kind: NamedKind) -> bool
    ensures { result ≡ reads_all kind }
{
    match kind {
        NamedKind::Host => true,
        NamedKind::HostGroup => true,
        NamedKind::Contact => true,
        NamedKind::ContactGroup => true,
        NamedKind::ServiceGroup => false,
        NamedKind::TimePeriod => false,
        NamedKind::Command => false,
    }
}

/// Whether objects of the type are put into groups by themselves.
fn joins(kind: NamedKind) -> bool
    ensures { result ≡ joins kind }
{
    match kind {
        NamedKind::Contact => true,
        NamedKind::Host => false,
        NamedKind::HostGroup => false,
        NamedKind::ServiceGroup => false,
        NamedKind::ContactGroup => false,
        NamedKind::TimePeriod => false,
        NamedKind::Command => false,
    }
}

/// Whether the name is among those that are named.
fn is_named<'a>(kind: NamedKind, named: &Names<'a>, name: &'a [u8]) -> bool
    ensures { result ≡ is_named kind named.now name.now }
{
    let all: &'a [u8] = "*".as_bytes();
    !named.lacks(name) || (reads_all(kind) && !named.lacks(all))
}

/// Whether nothing names an object, of the name, whose block stands at the place. The values are those of `contactgroups`.
fn is_unused<'a>(
    values: &Values<'a>,
    named: &Names<'a>,
    kind: NamedKind,
    place: usize,
    name: &'a [u8],
) -> bool
    requires directive { values.now.directive ≡ codes "contactgroups" }
    requires named { named.now ≡ named_of values.now.blocks kind }
    ensures { result ≡ is_unused values.now.blocks kind place name.now }
{
    !is_named(kind, named, name) && !(joins(kind) && values.has_entries(place))
}

/// The place of that number; 0 where there are fewer.
fn place_at(places: &[usize], number: usize) -> usize
    ensures { result ≡ slice_index_or places.now number 0 }
{
    if number < places.len() {
        places[number]
    } else {
        0
    }
}

/// The numbers of the objects of the type that nothing names (Unused): no block has their name where it names objects of the
/// type, itself or as a template for others, and no contact is put into a group by its `contactgroups`. A refused growth
/// leaves nothing.
pub fn unused<'a>(
    alloc: Global,
    templates: &Templates<'a>,
    kind: NamedKind,
) -> Result<Vec<usize>, AllocError>
    ensures { IfOk result (λ found. found.items ≡ numbers_where (is_unused_at templates.now kind)
        (length (objects_in templates.now (block_kind kind)))) }
{
    let values = values_of(alloc, templates, "contactgroups")?;
    let named = named_of(alloc, templates.blocks(), kind)?;
    let objects = Objects::new(alloc, templates, kind.block_kind())?;
    let places = objects.places();
    let mut found = Vec::new(alloc);
    for number in 0..places.len() {
        let place = place_at(places, number);
        let name = objects.names().name(number);
        push_where(
            &mut found,
            number,
            is_unused(&values, &named, kind, place, name),
        )?;
    }
    Ok(found)
}

/// The templates that a block uses, if it is of the type.
fn used_in<'a>(
    alloc: Global,
    kind: BlockKind,
    block: &'a Block,
) -> Result<Vec<&'a [u8]>, AllocError>
    ensures { IfOk result (λ names. texts names.items ≡ used_in kind block.now) }
{
    if kind_number(block.kind) == kind_number(kind) {
        entries_in(alloc, block.directives.as_slice(), "use")
    } else {
        Ok(Vec::new(alloc))
    }
}

/// The templates that the blocks of the type use.
fn used_of<'a>(alloc: Global, blocks: &'a [Block], kind: BlockKind) -> Result<Names<'a>, AllocError>
    ensures { IfOk result (λ names. names ≡ used_of blocks.now kind) }
{
    let mut names = Vec::new(alloc);
    for block in blocks {
        let more = used_in(alloc, kind, block)?;
        names.extend_from_slice(more.as_slice())?;
    }
    Names::new(alloc, names)
}

/// Whether a block is a template alone: it isn't registered.
fn is_template(kind: BlockKind, block: &Block) -> bool
    ensures { result ≡ is_template kind block.now }
{
    kind_number(block.kind) == kind_number(kind)
        && !registers(value_in(block.directives.as_slice(), "register".as_bytes()))
}

/// Whether a block has a name that none of these is.
fn has_unused_name<'a>(used: &Names<'a>, block: &'a Block) -> bool
    ensures { result ≡ has_unused_name used.now block.now }
{
    match value_in(block.directives.as_slice(), "name".as_bytes()) {
        None => false,
        Some(name) => used.lacks(name),
    }
}

/// Whether the block at the place is a template of the type that nothing names. `used` are those that the blocks use.
fn is_unused_template<'a>(
    used: &Names<'a>,
    blocks: &'a [Block],
    kind: BlockKind,
    place: usize,
) -> bool
    requires { used.now ≡ used_of blocks.now kind }
    ensures { result ≡ is_unused_template blocks.now kind place }
{
    match blocks.get(place) {
        None => false,
        Some(block) => is_template(kind, block) && has_unused_name(used, block),
    }
}

/// The places of the templates of the type that nothing names (Unused): of those that aren't registered as objects too. A
/// refused growth leaves nothing.
pub fn unused_templates(
    alloc: Global,
    blocks: &[Block],
    kind: BlockKind,
) -> Result<Vec<usize>, AllocError>
    ensures { IfOk result (λ found. found.items
        ≡ numbers_where (is_unused_template blocks.now kind) (length blocks.now)) }
{
    let used = used_of(alloc, blocks, kind)?;
    let mut found = Vec::new(alloc);
    for place in 0..blocks.len() {
        push_where(
            &mut found,
            place,
            is_unused_template(&used, blocks, kind, place),
        )?;
    }
    Ok(found)
}
