//! The objects of one type among blocks, numbered in file order (chapters "Object Definitions" and "Object
//! Inheritance").

ghost use Rattle.std.specs.Prelude.{◌≡◌, ◌<◌, ◌++◌, ◌∷◌, [], length, map, unwrap_or};
ghost use Rattle.std.specs.Prelude.{All, IfOk, OnOk, if◌then◌else◌};
ghost use Rattle.object_groups.specs.claims.Objects.{is_object, list_at, name_at, name_directive};
ghost use Rattle.object_groups.specs.claims.Objects.{names_in};
ghost use Rattle.object_groups.specs.claims.Objects.{objects_in};
ghost use Rattle.object_inheritance.specs.claims.Inherited.{value};
ghost use Rattle.object_values.specs.Values.{texts};

use crate::names::Names;
use object_inheritance::inherited::Values;
use object_inheritance::kinds::kind_number;
use object_inheritance::registered::registers;
use object_inheritance::templates::Templates;
use object_reader::block::{Block, BlockKind};
use object_values::values::value_in;
use std::alloc::{AllocError, Global};
use std::marker::Model;

/// Whether a block is an object of the type: it isn't a template alone, with `register 0`.
pub fn is_object(kind: BlockKind, block: &Block) -> bool
    ensures { result ≡ is_object kind block.now }
{
    kind_number(block.kind) == kind_number(kind)
        && registers(value_in(block.directives.as_slice(), "register".as_bytes()))
}

/// The directive that names an object of the type; empty where such objects have no name of their own. A
/// service block's is the description of each of its services.
pub fn name_directive(kind: BlockKind) -> &'static str
    ensures { result.now ≡ name_directive kind }
{
    match kind {
        BlockKind::Host => "host_name",
        BlockKind::HostGroup => "hostgroup_name",
        BlockKind::Service => "service_description",
        BlockKind::ServiceGroup => "servicegroup_name",
        BlockKind::Contact => "contact_name",
        BlockKind::ContactGroup => "contactgroup_name",
        BlockKind::TimePeriod => "timeperiod_name",
        BlockKind::Command => "command_name",
        _ => "",
    }
}

/// Adds a place, where it is that of an object.
fn push_place(places: &mut Vec<usize>, place: usize, object: bool) -> Result<(), AllocError>
    ensures { OnOk result (places.new.items
        ≡ places.old.items ++ (if object then place ∷ [] else [])) }
{
    if object {
        places.push(place)?;
    }
    Ok(())
}

/// The places of the objects of the type.
fn places_of(alloc: Global, blocks: &[Block], kind: BlockKind) -> Result<Vec<usize>, AllocError>
    ensures { IfOk result (λ places. places.items ≡ objects_in blocks.now kind) }
{
    let mut places = Vec::new(alloc);
    for (place, block) in blocks.iter().enumerate() {
        push_place(&mut places, place, is_object(kind, block))?;
    }
    Ok(places)
}

/// The name of the object at a place, where the values are those of the directive that names it.
fn name_at<'a>(values: &Values<'a>, place: usize) -> &'a [u8]
    ensures { result.now ≡ unwrap_or (value values.now.blocks values.now.directive place) [] }
{
    match values.value(place) {
        Some(name) => name,
        None => &[],
    }
}

/// The names of the objects at the places.
fn names_at<'a>(
    alloc: Global,
    values: &Values<'a>,
    places: &[usize],
) -> Result<Vec<&'a [u8]>, AllocError>
    ensures { IfOk result (λ names. texts names.items
        ≡ map (λ place. unwrap_or (value values.now.blocks values.now.directive place) [])
        places.now) }
{
    let mut names = Vec::with_capacity(alloc, places.len())?;
    for place in places {
        names.push(name_at(values, *place))?;
    }
    Ok(names)
}

/// The entries of a list that the object at a place has, where the values are those of the list's directive;
/// none where it has no such list. A refused growth leaves nothing.
pub fn list_at<'a>(
    alloc: Global,
    values: &Values<'a>,
    place: usize,
) -> Result<Vec<&'a [u8]>, AllocError>
    ensures { IfOk result (λ entries.
        texts entries.items ≡ list_at values.now.blocks values.now.directive place) }
{
    match values.list(alloc, place)? {
        Some(entries) => Ok(entries),
        None => Ok(Vec::new(alloc)),
    }
}

/// The objects of one type among blocks, numbered from 0 in file order: the registered blocks of the type,
/// with the names that they have. They take some 56 bytes each. Contracts see the blocks and the type.
#[derive(Drop)]
pub struct Objects<'a> {
    blocks: &'a [Block],
    kind: BlockKind,
    places: Vec<usize>,
    names: Names<'a>,
}

impl<'a> Model for Objects<'a> {
    ghost use Rattle.object_groups.specs.Objects.{AreObjects, ObjectsOf};

    ghost Value = { ObjectsOf };

    ghost view = { λ s. record {
      blocks = s.blocks.now;
      kind = s.kind;
    } };

    ghost invariant = { λ s. AreObjects s.blocks.now s.kind s.places.items s.names };
}

impl<'a> Objects<'a> {
    /// The objects of the type. An object that lacks its name has an empty one. The time grows with the
    /// blocks, their directives and the templates that they use. A refused growth leaves nothing.
    pub fn new(
        alloc: Global,
        templates: &Templates<'a>,
        kind: BlockKind,
    ) -> Result<Objects<'a>, AllocError>
        ensures { IfOk result (λ objects. objects
            ≡ record { blocks = templates.now; kind = kind }) }
    {
        let blocks = templates.blocks();
        let places = places_of(alloc, blocks, kind)?;
        let values = Values::new(alloc, templates, name_directive(kind).as_bytes())?;
        let names = Names::new(alloc, names_at(alloc, &values, places.as_slice())?)?;
        Ok(Objects {
            blocks,
            kind,
            places,
            names,
        })
    }

    /// The place of each object among the blocks, by their numbers.
    pub fn places(&self) -> &[usize]
        ensures places { result.now ≡ objects_in self.now.blocks self.now.kind }
        ensures within { All (λ place. place < length self.now.blocks) result.now }
    {
        self.places.as_slice()
    }

    /// The names of the objects.
    pub fn names(&self) -> &Names<'a>
        ensures names { result.now ≡ names_in self.now.blocks self.now.kind }
        ensures long { length result.now ≡ length (objects_in self.now.blocks self.now.kind) }
    {
        &self.names
    }
}
