//! The lists that blocks have for a directive, by their parts (chapter "Object Inheritance"): a list that blocks
//! take from another is found once, however many take it.

ghost use Rattle.std.specs.Prelude.{◌≡◌, ◌++◌, List, None, IfOk, OnOk, IfSome, reverse, ◌<◌};
ghost use Rattle.std.specs.Prelude.{length};
ghost use Rattle.object_groups.specs.claims.Objects.{list_at};
ghost use Rattle.object_groups.specs.Shared.{AreFound, AreShared, Grows, HasParts, IsChain, IsNumberOf};
ghost use Rattle.object_groups.specs.Shared.{list_before, nearest_at, own_part, wholes_of};
ghost use Rattle.object_values.specs.Values.{texts};

use indexmap::IndexMap;
use object_inheritance::inherited::Values;
use std::alloc::{AllocError, Global};

/// A list that other blocks have too: the entries that the text given to a block has itself, after a list of a lower
/// number.
#[derive(Clone, Copy)]
pub struct SharedList {
    /// The place of the block.
    pub place: usize,
    /// The number of the list before its entries, if there is one.
    pub before: Option<usize>,
}

/// Of what the list of a block is made.
#[derive(Clone, Copy)]
pub struct Parts {
    /// The number of the shared list with which it begins, if it begins with one.
    pub before: Option<usize>,
    /// Whether the entries follow that the text given to the block has itself.
    pub own: bool,
}

/// The lists of the blocks at some places, by their parts, and the lists that they share, each once. They take some 24
/// bytes each.
#[derive(Drop)]
pub struct SharedLists {
    /// The parts of the list of each of the blocks, in the order of the places.
    pub parts: Vec<Parts>,
    /// The shared lists, by their numbers.
    pub lists: Vec<SharedList>,
}

/// The shared lists found so far, and the number of the list of each block that was met.
#[derive(Drop)]
struct Found {
    numbers: IndexMap<usize, usize>,
    lists: Vec<SharedList>,
}

/// Blocks whose lists have no number yet, each before the one whose list its own is added to, and the number of the
/// list that the last one's is added to.
#[derive(Drop)]
struct Chain {
    places: Vec<usize>,
    before: Option<usize>,
}

/// The blocks without a number from the one at the place on.
fn chain_of<'a>(
    alloc: Global,
    values: &Values<'a>,
    found: &Found,
    place: usize,
) -> Result<Chain, AllocError>
    requires { AreFound values.now.blocks values.now.directive found.now.numbers.entries
        found.now.lists.items }
    ensures within { IfOk result (λ chain. IfSome chain.before (λ other. other
        < length (wholes_of values.now.blocks values.now.directive found.now.lists.items))) }
    ensures chain { IfOk result (λ chain. IsChain values.now.blocks values.now.directive
        (reverse chain.places.items) place (list_before
        (wholes_of values.now.blocks values.now.directive found.now.lists.items) chain.before)) }
{
    let mut places = Vec::new(alloc);
    let mut next = Some(place);
    while let Some(at) = next {
        if let Some(number) = found.numbers.get(&at) {
            return Ok(Chain {
                places,
                before: Some(*number),
            });
        }
        places.push(at)?;
        next = values.added_to(at);
    }
    Ok(Chain {
        places,
        before: None,
    })
}

/// Adds the list of the block at the place, whose entries come after the list of that number.
fn add_list<'a>(
    values: &Values<'a>,
    found: &mut Found,
    place: usize,
    before: Option<usize>,
) -> Result<usize, AllocError>
    requires found { AreFound values.now.blocks values.now.directive
        found.old.numbers.entries found.old.lists.items }
    requires within { IfSome before (λ other. other
        < length (wholes_of values.now.blocks values.now.directive found.old.lists.items)) }
    requires entries { list_at values.now.blocks values.now.directive place ≡ list_before
        (wholes_of values.now.blocks values.now.directive found.old.lists.items) before
        ++ nearest_at values.now.blocks values.now.directive place }
    ensures found { OnOk result (AreFound values.now.blocks values.now.directive
        found.new.numbers.entries found.new.lists.items) }
    ensures grows { OnOk result (Grows found.old.lists.items found.new.lists.items) }
    ensures number { IfOk result (λ number. IsNumberOf
        (wholes_of values.now.blocks values.now.directive found.new.lists.items) (Some number)
        (list_at values.now.blocks values.now.directive place)) }
{
    let _values = values;
    let number = found.lists.len();
    found.lists.push(SharedList { place, before })?;
    found.numbers.insert(place, number)?;
    Ok(number)
}

/// The number of the list of the block at the place, which is added where it isn't found yet.
fn number_of<'a>(
    alloc: Global,
    values: &Values<'a>,
    found: &mut Found,
    place: usize,
) -> Result<Option<usize>, AllocError>
    requires { AreFound values.now.blocks values.now.directive
        found.old.numbers.entries found.old.lists.items }
    ensures found { OnOk result (AreFound values.now.blocks values.now.directive
        found.new.numbers.entries found.new.lists.items) }
    ensures grows { OnOk result (Grows found.old.lists.items found.new.lists.items) }
    ensures number { IfOk result (λ number. IsNumberOf
        (wholes_of values.now.blocks values.now.directive found.new.lists.items) number
        (list_at values.now.blocks values.now.directive place)) }
{
    let chain = chain_of(alloc, values, found, place)?;
    let mut places = chain.places;
    let mut before = chain.before;
    while let Some(at) = places.pop() {
        before = Some(add_list(values, found, at, before)?);
    }
    Ok(before)
}

/// The parts of the list of the block at the place.
fn parts_of<'a>(
    alloc: Global,
    values: &Values<'a>,
    found: &mut Found,
    place: usize,
) -> Result<Parts, AllocError>
    requires { AreFound values.now.blocks values.now.directive
        found.old.numbers.entries found.old.lists.items }
    ensures found { OnOk result (AreFound values.now.blocks values.now.directive
        found.new.numbers.entries found.new.lists.items) }
    ensures grows { OnOk result (Grows found.old.lists.items found.new.lists.items) }
    ensures parts { IfOk result (HasParts values.now.blocks values.now.directive
        (wholes_of values.now.blocks values.now.directive found.new.lists.items) place) }
{
    let origin = values.origin(place);
    if origin == place {
        return added_parts(alloc, values, found, place);
    }
    if values.value(place).is_none() {
        return Ok(Parts {
            before: None,
            own: false,
        });
    }
    let before = number_of(alloc, values, found, origin)?;
    Ok(Parts { before, own: false })
}

/// The same of a block that gives the text itself.
fn added_parts<'a>(
    alloc: Global,
    values: &Values<'a>,
    found: &mut Found,
    place: usize,
) -> Result<Parts, AllocError>
    requires { AreFound values.now.blocks values.now.directive
        found.old.numbers.entries found.old.lists.items }
    ensures found { OnOk result (AreFound values.now.blocks values.now.directive
        found.new.numbers.entries found.new.lists.items) }
    ensures grows { OnOk result (Grows found.old.lists.items found.new.lists.items) }
    ensures parts { IfOk result (HasParts values.now.blocks values.now.directive
        (wholes_of values.now.blocks values.now.directive found.new.lists.items) place) }
{
    let Some(other) = values.added_to(place) else {
        return Ok(Parts {
            before: None,
            own: true,
        });
    };
    let before = number_of(alloc, values, found, other)?;
    Ok(Parts { before, own: true })
}

/// The lists of the blocks at the places, by their parts. A list that is a block's own alone isn't shared; one that a
/// block takes from a template, or to which its own is added, is one of those that are, and so is each to which that
/// one is added. The time grows with the places and the shared lists, and not with the entries of lists. A refused
/// growth leaves nothing.
pub fn shared_lists<'a>(
    alloc: Global,
    values: &Values<'a>,
    places: &[usize],
) -> Result<SharedLists, AllocError>
    ensures { IfOk result (λ made. AreShared values.now.blocks values.now.directive places.now
        made.parts.items made.lists.items) }
{
    let mut found = Found {
        numbers: IndexMap::new(alloc),
        lists: Vec::new(alloc),
    };
    let mut parts = Vec::with_capacity(alloc, places.len())?;
    for place in places {
        parts.push(parts_of(alloc, values, &mut found, *place)?)?;
    }
    Ok(SharedLists {
        parts,
        lists: found.lists,
    })
}

/// The entries that the text given to the block at the place has itself, where they are part of its list; none where
/// they aren't. A refused growth leaves nothing.
pub fn own_part<'a>(
    alloc: Global,
    values: &Values<'a>,
    place: usize,
    own: bool,
) -> Result<Vec<&'a [u8]>, AllocError>
    ensures { IfOk result (λ entries. texts entries.items
        ≡ own_part values.now.blocks values.now.directive place own) }
{
    if own {
        values.nearest_list(alloc, place)
    } else {
        Ok(Vec::new(alloc))
    }
}
