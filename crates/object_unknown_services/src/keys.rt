//! Service blocks, and blocks that name services, by descriptions.

ghost use Rattle.std.specs.Prelude.{◌≡◌, ◌+◌, ◌<◌, ◌≤◌};
ghost use Rattle.std.specs.Prelude.{length, All, Contains, IfOk, OnOk};
ghost use Rattle.object_groups.specs.claims.Objects.{names_in};
ghost use Rattle.object_reader.specs.declared.block.BlockKind.TheVariants.{Service};
ghost use Rattle.object_unknown_services.specs.Distinct.{AreDistinct, AreNamers};
ghost use Rattle.object_unknown_services.specs.Keys.{Adds, AreByKey, AreListsOf, GivesKey};
ghost use Rattle.object_unknown_services.specs.Keys.{HasKey, key_of, NamesFirst};
ghost use Rattle.object_values.specs.Values.{texts};

use crate::distinct::met_in;
use crate::named::Naming;
use graph::lists::{Lists, ListsBuilder};
use object_groups::names::Names;
use object_services::blocks::ServiceBlocks;
use std::alloc::{AllocError, Global};

/// The key of a description: the number of the first service block that has it, and how many service blocks there are
/// where none has it.
fn key_of<'a>(names: &Names<'a>, description: &'a [u8]) -> usize
    ensures key { result ≡ key_of names.now description.now }
    ensures within { result ≤ length names.now }
{
    match names.find(description) {
        Some(number) => number,
        None => names.len(),
    }
}

/// Empty lists, one for each key.
fn no_places(alloc: Global, names: &Names) -> Result<ListsBuilder<usize>, AllocError>
    ensures { IfOk result (AreByKey names.now (λ key place. ⊥)) }
{
    let count = names.len().checked_add(1).ok_or(AllocError)?;
    ListsBuilder::new(alloc, count)
}

/// The places of the service blocks, by the keys of their descriptions.
pub(crate) fn givers<'a>(
    alloc: Global,
    services: &ServiceBlocks<'a>,
) -> Result<Lists<usize>, AllocError>
    ensures { IfOk result (AreByKey (names_in services.now Service) (GivesKey services.now)) }
{
    let names = services.objects().names();
    let mut lists = no_places(alloc, names)?;
    for (number, place) in services.objects().places().iter().enumerate() {
        lists.push(key_of(names, names.name(number)), *place)?;
    }
    lists.build(alloc)
}

/// Adds the place for each of the descriptions.
fn push_each<'a>(
    lists: &mut ListsBuilder<usize>,
    names: &Names<'a>,
    descriptions: &[&'a [u8]],
    place: usize,
) -> Result<(), AllocError>
    requires { length lists.old ≡ length names.now + 1 }
    ensures { OnOk result (Adds
        (λ key at. (at ≡ place) × HasKey names.now (texts descriptions.now) key)
        lists.old lists.new) }
{
    for description in descriptions {
        lists.push(key_of(names, *description), place)?;
    }
    Ok(())
}

/// The blocks that name services, without those of which an earlier one has the same lists.
#[derive(Drop)]
pub(crate) struct Namers {
    /// By the key of a description, the places of the first blocks with the lists that have it.
    pub described: Lists<usize>,
    /// By such a place, those of all blocks with the same list of descriptions.
    pub by_list: Lists<usize>,
}

/// The places at which lists of descriptions are met first, by the keys of their descriptions.
fn described<'a>(
    alloc: Global,
    services: &ServiceBlocks<'a>,
    naming: &Naming<'a>,
    found: &[(usize, usize)],
) -> Result<Lists<usize>, AllocError>
    requires naming { services.now ≡ naming.now.blocks }
    requires found { AreDistinct services.now naming.now.role (length services.now) found.now }
    ensures { IfOk result (AreByKey (names_in services.now Service)
        (NamesFirst services.now naming.now.role found.now)) }
{
    let names = services.objects().names();
    let mut lists = no_places(alloc, names)?;
    for pair in found {
        if pair.0 == pair.1 {
            let descriptions = naming.descriptions_at(alloc, pair.0)?;
            push_each(&mut lists, names, descriptions.as_slice(), pair.0)?;
        }
    }
    lists.build(alloc)
}

/// The places of blocks, by the second of each pair, which are fewer than the blocks.
fn by_list(
    alloc: Global,
    blocks: usize,
    found: &[(usize, usize)],
) -> Result<Lists<usize>, AllocError>
    requires { All (λ pair. pair.1 < blocks) found.now }
    ensures { IfOk result (AreListsOf blocks (λ list place. Contains found.now (place, list))) }
{
    let mut lists = ListsBuilder::with_room(alloc, blocks, found.len())?;
    for pair in found {
        lists.push(pair.1, pair.0)?;
    }
    lists.build(alloc)
}

/// The blocks that name services in the role. The time grows with the blocks and the entries of their lists of descriptions,
/// where a list that many blocks have counts once; and so does the memory.
pub(crate) fn namers_of<'a>(
    alloc: Global,
    services: &ServiceBlocks<'a>,
    naming: &Naming<'a>,
) -> Result<Namers, AllocError>
    requires { services.now ≡ naming.now.blocks }
    ensures { IfOk result (AreNamers services.now naming.now.role) }
{
    let met = met_in(alloc, naming)?;
    let pairs = met.found.as_slice();
    Ok(Namers {
        described: described(alloc, services, naming, pairs)?,
        by_list: by_list(alloc, naming.blocks().len(), pairs)?,
    })
}
