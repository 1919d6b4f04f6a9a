//! The contacts that blocks list, by themselves and by contact groups.

ghost use Rattle.std.specs.Prelude.{◌≡◌, ◌<◌, ◌≤◌};
ghost use Rattle.std.specs.Prelude.{length, map, slice_index_or, None, All, IfOk};
ghost use Rattle.due_model.specs.claims.Limits.{max_contacts};
ghost use Rattle.object_groups.specs.declared.groups.GroupKind.TheVariants.{ContactGroups};
ghost use Rattle.object_groups.specs.claims.Objects.{names_in};
ghost use Rattle.object_listing.specs.Contacts.{AddsList, AreContactsAt, AreFound, AreOfContacts};
ghost use Rattle.object_listing.specs.Contacts.{IsAsked, lists_in};
ghost use Rattle.object_listing.specs.claims.Listing.{AreThose, contact_directives, gives_neither};
ghost use Rattle.object_listing.specs.claims.Listing.{IsListed};
ghost use Rattle.object_reader.specs.declared.block.BlockKind.TheVariants.{Contact};

use crate::listing::Listing;
use due_model::config::ContactId;
use indexmap::IndexMap;
use object_groups::groups::{GroupKind, Groups};
use object_inheritance::templates::Templates;
use object_reader::block::Block;
use std::alloc::{AllocError, Global};
use std::marker::Model;

/// The contacts that blocks list by `contacts` and `contact_groups`, of the blocks that were asked for: for others no
/// list is made. Blocks that take both from the same blocks share one list. It takes some 17 bytes a block, and 24 a
/// list and 2 a contact of it. Contracts see the blocks, and the flags of those that were asked for.
#[derive(Drop)]
pub struct ContactListing<'a> {
    blocks: &'a [Block],
    asked: Vec<bool>,
    lists: Vec<Vec<ContactId>>,
    /// The number of the list of each block that was asked for; none where it gives neither directive.
    numbers: Vec<Option<usize>>,
}

impl<'a> Model for ContactListing<'a> {
    ghost use Rattle.object_listing.specs.Contacts.{AskedContacts, HasLists, lists_in};

    ghost Value = { AskedContacts };

    ghost view = { λ s. record { blocks = s.blocks.now; asked = s.asked.items } };

    ghost invariant = { λ s.
        HasLists s.blocks.now s.asked.items (lists_in s.lists.items) s.numbers.items };
}

/// The contacts of these numbers.
fn contact_ids(alloc: Global, numbers: &[usize]) -> Result<Vec<ContactId>, AllocError>
    requires { All (λ number. number < max_contacts) numbers.now }
    ensures { IfOk result (λ ids. map (λ id. id.0) ids.items ≡ numbers.now) }
{
    let mut ids = Vec::with_capacity(alloc, numbers.len())?;
    for number in numbers {
        ids.push(ContactId(*number as u16))?;
    }
    Ok(ids)
}

/// The contacts that the block at the place lists.
fn contacts_of<'a>(
    alloc: Global,
    listing: &Listing<'a>,
    groups: &mut Groups<'a>,
    place: usize,
) -> Result<Vec<ContactId>, AllocError>
    requires sources { AreOfContacts listing.now groups.old }
    ensures same { groups.new ≡ groups.old }
    ensures contacts { IfOk result (λ contacts.
        AreContactsAt listing.now.blocks place contacts.items) }
{
    let numbers = listing.objects_at(alloc, groups, place)?;
    contact_ids(alloc, numbers.as_slice())
}

/// The number of the list of the block at the place, where it is asked for; none where it gives neither directive. The
/// list is added where none was found for the same origins. Of a block that isn't asked for nothing is added, and
/// nothing is said of its number. `numbers` are those of the lists by the origins of their blocks.
fn list_number<'a>(
    alloc: Global,
    listing: &Listing<'a>,
    groups: &mut Groups<'a>,
    lists: &mut Vec<Vec<ContactId>>,
    numbers: &mut IndexMap<(usize, usize), usize>,
    asked: bool,
    place: usize,
) -> Result<Option<usize>, AllocError>
    requires sources { AreOfContacts listing.now groups.old }
    requires found { AreFound listing.now.blocks (lists_in lists.old.items)
        numbers.old.entries }
    ensures same { groups.new ≡ groups.old }
    ensures list { IfOk result (AddsList listing.now.blocks place asked (lists_in lists.old.items)
        (lists_in lists.new.items) numbers.new.entries) }
{
    if !asked {
        return Ok(None);
    }
    if listing.gives_neither(place) {
        return Ok(None);
    }
    let origins = listing.origins(place);
    if let Some(number) = numbers.get(&origins) {
        return Ok(Some(*number));
    }
    let number = lists.len();
    let contacts = contacts_of(alloc, listing, groups, place)?;
    lists.push(contacts)?;
    numbers.insert(origins, number)?;
    Ok(Some(number))
}

/// The number at the place; none where there are fewer.
fn number_at(numbers: &[Option<usize>], place: usize) -> Option<usize>
    ensures { result ≡ slice_index_or numbers.now place None }
{
    if place < numbers.len() {
        numbers[place]
    } else {
        None
    }
}

impl<'a> ContactListing<'a> {
    /// The contacts that the blocks list, where `asked` says of each block whether it is asked for; one without a flag
    /// isn't. `groups` are the contact groups of the same blocks, which have no more contacts than fit. There is a list
    /// for each pair of blocks from which blocks that are asked for take the two directives, and for no more. The time
    /// grows with the blocks, their directives and the templates that they use, and with the lists: with the entries of
    /// each, and with what each of the groups that it names reaches. A refused growth leaves nothing.
    pub fn new(
        alloc: Global,
        templates: &Templates<'a>,
        groups: &mut Groups<'a>,
        asked: Vec<bool>,
    ) -> Result<ContactListing<'a>, AllocError>
        requires groups { groups.old
            ≡ record { blocks = templates.now; kind = ContactGroups } }
        requires few { length (names_in templates.now Contact) ≤ max_contacts }
        ensures same { groups.new ≡ groups.old }
        ensures made { IfOk result (λ made.
            made ≡ record { blocks = templates.now; asked = asked.items }) }
    {
        let kind = GroupKind::ContactGroups;
        let listing = Listing::new(alloc, templates, kind, "contacts", "contact_groups")?;
        let mut lists = Vec::new(alloc);
        let mut found = IndexMap::new(alloc);
        let mut numbers = Vec::new(alloc);
        for (place, flag) in asked.iter().enumerate() {
            let number = list_number(
                alloc, &listing, groups, &mut lists, &mut found, *flag, place,
            )?;
            numbers.push(number)?;
        }
        Ok(ContactListing {
            blocks: templates.blocks(),
            asked,
            lists,
            numbers,
        })
    }

    /// Whether the block at the place, which was asked for, has neither directive, by itself or by its templates: it
    /// lists nothing, and an empty list isn't nothing.
    pub fn gives_neither(&self, place: usize) -> bool
        requires { IsAsked self.now.asked place }
        ensures { result ≡ gives_neither self.now.blocks contact_directives place }
    {
        number_at(self.numbers.as_slice(), place).is_none()
    }

    /// The contacts that the block at the place, which was asked for, lists, each once and in number order.
    pub fn contacts_at(&self, place: usize) -> &[ContactId]
        requires { IsAsked self.now.asked place }
        ensures { AreThose (IsListed self.now.blocks contact_directives place)
            (map (λ contact. contact.0) result.now) }
    {
        match number_at(self.numbers.as_slice(), place) {
            Some(number) => self.lists[number].as_slice(),
            None => &[],
        }
    }
}
