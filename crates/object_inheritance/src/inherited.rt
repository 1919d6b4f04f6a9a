//! What each block has for a directive: what it gives itself, or else what it takes from a template
//! (chapter "Object Inheritance").

ghost use Rattle.std.specs.Prelude.{◌≡◌, ℕ, ◌<◌, ◌++◌, List, [], None, Some, length, find};
ghost use Rattle.std.specs.Prelude.{is_some};
ghost use Rattle.std.specs.Prelude.{reverse, slice_index_or, All, IfOk, IfSome, OnOk};
ghost use Rattle.std.specs.Prelude.{if◌then◌else◌};
ghost use Rattle.std.specs.Option.{option_copied, option_map};
ghost use Rattle.std.specs.Arc.{arc_value};
ghost use Rattle.object_inheritance.specs.Columns.{given_from, HasGivenFrom, HasKept, HasOwn};
ghost use Rattle.object_inheritance.specs.Columns.{IsGivenAt, IsInherited};
ghost use Rattle.object_inheritance.specs.Faults.{AreUses};
ghost use Rattle.object_inheritance.specs.claims.Templates.{template_graph};
ghost use Rattle.object_inheritance.specs.Columns.{IsNext, IsOwn, line_of};
ghost use Rattle.object_inheritance.specs.Givers.{last_at, text_at};
ghost use Rattle.object_inheritance.specs.claims.Inherited.{given};
ghost use Rattle.object_inheritance.specs.Inherited.{beside, has_any, has_entries};
ghost use Rattle.object_inheritance.specs.claims.Inherited.{is_additive, joined_entries};
ghost use Rattle.object_inheritance.specs.Inherited.{is_of_entry};
ghost use Rattle.object_inheritance.specs.claims.Inherited.{list, name, name_of, own};
ghost use Rattle.object_inheritance.specs.Inherited.{nearest_entries};
ghost use Rattle.object_inheritance.specs.claims.Inherited.{own_entries};
ghost use Rattle.object_inheritance.specs.claims.Inherited.{stays, value};
ghost use Rattle.object_values.specs.claims.Values.{entries};
ghost use Rattle.object_values.specs.Values.{texts};

use crate::givers::OwnText;
use crate::templates::{Templates, Uses};
use object_reader::block::Block;
use object_values::values::{entries, equals};
use std::alloc::{AllocError, Global};
use std::marker::Model;
use std::sync::Arc;

/// Whether a directive isn't inherited.
fn stays(directive: &[u8]) -> bool
    ensures { result ≡ stays directive.now }
{
    equals(directive, "name") || equals(directive, "use") || equals(directive, "register")
}

/// Whether a list begins with `+`.
fn is_additive(text: &[u8]) -> bool
    ensures { result ≡ is_additive text.now }
{
    match text {
        [] => false,
        [first, ..] => *first == b'+',
    }
}

/// A name that may be empty: `null` is given and empty.
fn name_of(text: &[u8]) -> &[u8]
    ensures { result.now ≡ name_of text.now }
{
    if equals(text, "null") {
        &text[..0]
    } else {
        text
    }
}

/// The entries that a list has itself.
fn own_entries<'a>(alloc: Global, text: &'a [u8]) -> Result<Vec<&'a [u8]>, AllocError>
    ensures { IfOk result (λ list. texts list.items ≡ own_entries text.now) }
{
    if is_additive(text) {
        entries(alloc, &text[1..])
    } else {
        entries(alloc, name_of(text))
    }
}

/// Whether a byte is of an entry: it is neither a comma nor a blank.
fn is_of_entry(byte: u8) -> bool
    ensures { result ≡ is_of_entry byte }
{
    byte != b',' && byte != b' ' && byte != b'\t'
}

/// Whether a list has an entry.
fn has_entry(list: &[u8]) -> bool
    ensures { result ≡ has_any (entries list.now) }
{
    list.iter().any(|byte| is_of_entry(*byte))
}

/// Whether a list has an entry itself.
fn has_own_entry(text: &[u8]) -> bool
    ensures { result ≡ has_any (own_entries text.now) }
{
    if is_additive(text) {
        has_entry(&text[1..])
    } else {
        has_entry(name_of(text))
    }
}

/// Adds the entries that a list has itself, the last one first.
fn push_reversed<'a>(
    alloc: Global,
    list: &mut Vec<&'a [u8]>,
    text: &'a [u8],
) -> Result<(), AllocError>
    ensures { OnOk result (texts list.new.items
        ≡ texts list.old.items ++ reverse (own_entries text.now)) }
{
    let mut own = own_entries(alloc, text)?;
    own.as_mut_slice().reverse();
    list.extend_from_slice(own.as_slice())?;
    Ok(())
}

/// What is given to a block for a directive: where the nearest text stands, the block's own or that of the
/// template from which the block takes it.
#[derive(Clone, Copy)]
pub(crate) struct Given {
    /// Where the block of that text stands.
    origin: u32,
    /// The number of the text's directive in that block, from 0.
    number: u32,
    /// Where the template stands from which that block would take a text.
    further: Option<u32>,
}

/// The first of the places for which anything is given.
fn first_with(column: &[Option<Given>], places: &[u32]) -> Option<u32>
    requires { All (λ q. q < length column.now) places.now }
    ensures within { IfSome result (λ q. q < length column.now) }
    ensures first { result ≡ find (λ q. is_some (slice_index_or column.now q None)) places.now }
{
    for place in places {
        if column[*place as usize].is_some() {
            return Some(*place);
        }
    }
    None
}

/// What the blocks give themselves, where there are so many.
fn own_column(
    alloc: Global,
    count: usize,
    texts: &[OwnText],
) -> Result<Vec<Option<Given>>, AllocError>
    requires { All (λ own. own.place < count) texts.now }
    ensures long { IfOk result (λ column. length column.items ≡ count) }
    ensures each { IfOk result (λ column. (blocks : List Block) (place : ℕ)
        → IsOwn blocks place (last_at blocks texts.now place) (slice_index_or column.items place None)) }
{
    let mut column = vec![in alloc; None; count]?;
    for own in texts {
        column[own.place as usize] = Some(Given {
            origin: own.place,
            number: own.number,
            further: None,
        });
    }
    Ok(column)
}

/// What is given to the block at the place, where the column has what it gives itself, and what is given to
/// the templates that it uses.
fn given_at(uses: &Uses, column: &[Option<Given>], place: u32) -> Option<Given>
    requires within { place < length uses.now.graph }
    requires long { length column.now ≡ length uses.now.graph }
    ensures { (blocks : List Block) (directive : List ℕ)
        → uses.now.graph ≡ template_graph blocks → IsNext blocks directive column.now place
        → IsGivenAt blocks directive place result }
{
    let further = first_with(column, uses.graph().ends(place));
    match column[place as usize] {
        Some(own) => Some(Given { further, ..own }),
        None => match further {
            Some(template) => column[template as usize],
            None => None,
        },
    }
}

/// What is given to the blocks that others use, where the column has what all give themselves. What the others
/// give stays: they are most, and what is given to one of them is found where it is asked for.
fn with_inherited(uses: &Uses, own: Vec<Option<Given>>) -> Vec<Option<Given>>
    requires long { length own.items ≡ length uses.now.graph }
    requires within { All (λ place. place < length uses.now.graph) uses.now.order.items }
    ensures long { length result.items ≡ length own.items }
    ensures each { (blocks : List Block) (directive : List ℕ) → AreUses blocks uses.now
        → IsInherited blocks directive → HasOwn blocks directive own.items
        → HasGivenFrom blocks directive uses.now 0 result.items }
{
    let order = uses.order();
    let mut column = own;
    let mut left = order.len();
    while left > 0 {
        left -= 1;
        let place = order[left];
        if uses.is_used(place as usize) {
            column[place as usize] = given_at(uses, column.as_slice(), place);
        }
    }
    column
}

/// What all blocks have for one directive. It takes some 20 bytes a block, and nothing where no block gives the
/// directive itself. Contracts see the blocks and the directive.
#[derive(Drop)]
pub struct Values<'a> {
    blocks: &'a [Block],
    directive: &'a [u8],
    /// The templates, where the column has of blocks that no other uses what they give themselves alone.
    uses: Option<Arc<Uses>>,
    column: Vec<Option<Given>>,
}

impl<'a> Model for Values<'a> {
    ghost use Rattle.std.specs.Arc.{arc_value};
    ghost use Rattle.std.specs.Option.{option_map};
    ghost use Rattle.object_inheritance.specs.Columns.{Column, HasKept};

    ghost Value = { Column };

    ghost view = { λ s. record {
      blocks = s.blocks.now;
      directive = s.directive.now;
    } };

    ghost invariant = { λ s. HasKept s.blocks.now s.directive.now
        (option_map (λ uses. arc_value uses) s.uses) s.column.items };
}

impl<'a> Values<'a> {
    /// The values that a column has.
    fn of(
        templates: &Templates<'a>,
        directive: &'a [u8],
        uses: Option<Arc<Uses>>,
        column: Vec<Option<Given>>,
    ) -> Values<'a>
        requires { HasKept templates.now directive.now (option_map (λ one. arc_value one) uses)
            column.items }
        ensures { result ≡ record { blocks = templates.now; directive = directive.now } }
    {
        Values {
            blocks: templates.blocks(),
            directive,
            uses,
            column,
        }
    }

    /// What the blocks have for the directive. The time grows with the blocks and the templates that others use;
    /// where no block gives the directive itself, it doesn't grow with them. A refused growth leaves nothing.
    pub fn new(
        alloc: Global,
        templates: &Templates<'a>,
        directive: &'a [u8],
    ) -> Result<Values<'a>, AllocError>
        ensures { IfOk result (λ values. values
            ≡ record { blocks = templates.now; directive = directive.now }) }
    {
        let Some(texts) = templates.givers().texts(directive) else {
            return Ok(Values::of(templates, directive, None, Vec::new(alloc)));
        };
        let own = own_column(alloc, templates.blocks().len(), texts)?;
        if stays(directive) {
            return Ok(Values::of(templates, directive, None, own));
        }
        let uses = Arc::try_clone(templates.uses())?;
        let column = with_inherited(&uses, own);
        Ok(Values::of(templates, directive, Some(uses), column))
    }

    /// What is given to the block at the place.
    fn given(&self, place: usize) -> Option<Given>
        ensures { IsGivenAt self.now.blocks self.now.directive place result }
    {
        if place >= self.column.len() {
            return None;
        }
        let Some(uses) = &self.uses else {
            return self.column[place];
        };
        if uses.is_used(place) {
            return self.column[place];
        }
        given_at(uses, self.column.as_slice(), place as u32)
    }

    /// The text that is given.
    fn text(&self, given: Given) -> &'a [u8]
        ensures { result.now ≡ text_at self.now.blocks given.origin given.number }
    {
        let Some(block) = self.blocks.get(given.origin as usize) else {
            return &[];
        };
        match block.directives.as_slice().get(given.number as usize) {
            Some(directive) => directive.value.as_slice(),
            None => &[],
        }
    }

    /// The place of the block that gives what the block at the place has for the directive: its own, or that of a
    /// template. Blocks that have nothing have the same.
    pub fn origin(&self, place: usize) -> usize
        ensures same { given self.now.blocks self.now.directive result
            ≡ given self.now.blocks self.now.directive place }
        ensures own { own self.now.blocks self.now.directive result
            ≡ value self.now.blocks self.now.directive place }
    {
        match self.given(place) {
            Some(given) => given.origin as usize,
            None => self.column.len(),
        }
    }

    /// The value of the block at the place, as it is written; none where neither it nor a template gives one.
    pub fn value(&self, place: usize) -> Option<&'a [u8]>
        ensures { option_copied result ≡ value self.now.blocks self.now.directive place }
    {
        match self.given(place) {
            Some(given) => Some(self.text(given)),
            None => None,
        }
    }

    /// The name that the block at the place has for the directive, where it is a name that may be empty, as
    /// that of a period: `null` is given and empty.
    pub fn name(&self, place: usize) -> Option<&'a [u8]>
        ensures { option_copied result ≡ name self.now.blocks self.now.directive place }
    {
        match self.value(place) {
            Some(text) => Some(name_of(text)),
            None => None,
        }
    }

    /// What is given beside an additive list, and nothing beside another.
    fn beside(&self, given: Given) -> Option<Given>
        ensures { line_of self.now.blocks self.now.directive result
            ≡ (if is_additive (text_at self.now.blocks given.origin given.number)
            then given_from self.now.blocks self.now.directive given.further else []) }
    {
        if !is_additive(self.text(given)) {
            return None;
        }
        self.given(given.further? as usize)
    }

    /// The entries of the texts that are given, this one first.
    fn joined(&self, alloc: Global, first: Given) -> Result<Vec<&'a [u8]>, AllocError>
        ensures { IfOk result (λ list. texts list.items
            ≡ joined_entries (line_of self.now.blocks self.now.directive (Some first))) }
    {
        let mut given = Some(first);
        let mut list = Vec::new(alloc);
        while let Some(next) = given {
            push_reversed(alloc, &mut list, self.text(next))?;
            given = self.beside(next);
        }
        list.as_mut_slice().reverse();
        Ok(list)
    }

    /// The entries that the block at the place has for the directive, where it is a list of names; none where
    /// neither it nor a template gives one, which isn't an empty list. The time grows with the texts of the
    /// additive lists that are joined. A refused growth leaves nothing.
    pub fn list(&self, alloc: Global, place: usize) -> Result<Option<Vec<&'a [u8]>>, AllocError>
        ensures { IfOk result (λ found. option_map (λ entries. texts entries.items) found
            ≡ list self.now.blocks self.now.directive place) }
    {
        let Some(nearest) = self.given(place) else {
            return Ok(None);
        };
        let text = self.text(nearest);
        if !is_additive(text) {
            return Ok(Some(own_entries(alloc, text)?));
        }
        Ok(Some(self.joined(alloc, nearest)?))
    }

    /// The place of the block that gives the list to which that of the block at the place is added; none where the
    /// list isn't additive, or where no template gives one beside it. Less is given to that block.
    pub fn added_to(&self, place: usize) -> Option<usize>
        ensures beside { given_from self.now.blocks self.now.directive result
            ≡ beside (given self.now.blocks self.now.directive place) }
        ensures less { IfSome result (λ at. length (given self.now.blocks self.now.directive at)
            < length (given self.now.blocks self.now.directive place)) }
    {
        let nearest = self.given(place)?;
        if !is_additive(self.text(nearest)) {
            return None;
        }
        match nearest.further {
            Some(template) => Some(self.origin(template as usize)),
            None => None,
        }
    }

    /// The entries that the text given to the block at the place has itself, without those of the list to which it is
    /// added; none where no text is given. A refused growth leaves nothing.
    pub fn nearest_list(&self, alloc: Global, place: usize) -> Result<Vec<&'a [u8]>, AllocError>
        ensures { IfOk result (λ entries. texts entries.items
            ≡ nearest_entries (given self.now.blocks self.now.directive place)) }
    {
        match self.given(place) {
            Some(nearest) => own_entries(alloc, self.text(nearest)),
            None => Ok(Vec::new(alloc)),
        }
    }

    /// Whether the block at the place has an entry for the directive, where it is a list of names. The time grows
    /// with the bytes before the first entry that is found, of the texts that `list` would join. It takes no memory.
    pub fn has_entries(&self, place: usize) -> bool
        ensures { result ≡ has_entries self.now.blocks self.now.directive place }
    {
        let mut left = self.given(place);
        while let Some(next) = left {
            if has_own_entry(self.text(next)) {
                return true;
            }
            left = self.beside(next);
        }
        false
    }
}

/// What the blocks have for a directive. As `Values::new`.
pub fn values_of<'a>(
    alloc: Global,
    templates: &Templates<'a>,
    directive: &'a str,
) -> Result<Values<'a>, AllocError>
    ensures { IfOk result (λ values. values
        ≡ record { blocks = templates.now; directive = directive.now }) }
{
    Values::new(alloc, templates, directive.as_bytes())
}
