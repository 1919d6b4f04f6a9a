//! Dependencies that hold nothing back (chapter "Host and Service Dependencies").

ghost use Rattle.std.specs.Prelude.{◌≡◌, codes, length, IfOk};
ghost use Rattle.std.specs.Option.{option_copied};
ghost use Rattle.object_warnings.specs.Criteria.{criteria_kind, has_some_state, holds_nothing, is_object};
ghost use Rattle.object_warnings.specs.Criteria.{lacks_criteria, lacks_criteria_at};
ghost use Rattle.object_warnings.specs.Numbers.{numbers_where};

use crate::numbers::push_where;
use due_model::state::StateSet;
use object_inheritance::inherited::{Values, values_of};
use object_inheritance::kinds::{is_dependency, is_service_dependency, means_nothing};
use object_inheritance::registered::registers;
use object_inheritance::templates::Templates;
use object_reader::block::{Block, BlockKind};
use object_values::options::{CriteriaKind, criteria_in};
use object_values::values::value_in;
use std::alloc::{AllocError, Global};

/// Whether there is any of the states.
fn has_some_state(states: StateSet) -> bool
    ensures { result ≡ has_some_state states }
{
    states.pending
        || states.up
        || states.down
        || states.unreachable
        || states.fine
        || states.warning
        || states.unknown
        || states.critical
}

/// Of which kind the criteria of dependencies of the type are.
fn criteria_kind(kind: BlockKind) -> CriteriaKind
    ensures { result ≡ criteria_kind kind }
{
    if is_service_dependency(kind) {
        CriteriaKind::OfServices
    } else {
        CriteriaKind::OfHosts
    }
}

/// Whether criteria are lacking, or name no state.
fn holds_nothing(kind: CriteriaKind, text: Option<&[u8]>) -> bool
    ensures { result ≡ holds_nothing kind (option_copied text.entry) }
{
    match text {
        None => true,
        Some(text) => match criteria_in(kind, text) {
            None => false,
            Some(states) => !has_some_state(states),
        },
    }
}

/// Whether a block is an object: its type means something, and it isn't a template alone.
fn is_object(block: &Block) -> bool
    ensures { result ≡ is_object block.now }
{
    !means_nothing(block.kind)
        && registers(value_in(block.directives.as_slice(), "register".as_bytes()))
}

/// Whether the block, which stands at the place, is a dependency that holds nothing back. The values are of the criteria.
fn lacks_criteria(values: &Values<'_>, place: usize, block: &Block) -> bool
    requires { values.now.directive ≡ codes "notification_failure_criteria" }
    ensures { result ≡ lacks_criteria values.now.blocks place block.now }
{
    is_object(block)
        && is_dependency(block.kind)
        && holds_nothing(criteria_kind(block.kind), values.value(place))
}

/// The same of the block at the place.
fn lacks_criteria_at(blocks: &[Block], values: &Values<'_>, place: usize) -> bool
    requires directive { values.now.directive ≡ codes "notification_failure_criteria" }
    requires blocks { values.now.blocks ≡ blocks.now }
    ensures { result ≡ lacks_criteria_at blocks.now place }
{
    match blocks.get(place) {
        None => false,
        Some(block) => lacks_criteria(values, place, block),
    }
}

/// The places of the dependencies that hold nothing back (NoCriteria). A refused growth leaves nothing.
pub fn without_criteria(alloc: Global, templates: &Templates<'_>) -> Result<Vec<usize>, AllocError>
    ensures { IfOk result (λ found. found.items
        ≡ numbers_where (lacks_criteria_at templates.now) (length templates.now)) }
{
    let values = values_of(alloc, templates, "notification_failure_criteria")?;
    let blocks = templates.blocks();
    let mut found = Vec::new(alloc);
    for place in 0..blocks.len() {
        push_where(&mut found, place, lacks_criteria_at(blocks, &values, place))?;
    }
    Ok(found)
}
