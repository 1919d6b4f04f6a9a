//! All faults of blocks: as loading answers them, and as they are told.

ghost use Rattle.std.specs.Prelude.{◌≡◌, ◌<◌, find, length, map, slice_get, Some, IfOk, OnOk};
ghost use Rattle.object_faults.specs.declared.load_fault.LoadFault.TheVariants as load;
ghost use Rattle.object_inheritance.specs.claims.Faults.{AreFree};
ghost use Rattle.object_resolve.specs.claims.Resolve.{IsRefusal};
ghost use Rattle.site_check.specs.Faults.{AreNameFaults, AreTold, is_answer, load_fault};
ghost use Rattle.site_check.specs.Faults.{value_found};

use crate::found::{Found, begun, load_faults, values_found};
use crate::names::names_found;
use faults_told::telling::{Detail, Telling};
use faults_told::template_faults::{add_near_templates, tell_templates};
use faults_told::values_told::{add_near, tell_misfits};
use object_check::marks::{name_misfits, value_misfits};
use object_check::misfits::Misfit;
use object_check::rows::{name_rows, value_rows};
use object_faults::load_fault::{BlockFault, LoadFault};
use object_groups::objects::Objects;
use object_inheritance::templates::{InheritanceFault, Templates};
use object_names::named::{NamedKind, NamedObjects};
use object_reader::block::Block;
use object_values::values::equals;
use std::alloc::{AllocError, Global};

/// All faults of blocks.
#[derive(Drop)]
pub(crate) struct Told<'a> {
    /// As loading answers them.
    pub(crate) faults: Vec<LoadFault>,
    /// As they are told.
    pub(crate) tellings: Vec<Telling<'a>>,
}

/// Whether the fault that is told is this one, of the block at the line.
fn is_answer(blocks: &[Block], telling: &Telling<'_>, line: u64, fault: BlockFault) -> bool
    ensures { result ≡ is_answer blocks.now line fault telling.now }
{
    match blocks.get(telling.user) {
        None => false,
        Some(block) => block.line == line && equals(telling.fault.name().as_bytes(), fault.name()),
    }
}

/// The first of the told faults that is this one, of the block at the line.
pub(crate) fn answer<'a>(
    blocks: &[Block],
    tellings: &[Telling<'a>],
    line: u64,
    fault: BlockFault,
) -> Option<Telling<'a>>
    ensures { result ≡ find (is_answer blocks.now line fault) tellings.now }
{
    tellings
        .iter()
        .copied()
        .find(|telling| is_answer(blocks, telling, line, fault))
}

/// The place of the block of which the `define` is at the line.
fn place_at(blocks: &[Block], line: u64) -> usize {
    blocks
        .iter()
        .position(|block| block.line == line)
        .unwrap_or(0)
}

/// Adds the fault that loading answers, where it isn't told.
fn add_answered<'a>(
    blocks: &'a [Block],
    tellings: &mut Vec<Telling<'a>>,
    line: u64,
    fault: BlockFault,
) -> Result<(), AllocError>
    ensures { OnOk result (0 < length tellings.new.items) }
{
    if answer(blocks, tellings.as_slice(), line, fault).is_some() {
        return Ok(());
    }
    let place = place_at(blocks, line);
    tellings.push(Telling {
        holder: place,
        fault,
        directive: &[],
        value: &[],
        detail: Detail::Unsaid,
        near: None,
        user: place,
        others: 0,
    })?;
    tellings.sort_by_key(|telling| telling.holder)?;
    Ok(())
}

/// Adds what is told of an object that has the name of an earlier one.
fn add_doubled_of<'a>(
    blocks: &'a [Block],
    objects: &Objects<'a>,
    directive: &'a str,
    tellings: &mut Vec<Telling<'a>>,
) -> Result<(), AllocError> {
    for (number, place) in objects.places().iter().enumerate() {
        if objects.names().is_doubled(number) {
            let name = objects.names().name(number);
            let first = objects.names().find(name).unwrap_or(0);
            let line = match objects.places().get(first) {
                Some(at) => match blocks.get(*at) {
                    Some(block) => block.line,
                    None => 0,
                },
                None => 0,
            };
            tellings.push(Telling {
                holder: *place,
                fault: BlockFault::Doubled,
                directive: directive.as_bytes(),
                value: name,
                detail: Detail::Doubled(line),
                near: None,
                user: *place,
                others: 0,
            })?;
        }
    }
    Ok(())
}

/// The types of object that have a name of their own.
const NAMED: [NamedKind; 7] = [
    NamedKind::Host,
    NamedKind::HostGroup,
    NamedKind::ServiceGroup,
    NamedKind::Contact,
    NamedKind::ContactGroup,
    NamedKind::TimePeriod,
    NamedKind::Command,
];

/// What is told of values that aren't what they must be.
fn told_of_values<'a>(
    alloc: Global,
    templates: &Templates<'a>,
    objects: &NamedObjects<'a>,
    misfits: &[Misfit],
) -> Result<Told<'a>, AllocError>
    ensures { IfOk result (λ told. told.faults.items
        ≡ map (load_fault templates.now) (map value_found misfits.now)) }
{
    let found = values_found(alloc, misfits)?;
    Ok(Told {
        faults: load_faults(alloc, templates.blocks(), found.as_slice())?,
        tellings: tell_misfits(alloc, templates, objects, misfits, value_rows())?,
    })
}

/// What is told of names: those that are unknown, and those that are given twice.
fn tell_names<'a>(
    alloc: Global,
    templates: &Templates<'a>,
    objects: &NamedObjects<'a>,
    misfits: &[Misfit],
) -> Result<Vec<Telling<'a>>, AllocError> {
    let mut tellings = tell_misfits(alloc, templates, objects, misfits, name_rows())?;
    for kind in NAMED {
        let directive = object_groups::objects::name_directive(kind.block_kind());
        let blocks = templates.blocks();
        add_doubled_of(blocks, objects.objects(kind), directive, &mut tellings)?;
    }
    tellings.sort_by_key(|telling| telling.holder)?;
    add_near(alloc, objects, &mut tellings)?;
    Ok(tellings)
}

/// What is told of names, where this is the fault that loading answers.
fn told_of_names<'a>(
    alloc: Global,
    templates: &Templates<'a>,
    objects: &NamedObjects<'a>,
    first: LoadFault,
) -> Result<Told<'a>, AllocError>
    requires { objects.now ≡ templates.now }
    ensures begins { IfOk result (λ told. slice_get told.faults.items 0 ≡ Some first) }
    ensures names { IfOk result (λ told. AreNameFaults templates.now first told.faults.items) }
{
    let misfits = name_misfits(alloc, templates, objects)?;
    let found = names_found(alloc, objects, misfits.as_slice())?;
    let all = load_faults(alloc, templates.blocks(), found.as_slice())?;
    Ok(Told {
        faults: begun(alloc, all, first)?,
        tellings: tell_names(alloc, templates, objects, misfits.as_slice())?,
    })
}

/// What is told of blocks whose templates have no fault: of their values, or where these have none of their names.
fn told_of_templates<'a>(
    alloc: Global,
    templates: &Templates<'a>,
    line: u64,
    fault: BlockFault,
) -> Result<Told<'a>, AllocError>
    requires { AreFree templates.now }
    ensures { IfOk result (λ told. IsRefusal templates.now line fault
        → AreTold templates.now (load.Block line fault) told.faults.items) }
{
    let objects = NamedObjects::new(alloc, templates)?;
    let misfits = value_misfits(alloc, templates, &objects)?;
    if misfits.is_empty() {
        let first = LoadFault::Block { line, fault };
        let of_names = told_of_names(alloc, templates, &objects, first)?;
        return Ok(of_names);
    }
    let of_values = told_of_values(alloc, templates, &objects, misfits.as_slice())?;
    Ok(of_values)
}

/// The faults of tellings.
fn found_of(alloc: Global, tellings: &[Telling<'_>]) -> Result<Vec<Found>, AllocError> {
    let mut found = Vec::with_capacity(alloc, tellings.len())?;
    for telling in tellings {
        found.push(Found {
            place: telling.user,
            fault: telling.fault,
        })?;
    }
    Ok(found)
}

/// What is told of templates, where this is the fault that loading answers.
fn told_of_faulty<'a>(
    alloc: Global,
    blocks: &'a [Block],
    first: LoadFault,
) -> Result<Told<'a>, AllocError>
    ensures { IfOk result (λ told. slice_get told.faults.items 0 ≡ Some first) }
{
    let mut tellings = tell_templates(alloc, blocks)?;
    add_near_templates(alloc, blocks, &mut tellings)?;
    let found = found_of(alloc, tellings.as_slice())?;
    let all = load_faults(alloc, blocks, found.as_slice())?;
    Ok(Told {
        faults: begun(alloc, all, first)?,
        tellings,
    })
}

/// All faults of blocks of the pass that finds the one which loading answers.
fn told_of<'a>(
    alloc: Global,
    blocks: &'a [Block],
    line: u64,
    fault: BlockFault,
) -> Result<Told<'a>, AllocError>
    ensures { IfOk result (λ told. IsRefusal blocks.now line fault
        → AreTold blocks.now (load.Block line fault) told.faults.items) }
{
    match Templates::new(alloc, blocks) {
        Ok(templates) => {
            let sound = told_of_templates(alloc, &templates, line, fault)?;
            Ok(sound)
        }
        Err(InheritanceFault::NoMemory) => Err(AllocError),
        Err(InheritanceFault::AtLine { .. }) => {
            let faulty = told_of_faulty(alloc, blocks, LoadFault::Block { line, fault })?;
            Ok(faulty)
        }
    }
}

/// The same, where at least one is told: the one that loading answers.
pub(crate) fn told_blocks<'a>(
    alloc: Global,
    blocks: &'a [Block],
    line: u64,
    fault: BlockFault,
) -> Result<Told<'a>, AllocError>
    ensures faults { IfOk result (λ told. IsRefusal blocks.now line fault
        → AreTold blocks.now (load.Block line fault) told.faults.items) }
    ensures some { IfOk result (λ told. 0 < length told.tellings.items) }
{
    let mut told = told_of(alloc, blocks, line, fault)?;
    add_answered(blocks, &mut told.tellings, line, fault)?;
    Ok(told)
}
