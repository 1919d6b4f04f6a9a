//! The warnings of a configuration, as they are told.

ghost use Rattle.std.specs.Prelude.{◌≡◌, ◌+◌, count_by, is_some, length, sum_by};
ghost use Rattle.std.specs.Prelude.{IfOk, OnOk, if◌then◌else◌};
ghost use Rattle.due_model.specs.claims.Accepted.{IsAccepted};
ghost use Rattle.site_check.specs.Warnings.{IsHours, IsOfConfig, of_objects, of_periods, of_unused};
ghost use Rattle.site_check.specs.Warnings.{never_numbers, of_dead, of_never, of_silent, of_unknown_zone};
ghost use Rattle.site_check.specs.Warnings.{of_without_problems};
ghost use Rattle.site_check.specs.Warnings.{unused_of, unused_templates_of};

use crate::options::Form;
use crate::origins::{object_places, period_places};
use crate::warned::{Warned, about, add_of_blocks, add_of_templates, add_places, is_left_out};
use due_model::config::Config;
use due_model::limits::LAST_MOMENT;
use object_groups::objects::name_directive;
use object_inheritance::templates::Templates;
use object_names::named::{NamedKind, NamedObjects};
use object_reader::block::{Block, BlockKind};
use object_warnings::escalations::dead;
use object_warnings::hours::{Span, without_hours};
use object_warnings::objects::{untold, without_problems};
use object_warnings::periods::{never, without_zone};
use object_warnings::unused::{unused, unused_templates};
use object_warnings::warning::Warning;
use std::alloc::{AllocError, Global};
use time_period::compile::compile_all;
use zone_times::clock::ZoneClock;

/// The place of that number among the places.
fn place_of(places: &[usize], number: usize) -> usize {
    match places.get(number) {
        Some(place) => *place,
        None => 0,
    }
}

/// Adds a warning about each of the blocks that give what has these numbers, where those of all stand at these places.
fn add_numbers<'a>(
    warning: Warning,
    directive: &'a str,
    numbers: &[usize],
    places: &[usize],
    warned: &mut Vec<Warned<'a>>,
) -> Result<(), AllocError>
    ensures { OnOk result (length warned.new.items ≡ length warned.old.items + length numbers.now) }
{
    for number in numbers {
        warned.push(about(warning, place_of(places, *number), directive))?;
    }
    Ok(())
}

/// Adds what is told of hosts and services of which nobody is told.
fn add_silent<'a>(
    alloc: Global,
    form: Form<'_, '_>,
    config: &Config,
    places: &[usize],
    warned: &mut Vec<Warned<'a>>,
) -> Result<(), AllocError>
    requires { IsAccepted config.now }
    ensures { OnOk result (length warned.new.items ≡ length warned.old.items + of_silent form.entry config.now) }
{
    if is_left_out(form, Warning::NobodyTold) {
        return Ok(());
    }
    let numbers = untold(alloc, config)?;
    add_numbers(Warning::NobodyTold, "", numbers.as_slice(), places, warned)?;
    Ok(())
}

/// Adds what is told of those whose options lack their problems.
fn add_without_problems<'a>(
    alloc: Global,
    form: Form<'_, '_>,
    config: &Config,
    places: &[usize],
    warned: &mut Vec<Warned<'a>>,
) -> Result<(), AllocError>
    ensures { OnOk result (length warned.new.items
        ≡ length warned.old.items + of_without_problems form.entry config.now) }
{
    if is_left_out(form, Warning::MissingOption) {
        return Ok(());
    }
    let numbers = without_problems(alloc, config)?;
    let directive = "notification_options";
    add_numbers(
        Warning::MissingOption,
        directive,
        numbers.as_slice(),
        places,
        warned,
    )?;
    Ok(())
}

/// The place of the block of the object of an escalation.
fn escalated_place(config: &Config, places: &[usize], number: usize) -> usize {
    match config.escalations.as_slice().get(number) {
        Some(escalation) => place_of(places, usize::from(escalation.object.0)),
        None => 0,
    }
}

/// Adds what is told of the escalations of these numbers, each at the block of its object.
fn add_escalations<'a>(
    config: &Config,
    places: &[usize],
    numbers: &[usize],
    warned: &mut Vec<Warned<'a>>,
) -> Result<(), AllocError>
    ensures { OnOk result (length warned.new.items ≡ length warned.old.items + length numbers.now) }
{
    for number in numbers {
        let place = escalated_place(config, places, *number);
        warned.push(about(Warning::DeadEscalation, place, ""))?;
    }
    Ok(())
}

/// Adds what is told of escalations that match no number.
fn add_dead<'a>(
    alloc: Global,
    form: Form<'_, '_>,
    config: &Config,
    places: &[usize],
    warned: &mut Vec<Warned<'a>>,
) -> Result<(), AllocError>
    ensures { OnOk result (length warned.new.items ≡ length warned.old.items + of_dead form.entry config.now) }
{
    if is_left_out(form, Warning::DeadEscalation) {
        return Ok(());
    }
    let numbers = dead(alloc, config)?;
    add_escalations(config, places, numbers.as_slice(), warned)?;
    Ok(())
}

/// Adds what is told of an object at some time of whose week nobody is told.
fn add_gap(place: usize, span: Option<Span>, warned: &mut Vec<Warned<'_>>) -> Result<(), AllocError>
    ensures { OnOk result (length warned.new.items ≡ length warned.old.items
        + (if is_some span then 1 else 0)) }
{
    if span.is_some() {
        let mut one = about(Warning::NoHours, place, "");
        one.span = span;
        warned.push(one)?;
    }
    Ok(())
}

/// Adds what is told of all such objects, where these are their spans.
fn add_gaps(
    spans: &[Option<Span>],
    places: &[usize],
    warned: &mut Vec<Warned<'_>>,
) -> Result<(), AllocError>
    ensures { OnOk result (length warned.new.items ≡ length warned.old.items + count_by is_some spans.now) }
{
    for number in 0..spans.len() {
        add_gap(place_of(places, number), spans[number], warned)?;
    }
    Ok(())
}

/// Adds what is told of objects at some time of whose week nobody is told.
fn add_without_hours(
    alloc: Global,
    form: Form<'_, '_>,
    config: &Config,
    places: &[usize],
    warned: &mut Vec<Warned<'_>>,
) -> Result<(), AllocError>
    requires { IsAccepted config.now }
    ensures { OnOk result (IsHours form.entry config.now (length warned.old.items) (length warned.new.items)) }
{
    let spans = without_hours(alloc, config)?;
    if is_left_out(form, Warning::NoHours) {
        return Ok(());
    }
    add_gaps(spans.as_slice(), places, warned)?;
    Ok(())
}

/// Adds what is told of periods for which the zone counts.
fn add_without_zone<'a>(
    alloc: Global,
    form: Form<'_, '_>,
    config: &Config,
    places: &[usize],
    warned: &mut Vec<Warned<'a>>,
) -> Result<(), AllocError>
    ensures { OnOk result (length warned.new.items
        ≡ length warned.old.items + of_unknown_zone form.entry config.now) }
{
    if is_left_out(form, Warning::NoZone) {
        return Ok(());
    }
    let numbers = without_zone(alloc, config, form.has_zone)?;
    add_numbers(Warning::NoZone, "", numbers.as_slice(), places, warned)?;
    Ok(())
}

/// The numbers of the periods that never hold within 400 days of the moment.
fn never_numbers(
    alloc: Global,
    form: Form<'_, '_>,
    config: &Config,
) -> Result<Vec<usize>, AllocError>
    requires { IsAccepted config.now }
    ensures { IfOk result (λ numbers. numbers.items ≡ never_numbers form.entry config.now) }
{
    let compiled = compile_all(alloc, config)?;
    let clock = ZoneClock::new(form.zone);
    let moment = form.moment.min(LAST_MOMENT);
    let numbers = never(alloc, compiled.as_slice(), &clock, moment)?;
    Ok(numbers)
}

/// Adds what is told of periods that never hold.
fn add_never<'a>(
    alloc: Global,
    form: Form<'_, '_>,
    config: &Config,
    places: &[usize],
    warned: &mut Vec<Warned<'a>>,
) -> Result<(), AllocError>
    requires { IsAccepted config.now }
    ensures { OnOk result (length warned.new.items ≡ length warned.old.items + of_never form.entry config.now) }
{
    if is_left_out(form, Warning::NeverHours) {
        return Ok(());
    }
    let numbers = never_numbers(alloc, form, config)?;
    add_numbers(Warning::NeverHours, "", numbers.as_slice(), places, warned)?;
    Ok(())
}

/// Adds what is told of objects of the types that nothing names.
fn add_unused_objects<'a>(
    alloc: Global,
    templates: &Templates<'_>,
    kinds: &[NamedKind],
    warned: &mut Vec<Warned<'a>>,
) -> Result<(), AllocError>
    ensures { OnOk result (length warned.new.items
        ≡ length warned.old.items + sum_by (unused_of templates.now) kinds.now) }
{
    let objects = NamedObjects::new(alloc, templates)?;
    for kind in kinds {
        let numbers = unused(alloc, templates, *kind)?;
        let directive = name_directive(kind.block_kind());
        let places = objects.objects(*kind).places();
        add_numbers(
            Warning::Unused,
            directive,
            numbers.as_slice(),
            places,
            warned,
        )?;
    }
    Ok(())
}

/// Adds what is told of templates of the types that nothing names.
fn add_unused_templates<'a>(
    alloc: Global,
    blocks: &[Block],
    kinds: &[BlockKind],
    warned: &mut Vec<Warned<'a>>,
) -> Result<(), AllocError>
    ensures { OnOk result (length warned.new.items
        ≡ length warned.old.items + sum_by (unused_templates_of blocks.now) kinds.now) }
{
    for kind in kinds {
        let places = unused_templates(alloc, blocks, *kind)?;
        add_places(Warning::Unused, "name", places.as_slice(), warned)?;
    }
    Ok(())
}

/// Adds what is told of what nothing names.
#[tactic(auto, unfolding(crate::specs::Warnings::of_unused))]
fn add_unused<'a>(
    alloc: Global,
    form: Form<'_, '_>,
    templates: &Templates<'_>,
    warned: &mut Vec<Warned<'a>>,
) -> Result<(), AllocError>
    ensures { OnOk result (length warned.new.items ≡ length warned.old.items + of_unused form.entry templates.now) }
{
    if is_left_out(form, Warning::Unused) {
        return Ok(());
    }
    let kinds = [
        NamedKind::HostGroup,
        NamedKind::ServiceGroup,
        NamedKind::Contact,
        NamedKind::ContactGroup,
        NamedKind::TimePeriod,
        NamedKind::Command,
    ];
    add_unused_objects(alloc, templates, &kinds, warned)?;
    let blocks = [
        BlockKind::Host,
        BlockKind::HostGroup,
        BlockKind::Service,
        BlockKind::ServiceGroup,
        BlockKind::Contact,
        BlockKind::ContactGroup,
        BlockKind::TimePeriod,
        BlockKind::Command,
        BlockKind::HostEscalation,
        BlockKind::ServiceEscalation,
        BlockKind::HostDependency,
        BlockKind::ServiceDependency,
    ];
    add_unused_templates(alloc, templates.blocks(), &blocks, warned)?;
    Ok(())
}

/// Adds what is told of the hosts and services, but for their hours.
fn add_of_objects<'a>(
    alloc: Global,
    form: Form<'_, '_>,
    config: &Config,
    places: &[usize],
    warned: &mut Vec<Warned<'a>>,
) -> Result<(), AllocError>
    requires { IsAccepted config.now }
    ensures { OnOk result (length warned.new.items ≡ length warned.old.items + of_objects form.entry config.now) }
{
    add_silent(alloc, form, config, places, warned)?;
    add_without_problems(alloc, form, config, places, warned)?;
    add_dead(alloc, form, config, places, warned)?;
    Ok(())
}

/// Adds what is told of the periods.
fn add_of_periods<'a>(
    alloc: Global,
    form: Form<'_, '_>,
    config: &Config,
    places: &[usize],
    warned: &mut Vec<Warned<'a>>,
) -> Result<(), AllocError>
    requires { IsAccepted config.now }
    ensures { OnOk result (length warned.new.items ≡ length warned.old.items + of_periods form.entry config.now) }
{
    add_without_zone(alloc, form, config, places, warned)?;
    add_never(alloc, form, config, places, warned)?;
    Ok(())
}

/// The warnings of blocks that have this configuration.
pub(crate) fn warned_of_config<'a>(
    alloc: Global,
    form: Form<'_, '_>,
    templates: &Templates<'a>,
    config: &Config,
) -> Result<Vec<Warned<'a>>, AllocError>
    requires { IsAccepted config.now }
    ensures { IfOk result (λ warned. IsOfConfig form.entry templates.now config.now (length warned.items)) }
{
    let mut warned = Vec::new(alloc);
    add_of_blocks(alloc, form, templates.blocks(), &mut warned)?;
    add_of_templates(alloc, form, templates, &mut warned)?;
    add_unused(alloc, form, templates, &mut warned)?;
    let places = object_places(alloc, templates)?;
    add_of_objects(alloc, form, config, places.as_slice(), &mut warned)?;
    add_without_hours(alloc, form, config, places.as_slice(), &mut warned)?;
    let periods = period_places(alloc, templates)?;
    add_of_periods(alloc, form, config, periods.as_slice(), &mut warned)?;
    Ok(warned)
}
