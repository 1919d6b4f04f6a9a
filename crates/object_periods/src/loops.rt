//! Loops of exclusions (chapter "Time Periods").

ghost use Rattle.std.specs.Prelude.{◌≡◌, ◌+◌, ◌<◌, ◌^◌, codes, length, map, All};
ghost use Rattle.std.specs.Prelude.{IfNone, IfOk, IfSome};
ghost use Rattle.std.specs.List.{range_with_len};
ghost use Rattle.object_groups.specs.claims.Objects.{objects_in};
ghost use Rattle.object_periods.specs.Loops.{AreExclusions, HasNoPeriodLoop, IsFirstLooped};
ghost use Rattle.object_periods.specs.Loops.{rule_edge};
ghost use Rattle.object_periods.specs.Periods.{column_of};
ghost use Rattle.object_reader.specs.declared.block.BlockKind.TheVariants.{TimePeriod};

use graph::edges::Edge;
use graph_rules::rules::Rules;
use object_groups::lists::{Direction, ListNodes, push_lists};
use object_groups::objects::Objects;
use object_inheritance::inherited::Values;
use object_inheritance::templates::Templates;
use std::alloc::{AllocError, Global};

/// The numbers below this one, in order.
fn numbers_below(alloc: Global, count: u32) -> Result<Vec<u32>, AllocError>
    ensures { IfOk result (λ numbers. numbers.items ≡ range_with_len 0 count) }
{
    let mut numbers = Vec::with_capacity(alloc, count as usize)?;
    for number in 0..count {
        numbers.push(number)?;
    }
    Ok(numbers)
}

/// An edge from each rule to a node: the node of the rule of number 0 is the first.
fn edges_from(alloc: Global, rules: &[u32], first: u32) -> Result<Vec<Edge>, AllocError>
    requires { All (λ rule. first + rule < 2 ^ 32) rules.now }
    ensures { IfOk result (λ edges. edges.items ≡ map (rule_edge first) rules.now) }
{
    let mut edges = Vec::with_capacity(alloc, rules.len())?;
    for rule in rules {
        edges.push(Edge {
            from: *rule,
            to: first + *rule,
        })?;
    }
    Ok(edges)
}

/// The rules by which periods exclude others, one for each. The first nodes are those of the periods, then come those of
/// their lists, which lead to what they name, and those of lists that several take.
fn exclusions<'a>(
    alloc: Global,
    objects: &Objects<'a>,
    excludes: &Values<'a>,
    count: u32,
) -> Result<Rules, AllocError>
    requires kind { objects.now.kind ≡ TimePeriod }
    requires excludes { excludes.now ≡ column_of objects.now.blocks (codes "exclude") }
    requires count { count ≡ length (objects_in objects.now.blocks TimePeriod) }
    requires few { count + count < 2 ^ 32 }
    ensures { IfOk result (AreExclusions objects.now.blocks) }
{
    let nodes = ListNodes {
        direction: Direction::ToNames,
        node: count,
        first: 0,
        all: None,
        count: count + count,
    };
    let mut members = Vec::new(alloc);
    let places = objects.places();
    let next = push_lists(
        alloc,
        &mut members,
        excludes,
        places,
        objects.names(),
        nodes,
    )?;
    let numbers = numbers_below(alloc, count)?;
    Ok(Rules {
        count,
        nodes: next,
        dependents: edges_from(alloc, numbers.as_slice(), 0)?,
        masters: edges_from(alloc, numbers.as_slice(), count)?,
        objects: numbers,
        members,
    })
}

/// The place of the first block, in file order, that is a registered period on a loop of exclusions, if there is one:
/// from it a chain of exclusions comes back to it. The time grows with the blocks, their directives, the
/// templates that they use and the entries of the lists that blocks give, each once, however many take them. Over
/// 2,147,483,647 periods are want of memory. A refused growth leaves nothing.
pub fn loop_of<'a>(
    alloc: Global,
    templates: &Templates<'a>,
    objects: &Objects<'a>,
) -> Result<Option<usize>, AllocError>
    requires { objects.now ≡ record { blocks = templates.now; kind = TimePeriod } }
    ensures first { IfOk result (λ found. IfSome found (IsFirstLooped templates.now)) }
    ensures no_loop { IfOk result (λ found. IfNone found (HasNoPeriodLoop templates.now)) }
{
    let places = objects.places();
    if places.len() > (u32::MAX / 2) as usize {
        return Err(AllocError);
    }
    let excludes = Values::new(alloc, templates, "exclude".as_bytes())?;
    let rules = exclusions(alloc, objects, &excludes, places.len() as u32)?;
    match rules.first_looped(alloc)? {
        None => Ok(None),
        Some(rule) => Ok(Some(places[rule as usize])),
    }
}
