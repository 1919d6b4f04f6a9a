//! The graph of templates: each block leads to the templates that it uses.

ghost use Rattle.std.specs.Prelude.{◌≡◌, ℕ, ◌^◌, ◌<◌, ◌++◌, length, map};
ghost use Rattle.std.specs.Prelude.{slice_index_or, All, IfOk, OnOk, [], is_none};
ghost use Rattle.std.specs.Option.{option_to_list};
ghost use Rattle.graph.specs.Edges.{ends_of, IsWithin};
ghost use Rattle.object_inheritance.specs.claims.Faults.{uses_unknown};
ghost use Rattle.object_inheritance.specs.claims.Templates.{template_graph, templates_of};
ghost use Rattle.object_inheritance.specs.Templates.{edge_from};

use crate::names::{TemplateNames, used_names};
use graph::edges::{Edge, Graph};
use object_reader::block::Block;
use std::alloc::{AllocError, Global};

/// Adds the edge to a template that is found.
fn push_edge(edges: &mut Vec<Edge>, place: u32, found: Option<u32>) -> Result<(), AllocError>
    ensures { OnOk result (edges.new.items
        ≡ edges.old.items ++ map (edge_from place) (option_to_list found)) }
{
    if let Some(to) = found {
        edges.push(Edge { from: place, to })?;
    }
    Ok(())
}

/// Adds the edges from a block to the templates that it uses.
fn push_edges<'a>(
    alloc: Global,
    edges: &mut Vec<Edge>,
    names: &TemplateNames<'a>,
    place: u32,
    block: &'a Block,
) -> Result<(), AllocError>
    ensures { OnOk result (edges.new.items
        ≡ edges.old.items ++ map (edge_from place) (templates_of names.now block.now)) }
{
    let used = used_names(alloc, block)?;
    for name in used.as_slice() {
        push_edge(edges, place, names.find(block.kind, *name))?;
    }
    Ok(())
}

/// The edges of all blocks.
fn edges_of(alloc: Global, names: &TemplateNames) -> Result<Vec<Edge>, AllocError>
    ensures ends { IfOk result (λ edges. (p : ℕ)
        → ends_of edges.items p ≡ slice_index_or (template_graph names.now) p []) }
    ensures within { IfOk result (λ edges. All (IsWithin (length names.now)) edges.items) }
{
    let mut edges = Vec::new(alloc);
    for (place, block) in names.blocks().iter().enumerate() {
        push_edges(alloc, &mut edges, names, place as u32, block)?;
    }
    Ok(edges)
}

/// The graph of the blocks and the templates that they use.
pub(crate) fn template_graph(alloc: Global, names: &TemplateNames) -> Result<Graph, AllocError>
    ensures { IfOk result (λ graph. graph ≡ template_graph names.now) }
{
    let edges = edges_of(alloc, names)?;
    Graph::new(alloc, names.blocks().len() as u32, edges.as_slice())
}

/// Whether a block uses a name that no template of its type has.
pub(crate) fn uses_unknown<'a>(
    alloc: Global,
    names: &TemplateNames<'a>,
    block: &'a Block,
) -> Result<bool, AllocError>
    ensures { IfOk result (λ unknown. unknown ≡ uses_unknown names.now block.now) }
{
    let used = used_names(alloc, block)?;
    for name in used.as_slice() {
        if names.find(block.kind, *name).is_none() {
            return Ok(true);
        }
    }
    Ok(false)
}
