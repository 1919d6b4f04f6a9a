//! The edges to services from their blocks.

ghost use Rattle.std.specs.Prelude.{◌≡◌, ◌+◌, ◌<◌, ◌^◌, ◌++◌, length};
ghost use Rattle.std.specs.Prelude.{All, OnOk};
ghost use Rattle.object_service_groups.specs.Nodes.{owner_edges};

use graph::edges::Edge;
use std::alloc::AllocError;

/// Adds the edge to each service from its block.
pub(crate) fn push_owners(
    edges: &mut Vec<Edge>,
    middle: u32,
    owners: &[usize],
) -> Result<(), AllocError>
    requires few { length owners.now < 2 ^ 32 }
    requires within { All (λ owner. middle + owner < 2 ^ 32) owners.now }
    ensures { OnOk result (edges.new.items
        ≡ edges.old.items ++ owner_edges middle owners.now) }
{
    for (service, owner) in owners.iter().enumerate() {
        edges.push(Edge {
            from: middle + *owner as u32,
            to: service as u32,
        })?;
    }
    Ok(())
}
