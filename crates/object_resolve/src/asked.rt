//! Of which blocks the contacts are asked for.

ghost use Rattle.std.specs.Prelude.{◌≡◌, length, IfOk, if◌then◌else◌};
ghost use Rattle.object_resolve.specs.Asked.{asked_below, gives_any};

use object_escalations::escalated::EscalatedObjects;
use object_groups::objects::is_object;
use object_reader::block::{Block, BlockKind};
use object_services::services::ServiceHosts;
use std::alloc::{AllocError, Global};

/// Whether a block gives objects or escalations: it is a host, or a service block with these hosts, of which there are
/// any, or it speaks of these objects.
fn gives_any(host: bool, service: bool, hosts: &[usize], objects: &[usize]) -> bool
    ensures { result ≡ gives_any host service hosts.now objects.now }
{
    host || (service && !hosts.is_empty()) || !objects.is_empty()
}

/// One, for a service block.
fn service_count(service: bool) -> usize
    ensures { result ≡ if service then 1 else 0 }
{
    if service { 1 } else { 0 }
}

/// For each block whether its contacts are asked for: it gives objects or escalations, where `hosts` are the hosts of
/// each service block, and `escalated` the objects of which each block speaks. So no list of contacts is made but for what
/// the configuration has. A refused growth leaves nothing.
pub(crate) fn asked_of(
    alloc: Global,
    blocks: &[Block],
    hosts: &ServiceHosts,
    escalated: &EscalatedObjects,
) -> Result<Vec<bool>, AllocError>
    ensures { IfOk result (λ asked. asked.items
        ≡ asked_below blocks.now hosts.now escalated.now (length blocks.now)) }
{
    let mut asked = Vec::with_capacity(alloc, blocks.len())?;
    let mut services = 0;
    for (place, block) in blocks.iter().enumerate() {
        let host = is_object(BlockKind::Host, block);
        let service = is_object(BlockKind::Service, block);
        let gives = gives_any(
            host,
            service,
            hosts.hosts(services),
            escalated.objects(place),
        );
        asked.push(gives)?;
        services += service_count(service);
    }
    Ok(asked)
}
