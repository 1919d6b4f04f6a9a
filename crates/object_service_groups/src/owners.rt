//! The service block of each service.

ghost use Rattle.std.specs.Prelude.{◌≡◌, ◌++◌, length, map, replicate, IfOk, OnOk};
ghost use Rattle.object_service_groups.specs.claims.Groups.{owners_of};

use object_services::services::ServiceHosts;
use std::alloc::{AllocError, Global};

/// Adds the number of a block, once for each of its services.
fn push_block(owners: &mut Vec<usize>, number: usize, count: usize) -> Result<(), AllocError>
    ensures { OnOk result (owners.new.items ≡ owners.old.items ++ replicate count number) }
{
    for _service in 0..count {
        owners.push(number)?;
    }
    Ok(())
}

/// The number of each service's block, in the order of the services.
pub(crate) fn owners_of(alloc: Global, lists: &ServiceHosts) -> Result<Vec<usize>, AllocError>
    ensures { IfOk result (λ owners. owners.items ≡ owners_of lists.now) }
{
    let mut owners = Vec::new(alloc);
    for number in 0..lists.len() {
        push_block(&mut owners, number, lists.hosts(number).len())?;
    }
    Ok(owners)
}
