//! Laws of resolved blocks, over every configuration. Each is the contract of a function with nothing to do.

ghost use Rattle.object_resolve.specs.Laws.{ResolvedIsAccepted, ResolvedIsUnrefused};
ghost use Rattle.object_resolve.specs.PlainLaws.{PlainConfigIsTheirOwn};

use object_contacts::laws::plain_contact_has_its_own;
use object_dependencies::laws::{dependencies_fit, no_loop_is_left as no_dependency_loop_is_left};
use object_escalations::laws::{each_is_counted, one_block_passes, one_for_each};
use object_inheritance::laws::plain_block_has_its_own;
use object_listing::laws::listed_are_objects;
use object_periods::laws::{no_loop_is_left, periods_fit};
use object_services::laws::{count_is_the_sum, one_place_passes};
use object_settings::laws::{plain_host_has_its_own, plain_service_has_its_own};

/// A configuration that blocks give is accepted.
pub fn accept_resolved()
    ensures { ResolvedIsAccepted }
{
    listed_are_objects();
    count_is_the_sum();
    one_for_each();
    each_is_counted();
    periods_fit();
    no_loop_is_left();
    dependencies_fit();
    no_dependency_loop_is_left();
}

/// Blocks with a fault give no configuration.
pub fn resolve_no_refused()
    ensures { ResolvedIsUnrefused }
{
    one_place_passes();
    one_block_passes();
}

/// Without templates and groups, a configuration is what the blocks say themselves: the hosts, services, contacts,
/// lanes and periods, with their names. Of escalations and dependencies it says no more than for any blocks.
pub fn plain_config_is_their_own()
    ensures { PlainConfigIsTheirOwn }
{
    plain_block_has_its_own();
    plain_host_has_its_own();
    plain_service_has_its_own();
    plain_contact_has_its_own();
}
