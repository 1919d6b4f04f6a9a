//! Laws of the objects of which blocks speak, each the contract of a function with nothing to do.

ghost use Rattle.object_reached.specs.Laws.{SpokenAreObjects};

use object_listing::laws::listed_are_objects;
use object_service_groups::laws::members_are_services;

/// What blocks speak of are hosts and services.
pub fn spoken_are_objects()
    ensures { SpokenAreObjects }
{
    listed_are_objects();
    members_are_services();
}
