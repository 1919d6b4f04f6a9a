//! Laws of service groups, each the contract of a function with nothing to do.

ghost use Rattle.object_service_groups.specs.Laws.{BlocksServicesAreMembers, IncludedAreMembers};
ghost use Rattle.object_service_groups.specs.Laws.{ListedAreMembers};
ghost use Rattle.object_service_groups.specs.Laws.{LoopAddsNothing, MembersAreServices};

/// A group's members don't change when a loop is added to it.
pub fn loop_adds_nothing()
    ensures { LoopAddsNothing }
{}

/// The services that a group lists are its members, those of a block that names it, and the members of a group that
/// it lists.
pub fn what_is_listed_is_a_member()
    ensures listed { ListedAreMembers }
    ensures blocks { BlocksServicesAreMembers }
    ensures included { IncludedAreMembers }
{}

/// The members of groups are services.
pub fn members_are_services()
    ensures { MembersAreServices }
{}
