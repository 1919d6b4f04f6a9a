//! Laws of what blocks list, each the contract of a function with nothing to do.

ghost use Rattle.object_listing.specs.Laws.{ListedAreObjects, MembersAreThere, NamedAreThere};

/// An object that the list names is there, and one that a listed group has.
pub fn listed_are_there()
    ensures named { NamedAreThere }
    ensures members { MembersAreThere }
{}

/// What a block lists are objects of the type.
pub fn listed_are_objects()
    ensures { ListedAreObjects }
{}
