//! The law of notification dependencies (chapter "Host and Service Dependencies").

ghost use Rattle.due_laws.specs.Dependencies.{DependenciesFailByChains};

/// A dependency of an object fails exactly where a chain of entries leads from it to a master in a state that
/// the last entry lists, while the periods of all of them hold and all but the last inherit.
pub fn fail_by_chains()
    ensures { DependenciesFailByChains }
{}
