//! Laws of the objects of blocks. Each is the contract of a function with nothing to do.

ghost use Rattle.object_settings.specs.Laws.{PlainHostHasItsOwn, PlainServiceHasItsOwn};

use object_inheritance::laws::plain_block_has_its_own;

/// Without templates and groups, a host block gives what it says itself: its own directives, or the defaults,
/// and the contacts that it names.
pub fn plain_host_has_its_own()
    ensures { PlainHostHasItsOwn }
{
    plain_block_has_its_own();
}

/// Without templates and groups, a service block gives what it says itself. Where it says nothing of contacts, interval
/// or period, what the host's block says itself comes before the default.
pub fn plain_service_has_its_own()
    ensures { PlainServiceHasItsOwn }
{
    plain_block_has_its_own();
}
