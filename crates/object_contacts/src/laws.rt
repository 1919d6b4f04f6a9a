//! Laws of the contacts of blocks. Each is the contract of a function with nothing to do.

ghost use Rattle.object_contacts.specs.Laws.{PlainContactHasItsOwn};

use object_inheritance::laws::plain_block_has_its_own;

/// Without templates, a contact block gives what it says itself: its own directives, or the defaults, and the
/// lanes of the commands that it names.
pub fn plain_contact_has_its_own()
    ensures { PlainContactHasItsOwn }
{
    plain_block_has_its_own();
}
