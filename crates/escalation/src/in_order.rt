//! Contacts, each once and in number order.

ghost use Rattle.std.specs.Prelude.{◌≡◌, ℕ, ◌<◌, ◌++◌, ◌↔◌, All, AllPairs, filter};
ghost use Rattle.std.specs.Prelude.{IsTrue};
ghost use Rattle.std.specs.Prelude.{OnErr, OnOk};
ghost use Rattle.std.specs.List.{range_with_len};
ghost use Rattle.due_model.specs.claims.Escalations.{has_contact};
ghost use Rattle.escalation.specs.Named.{contact_ids};

use due_model::config::ContactId;
use std::alloc::AllocError;

/// Appends contacts, each once and in number order. A refused growth leaves `out` as it was.
pub(crate) fn append_in_order(
    named: Vec<ContactId>,
    out: &mut Vec<ContactId>,
) -> Result<(), AllocError>
    ensures appended { OnOk result ((count : ℕ) → All (λ contact. contact.0 < count) named.items
        → out.new.items ≡ out.old.items
        ++ contact_ids (filter (has_contact named.items) (range_with_len 0 count))) }
    ensures refused { OnErr result (out.new.items ≡ out.old.items) }
{
    let mut contacts = named;
    contacts.sort_unstable_by_key(|contact| contact.0);
    contacts.dedup();
    out.extend_from_slice(contacts.as_slice())
}

/// Whether contacts stand in number order, each once.
pub(crate) fn is_in_order(contacts: &[ContactId]) -> bool
    ensures { IsTrue result ↔ AllPairs (λ first second. first.0 < second.0) contacts.now }
{
    contacts.is_sorted_by(|first, second| first.0 < second.0)
}
