//! Where the values stand in the object text that filters go by.

ghost use Rattle.std.specs.Prelude.{◌≡◌, ◌≤◌, ◌++◌, map, OnOk};
ghost use Rattle.why_told.specs.Places.{contact_place, object_place, place_at, place_text, right_place, shown_place};

use due_model::config::ContactId;
use due_model::notice::Filter;
use std::alloc::AllocError;
use std::marker::Model;

/// Where values of the configuration stand, each as a text such as `site.cfg:212`; empty where it isn't known. First come those that the filters of an object
/// go by, in the order in which these are tried, eleven; and then three for each contact: of whether it is notified, of its options, and of its period.
#[derive(Drop)]
pub struct Places {
    texts: Vec<Vec<u8>>,
}

impl Model for Places {
    ghost use Rattle.std.specs.Prelude.{ℕ, List, map};

    ghost Value = { List (List ℕ) };

    ghost view = { λ s. map (λ text. text.items) s.texts.items };
}

impl Places {
    /// These.
    pub fn new(texts: Vec<Vec<u8>>) -> Places
        ensures { result ≡ map (λ text. text.items) texts.items }
    {
        Places { texts }
    }

    /// That of a number; empty where there is none.
    pub(crate) fn place(&self, number: usize) -> &[u8]
        ensures { result.now ≡ place_at self.now number }
    {
        if number < self.texts.len() {
            self.texts[number].as_slice()
        } else {
            &[]
        }
    }

    /// Adds that of a number, behind a value, if it is known. A refused growth is the only error.
    pub(crate) fn push(&self, text: &mut Vec<u8>, number: usize) -> Result<(), AllocError>
        ensures { OnOk result (text.new.items ≡ text.old.items ++ place_text self.now number) }
    {
        push_place(text, self.place(number))
    }
}

/// Adds a place, if it is known.
fn push_place(text: &mut Vec<u8>, place: &[u8]) -> Result<(), AllocError>
    ensures { OnOk result (text.new.items ≡ text.old.items ++ shown_place place.now) }
{
    let [_, ..] = place else {
        return Ok(());
    };
    text.extend_from_slice(b"  ")?;
    text.extend_from_slice(place)
}

/// The number of the place of an object's filter; where it goes by no directive, that of another that goes by none.
pub(crate) fn object_place(filter: Filter) -> usize
    ensures { result ≡ object_place filter }
{
    match filter {
        Filter::Disabled => 1,
        Filter::Options => 4,
        Filter::Period => 6,
        Filter::FirstDelay => 9,
        Filter::Interval => 10,
        _ => 0,
    }
}

/// Which of a contact's three places is that of a filter.
fn right_place(filter: Filter) -> usize
    ensures place { result ≡ right_place filter }
    ensures within { result ≤ 2 }
{
    match filter {
        Filter::ContactOptions => 1,
        Filter::ContactPeriod => 2,
        _ => 0,
    }
}

/// The number among all of the place of a contact's filter.
pub(crate) fn contact_place(contact: ContactId, filter: Filter) -> usize
    ensures { result ≡ contact_place contact.0 filter }
{
    11 + usize::from(contact.0) * 3 + right_place(filter)
}
