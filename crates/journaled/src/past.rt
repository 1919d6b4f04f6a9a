//! What earlier runs left of a lane.

ghost use Rattle.std.specs.Prelude.{◌≡◌, ◌<◌, ◌≤◌, ◌↔◌, ℕ, All, Contains, IsTrue, length, slice_index_or, true, false};
ghost use Rattle.due_model.specs.declared.notice.Notice.{Notice};
ghost use Rattle.std.specs.List.Sorted.{IsNonDecreasingBy, IsPermutation};
ghost use Rattle.std.specs.List.{list_any};
ghost use Rattle.journaled.specs.Claims.{IsHeld, is_settled, settles};
ghost use Rattle.journaled.specs.Places.{IsWithin, place, turn};

use due_model::config::ContactId;
use due_model::notice::Notice;
use std::marker::Model;

/// What earlier runs say of a letter.
#[derive(Clone, Copy, Debug, PartialEq, Eq)]
pub enum Claim {
    /// It is to be handed over.
    New,
    /// It is settled.
    Held,
    /// It isn't, but another is in its place, or one that is due after it.
    Differs,
}

/// What earlier runs left of a lane. It never changes.
#[derive(Drop)]
pub struct Past {
    from: u64,
    /// In the order of their places, as the others.
    settled: Vec<Notice>,
    begun: Vec<Notice>,
}

impl Model for Past {
    ghost use Rattle.std.specs.Prelude.{All};
    ghost use Rattle.std.specs.List.Sorted.{IsNonDecreasingBy};
    ghost use Rattle.journaled.specs.Claims.{Past};
    ghost use Rattle.journaled.specs.Places.{IsWithin, place};

    ghost Value = { Past };

    ghost view = { λ s. record {
      from = s.from;
      settled = s.settled.items;
      begun = s.begun.items;
    } };

    ghost invariant = { λ s. IsNonDecreasingBy place s.settled.items × All IsWithin s.settled.items
        × IsNonDecreasingBy place s.begun.items };
}

/// The number of a contact.
fn number_of(contact: ContactId) -> u16
    ensures { result ≡ contact.0 }
{
    contact.0
}

/// Where a notice stands among those of its object.
fn turn_of(notice: &Notice) -> u128
    ensures turn { result ≡ turn notice.now }
    ensures within { IsWithin notice.now }
{
    u128::from(notice.event) * 65_536 + u128::from(number_of(notice.contact))
}

/// Where a notice stands among all: first by objects.
fn place_of(notice: &Notice) -> u128
    ensures place { result ≡ place notice.now }
    ensures within { IsWithin notice.now }
{
    u128::from(notice.object.0) * 1_208_925_819_614_629_174_706_176 + turn_of(notice)
}

/// The numbers of notices are those of their types.
fn are_within(notices: &[Notice])
    ensures { All IsWithin notices.now }
{
    for notice in notices {
        let _turn = turn_of(notice);
    }
}

/// How many stand before this place.
fn count_before(settled: &[Notice], at: u128) -> usize
    requires { IsNonDecreasingBy place settled.now }
    ensures within { result ≤ length settled.now }
    ensures less { (k : ℕ) (d : Notice) → k < result → place (slice_index_or settled.now k d) < at }
    ensures rest { (k : ℕ) (d : Notice) → result ≤ k → k < length settled.now
        → at ≤ place (slice_index_or settled.now k d) }
{
    settled.partition_point(|notice| place_of(notice) < at)
}

/// How many stand before this place or at it.
fn count_up_to(settled: &[Notice], at: u128) -> usize
    requires { IsNonDecreasingBy place settled.now }
    ensures within { result ≤ length settled.now }
    ensures less { (k : ℕ) (d : Notice) → k < result → place (slice_index_or settled.now k d) ≤ at }
    ensures rest { (k : ℕ) (d : Notice) → result ≤ k → k < length settled.now
        → at < place (slice_index_or settled.now k d) }
{
    settled.partition_point(|notice| place_of(notice) <= at)
}

/// Notices in the order of their places.
fn sorted(notices: Vec<Notice>) -> Vec<Notice>
    ensures order { IsNonDecreasingBy place result.items }
    ensures moved { IsPermutation notices.items result.items }
{
    let mut sorted = notices;
    sorted.sort_unstable_by_key(|notice| place_of(notice));
    sorted
}

impl Past {
    /// What earlier runs left: from which event on letters are handed over, what was taken or given up, and what was about to be handed
    /// over, both in any order.
    pub fn new(from: u64, settled: Vec<Notice>, begun: Vec<Notice>) -> Past
        ensures from { result.from ≡ from }
        ensures settled { IsPermutation settled.items result.settled }
        ensures begun { IsPermutation begun.items result.begun }
    {
        let settled = sorted(settled);
        are_within(&settled);
        Past {
            from,
            settled,
            begun: sorted(begun),
        }
    }

    /// What is said of a notice.
    pub fn find(&self, notice: &Notice) -> Claim
        ensures new { result ≡ Claim.New → is_settled self.now notice.now ≡ false }
        ensures held { result ≡ Claim.Held → IsHeld self.now notice.now }
        ensures settled { result ≡ Claim.Held → is_settled self.now notice.now ≡ true }
        ensures differs { result ≡ Claim.Differs → is_settled self.now notice.now ≡ true }
        ensures other { result ≡ Claim.Differs → ¬ IsHeld self.now notice.now }
    {
        if notice.event < self.from {
            return Claim::Held;
        }
        if !is_settled_among(&self.settled, notice) {
            return Claim::New;
        }
        if is_among(&self.settled, notice) {
            Claim::Held
        } else {
            Claim::Differs
        }
    }

    /// Whether a notice's letter was about to be handed over.
    pub fn has_begun(&self, notice: &Notice) -> bool
        ensures { IsTrue result ↔ Contains self.now.begun notice.now }
    {
        is_among(&self.begun, notice)
    }
}

/// Whether it was settled, or one that is due after it.
fn is_settled_among(settled: &[Notice], notice: &Notice) -> bool
    requires order { IsNonDecreasingBy place settled.now }
    requires within { All IsWithin settled.now }
    ensures { result ≡ list_any (settles notice.now) settled.now }
{
    match settled.get(count_before(settled, place_of(notice))) {
        Some(next) => next.object.0 == notice.object.0,
        None => false,
    }
}

/// Whether it is one of these, just as it is.
fn holds(notices: &[Notice], notice: &Notice) -> bool
    ensures { IsTrue result ↔ Contains notices.now notice.now }
{
    notices.contains(notice)
}

/// Whether it was settled, just as it is.
fn is_among(settled: &[Notice], notice: &Notice) -> bool
    requires { IsNonDecreasingBy place settled.now }
    ensures { IsTrue result ↔ Contains settled.now notice.now }
{
    let at = place_of(notice);
    let start = count_before(settled, at);
    let end = count_up_to(settled, at);
    start <= end && holds(&settled[start..end], notice)
}
