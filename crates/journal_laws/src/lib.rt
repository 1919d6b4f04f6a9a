//! Runs over one feed, one after another, each killed at any moment.
#![tactic(auto)]

ghost use Rattle.journal_laws.specs.Restarts.{ItGoesOn, NoneIsLostOrDoubled};

use due_laws::laws::{only_grows, stand_once, tell_of_events};
use journaled::laws::each_once;

/// Over all runs each message that is due goes out once, but for at most one that each kill leaves in doubt.
pub fn restarts()
    ensures once { NoneIsLostOrDoubled }
    ensures goes_on { ItGoesOn }
{
    only_grows();
    stand_once();
    tell_of_events();
    each_once();
}
