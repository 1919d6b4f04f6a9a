//! The time zone of a run, as its threads are given it.

ghost use Rattle.std.specs.Prelude.{◌≡◌};

use due_model::zone::Zone;

/// What gives the time zone of a run. The threads are started over any, since the zone's own type has a lifetime within.
pub(crate) trait GivesZone {
    ghost use Rattle.due_model.specs.declared.zone.Zone.{Zone};

    ghost zone: { Self → Zone };

    fn zone(&self) -> &Zone
        ensures { result.now ≡ zone self.now };
}

impl GivesZone for Zone {
    ghost zone = { λ z. z };

    fn zone(&self) -> &Zone {
        self
    }
}
