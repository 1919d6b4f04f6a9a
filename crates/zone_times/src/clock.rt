//! A zone's clock that remembers the zone's offset and one moment's local time: what is asked of it costs few looks at
//! the zone.

ghost use Rattle.std.specs.Prelude.{◌≡◌, ℕ, ◌^◌, ◌<◌, ◌≤◌, unsigned_abs};
ghost use Rattle.due_model.specs.claims.Local.{local, offset, weekday_at};
ghost use Rattle.zone_times.specs.Clock.{GoesOn};

use crate::local::{LocalTime, clock_at, local_time, offset_at};
use crate::steady::offset_until;
use due_model::limits::DAY;
use due_model::zone::Zone;
use std::marker::Model;

/// The clock of a zone. It remembers the zone's offset over some moments, and the local time of one; for all others
/// it looks at the zone.
/// Contracts see the zone alone: what it remembers changes no answer.
#[derive(Drop)]
pub struct ZoneClock<'a> {
    zone: &'a Zone,
    /// It remembers the offset from this moment on, in seconds since the epoch ..
    from: u64,
    /// .. and before this one.
    until: u64,
    /// How far the zone's clock is ahead of UTC then, in seconds.
    offset: i32,
    /// It remembers what it shows at this moment.
    at: u64,
    shows: LocalTime,
}

impl<'a> Model for ZoneClock<'a> {
    ghost use Rattle.due_model.specs.declared.zone.Zone.{Zone};
    ghost use Rattle.zone_times.specs.Clock.{Remembers, Shows};

    ghost Value = { Zone };

    ghost view = { λ s. s.zone.now };

    ghost invariant = { λ s. Remembers s.zone.now s.from s.until s.offset
        × Shows s.zone.now s.at s.shows };
}

impl<'a> ZoneClock<'a> {
    /// The clock of a zone, which remembers no offset yet, and what it shows at the epoch.
    pub fn new(zone: &'a Zone) -> ZoneClock<'a>
        ensures { result ≡ zone.now }
    {
        ZoneClock {
            zone,
            from: 0,
            until: 0,
            offset: 0,
            at: 0,
            shows: local_time(zone, 0),
        }
    }

    /// Remembers what the clock shows at a moment, and the zone's offset for as long as it is known to stay. Questions about
    /// that moment cost nothing then.
    pub fn move_to(&mut self, t: u64)
        requires { t < 2 ^ 35 }
        ensures { self.new ≡ self.old }
    {
        if t != self.at {
            self.remember_offset(t);
            self.shows = self.local_time(t);
            self.at = t;
        }
    }

    /// Remembers the zone's offset at a moment, and for as long as it is known to stay. Where it remembers it already
    /// there is nothing to do.
    fn remember_offset(&mut self, t: u64)
        requires { t < 2 ^ 35 }
        ensures { self.new ≡ self.old }
    {
        if t < self.from || self.until <= t {
            self.offset = offset_at(self.zone, t);
            self.until = offset_until(self.zone, t);
            self.from = t;
        }
    }

    /// Local time at a moment, in seconds since the epoch (chapter "Time Periods").
    pub fn local_time(&self, t: u64) -> LocalTime
        requires { t < 2 ^ 35 }
        ensures day { result.day ≡ (local self.now t).day }
        ensures weekday { result.weekday ≡ weekday_at (local self.now t) }
        ensures second { result.second ≡ (local self.now t).second }
    {
        if t == self.at {
            return self.shows;
        }
        clock_at(t as i64 + i64::from(self.offset_at(t)))
    }

    /// A second up to which the clock goes on second by second, on the day that it shows at `t`. At the second itself
    /// another day may begin, or the offset may change.
    pub fn goes_on_until(&self, t: u64) -> u64
        requires { t < 2 ^ 35 }
        ensures later { t < result }
        ensures goes_on { GoesOn self.now t result }
    {
        let left = DAY - self.local_time(t).second;
        self.offset_until(t).min(t + u64::from(left))
    }

    /// How far the clock is ahead of UTC, in seconds.
    fn offset_at(&self, t: u64) -> i32
        requires { t < 2 ^ 35 }
        ensures value { result ≡ offset self.now t }
        ensures small { unsigned_abs result < 93600 }
    {
        if self.from <= t && t < self.until {
            self.offset
        } else {
            offset_at(self.zone, t)
        }
    }

    /// A second up to which the offset stays as it is at `t`; at the second itself it may be another.
    fn offset_until(&self, t: u64) -> u64
        requires { t < 2 ^ 35 }
        ensures later { t < result }
        ensures steady { (k : ℕ) → t ≤ k → k < result → offset self.now k ≡ offset self.now t }
    {
        if self.from <= t && t < self.until {
            self.until
        } else {
            offset_until(self.zone, t)
        }
    }
}
