//! A zone of what a command is given: a rule text, or the bytes of a zone file.

ghost use Rattle.std.specs.Prelude.{◌≡◌, MatchResult, Err, Ok, option_map};
ghost use Rattle.due_model.specs.declared.zone.Zone.TheVariants.{Utc};
ghost use Rattle.zone_times.specs.Given.{IsFileFault, IsOfFile, IsOfRule, IsRuleFault, MatchGiven};

use due_model::zone::Zone;
use jiff::Error;
use jiff::tz::{TimeZone, Tzif};
use std::alloc::Global;

/// Why there is no zone.
#[derive(Clone, Copy, Debug, PartialEq, Eq)]
pub enum ZoneFault {
    /// Both a rule and a file are given.
    TwoZones,
    /// `jiff` can't read the rule, or the file.
    BadZone,
    /// Memory was refused; nothing is left of it.
    NoMemory,
}

/// The zone of a rule text (POSIX) or of the bytes of a zone file (TZif); where neither is given, it is UTC.
pub fn zone_given(alloc: Global, rule: Option<&str>, file: Option<&[u8]>) -> Result<Zone, ZoneFault>
    ensures { MatchGiven (option_map (λ s. s.now) rule.entry)
        (option_map (λ s. s.now) file.entry) result }
{
    match (rule, file) {
        (None, None) => Ok(Zone::Utc),
        (Some(rule), None) => zone_of_rule(rule),
        (None, Some(bytes)) => zone_of_file(alloc, bytes),
        (Some(_), Some(_)) => Err(ZoneFault::TwoZones),
    }
}

fn zone_of_rule(rule: &str) -> Result<Zone, ZoneFault>
    ensures { MatchResult result (IsOfRule rule.now) (IsRuleFault rule.now) }
{
    match TimeZone::posix(rule) {
        Ok(zone) => Ok(Zone::Rules(zone)),
        Err(_) => Err(ZoneFault::BadZone),
    }
}

fn zone_of_file(alloc: Global, bytes: &[u8]) -> Result<Zone, ZoneFault>
    ensures { MatchResult result (IsOfFile bytes.now) (IsFileFault bytes.now) }
{
    match Tzif::parse(alloc, None, bytes) {
        Ok(table) => Ok(Zone::File(table)),
        Err(Error::OutOfMemory) => Err(ZoneFault::NoMemory),
        Err(_) => Err(ZoneFault::BadZone),
    }
}
