//! The zone of a zone file, and the zone that a rule or the path of such a file gives.

ghost use Rattle.std.specs.Prelude.{option_map, IfErr, IfOk};
ghost use Rattle.command_input.specs.Zones.{IsFileZone, IsZoneOf, ZoneComesOf, ZoneFails};
ghost use Rattle.text_lines.specs.LineReader.{to_come};

use due_model::zone::Zone;
use std::alloc::{AllocError, Global};
use std::fs::File;
use text_lines::{AnyReader, Input, LineReader, TextFault};
use zone_times::given::{ZoneFault, zone_given};

/// The zone of the bytes that a reader gives.
fn read_zone<R: Input + Drop>(alloc: Global, lines: &mut LineReader<R>) -> Result<Zone, ZoneFault>
    ensures zone { IfOk result (λ zone. IsZoneOf zone (to_come lines.old)) }
    ensures kind { IfOk result IsFileZone }
    ensures fault { IfErr result (λ fault. ZoneFails R.can_fail fault (to_come lines.old)) }
{
    match lines.read_text(alloc, None) {
        Ok(bytes) => zone_given(alloc, None, Some(&bytes)),
        Err(TextFault::Unreadable | TextFault::TooLarge) => Err(ZoneFault::BadZone),
        Err(TextFault::NoMemory) => Err(ZoneFault::NoMemory),
    }
}

/// The zone of a zone file (TZif), all of an input. A file that can't be read, one of over 16,777,216 bytes, and one that
/// `jiff` refuses, is a bad zone. Want of memory says nothing of the file.
pub fn read_zone_file<R: Input + Drop>(alloc: Global, reader: R) -> Result<Zone, ZoneFault>
    ensures zone { IfOk result (λ zone. IsZoneOf zone (R.remaining reader)) }
    ensures kind { IfOk result IsFileZone }
    ensures fault { IfErr result (λ fault. ZoneFails R.can_fail fault (R.remaining reader)) }
{
    match LineReader::new(alloc, reader) {
        Ok(mut lines) => read_zone(alloc, &mut lines),
        Err(AllocError) => Err(ZoneFault::NoMemory),
    }
}

/// The zone of the text of a rule, or of the file at a path; UTC where neither is given. Both are two zones. A file that
/// can't be opened is a bad zone.
pub fn zone_of(rt: &HostRuntime, rule: Option<&str>, file: Option<&str>) -> Result<Zone, ZoneFault>
    ensures { ZoneComesOf (option_map (λ text. text.now) rule.entry)
        (option_map (λ path. path.now) file.entry) result }
{
    let alloc = rt.alloc();
    let Some(path) = file else {
        return zone_given(alloc, rule, None);
    };
    if rule.is_some() {
        return Err(ZoneFault::TwoZones);
    }
    match File::open(rt, path) {
        Ok(opened) => read_zone_file(alloc, AnyReader::new(opened)),
        Err(_) => Err(ZoneFault::BadZone),
    }
}
