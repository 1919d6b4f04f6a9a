//! The zone that a command line asks for, and what is said where there is none.

ghost use Rattle.std.specs.Prelude.{◌≡◌, not, Err};
ghost use Rattle.std.specs.List.{list_any};
ghost use Rattle.std.specs.Process.{exit_status};
ghost use Rattle.command_line.specs.Words.{AreTwo};
ghost use Rattle.notify_run.specs.Zones.{IsBadRule, is_odd_byte, is_zone_name, zone_fault_status};
ghost use Rattle.zone_times.specs.declared.given.ZoneFault.TheVariants.{BadZone, TwoZones};

use crate::out_of_memory;
use command_input::zone_of;
use command_line::ZoneWords;
use due_model::zone::Zone;
use std::alloc::{AllocError, Global};
use std::fs::File;
use std::process::ExitCode;
use zone_times::given::ZoneFault;

/// Where systems keep their zone files.
const ZONE_FILES: &str = "/usr/share/zoneinfo/";

/// Whether a byte can't stand in the name of a zone file.
#[tactic(auto, unfolding(crate::specs::Zones::is_odd_byte))]
fn is_odd_byte(byte: u8) -> bool
    ensures { result ≡ is_odd_byte byte }
{
    !matches!(byte, b'0'..=b'9' | b'A'..=b'Z' | b'a'..=b'z' | b'_' | b'+' | b'-' | b'/')
}

/// Whether bytes have one that can't stand there.
fn has_odd_byte(bytes: &[u8]) -> bool
    ensures { result ≡ list_any is_odd_byte bytes.now }
{
    bytes.iter().any(|byte| is_odd_byte(*byte))
}

/// Whether a text may be the name of a zone file, as `Europe/Berlin`.
fn is_zone_name(text: &str) -> bool
    ensures { result ≡ is_zone_name text.now }
{
    !has_odd_byte(text.as_bytes())
}

/// The path of a system's zone file of this name. A refused growth is the only error.
fn path_of(alloc: Global, name: &str) -> Result<String, AllocError> {
    let mut path = String::new(alloc);
    path.push_str(ZONE_FILES)?;
    path.push_str(name)?;
    Ok(path)
}

/// The zone of a system's zone file of this name.
fn zone_named(rt: &HostRuntime, name: &str) -> Result<Zone, ZoneFault> {
    let Ok(path) = path_of(rt.alloc(), name) else {
        return Err(ZoneFault::NoMemory);
    };
    zone_of(rt, None, Some(path.as_str()))
}

/// The zone that is asked for. A rule that is none may be the name of a zone, as `Europe/Berlin`: then it is that of the system's zone
/// file of this name.
pub(crate) fn zone_asked(rt: &HostRuntime, words: ZoneWords<'_, '_>) -> Result<Zone, ZoneFault>
    ensures two { AreTwo words.entry → result ≡ Err TwoZones }
    ensures rule { IsBadRule words.entry → result ≡ Err BadZone }
{
    let given = zone_of(rt, words.rule, words.file);
    if !matches!(given, Err(ZoneFault::BadZone)) || words.file.is_some() {
        return given;
    }
    match words.rule {
        Some(rule) if is_zone_name(rule) => zone_named(rt, rule),
        _ => given,
    }
}

/// Says on standard error why there is no zone, and gives the exit status.
pub(crate) fn status_of_zone(
    rt: &HostRuntime,
    words: ZoneWords<'_, '_>,
    fault: ZoneFault,
) -> ExitCode
    ensures { exit_status result ≡ zone_fault_status fault }
{
    match fault {
        ZoneFault::TwoZones => {
            let _ = rt.eprintln("usage: two zones");
            ExitCode::from(2)
        }
        ZoneFault::BadZone => {
            let _ = rt.eprintln("usage: bad zone");
            say_bad_zone(rt, words);
            ExitCode::from(2)
        }
        ZoneFault::NoMemory => out_of_memory(rt),
    }
}

/// Says what was given for a zone, and what is wrong of it.
fn say_bad_zone(rt: &HostRuntime, words: ZoneWords<'_, '_>) {
    if let Some(path) = words.file {
        say_bad_file(rt, path);
        return;
    }
    if let Some(rule) = words.rule {
        let _ = rt.eprintln(format_args!(
            "    --zone {rule}: no POSIX rule, as EST5EDT,M3.2.0,M11.1.0, and no zone file below {ZONE_FILES}"
        ));
    }
}

/// Says why the file at a path is no zone file.
fn say_bad_file(rt: &HostRuntime, path: &str) {
    let _ = match File::open(rt, path) {
        Ok(_) => rt.eprintln(format_args!(
            "    --zone-file {path}: no zone file (TZif), or one of over 16,777,216 bytes"
        )),
        Err(error) => rt.eprintln(format_args!("    --zone-file {path}: {error}")),
    };
}
