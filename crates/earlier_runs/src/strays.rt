//! Journals in a folder that are of none of the commands: a command was renamed, or no contact lists it any more.

ghost use Rattle.std.specs.Prelude.{◌≡◌, ℕ, List, map, string_bytes, true, false, IfOk};
ghost use Rattle.std.specs.Option.{option_map};
ghost use Rattle.earlier_runs.specs.Strays.{IsNameOf, IsStray, TellsStray, is_journal_name};

use crate::journals::JournalNames;
use due_model::config::{Config, LaneId};
use journal_folder::FolderFault;
use journal_folder::file_name::file_name;
use notice_text::texts::lane_name;
use std::alloc::{AllocError, Global};

/// How many channels a lane has at most.
const MOST: u8 = 8;

/// The name of a journal that is of none of the commands, if there is one among these files. Where these are set aside, each is
/// renamed to `NAME.old`, and none is left.
pub fn stray_journal<F: JournalNames>(
    alloc: Global,
    files: &F,
    config: &Config,
    sets_aside: bool,
) -> Result<Option<String>, FolderFault>
    ensures { IfOk result (λ found. (names : List (List ℕ)) × F.lists files.now names
        × TellsStray (F.put_aside files.now) config.now sets_aside names (option_map string_bytes found)) }
{
    let names = files.names()?;
    let found = stray_among(alloc, files, config, sets_aside, &names)?;
    Ok(found)
}

/// The first of these names that is a stray journal's, if there is one. Where these are set aside, each is renamed, and none is left.
fn stray_among<F: JournalNames>(
    alloc: Global,
    files: &F,
    config: &Config,
    sets_aside: bool,
    names: &[String],
) -> Result<Option<String>, FolderFault>
    ensures { IfOk result (λ found. TellsStray (F.put_aside files.now) config.now sets_aside
        (map string_bytes names.now) (option_map string_bytes found)) }
{
    for name in names {
        if is_to_tell(alloc, files, config, sets_aside, name.as_str())? {
            return Ok(Some(String::from_str(alloc, name.as_str())?));
        }
    }
    Ok(None)
}

/// Whether a file of this name is a stray journal that is to be told. Where these are set aside it is renamed, and isn't told.
fn is_to_tell<F: JournalNames>(
    alloc: Global,
    files: &F,
    config: &Config,
    sets_aside: bool,
    name: &str,
) -> Result<bool, FolderFault>
    ensures yes { IfOk result (λ told. told ≡ true → (sets_aside ≡ false) × IsStray config.now name.now) }
    ensures no { IfOk result (λ told. told ≡ false → IsStray config.now name.now
        → (sets_aside ≡ true) × F.put_aside files.now name.now) }
{
    if !is_stray(alloc, config, name.as_bytes())? {
        return Ok(false);
    }
    if !sets_aside {
        return Ok(true);
    }
    files.rename_old(name)?;
    Ok(false)
}

/// Whether a file of this name is a journal, and of none of the commands. A refused growth is the only error.
fn is_stray(alloc: Global, config: &Config, name: &[u8]) -> Result<bool, AllocError>
    ensures yes { IfOk result (λ stray. stray ≡ true → IsStray config.now name.now) }
    ensures no { IfOk result (λ stray. stray ≡ false → IsStray config.now name.now → ⊥) }
{
    if !is_journal_name(name) {
        return Ok(false);
    }
    for number in 0..config.lanes.len().min(256) {
        if is_name_of(alloc, lane_name(config, LaneId(number as u8)), name)? {
            return Ok(false);
        }
    }
    Ok(true)
}

/// Whether a journal's name ends so: with a point and the number of a channel.
fn is_journal_name(name: &[u8]) -> bool
    ensures { result ≡ is_journal_name name.now }
{
    if name.len() < 2 {
        return false;
    }
    let digit = name[name.len() - 1];
    name[name.len() - 2] == b'.' && b'0' <= digit && digit < b'0' + MOST
}

/// Whether a name is that of a journal of this lane. A refused growth is the only error.
fn is_name_of(alloc: Global, lane: &[u8], name: &[u8]) -> Result<bool, AllocError>
    ensures yes { IfOk result (λ found. found ≡ true → IsNameOf lane.now name.now) }
    ensures no { IfOk result (λ found. found ≡ false → IsNameOf lane.now name.now → ⊥) }
{
    for number in 0..MOST {
        let other = file_name(alloc, lane, number)?;
        if other.as_slice() == name {
            return Ok(true);
        }
    }
    Ok(false)
}
