//! Where the journals of all lanes are, as those see it who go by them.

ghost use Rattle.std.specs.Prelude.{map, string_bytes, IfOk, OnOk};
ghost use Rattle.std.specs.Arc.{arc_value};

use due_model::config::{Config, LaneId};
use journal_folder::{FileJournal, Folder, FolderFault, LanePast};
use journaled::Journal;
use std::alloc::{AllocError, Global};
use std::fs;
use std::sync::Arc;

/// Where the journals of all lanes are.
pub trait Journals<J: Journal>: Drop {
    ghost use Rattle.std.specs.Prelude.{ℕ, IfOk, OnOk};
    ghost use Rattle.std.specs.Arc.{arc_value};
    ghost use Rattle.due_model.specs.declared.config.Config.{Config};
    ghost use Rattle.due_model.specs.declared.config.LaneId.{LaneId};
    ghost use Rattle.journal_folder.specs.declared.lane_past.LanePast.{LanePast};

    // What the journals of a lane were read to say.
    ghost says: { Self → Config → LaneId → LanePast → Type 0 };

    // The same, but for lines that say nothing in this configuration.
    ghost knows: { Self → Config → LaneId → LanePast → Type 0 };

    // The first journal of a lane, at the end of what it says.
    ghost goes_on: { Self → Config → LaneId → J → Type 0 };

    // A journal that is to take the place of all that a lane has, from this event on.
    ghost begins: { Self → Config → LaneId → (from : ℕ) → J → Type 0 };

    // It took their place.
    ghost replaced: { Self → Config → LaneId → Type 0 };

    /// What all journals of a lane say.
    fn read_lane(&self, config: &Config, lane: LaneId) -> Result<LanePast, FolderFault>
        ensures { IfOk result (says self.now config.now lane) };

    /// The same, but for lines that say nothing in this configuration.
    fn read_known(&self, config: &Config, lane: LaneId) -> Result<LanePast, AllocError>
        ensures { IfOk result (knows self.now config.now lane) };

    /// The first journal of a lane, at the end of what it says, with this first line where it says nothing yet.
    fn first_journal(
        &self,
        config: &Arc<Config, Global>,
        lane: LaneId,
        from: u64,
    ) -> Result<J, FolderFault>
        ensures { IfOk result (goes_on self.now (arc_value config.now) lane) };

    /// A journal of a lane that is to take the place of all that it has, from this event on.
    fn begin_anew(
        &self,
        config: &Arc<Config, Global>,
        lane: LaneId,
        from: u64,
    ) -> Result<J, FolderFault>
        ensures { IfOk result (begins self.now (arc_value config.now) lane from) };

    /// Puts that journal in their place.
    fn finish_anew(&self, config: &Config, lane: LaneId) -> Result<(), FolderFault>
        ensures { OnOk result (replaced self.now config.now lane) };
}

/// Where journals are among other files.
pub trait JournalNames: Drop {
    ghost use Rattle.std.specs.Prelude.{ℕ, List, map, string_bytes, IfOk, OnOk};

    // These were the names of all its files.
    ghost lists: { Self → List (List ℕ) → Type 0 };

    // The file of this name was put aside.
    ghost put_aside: { Self → (name : List ℕ) → Type 0 };

    /// The names of all files.
    fn names(&self) -> Result<Vec<String>, FolderFault>
        ensures { IfOk result (λ names. lists self.now (map string_bytes names.items)) };

    /// Renames the file of a name to `NAME.old`.
    fn rename_old(&self, name: &str) -> Result<(), FolderFault>
        ensures { OnOk result (put_aside self.now name.now) };
}

/// The journals in a folder, of which nothing is known before they are read.
#[derive(Drop)]
pub struct FolderJournals {
    rt: HostRuntime,
    path: String,
    folder: Folder,
}

impl FolderJournals {
    /// Those in the folder at a path, which is made if it isn't there. Nobody else has it.
    pub fn open(rt: &HostRuntime, path: &str, is_quiet: bool) -> Result<Self, FolderFault> {
        Ok(FolderJournals {
            rt: *rt,
            path: String::from_str(rt.alloc(), path)?,
            folder: Folder::open(rt, path, is_quiet)?,
        })
    }

    /// The folder.
    pub fn folder(&self) -> &Folder {
        &self.folder
    }
}

impl Journals<FileJournal> for FolderJournals {
    ghost use Rattle.std.specs.Prelude.{⊤};

    ghost says = { λ _ _ _ _. ⊤ };

    ghost knows = { λ _ _ _ _. ⊤ };

    ghost goes_on = { λ _ _ _ _. ⊤ };

    ghost begins = { λ _ _ _ _ _. ⊤ };

    ghost replaced = { λ _ _ _. ⊤ };

    fn read_lane(&self, config: &Config, lane: LaneId) -> Result<LanePast, FolderFault> {
        self.folder.read_lane(config, lane)
    }

    fn read_known(&self, config: &Config, lane: LaneId) -> Result<LanePast, AllocError> {
        self.folder.read_known(config, lane)
    }

    fn first_journal(
        &self,
        config: &Arc<Config, Global>,
        lane: LaneId,
        from: u64,
    ) -> Result<FileJournal, FolderFault> {
        self.folder.journal(config, lane, 0, from)
    }

    fn begin_anew(
        &self,
        config: &Arc<Config, Global>,
        lane: LaneId,
        from: u64,
    ) -> Result<FileJournal, FolderFault> {
        self.folder.begin_anew(config, lane, from)
    }

    fn finish_anew(&self, config: &Config, lane: LaneId) -> Result<(), FolderFault> {
        self.folder.finish_anew(config, lane)
    }
}

impl JournalNames for FolderJournals {
    ghost use Rattle.std.specs.Prelude.{⊤};

    ghost lists = { λ _ _. ⊤ };

    ghost put_aside = { λ _ _. ⊤ };

    fn names(&self) -> Result<Vec<String>, FolderFault> {
        let alloc = self.rt.alloc();
        let Ok(entries) = fs::read_dir(&self.rt, self.path.as_str()) else {
            return Err(FolderFault::NotOpened);
        };
        let mut names = Vec::new(alloc);
        for entry in entries {
            let Ok(entry) = entry else {
                return Err(FolderFault::NotOpened);
            };
            names.push(String::from_str(alloc, entry.file_name())?)?;
        }
        Ok(names)
    }

    fn rename_old(&self, name: &str) -> Result<(), FolderFault> {
        let folder = self.path.as_str();
        let from = format!(in self.rt.alloc(); "{folder}/{name}")?;
        let to = format!(in self.rt.alloc(); "{folder}/{name}.old")?;
        if fs::rename(&self.rt, from.as_str(), to.as_str()).is_err() {
            return Err(FolderFault::NotOpened);
        }
        Ok(())
    }
}
