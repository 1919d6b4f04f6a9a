//! A folder with journals.

ghost use Rattle.std.specs.Prelude.{◌≡◌, false, IfOk};
ghost use Rattle.std.specs.Arc.{arc_value};

use crate::fault::FolderFault;
use crate::file_name::file_name;
use crate::known::{FoundLine, find_settled, read_known};
use crate::lane_past::LanePast;
use channel_kinds::stream::AnyOutlet;
use due_model::config::{Config, LaneId};
use due_model::notice::Notice;
use journal_file::synced::{Complaint, SyncedFile};
use journal_file::{TextJournal, write_flushed};
use journal_text::journal::{JournalFault, ReadJournal, read_journal};
use journal_text::writing::first_line_of;
use notice_text::texts::lane_name;
use std::alloc::{AllocError, Global};
use std::fs::{self, File, OpenOptions};
use std::io::{self, Eprint, ErrorKind};
use std::sync::Arc;
use text_lines::AnyReader;

/// How many channels a lane has at most.
const MOST: u8 = 8;

/// What says on standard error that a journal can't be written any more.
#[derive(Drop)]
pub struct Said {
    rt: HostRuntime,
    path: String,
    /// Whether nothing is said, or it was said.
    is_over: bool,
}

impl Complaint for Said {
    fn failed(&mut self) {
        if self.is_over {
            return;
        }
        self.is_over = true;
        let path = self.path.as_str();
        if let Ok(line) = format!(in self.rt.alloc();
            "notify-run: state: {path}: can't be written\n"
        ) {
            let _ = self.rt.eprint(line.as_str());
        }
    }
}

/// A journal in a file.
pub type FileJournal = TextJournal<AnyOutlet<SyncedFile<Said>>>;

/// Where the journal of a channel of the lane is in a folder.
pub fn journal_path(
    alloc: Global,
    folder: &str,
    config: &Config,
    lane: LaneId,
    number: u8,
) -> Result<String, AllocError> {
    let name = file_name(alloc, lane_name(config, lane), number)?;
    let name = std::str::from_utf8(name.as_slice()).unwrap_or("");
    format!(in alloc; "{folder}/{name}")
}

/// A folder with journals, locked as long as it is there.
#[derive(Drop)]
pub struct Folder {
    rt: HostRuntime,
    path: String,
    is_quiet: bool,
    _lock: File,
}

impl Folder {
    /// The folder at a path, which is made if it isn't there. Nobody else has it.
    pub fn open(rt: &HostRuntime, path: &str, is_quiet: bool) -> Result<Folder, FolderFault> {
        if fs::create_dir_all(rt, path).is_err() {
            return Err(FolderFault::NotOpened);
        }
        let lock = format!(in rt.alloc(); "{path}/lock")?;
        let opened = OpenOptions::new()
            .append(true)
            .create(true)
            .open(rt, lock.as_str());
        let Ok(lock) = opened else {
            return Err(FolderFault::NotOpened);
        };
        match lock.try_lock() {
            Ok(()) => Ok(Folder {
                rt: *rt,
                path: String::from_str(rt.alloc(), path)?,
                is_quiet,
                _lock: lock,
            }),
            Err(fs::TryLockError::WouldBlock) => Err(FolderFault::Locked),
            Err(fs::TryLockError::Error(_)) => Err(FolderFault::NotOpened),
        }
    }

    /// Where the journal of a channel of the lane is.
    fn path_of(&self, config: &Config, lane: LaneId, number: u8) -> Result<String, AllocError> {
        journal_path(self.rt.alloc(), self.path.as_str(), config, lane, number)
    }

    /// What all journals of a lane say, whatever channels it has now. The torn last line of one is cut off.
    pub fn read_lane(&self, config: &Config, lane: LaneId) -> Result<LanePast, FolderFault> {
        let mut past = LanePast::new(self.rt.alloc());
        for number in 0..MOST {
            if let Some(read) = self.read_one(config, lane, number)? {
                past.add(&read)?;
                self.cut(config, lane, number, read.whole)?;
            }
        }
        Ok(past)
    }

    /// What the journal of a channel says, if it is there.
    fn read_one(
        &self,
        config: &Config,
        lane: LaneId,
        number: u8,
    ) -> Result<Option<ReadJournal>, FolderFault> {
        let path = self.path_of(config, lane, number)?;
        match File::open(&self.rt, path.as_str()) {
            Ok(file) => match read_journal(self.rt.alloc(), config, lane, AnyReader::new(file)) {
                Ok(read) => Ok(Some(read)),
                Err(fault) => Err(FolderFault::NotRead(lane, number, fault)),
            },
            Err(error) if error.kind() == ErrorKind::NotFound => Ok(None),
            Err(_) => Err(FolderFault::NotRead(lane, number, JournalFault::Unreadable)),
        }
    }

    /// Leaves so many bytes of a journal, if it has more.
    fn cut(
        &self,
        config: &Config,
        lane: LaneId,
        number: u8,
        whole: u64,
    ) -> Result<(), FolderFault> {
        let path = self.path_of(config, lane, number)?;
        let Ok(file) = self.open_end(path.as_str()) else {
            return Err(FolderFault::NotWritten(lane, number));
        };
        let Ok(data) = file.metadata() else {
            return Err(FolderFault::NotWritten(lane, number));
        };
        if data.len() > whole && (file.set_len(whole).is_err() || file.sync_data().is_err()) {
            return Err(FolderFault::NotWritten(lane, number));
        }
        Ok(())
    }

    /// What the journals of a lane say in this configuration, but for lines that say nothing in it.
    pub fn read_known(&self, config: &Config, lane: LaneId) -> Result<LanePast, AllocError> {
        let alloc = self.rt.alloc();
        let mut past = LanePast::new(alloc);
        for number in 0..MOST {
            let path = self.path_of(config, lane, number)?;
            if let Ok(file) = File::open(&self.rt, path.as_str()) {
                past.add(&read_known(alloc, config, lane, AnyReader::new(file))?)?;
            }
        }
        Ok(past)
    }

    /// The first line of the journals of a notice's lane that says that its letter, or one that is due after it of the same object, was
    /// taken or given up: the number of the journal, and the line.
    pub fn find_settled(
        &self,
        config: &Config,
        notice: &Notice,
    ) -> Result<Option<(u8, FoundLine)>, AllocError> {
        let alloc = self.rt.alloc();
        for number in 0..MOST {
            let path = self.path_of(config, notice.lane, number)?;
            if let Ok(file) = File::open(&self.rt, path.as_str()) {
                if let Some(line) = find_settled(alloc, config, notice, AnyReader::new(file))? {
                    return Ok(Some((number, line)));
                }
            }
        }
        Ok(None)
    }

    /// A journal of a lane that is to take the place of all that it has, from this event on.
    pub fn begin_anew(
        &self,
        config: &Arc<Config, Global>,
        lane: LaneId,
        from: u64,
    ) -> Result<FileJournal, FolderFault>
        ensures lane { IfOk result (λ journal. journal.lane ≡ lane) }
        ensures whole { IfOk result (λ journal. journal.is_broken ≡ false) }
    {
        let path = self.new_path_of(config, lane)?;
        let _ = fs::remove_file(&self.rt, path.as_str());
        self.journal_at(config, lane, 0, path, from)
    }

    /// Puts that journal in the place of the lane's journals, which are kept beside it as `COMMAND.N.old`.
    pub fn finish_anew(&self, config: &Config, lane: LaneId) -> Result<(), FolderFault> {
        let new = self.new_path_of(config, lane)?;
        let first = self.path_of(config, lane, 0)?;
        let old = self.old_path_of(config, lane, 0)?;
        let _ = fs::copy(&self.rt, first.as_str(), old.as_str());
        if fs::rename(&self.rt, new.as_str(), first.as_str()).is_err() {
            return Err(FolderFault::NotWritten(lane, 0));
        }
        for number in 1..MOST {
            let path = self.path_of(config, lane, number)?;
            let old = self.old_path_of(config, lane, number)?;
            let _ = fs::rename(&self.rt, path.as_str(), old.as_str());
        }
        Ok(())
    }

    /// Where a journal is that is to take the place of a lane's journals.
    fn new_path_of(&self, config: &Config, lane: LaneId) -> Result<String, AllocError> {
        let mut path = self.path_of(config, lane, 0)?;
        path.push_str(".new")?;
        Ok(path)
    }

    /// Where a journal is kept that another has taken the place of.
    fn old_path_of(&self, config: &Config, lane: LaneId, number: u8) -> Result<String, AllocError> {
        let mut path = self.path_of(config, lane, number)?;
        path.push_str(".old")?;
        Ok(path)
    }

    /// The journal of a channel of the lane, at the end of what it says. Where it says nothing yet its first line is written: from which
    /// event on letters are handed over.
    pub fn journal(
        &self,
        config: &Arc<Config, Global>,
        lane: LaneId,
        number: u8,
        from: u64,
    ) -> Result<FileJournal, FolderFault>
        ensures config { IfOk result (λ journal. journal.config ≡ arc_value config.now) }
        ensures lane { IfOk result (λ journal. journal.lane ≡ lane) }
        ensures whole { IfOk result (λ journal. journal.is_broken ≡ false) }
    {
        let path = self.path_of(config, lane, number)?;
        self.journal_at(config, lane, number, path, from)
    }

    /// The journal at a path.
    fn journal_at(
        &self,
        config: &Arc<Config, Global>,
        lane: LaneId,
        number: u8,
        path: String,
        from: u64,
    ) -> Result<FileJournal, FolderFault>
        ensures config { IfOk result (λ journal. journal.config ≡ arc_value config.now) }
        ensures lane { IfOk result (λ journal. journal.lane ≡ lane) }
        ensures whole { IfOk result (λ journal. journal.is_broken ≡ false) }
    {
        let alloc = self.rt.alloc();
        let Ok(file) = self.open_end(path.as_str()) else {
            return Err(FolderFault::NotWritten(lane, number));
        };
        let Ok(data) = file.metadata() else {
            return Err(FolderFault::NotWritten(lane, number));
        };
        let said = Said {
            rt: self.rt,
            path,
            is_over: self.is_quiet,
        };
        let mut outlet = AnyOutlet::new(SyncedFile::new(file, said));
        if data.len() == 0 {
            let Some(line) = first_line_of(alloc, config, lane, from)? else {
                return Err(FolderFault::NotWritten(lane, number));
            };
            if !write_flushed(&mut outlet, &line) {
                return Err(FolderFault::NotWritten(lane, number));
            }
        }
        Ok(TextJournal::new(alloc, Arc::try_clone(config)?, lane, outlet))
    }

    /// The file at a path, which is written to at its end. It is made if it isn't there.
    fn open_end(&self, path: &str) -> io::Result<File> {
        OpenOptions::new()
            .append(true)
            .create(true)
            .open(&self.rt, path)
    }
}
