//! What the journals of a lane say together.

ghost use Rattle.std.specs.Prelude.{◌≡◌, ◌++◌, [], filter, max, unwrap_or, IfOk, OnOk};
ghost use Rattle.journaled.specs.Claims.{is_new};

use due_model::notice::Notice;
use journal_text::journal::ReadJournal;
use journaled::{Claim, Past};
use std::alloc::{AllocError, Global};

/// What the journals of a lane say, one after another.
#[derive(Drop)]
pub struct LanePast {
    /// From which event on letters are handed over: the last that one of them says.
    pub from: u64,
    /// What was taken or given up.
    pub settled: Vec<Notice>,
    /// What was about to be handed over.
    pub begun: Vec<Notice>,
}

impl LanePast {
    /// Nothing was read.
    pub fn new(alloc: Global) -> LanePast
        ensures from { result.from ≡ 0 }
        ensures settled { result.settled.items ≡ [] }
        ensures begun { result.begun.items ≡ [] }
    {
        LanePast {
            from: 0,
            settled: Vec::new(alloc),
            begun: Vec::new(alloc),
        }
    }

    /// Adds what was read of one. A refused growth is the only error.
    pub fn add(&mut self, read: &ReadJournal) -> Result<(), AllocError>
        ensures from { OnOk result (self.new.from ≡ max self.old.from (unwrap_or read.now.from 0)) }
        ensures settled { OnOk result
            (self.new.settled.items ≡ self.old.settled.items ++ read.now.settled.items) }
        ensures begun { OnOk result (self.new.begun.items ≡ self.old.begun.items ++ read.now.begun.items) }
    {
        self.from = self.from.max(read.from.unwrap_or(0));
        self.settled.extend_from_slice(&read.settled)?;
        self.begun.extend_from_slice(&read.begun)
    }
}

/// Whether a notice isn't settled.
fn is_new(past: &Past, notice: &Notice) -> bool
    ensures { result ≡ is_new past.now notice.now }
{
    match past.find(notice) {
        Claim::New => true,
        Claim::Held => false,
        Claim::Differs => false,
    }
}

/// What of some notices is new. A refused growth is the only error.
pub fn new_among(alloc: Global, past: &Past, notices: &[Notice]) -> Result<Vec<Notice>, AllocError>
    ensures { IfOk result (λ found. found.items ≡ filter (is_new past.now) notices.now) }
{
    notices
        .iter()
        .copied()
        .filter(|notice| is_new(past, notice))
        .collect(alloc)
}
