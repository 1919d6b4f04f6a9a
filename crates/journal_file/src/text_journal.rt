//! A journal that is a text.

ghost use Rattle.std.specs.Prelude.{◌≡◌, ◌∷◌, [], false, true};
ghost use Rattle.std.specs.Arc.{arc_value};
ghost use Rattle.journal_file.specs.Text.{Wrote};

use crate::writing::write_flushed;
use channel_kinds::stream::Outlet;
use due_model::config::{Config, LaneId};
use journal_text::entry::Entry;
use journal_text::writing::line_of;
use journaled::Journal;
use std::alloc::Global;
use std::marker::Model;
use std::sync::Arc;

/// The journal of a lane, over a writer: a line for each entry. It breaks where a line isn't written whole, where an entry can't be said
/// by a line, or at a refused growth; then it writes nothing more.
#[derive(Drop)]
pub struct TextJournal<W: Outlet> {
    alloc: Global,
    config: Arc<Config, Global>,
    lane: LaneId,
    writer: W,
    is_broken: bool,
}

impl<W: Outlet> Model for TextJournal<W> {
    ghost use Rattle.std.specs.Arc.{arc_value};
    ghost use Rattle.journal_file.specs.Text.{Text};

    ghost Value = { Text W };

    ghost view = { λ s. record {
      config = arc_value s.config;
      lane = s.lane;
      writer = s.writer;
      is_broken = s.is_broken;
    } };
}

impl<W: Outlet> TextJournal<W> {
    /// A lane's journal, at the end of what is written, which ends with a whole line. It writes nothing.
    pub fn new(
        alloc: Global,
        config: Arc<Config, Global>,
        lane: LaneId,
        writer: W,
    ) -> TextJournal<W>
        ensures config { result.config ≡ arc_value config }
        ensures lane { result.lane ≡ lane }
        ensures writer { result.writer ≡ writer }
        ensures whole { result.is_broken ≡ false }
    {
        TextJournal {
            alloc,
            config,
            lane,
            writer,
            is_broken: false,
        }
    }
}

impl<W: Outlet> Journal for TextJournal<W> {
    ghost use Rattle.journal_file.specs.Text.{Wrote};
    ghost use Rattle.journal_file.specs.TextLaws.{wrote_more, wrote_none};

    ghost wrote = { Wrote W.contents };

    ghost stays = { wrote_none W.contents };

    ghost follows = { wrote_more W.contents };

    ghost is_broken = { λ s. s.is_broken };

    fn write(&mut self, entry: Entry) -> bool
        ensures wrote { result ≡ true → Wrote W.contents self.old (entry ∷ []) self.new }
        ensures failed { result ≡ false → Wrote W.contents self.old [] self.new }
        ensures whole { result ≡ true → self.new.is_broken ≡ false }
        ensures broken { result ≡ false → self.new.is_broken ≡ true }
        ensures remains { self.old.is_broken ≡ true → result ≡ false }
        // What is written is on the disk.
        ensures flushed { result ≡ true → W.is_flushed self.new.writer ≡ true }
    {
        if self.is_broken {
            return false;
        }
        let Ok(Some(line)) = line_of(self.alloc, &self.config, self.lane, entry) else {
            self.is_broken = true;
            return false;
        };
        if write_flushed(&mut self.writer, &line) {
            true
        } else {
            self.is_broken = true;
            false
        }
    }
}
