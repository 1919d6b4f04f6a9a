//! What a picture of a feed keeps, event by event.

ghost use Rattle.std.specs.Prelude.{◌≡◌, IfOk, OnOk};
ghost use Rattle.night_marks.specs.Kept.{nothing_kept};
ghost use Rattle.night_marks.specs.Night.{changed, heard_event, nothing_heard, one_more, span_after, told_entries, told_entry};

use crate::conditions::{Change, Conditions, condition_after, event_object, is_drawn};
use crate::kept::Kept;
use due_model::config::ObjectId;
use due_model::event::{Event, EventKind};
use messages::entries::Entry;
use std::alloc::{AllocError, Global};

/// The time of a feed, in seconds since the epoch.
#[derive(Clone, Copy, Debug)]
pub struct Span {
    pub first: u64,
    /// The greatest stamp.
    pub last: u64,
}

/// What is kept of a feed for a picture.
#[derive(Drop)]
pub struct Night {
    pub kept: Kept,
    pub conditions: Conditions,
    /// How many marks there were in all.
    pub told: u64,
    pub span: Option<Span>,
}

/// The time of a feed with one event more.
fn span_after(span: Option<Span>, moment: u64) -> Span
    ensures { result ≡ span_after span moment }
{
    match span {
        None => Span {
            first: moment,
            last: moment,
        },
        Some(span) => Span {
            first: span.first,
            last: span.last.max(moment),
        },
    }
}

/// One more, if there is a greater number.
fn one_more(count: u64) -> u64
    ensures { result ≡ one_more count }
{
    if count < 18_446_744_073_709_551_615 {
        count + 1
    } else {
        count
    }
}

impl Night {
    /// Nothing was heard yet. It takes most of its memory now. A refused growth is the only error.
    pub fn new(alloc: Global) -> Result<Night, AllocError>
        ensures { IfOk result (λ night. night ≡ nothing_heard) }
    {
        Ok(Night {
            kept: Kept::new(alloc)?,
            conditions: Conditions::new(alloc)?,
            told: 0,
            span: None,
        })
    }

    /// Hears that an event says something of an object.
    fn change(
        &mut self,
        alloc: Global,
        kind: EventKind,
        object: ObjectId,
        moment: u64,
    ) -> Result<(), AllocError>
        ensures { OnOk result (self.new ≡ changed self.old kind object moment) }
    {
        let before = self.conditions.get(object);
        let now = condition_after(kind, object, before);
        self.conditions.set(object, now);
        if !is_drawn(&before, &now) {
            return Ok(());
        }
        let change = Change {
            moment,
            object,
            before,
            now,
        };
        self.kept.keep_change(alloc, change)
    }

    /// Hears an event. A refused growth is the only error.
    pub fn hear(&mut self, alloc: Global, event: Event) -> Result<(), AllocError>
        ensures { OnOk result (self.new ≡ heard_event self.old event) }
    {
        let span = span_after(self.span, event.moment);
        self.span = Some(span);
        match event_object(event.kind) {
            None => Ok(()),
            Some(object) => self.change(alloc, event.kind, object, span.last),
        }
    }

    /// Is told what became of one message.
    fn tell_one(&mut self, alloc: Global, entry: Entry) -> Result<(), AllocError>
        ensures { OnOk result (self.new ≡ told_entry self.old entry) }
    {
        self.told = one_more(self.told);
        self.kept.keep_mark(alloc, entry)
    }

    /// Is told what became of the messages of an event, in order. A refused growth is the only error.
    pub fn tell(&mut self, alloc: Global, entries: &[Entry]) -> Result<(), AllocError>
        ensures { OnOk result (self.new ≡ told_entries self.old entries.now) }
    {
        for entry in entries {
            self.tell_one(alloc, *entry)?;
        }
        Ok(())
    }
}
