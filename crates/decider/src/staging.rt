//! What an event decides, before any of it counts: the entries, and the books after it of the objects that it touches.

ghost use Rattle.std.specs.Prelude.{◌≡◌, ◌<◌, ◌≤◌, ◌++◌, [], true, List, Some, length, slice_set};
ghost use Rattle.std.specs.Prelude.{if◌then◌else◌, slice_get, OnOk};
ghost use Rattle.due_model.specs.declared.config.Object.{Object};
ghost use Rattle.due_model.specs.declared.event.Event.{Event};
ghost use Rattle.due_model.specs.declared.event.EventKind.TheVariants.{Clock};
ghost use Rattle.messages.specs.claims.Entries.{object_entries};
ghost use Rattle.decider.specs.Entries.{share_entries};
ghost use Rattle.decider.specs.Events.{IsAt, values};
ghost use Rattle.decider.specs.claims.Share.{is_owned};
ghost use Rattle.decider.specs.Books.{book_after, is_touched, new_books, settled, share_books};
ghost use Rattle.decider.specs.Staging.{Adds, ArePair};
ghost use Rattle.decider.specs.Statuses.{named_by};

use crate::find::{find, repeated};
use crate::reading::Reading;
use crate::statuses::Statuses;
use dependency::search::Search;
use due_model::config::{ContactId, ObjectId};
use due_model::event::EventKind;
use messages::entries::Entry;
use messages::outcome::add_messages;
use outcomes::outcome::{conclude, decide};
use problem_count::Book;
use problem_count::laws::{attempt_by_due, count_few, fit_on};
use std::alloc::{AllocError, Global};

/// The book of an object after an event.
#[derive(Clone, Copy)]
pub(crate) struct NewBook {
    pub(crate) object: ObjectId,
    pub(crate) book: Book,
}

/// What an event decides.
#[derive(Drop)]
pub(crate) struct Staged {
    /// Its entries, by object, then contact, then lane.
    pub(crate) entries: Vec<Entry>,
    /// The books after it, of the objects of the share that it touches.
    pub(crate) books: Vec<NewBook>,
    /// The receivers of one notice, kept for their room.
    receivers: Vec<ContactId>,
}

impl Staged {
    /// Nothing is decided.
    pub(crate) fn new(alloc: Global) -> Staged
        ensures entries { result.entries.items ≡ [] }
        ensures books { result.books.items ≡ [] }
    {
        Staged {
            entries: Vec::new(alloc),
            books: Vec::new(alloc),
            receivers: Vec::new(alloc),
        }
    }

    /// Forgets what was decided, and keeps the room.
    fn clear(&mut self)
        ensures entries { self.new.entries.items ≡ [] }
        ensures books { self.new.books.items ≡ [] }
    {
        self.entries.clear();
        self.books.clear();
    }
}

/// Stages what an event decides of the objects of the share, in object order. The clock's event looks at
/// those alone whose moment has come. A refused growth is the only error.
pub(crate) fn stage_event(
    alloc: Global,
    reading: &Reading<'_>,
    dependencies: &mut Search,
    statuses: &mut Statuses,
    staged: &mut Staged,
) -> Result<(), AllocError>
    requires at { (e : Event) × (past : List Event)
        × IsAt (values reading.now dependencies.old statuses.old) e past }
    ensures dependencies { dependencies.new ≡ dependencies.old }
    ensures statuses { statuses.new ≡ statuses.old }
    ensures entries { OnOk result ((e : Event) (past : List Event)
        → IsAt (values reading.now dependencies.old statuses.old) e past
        → staged.new.entries.items ≡ share_entries reading.now.rules.config.now
        reading.now.rules.zone.now reading.now.share e past) }
    ensures books { OnOk result ((e : Event) (past : List Event)
        → IsAt (values reading.now dependencies.old statuses.old) e past
        → staged.new.books.items ≡ share_books reading.now.rules.config.now
        reading.now.rules.zone.now reading.now.share e past) }
{
    fit_on();
    staged.clear();
    match reading.context.kind {
        EventKind::Clock => stage_due(alloc, reading, dependencies, statuses, staged),
        EventKind::Program(_) => Ok(()),
        EventKind::Hard(object, _) => stage_hard(
            alloc,
            reading,
            dependencies,
            statuses,
            object,
            staged,
        ),
        EventKind::Downtime(object, _) => stage_owned(
            alloc,
            reading,
            dependencies,
            statuses,
            object,
            staged,
        ),
        EventKind::Flapping(object, _) => stage_owned(
            alloc,
            reading,
            dependencies,
            statuses,
            object,
            staged,
        ),
        EventKind::Ack(object, _) => stage_owned(
            alloc,
            reading,
            dependencies,
            statuses,
            object,
            staged,
        ),
        EventKind::AckRemoved(object) => stage_owned(
            alloc,
            reading,
            dependencies,
            statuses,
            object,
            staged,
        ),
        EventKind::OwnSwitch(object, _) => stage_owned(
            alloc,
            reading,
            dependencies,
            statuses,
            object,
            staged,
        ),
    }
}

/// Stages what becomes of each object of the share whose moment has come at the clock's event, in object order. It looks
/// at no other object.
fn stage_due(
    alloc: Global,
    reading: &Reading<'_>,
    dependencies: &mut Search,
    statuses: &mut Statuses,
    staged: &mut Staged,
) -> Result<(), AllocError>
    requires at { (e : Event) × (past : List Event)
        × IsAt (values reading.now dependencies.old statuses.old) e past }
    requires clock { reading.now.context.kind ≡ Clock }
    ensures dependencies { dependencies.new ≡ dependencies.old }
    ensures statuses { statuses.new ≡ statuses.old }
    ensures staged { OnOk result ((e : Event) (past : List Event)
        → IsAt (values reading.now dependencies.old statuses.old) e past
        → Adds (share_entries reading.now.rules.config.now reading.now.rules.zone.now
        reading.now.share e past)
        (share_books reading.now.rules.config.now reading.now.rules.zone.now
        reading.now.share e past) staged.old staged.new) }
{
    fit_on();
    let mut from = 0;
    while let Some(object) = reading.index.next_due(from, reading.context.moment) {
        stage_touched(alloc, reading, dependencies, statuses, object, staged)?;
        from = u32::from(object.0) + 1;
    }
    Ok(())
}

/// Stages what becomes of the object that has a hard state, and of the host whose problem that attempts again, in object
/// order, as far as they are in the share.
fn stage_hard(
    alloc: Global,
    reading: &Reading<'_>,
    dependencies: &mut Search,
    statuses: &mut Statuses,
    object: ObjectId,
    staged: &mut Staged,
) -> Result<(), AllocError>
    requires at { (e : Event) × (past : List Event)
        × IsAt (values reading.now dependencies.old statuses.old) e past }
    requires named { named_by reading.now.context.kind ≡ Some object }
    ensures dependencies { dependencies.new ≡ dependencies.old }
    ensures statuses { statuses.new ≡ statuses.old }
    ensures staged { OnOk result ((e : Event) (past : List Event)
        → IsAt (values reading.now dependencies.old statuses.old) e past
        → Adds (share_entries reading.now.rules.config.now reading.now.rules.zone.now
        reading.now.share e past)
        (share_books reading.now.rules.config.now reading.now.rules.zone.now
        reading.now.share e past) staged.old staged.new) }
{
    fit_on();
    match repeated(reading, statuses) {
        Some(host) => {
            let pair = in_order(host, object);
            stage_owned(alloc, reading, dependencies, statuses, pair.first, staged)?;
            stage_owned(alloc, reading, dependencies, statuses, pair.second, staged)
        }
        None => stage_owned(alloc, reading, dependencies, statuses, object, staged),
    }
}

/// Two objects, the one of the lesser number first.
#[derive(Clone, Copy)]
struct Pair {
    first: ObjectId,
    second: ObjectId,
}

/// These two objects in order.
fn in_order(one: ObjectId, other: ObjectId) -> Pair
    ensures order { result.first.0 ≤ result.second.0 }
    ensures are { ArePair one other result }
{
    if one.0 <= other.0 {
        Pair {
            first: one,
            second: other,
        }
    } else {
        Pair {
            first: other,
            second: one,
        }
    }
}

/// Stages what becomes of an object that the event touches, if it is in the share.
fn stage_owned(
    alloc: Global,
    reading: &Reading<'_>,
    dependencies: &mut Search,
    statuses: &mut Statuses,
    object: ObjectId,
    staged: &mut Staged,
) -> Result<(), AllocError>
    requires at { (e : Event) × (past : List Event)
        × IsAt (values reading.now dependencies.old statuses.old) e past }
    requires touched { (e : Event) (past : List Event) (settings : Object)
        → IsAt (values reading.now dependencies.old statuses.old) e past
        → slice_get reading.now.rules.config.now.objects object.0 ≡ Some settings
        → is_touched reading.now.rules.config.now reading.now.rules.zone.now e past object.0
        settings ≡ true }
    requires object { object.0 < length reading.now.rules.config.now.objects }
    ensures dependencies { dependencies.new ≡ dependencies.old }
    ensures statuses { statuses.new ≡ statuses.old }
    ensures staged { OnOk result ((e : Event) (past : List Event)
        → IsAt (values reading.now dependencies.old statuses.old) e past
        → Adds (if is_owned reading.now.share object.0 then object_entries
        reading.now.rules.config.now reading.now.rules.zone.now e past object.0 else [])
        (if is_owned reading.now.share object.0 then new_books
        reading.now.rules.config.now reading.now.rules.zone.now e past object.0 else [])
        staged.old staged.new) }
{
    if !reading.share.owns(object) {
        return Ok(());
    }
    fit_on();
    stage_touched(alloc, reading, dependencies, statuses, object, staged)
}

/// Stages what becomes of an object of the share.
fn stage_touched(
    alloc: Global,
    reading: &Reading<'_>,
    dependencies: &mut Search,
    statuses: &mut Statuses,
    object: ObjectId,
    staged: &mut Staged,
) -> Result<(), AllocError>
    requires at { (e : Event) × (past : List Event)
        × IsAt (values reading.now dependencies.old statuses.old) e past }
    requires object { object.0 < length reading.now.rules.config.now.objects }
    requires owned { is_owned reading.now.share object.0 ≡ true }
    ensures dependencies { dependencies.new ≡ dependencies.old }
    ensures statuses { statuses.new ≡ statuses.old }
    ensures staged { OnOk result ((e : Event) (past : List Event)
        → IsAt (values reading.now dependencies.old statuses.old) e past
        → Adds (object_entries reading.now.rules.config.now reading.now.rules.zone.now e past
        object.0)
        (book_after reading.now.rules.config.now reading.now.rules.zone.now e past object.0)
        staged.old staged.new) }
{
    let found = find(reading, dependencies, statuses, object);
    let book = reading.books[usize::from(object.0)];
    count_few();
    attempt_by_due();
    let judgement = decide(&reading.rules, object, &found, book);
    let heard = add_messages(
        alloc,
        &reading.rules,
        object,
        reading.context.number,
        judgement.outcome,
        &mut staged.receivers,
        &mut staged.entries,
    )?;
    let decision = conclude(&reading.rules, object, judgement, heard);
    staged.books.push(NewBook {
        object,
        book: decision.book,
    })?;
    Ok(())
}

/// The books after an event, by those that were staged.
pub(crate) fn settle(books: &mut Vec<Book>, decided: &[NewBook])
    ensures { books.new.items ≡ settled decided.now books.old.items }
{
    for new_book in decided {
        settle_one(books, new_book);
    }
}

/// The books after one of them is new.
fn settle_one(books: &mut Vec<Book>, decided: &NewBook)
    ensures { books.new.items ≡ slice_set books.old.items decided.now.object.0 decided.now.book }
{
    let number = usize::from(decided.object.0);
    if number < books.len() {
        books[number] = decided.book;
    }
}
