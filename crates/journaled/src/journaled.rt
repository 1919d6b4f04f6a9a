//! A channel over another and a journal.

ghost use Rattle.std.specs.Prelude.{◌≡◌, ◌↔◌, ◌+◌, ◌<◌, ◌≤◌, ◌⊎◌, ◌++◌, [], ◌∷◌, length, is_ok};
ghost use Rattle.std.specs.Prelude.{Contains, IfNone, IfOk, IfSome, IsErrOf, OnErr, OnOk, true, false};
ghost use Rattle.std.specs.Arc.{arc_value};
ghost use Rattle.channel.specs.claims.Channels.{receipt_of};
ghost use Rattle.channel.specs.Channels.{IsCounted, offer_of};
ghost use Rattle.channel.specs.Letter.{again_of};
ghost use Rattle.journal_text.specs.declared.entry.Entry.TheVariants as entry;
ghost use Rattle.journaled.specs.Claims.{IsHeld, is_settled};
ghost use Rattle.journaled.specs.Wrapped.{IsOffered, account_of};

use crate::journal::Journal;
use crate::past::{Claim, Past};
use channel::letter::Letter;
use channel::record::ChannelRecord;
use channel::{Channel, Fault, Kind, Receipt};
use due_model::notice::Notice;
use journal_text::entry::Entry;
use std::alloc::{AllocError, Global};
use std::marker::Model;
use std::sync::Arc;

/// A channel that hands on to another what no earlier run has settled. A letter that an earlier run was about to hand over goes out with
/// the line that says so.
#[derive(Drop)]
pub struct Journaled<C: Channel, J: Journal> {
    alloc: Global,
    inner: C,
    journal: J,
    past: Arc<Past, Global>,
    kept: ChannelRecord,
    /// For how many receipts there is room, here and in the inner channel.
    granted: u64,
    closed: bool,
}

impl<C: Channel, J: Journal> Model for Journaled<C, J> {
    ghost use Rattle.std.specs.Prelude.{◌≤◌};
    ghost use Rattle.std.specs.Arc.{arc_value};
    ghost use Rattle.journaled.specs.Wrapped.{Wrapped};

    ghost Value = { Wrapped C J };

    ghost view = { λ s. record {
      inner = s.inner;
      journal = s.journal;
      past = arc_value s.past;
      kept = s.kept;
      granted = s.granted;
      closed = s.closed;
    } };

    ghost invariant = { λ s. (s.granted ≤ s.kept.room) × (s.granted ≤ C.room s.inner) };
}

impl<C: Channel, J: Journal> Journaled<C, J> {
    /// A channel that has taken nothing, over another, a journal that entries are added to, and what earlier runs left. It takes no
    /// memory.
    pub fn new(alloc: Global, inner: C, journal: J, past: Arc<Past, Global>) -> Journaled<C, J>
        ensures inner { result.inner ≡ inner }
        ensures journal { result.journal ≡ journal }
        ensures past { result.past ≡ arc_value past }
        ensures taken { result.kept.taken ≡ [] }
        ensures failures { result.kept.failures ≡ 0 }
        ensures closed { result.closed ≡ false }
    {
        Journaled {
            alloc,
            inner,
            journal,
            past,
            kept: ChannelRecord::new(alloc),
            granted: 0,
            closed: false,
        }
    }
}

/// The letter with the line that says that it goes out again, where an earlier run was about to hand it over, unless its text is too long
/// then. A refused growth is the only error.
fn marked(
    alloc: Global,
    past: &Past,
    letter: &Letter,
    limit: u64,
) -> Result<Option<Letter>, AllocError>
    ensures begun { IfOk result (λ found. IfSome found (λ again. Contains past.now.begun letter.now.notice)) }
    ensures notice { IfOk result (λ found. IfSome found (λ again. again.notice ≡ letter.now.notice)) }
    ensures text { IfOk result (λ found. IfSome found (λ again. again.text ≡ again_of letter.now.text)) }
    ensures limit { IfOk result (λ found. IfSome found (λ again. length again.text ≤ limit)) }
    ensures none { IfOk result (λ found. IfNone found
        ((Contains past.now.begun letter.now.notice → ⊥) ⊎ (limit < length (again_of letter.now.text)))) }
    ensures err { OnErr result (Contains past.now.begun letter.now.notice) }
{
    if !past.has_begun(&letter.notice) {
        return Ok(None);
    }
    let again = letter.again(alloc)?;
    if again.text.len() as u64 > limit {
        Ok(None)
    } else {
        Ok(Some(again))
    }
}

/// The marked letter, or else the letter itself.
fn chosen<'a>(marked: &'a Option<Letter>, letter: &'a Letter) -> &'a Letter
    ensures some { IfSome marked.now (λ again. result.now ≡ again) }
    ensures none { IfNone marked.now (result.now ≡ letter.now) }
{
    match marked {
        Some(again) => again,
        None => letter,
    }
}

/// Writes down that a notice's letter is about to be handed over.
fn begin<J: Journal>(journal: &mut J, notice: Notice) -> bool
    ensures wrote { result ≡ true → J.wrote journal.old (entry.Begun notice ∷ []) journal.new }
    ensures failed { result ≡ false → J.wrote journal.old [] journal.new }
    ensures whole { result ≡ true → J.is_broken journal.old ≡ false }
    ensures broken { result ≡ false → J.is_broken journal.new ≡ true }
{
    journal.write(Entry::Begun(notice))
}

/// Writes down that it was taken. Where that fails the journal is broken, and the letter in doubt.
fn finish<J: Journal>(journal: &mut J, notice: Notice)
    ensures { J.wrote journal.old (entry.Taken notice ∷ []) journal.new
        ⊎ (J.wrote journal.old [] journal.new × (J.is_broken journal.new ≡ true)) }
{
    let _told = journal.write(Entry::Taken(notice));
}

/// Keeps a receipt, for which room was granted.
fn keep(kept: &mut ChannelRecord, granted: &mut u64, notice: Notice)
    requires granted { 0 < granted.old }
    requires room { granted.old ≤ kept.old.room }
    ensures taken { kept.new.taken ≡ kept.old.taken ++ receipt_of notice ∷ [] }
    ensures failures { kept.new.failures ≡ kept.old.failures }
    ensures granted { granted.new + 1 ≡ granted.old }
    ensures room { granted.new ≤ kept.new.room }
{
    kept.add(notice);
    *granted -= 1;
}

impl<C: Channel, J: Journal + Send> Channel for Journaled<C, J> {
    ghost use Rattle.journaled.specs.Wrapped.{IsOffered, account_of};
    ghost use Rattle.journaled.specs.HandsLaws.{more_offered, none_offered};

    ghost account = { account_of C.account };

    ghost room = { λ s. s.granted };

    ghost kind = { λ s. C.kind s.inner };

    ghost offered = { IsOffered C.account C.offered J.is_broken J.wrote };

    ghost stays = { none_offered C.account C.offered J.is_broken J.wrote C.stays J.stays };

    ghost follows = { more_offered C.account C.offered J.is_broken J.wrote C.follows J.follows };

    fn kind(&self) -> Kind {
        self.inner.kind()
    }

    fn limit(&self) -> u64 {
        self.inner.limit()
    }

    fn number(&self) -> u64 {
        self.inner.number()
    }

    fn failures(&self) -> u64 {
        self.kept.failures()
    }

    fn room(&self) -> bool {
        self.granted > 0
    }

    fn taken(&self) -> &[Receipt] {
        self.kept.taken()
    }

    fn reserve(&mut self) -> Result<(), AllocError> {
        if self.granted > 0 {
            return Ok(());
        }
        self.inner.reserve()?;
        self.kept.reserve()?;
        self.granted = 1;
        Ok(())
    }

    fn close(&mut self)
        ensures account { account_of C.account self.new
            ≡ record (account_of C.account self.old) { closed = true } }
        ensures room { self.new.granted ≡ self.old.granted }
        ensures kind { C.kind self.new.inner ≡ C.kind self.old.inner }
        ensures offered { IsOffered C.account C.offered J.is_broken J.wrote self.old [] self.new }
        ensures inner { C.account self.new.inner ≡ record (C.account self.old.inner) { closed = true } }
    {
        self.inner.close();
        self.closed = true;
    }

    /// Ok where earlier runs settled it, or the inner channel takes it. Where they settled another in its place, it is refused.
    fn deliver(&mut self, letter: &Letter) -> Result<(), Fault>
        requires { 0 < self.old.granted }
        ensures ok { OnOk result
            (self.new.kept.taken ≡ self.old.kept.taken ++ receipt_of letter.now.notice ∷ []) }
        ensures ok_room { OnOk result (self.old.granted ≤ self.new.granted + 1) }
        ensures ok_failures { OnOk result (self.new.kept.failures ≡ self.old.kept.failures) }
        ensures err { OnErr result (self.new.kept.taken ≡ self.old.kept.taken) }
        ensures err_room { OnErr result (self.new.granted ≡ self.old.granted) }
        ensures too_long { IsErrOf result Fault.TooLong
            ↔ ((C.account self.old.inner).limit < length letter.now.text) }
        ensures uncounted { IsErrOf result Fault.TooLong
            → self.new.kept.failures ≡ self.old.kept.failures }
        ensures counted { IsErrOf result Fault.Device
            → IsCounted self.old.kept.failures self.new.kept.failures }
        ensures limit { (C.account self.new.inner).limit ≡ (C.account self.old.inner).limit }
        ensures kind { C.kind self.new.inner ≡ C.kind self.old.inner }
        ensures number { (C.account self.new.inner).number ≡ (C.account self.old.inner).number }
        ensures was_open { OnOk result (self.old.closed ≡ false) }
        ensures closed { self.new.closed ≡ self.old.closed }
        ensures offered { IsOffered C.account C.offered J.is_broken J.wrote self.old
            (offer_of letter.now (is_ok result) ∷ []) self.new }
        // What earlier runs settled goes nowhere; it is taken, just as it is, by an open channel.
        ensures untouched { is_settled self.old.past letter.now.notice ≡ true
            → (self.new.inner ≡ self.old.inner) × (self.new.journal ≡ self.old.journal) }
        ensures claimed { IsHeld self.old.past letter.now.notice → self.old.closed ≡ false
            → length letter.now.text ≤ (C.account self.old.inner).limit → OnErr result ⊥ }
        // What is new is handed over, just as it is, unless the journal broke.
        ensures handed { is_settled self.old.past letter.now.notice ≡ false
            → (Contains self.old.past.begun letter.now.notice → ⊥) → self.old.closed ≡ false
            → length letter.now.text ≤ (C.account self.old.inner).limit
            → J.is_broken self.new.journal ≡ false
            → C.offered self.old.inner (offer_of letter.now (is_ok result) ∷ []) self.new.inner }
    {
        if letter.text.len() as u64 > self.inner.limit() {
            return Err(Fault::TooLong);
        }
        if self.closed {
            self.kept.count_failure();
            return Err(Fault::Device);
        }
        match self.past.find(&letter.notice) {
            Claim::Held => {
                keep(&mut self.kept, &mut self.granted, letter.notice);
                Ok(())
            }
            Claim::Differs => {
                self.kept.count_failure();
                Err(Fault::Device)
            }
            Claim::New => {
                let Ok(marked) = marked(self.alloc, &self.past, letter, self.inner.limit()) else {
                    self.kept.count_failure();
                    return Err(Fault::Device);
                };
                if !begin(&mut self.journal, letter.notice) {
                    self.kept.count_failure();
                    return Err(Fault::Device);
                }
                match self.inner.deliver(chosen(&marked, letter)) {
                    Ok(()) => {
                        finish(&mut self.journal, letter.notice);
                        keep(&mut self.kept, &mut self.granted, letter.notice);
                        Ok(())
                    }
                    Err(_) => {
                        self.kept.count_failure();
                        Err(Fault::Device)
                    }
                }
            }
        }
    }
}
