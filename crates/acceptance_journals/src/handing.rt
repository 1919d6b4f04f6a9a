//! What a channel with a journal hands to the channel in it.

use crate::given::notice;
use acceptance_inputs::configs::base;
use channel::letter::{Letter, letter_text};
use channel::memory::MemoryChannel;
use channel::{Channel, Fault};
use due_model::notice::Notice;
use journaled::memory::MemoryJournal;
use journaled::{Claim, Journaled, Past};
use std::alloc::{AllocError, Global};
use std::sync::Arc;
use std::test::Fail;

/// A channel over one in memory, with a journal of so much room.
type Tried = Journaled<MemoryChannel, MemoryJournal>;

/// The letter of a notice.
fn letter(alloc: Global, event: u64, contact: u16) -> Result<Letter, AllocError> {
    let config = base(alloc)?;
    letter_text(alloc, &config, notice(event, contact))
}

/// A channel, after runs that from event 2 on took these, and were about to hand over these.
fn tried(
    alloc: Global,
    taken: &[Notice],
    begun: &[Notice],
    limit: usize,
) -> Result<Tried, AllocError> {
    let past = Past::new(
        2,
        Vec::from_slice(alloc, taken)?,
        Vec::from_slice(alloc, begun)?,
    );
    let inner = MemoryChannel::new(alloc, 65_536, &[])?;
    let journal = MemoryJournal::new(alloc, limit);
    Ok(Journaled::new(alloc, inner, journal, Arc::new(alloc, past)?))
}

/// What becomes of a letter.
fn hand<C: Channel>(
    channel: &mut C,
    alloc: Global,
    event: u64,
    contact: u16,
) -> Result<Result<(), Fault>, AllocError> {
    let letter = letter(alloc, event, contact)?;
    channel.reserve()?;
    if !channel.room() {
        return Ok(Err(Fault::Device));
    }
    Ok(channel.deliver(&letter))
}

#[test]
fn what_was_taken_is_claimed(rt: HostRuntime) -> Result<(), Fail> {
    let alloc = rt.alloc();
    let mut channel = tried(alloc, &[notice(3, 2), notice(3, 0)], &[], 2)?;
    assert!(rt; hand(&mut channel, alloc, 1, 0)? == Ok(()));
    assert!(rt; hand(&mut channel, alloc, 3, 0)? == Ok(()));
    assert!(rt; hand(&mut channel, alloc, 3, 2)? == Ok(()));
    assert!(rt; hand(&mut channel, alloc, 4, 0)? == Ok(()));
    assert!(rt; channel.taken().len() == 4);
    // Two entries fit: the first letter that was handed over has filled the journal.
    assert!(rt; hand(&mut channel, alloc, 5, 0)? == Err(Fault::Device));
    assert!(rt; channel.failures() == 1);
    Ok(())
}

#[test]
fn another_in_its_place_is_refused(rt: HostRuntime) -> Result<(), Fail> {
    let alloc = rt.alloc();
    let mut channel = tried(alloc, &[notice(3, 0), notice(3, 2)], &[], 9)?;
    assert!(rt; hand(&mut channel, alloc, 3, 1)? == Err(Fault::Device));
    assert!(rt; hand(&mut channel, alloc, 2, 0)? == Err(Fault::Device));
    assert!(rt; channel.taken().is_empty());
    Ok(())
}

#[test]
fn a_journal_that_breaks_leaves_one_in_doubt(rt: HostRuntime) -> Result<(), Fail> {
    let alloc = rt.alloc();
    let mut channel = tried(alloc, &[], &[notice(2, 0)], 1)?;
    assert!(rt; hand(&mut channel, alloc, 2, 0)? == Ok(()));
    assert!(rt; hand(&mut channel, alloc, 3, 0)? == Err(Fault::Device));
    assert!(rt; channel.taken().len() == 1);
    Ok(())
}

#[test]
fn claims(rt: HostRuntime) -> Result<(), Fail> {
    let alloc = rt.alloc();
    let taken = Vec::from_slice(alloc, &[notice(5, 1), notice(3, 1)])?;
    let past = Past::new(2, taken, Vec::new(alloc));
    assert!(rt; past.find(&notice(1, 9)) == Claim::Held);
    assert!(rt; past.find(&notice(3, 1)) == Claim::Held);
    assert!(rt; past.find(&notice(4, 1)) == Claim::Differs);
    assert!(rt; past.find(&notice(5, 1)) == Claim::Held);
    assert!(rt; past.find(&notice(5, 2)) == Claim::New);
    Ok(())
}
