//! Pagers.

use crate::devices::Peer;
use crate::given::{DOWN, DOWN_TEXT, Letters, UP_TEXT, answers, are, check, has, letter};
use channel::Fault;
use channel::letter::Letter;
use channel_kinds::device_channel::DeviceChannel;
use channel_kinds::pager::Pager;
use channel_kinds::stream::AnyStream;
use std::alloc::{AllocError, Global};
use std::process::Abort;

const FAILED: Result<(), Fault> = Err(Fault::Device);

type Paging = DeviceChannel<Pager<AnyStream<Peer>>>;

/// A pager over this peer.
fn over(alloc: Global, peer: Peer) -> Paging {
    DeviceChannel::new(alloc, Pager::new(AnyStream::new(peer)))
}

/// The peer of a pager, once that is closed.
fn closed(rt: &impl Abort, pager: Paging) -> Peer {
    let device = pager.into_device().expect(rt, "it is open");
    device.close().into_inner()
}

/// The first letter is taken, the second is refused, and then none is.
fn talk(rt: &impl Abort, pager: &mut Paging, letters: &Letters) {
    answers(rt, pager, &letters.down, Ok(()), "the first is taken");
    answers(rt, pager, &letters.up, FAILED, "the second is refused");
    answers(rt, pager, &letters.up, FAILED, "the pager is over");
    check(rt, has(pager, &[DOWN], 2), "a receipt and two failures");
}

/// It was told 177 bytes, and asked for 6.
fn was_told_both(rt: &impl Abort, peer: &Peer) {
    let told = ["PAGE 79\n", DOWN_TEXT, "PAGE 78\n", UP_TEXT, "BYE\n"];
    check(rt, are(&peer.told.held, &told), "what the peer is told");
    check(rt, peer.reads == 6, "6 reads");
}

#[test]
fn pager_dialogue(rt: HostRuntime) -> Result<(), AllocError> {
    let letters = Letters::new(rt.alloc())?;
    let mut pager = over(rt.alloc(), Peer::new(rt.alloc(), b"OK\nNO\n"));
    talk(&rt, &mut pager, &letters);
    was_told_both(&rt, &closed(&rt, pager));
    Ok(())
}

#[test]
fn a_drop_writes_the_farewell(rt: HostRuntime) {
    let mut peer = Peer::new(rt.alloc(), b"");
    drop(Pager::new(AnyStream::new(&mut peer)));
    check(&rt, are(&peer.told.held, &["BYE\n"]), "the farewell");
}

/// What a peer answers, and the first call of `read` and the first of `write` or `flush` that fails, or 0; what becomes of the letter; how
/// many bytes were told at last, and by how many calls the answer was read.
type Row = (&'static [u8], u32, u32, Result<(), Fault>, usize, u32);

/// A call takes 50 bytes: two and a flush for the page, one and a flush for the farewell.
const ROWS: [Row; 12] = [
    (b"OK\n", 0, 0, Ok(()), 91, 3),
    (b"OK", 0, 0, FAILED, 91, 3),
    (
        b"OK..............................................................\n",
        0,
        0,
        FAILED,
        91,
        64,
    ),
    (b"OK\n", 1, 0, FAILED, 91, 1),
    (b"OK\n", 2, 0, FAILED, 91, 2),
    (b"OK\n", 3, 0, FAILED, 91, 3),
    (b"OK\n", 4, 0, Ok(()), 91, 3),
    (b"OK\n", 0, 1, FAILED, 0, 0),
    (b"OK\n", 0, 2, FAILED, 50, 0),
    (b"OK\n", 0, 3, FAILED, 87, 0),
    (b"OK\n", 0, 4, Ok(()), 87, 3),
    (b"OK\n", 0, 5, Ok(()), 91, 3),
];

/// What is kept of the first letter; after a failure each letter is one failure more.
fn try_again(rt: &impl Abort, pager: &mut Paging, letter: &Letter, answer: Result<(), Fault>) {
    if answer.is_ok() {
        check(rt, has(pager, &[DOWN], 0), "the receipt");
        return;
    }
    check(rt, has(pager, &[], 1), "one failure");
    answers(rt, pager, letter, FAILED, "the pager is over");
    check(rt, has(pager, &[], 2), "one failure more");
}

/// A pager over the peer of a row is given a letter, and after a failure again.
fn try_row(rt: &impl Abort, alloc: Global, letter: &Letter, row: Row) {
    let (said, reads, writes, answer, told, asked) = row;
    let mut peer = Peer::new(alloc, said);
    peer.fails = reads;
    peer.told.fails = writes;
    peer.told.most = 50;
    let mut pager = over(alloc, peer);
    answers(rt, &mut pager, letter, answer, "the answer");
    try_again(rt, &mut pager, letter, answer);
    let peer = closed(rt, pager);
    let found = (peer.told.held.len(), peer.reads);
    check(rt, found == (told, asked), "what was told and read");
}

#[test]
fn a_stream_that_fails_at_each_call(rt: HostRuntime) -> Result<(), AllocError> {
    let down = letter(rt.alloc(), DOWN)?;
    for row in ROWS {
        try_row(&rt, rt.alloc(), &down, row);
    }
    Ok(())
}
