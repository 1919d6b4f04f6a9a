//! Mailboxes.

use crate::devices::Device;
use crate::given::{DOWN, DOWN_TEXT, Letters, UP, UP_TEXT, answers, are, check, has, letter};
use channel::Fault;
use channel::letter::Letter;
use channel_kinds::device_channel::DeviceChannel;
use channel_kinds::mailbox::Mailbox;
use channel_kinds::stream::AnyOutlet;
use std::alloc::{AllocError, Global};
use std::process::Abort;

const CLOSED: &str = "-- closed\n";

type Boxed = DeviceChannel<Mailbox<AnyOutlet<Device>>>;

/// A mailbox over this device.
fn over(alloc: Global, device: Device) -> Boxed {
    DeviceChannel::new(alloc, Mailbox::new(AnyOutlet::new(device)))
}

/// The device of a mailbox, once that is closed.
fn closed(rt: &impl Abort, mailbox: Boxed) -> Device {
    let device = mailbox.into_device().expect(rt, "it is open");
    device.close().into_inner()
}

/// Two letters, by one call and a flush each.
fn two_letters(rt: &impl Abort, mailbox: &mut Boxed, letters: &Letters) {
    answers(rt, mailbox, &letters.down, Ok(()), "the first is taken");
    answers(rt, mailbox, &letters.up, Ok(()), "the second is taken");
    check(rt, has(mailbox, &[DOWN, UP], 0), "two receipts");
}

/// Its device had six calls, three of them flushes.
fn has_both(rt: &impl Abort, device: &Device) {
    let is_held = are(&device.held, &[DOWN_TEXT, UP_TEXT, CLOSED]);
    check(rt, is_held, "what is held");
    check(rt, (device.calls, device.flushes) == (6, 3), "calls");
}

#[test]
fn letters_one_after_another(rt: HostRuntime) -> Result<(), AllocError> {
    let letters = Letters::new(rt.alloc())?;
    let mut mailbox = over(rt.alloc(), Device::new(rt.alloc()));
    two_letters(&rt, &mut mailbox, &letters);
    has_both(&rt, &closed(&rt, mailbox));
    Ok(())
}

#[test]
fn a_drop_writes_the_closing_line(rt: HostRuntime) {
    let mut device = Device::new(rt.alloc());
    drop(Mailbox::new(AnyOutlet::new(&mut device)));
    check(&rt, are(&device.held, &[CLOSED]), "the closing line");
}

/// How many bytes a device takes a call, and the first call that fails, or 0; what becomes of a letter; how many bytes of the letter and
/// of the closing line the device holds at last.
type Row = (usize, u32, Result<(), Fault>, usize, usize);

const FAILED: Result<(), Fault> = Err(Fault::Device);

/// With 30 bytes a call there are three calls and a flush for the letter, one and a flush for the last line.
const ROWS: [Row; 9] = [
    (30, 1, FAILED, 0, 0),
    (30, 2, FAILED, 30, 0),
    (30, 3, FAILED, 60, 0),
    (30, 4, FAILED, 79, 0),
    (30, 5, Ok(()), 79, 0),
    (30, 6, Ok(()), 79, 10),
    (30, 7, Ok(()), 79, 10),
    (1, 0, Ok(()), 79, 10),
    (0, 0, FAILED, 0, 0),
];

/// Whether a mailbox keeps of one letter what this answer says.
fn keeps(mailbox: &Boxed, answer: Result<(), Fault>) -> bool {
    if answer.is_ok() {
        has(mailbox, &[DOWN], 0)
    } else {
        has(mailbox, &[], 1)
    }
}

/// Whether a device holds so many bytes of the letter and of the closing line.
fn holds(device: &Device, text: usize, line: usize) -> bool {
    let text = &DOWN_TEXT.as_bytes()[..text.min(79)];
    let line = &CLOSED.as_bytes()[..line.min(10)];
    device.held.strip_prefix(text) == Some(line)
}

/// A mailbox over the device of a row is given a letter.
fn try_row(rt: &impl Abort, alloc: Global, letter: &Letter, row: Row) {
    let (most, fails, answer, text, line) = row;
    let mut device = Device::new(alloc);
    device.most = most;
    device.fails = fails;
    let mut mailbox = over(alloc, device);
    answers(rt, &mut mailbox, letter, answer, "the answer");
    check(rt, keeps(&mailbox, answer), "what is kept");
    let device = closed(rt, mailbox);
    check(rt, holds(&device, text, line), "what the device holds");
}

#[test]
fn a_writer_that_fails_at_each_call(rt: HostRuntime) -> Result<(), AllocError> {
    let down = letter(rt.alloc(), DOWN)?;
    for row in ROWS {
        try_row(&rt, rt.alloc(), &down, row);
    }
    Ok(())
}
