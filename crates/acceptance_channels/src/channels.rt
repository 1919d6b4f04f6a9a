//! Each kind of channel, as one of several.

use crate::devices::{Agreeing, Device, Peers};
use crate::given::{DOWN, Letters, UP, answers, are_receipts, check, has, letter};
use channel::either::Either;
use channel::letter::Letter;
use channel::memory::MemoryChannel;
use channel::{Channel, Fault, Kind};
use channel_kinds::device::AnyDevice;
use channel_kinds::device_channel::DeviceChannel;
use channel_kinds::dialled::DialledPager;
use channel_kinds::mailbox::Mailbox;
use channel_kinds::spawned::Spawned;
use channel_kinds::stream::{AnyOutlet, AnyStream};
use std::alloc::AllocError;
use std::process::{Abort, Processes, SystemProcess};
use std::time::{Clock, Duration};

/// A new channel takes a letter.
fn takes<C: Channel>(channel: &mut C, letter: &Letter) -> bool {
    channel.reserve().is_ok() && channel.room() && channel.deliver(letter).is_ok()
}

/// Whether it is of this kind and with this limit, and has taken the one letter.
fn has_taken<C: Channel>(channel: &C, kind: Kind, limit: u64) -> bool {
    channel.kind() == kind
        && channel.number() == 0
        && channel.limit() == limit
        && channel.failures() == 0
        && are_receipts(channel.taken(), &[DOWN])
}

/// A new channel of this kind and with this limit takes a letter, and none after its close.
fn drive<C: Channel>(rt: &impl Abort, channel: &mut C, letter: &Letter, kind: Kind, limit: u64) {
    check(rt, takes(channel, letter), "it takes the letter");
    check(
        rt,
        has_taken(channel, kind, limit),
        "what it says of itself",
    );
    channel.close();
    check(rt, !takes(channel, letter), "a closed one takes nothing");
    check(
        rt,
        are_receipts(channel.taken(), &[DOWN]),
        "what it took stays",
    );
}

/// A device of one of the three kinds.
type OneOfThree<R> = AnyDevice<AnyOutlet<Device>, AnyStream<Agreeing>, Peers, R>;

/// A channel over a device, or one in memory.
type Mixed<R> = Either<DeviceChannel<OneOfThree<R>>, MemoryChannel>;

/// A channel of each kind.
fn each<R: AllocGlobal + Abort + Processes<Started = SystemProcess> + Clock + Copy + Send>(
    rt: &R,
    number: usize,
) -> Result<(Mixed<R>, Kind, u64), AllocError> {
    let alloc = rt.alloc();
    let (device, kind, limit) = match number {
        0 => {
            let mailbox = Mailbox::new(AnyOutlet::new(Device::new(alloc)));
            (AnyDevice::Mailbox(mailbox), Kind::Mailbox, 65_536)
        }
        1 => {
            let stream = AnyStream::new(Agreeing::new());
            let pager = DialledPager::new(Peers { dialled: 0 }, stream);
            (AnyDevice::Pager(pager), Kind::Pager, 1_024)
        }
        2 => {
            let program = Spawned::new(alloc, *rt, "/bin/cat", &[])?;
            let program = program.within(Duration::from_secs(60));
            (AnyDevice::Spawned(program), Kind::Spawned, 16_384)
        }
        _ => {
            let channel = MemoryChannel::new(alloc, 79, &[])?;
            return Ok((Either::Right(channel), Kind::Memory, 79));
        }
    };
    let channel = DeviceChannel::new(alloc, device);
    Ok((Either::Left(channel), kind, limit))
}

#[test]
fn a_channel_of_each_kind(rt: HostRuntime) -> Result<(), AllocError> {
    let down = letter(rt.alloc(), DOWN)?;
    for number in 0..4 {
        let (mut channel, kind, limit) = each(&rt, number)?;
        drive(&rt, &mut channel, &down, kind, limit);
    }
    Ok(())
}

/// What the calls of a channel in memory answer, in order, where the second and the fourth fail and a text has 78 bytes at most: the
/// letter is the shorter one or the longer one.
const ANSWERS: [(bool, Result<(), Fault>); 6] = [
    (true, Ok(())),
    (true, Err(Fault::Device)),
    (false, Err(Fault::TooLong)),
    (false, Err(Fault::TooLong)),
    (true, Ok(())),
    (true, Ok(())),
];

/// Gives the letters, and compares the answers.
fn gives_in_turn(rt: &impl Abort, channel: &mut MemoryChannel, letters: &Letters) {
    for (is_short, answer) in ANSWERS {
        let letter = if is_short { &letters.up } else { &letters.down };
        answers(rt, channel, letter, answer, "the answer of a call");
    }
    check(rt, has(channel, &[UP, UP, UP], 1), "three, and a failure");
}

#[test]
fn memory_fails_at_the_listed_calls(rt: HostRuntime) -> Result<(), AllocError> {
    let letters = Letters::new(rt.alloc())?;
    let mut channel = MemoryChannel::new(rt.alloc(), 78, &[2, 4])?;
    gives_in_turn(&rt, &mut channel, &letters);
    Ok(())
}
