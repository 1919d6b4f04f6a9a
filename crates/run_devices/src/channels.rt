//! The channels of a run, opened as the words of the command line say.

ghost use Rattle.std.specs.Prelude.{◌≡◌, [], ◌∷◌, map, IfErr, IfOk, IfSome};
ghost use Rattle.channel_words.specs.Lanes.{names_of};
ghost use Rattle.run_devices.specs.Channels.{IsOpeningFault, asked, asked_of, opened};

use channel_kinds::device::AnyDevice;
use channel_kinds::device_channel::DeviceChannel;
use channel_kinds::dialled::{Dialer, DialledPager};
use channel_kinds::mailbox::Mailbox;
use channel_kinds::spawned::Spawned;
use channel_kinds::stream::AnyOutlet;
use channel_kinds::timed::{TcpDialer, TimedStream};
use channel_words::{ChannelFault, ChannelWord, Device, words_in};
use std::alloc::AllocError;
use std::fs::{File, OpenOptions};
use std::time::Duration;

/// A channel of the program: over a file, over streams to a peer, or what starts programs.
pub type OpenedChannel = DeviceChannel<
    AnyDevice<AnyOutlet<File>, TimedStream<HostRuntime>, TcpDialer<HostRuntime>, HostRuntime>,
>;

/// Opens the channels of words, in order, up to the first that can't be opened: those before it are then closed again. A try of a
/// pager or a program takes so long at most, and so does the dialling of a peer here.
pub fn open_channels<'a>(
    rt: &HostRuntime,
    words: &[ChannelWord<'a>],
    limit: Duration,
) -> Result<Vec<OpenedChannel>, ChannelFault<'a>>
    // Each is of its word's kind, with its program and its arguments; it has taken nothing, and didn't fail.
    ensures opened { IfOk result (λ channels.
        map opened channels.items ≡ map (asked 0) words.now) }
    ensures fault { IfErr result (IsOpeningFault (names_of words.now)) }
{
    let mut channels = Vec::new(rt.alloc());
    for word in words {
        channels.push(open_channel(rt, word, limit)?)?;
    }
    Ok(channels)
}

/// Opens the channel of a word.
fn open_channel<'a>(
    rt: &HostRuntime,
    word: &ChannelWord<'a>,
    limit: Duration,
) -> Result<OpenedChannel, ChannelFault<'a>>
    ensures opened { IfOk result (λ channel. opened channel ≡ asked 0 word.now) }
    ensures fault { IfErr result (IsOpeningFault (names_of (word.now ∷ []))) }
{
    let opened = match word.device {
        Device::Mailbox(path) => open_mailbox(rt, path),
        Device::Pager(address) => open_pager(rt, address, limit)?,
        Device::Command(line) => open_program(rt, line, limit)?,
    };
    match opened {
        Some(channel) => Ok(channel),
        None => Err(ChannelFault::NotOpened(word.name)),
    }
}

/// A mailbox over the file at a path, which is made if it isn't there, and appended to.
fn open_mailbox(rt: &HostRuntime, path: &str) -> Option<OpenedChannel>
    ensures { IfSome result (λ channel. opened channel ≡ asked_of 0 (Device.Mailbox path.entry)) }
{
    let file = OpenOptions::new()
        .append(true)
        .create(true)
        .open(rt, path)
        .ok()?;
    let device = AnyDevice::Mailbox(Mailbox::new(AnyOutlet::new(file)));
    Some(DeviceChannel::new(rt.alloc(), device))
}

/// A pager over a stream to the peer at an address, HOST:PORT, and over a new one after each failure.
fn open_pager(
    rt: &HostRuntime,
    address: &str,
    limit: Duration,
) -> Result<Option<OpenedChannel>, AllocError>
    ensures { IfOk result (λ found.
        IfSome found (λ channel. opened channel ≡ asked_of 0 (Device.Pager address.entry))) }
{
    let mut dialer = TcpDialer::new(rt.alloc(), *rt, address, limit)?;
    let Some(line) = dialer.dial() else {
        return Ok(None);
    };
    let device = AnyDevice::Pager(DialledPager::new(dialer, line));
    Ok(Some(DeviceChannel::new(rt.alloc(), device)))
}

/// A channel that starts the program of a line, with the arguments that stand after it. It isn't started yet.
fn open_program(
    rt: &HostRuntime,
    line: &str,
    limit: Duration,
) -> Result<Option<OpenedChannel>, AllocError>
    ensures { IfOk result (λ found.
        IfSome found (λ channel. opened channel ≡ asked_of 0 (Device.Command line.entry))) }
{
    let line = words_in(rt.alloc(), line)?;
    let Some((program, arguments)) = line.split_first() else {
        return Ok(None);
    };
    let program = Spawned::new(rt.alloc(), *rt, program, arguments)?.within(limit);
    Ok(Some(DeviceChannel::new(rt.alloc(), AnyDevice::Spawned(program))))
}
