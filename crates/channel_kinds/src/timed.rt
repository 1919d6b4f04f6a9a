//! Streams to a peer at an address, each try of which has a time limit: of dialling, writing and hearing the answer together.

ghost use Rattle.std.specs.Prelude.{◌≡◌, false};
ghost use Rattle.std.specs.Io.{ReadsAtMost, WritesAtMost};

use crate::dialled::Dialer;
use crate::stream::{Outlet, Stream};
use std::alloc::{AllocError, Global};
use std::io::{self, ErrorKind, Read, Write};
use std::marker::Model;
use std::net::{Net, TcpStream, ToSocketAddrs};
use std::time::{Clock, Duration};

/// A stream that gives up once the time of its try is over. Before each call it is asked how much of that is left.
#[derive(Drop)]
pub struct TimedStream<C: Clock + Drop> {
    stream: TcpStream,
    clock: C,
    /// When the time is over, in the clock's monotonic time.
    until: Duration,
    /// Whether it was flushed after it was written to last.
    is_flushed: bool,
    /// How many calls were made to read, up to `u64::MAX`.
    reads: u64,
}

impl<C: Clock + Drop> Model for TimedStream<C> {
    ghost use Rattle.std.specs.declared.net.tcp.TcpStream.{TcpStream};
    ghost use Rattle.channel_kinds.specs.Stream.{Streamed};

    ghost Value = { Streamed TcpStream };

    ghost view = { λ s. record { stream = s.stream; is_flushed = s.is_flushed; reads = s.reads } };
}

impl<C: Clock + Drop> TimedStream<C> {
    /// This stream, from which nothing was read, and of which it isn't known what was flushed.
    fn new(stream: TcpStream, clock: C, until: Duration) -> TimedStream<C>
        ensures stream { result.stream ≡ stream }
        ensures is_flushed { result.is_flushed ≡ false }
        ensures reads { result.reads ≡ 0 }
    {
        TimedStream {
            stream,
            clock,
            until,
            is_flushed: false,
            reads: 0,
        }
    }

    /// How much time is left. An error where none is, or the clock fails.
    fn left(&self) -> io::Result<Duration> {
        time_left(&self.clock, self.until)
    }

    /// One call to read, within the time that is left.
    fn read_within(&mut self, buffer: &mut [u8]) -> io::Result<usize>
        ensures bound { ReadsAtMost result buffer.new }
        ensures flushed { self.new.is_flushed ≡ self.old.is_flushed }
        ensures reads { self.new.reads ≡ self.old.reads }
    {
        self.stream.set_read_timeout(Some(self.left()?))?;
        self.stream.read(buffer)
    }

    /// One call to write, within the time that is left.
    fn write_within(&mut self, bytes: &[u8]) -> io::Result<usize>
        ensures bound { WritesAtMost result bytes.now }
        ensures flushed { self.new.is_flushed ≡ self.old.is_flushed }
        ensures reads { self.new.reads ≡ self.old.reads }
    {
        self.stream.set_write_timeout(Some(self.left()?))?;
        self.stream.write(bytes)
    }
}

impl<C: Clock + Drop> Read for TimedStream<C> {
    fn read(&mut self, buffer: &mut [u8]) -> io::Result<usize> {
        self.reads = self.reads.saturating_add(1);
        self.read_within(buffer)
    }
}

impl<C: Clock + Drop> Write for TimedStream<C> {
    fn write(&mut self, bytes: &[u8]) -> io::Result<usize> {
        self.is_flushed = false;
        self.write_within(bytes)
    }

    fn flush(&mut self) -> io::Result<()> {
        self.stream.flush()
    }
}

impl<C: Clock + Drop> Outlet for TimedStream<C> {
    ghost is_flushed = { λ s. s.is_flushed };

    ghost reads = { λ s. s.reads };

    fn write_out(&mut self, bytes: &[u8]) -> io::Result<usize> {
        self.is_flushed = false;
        self.write_within(bytes)
    }

    fn flush_out(&mut self) -> io::Result<()> {
        let flushed = self.stream.flush();
        self.is_flushed = flushed.is_ok();
        flushed
    }
}

impl<C: Clock + Drop> Stream for TimedStream<C> {
    fn read_in(&mut self, buffer: &mut [u8]) -> io::Result<usize> {
        self.reads = self.reads.saturating_add(1);
        self.read_within(buffer)
    }
}

/// What dials an address, HOST:PORT, and gives each try so much time. Looking a host's name up isn't limited.
#[derive(Drop)]
pub struct TcpDialer<R: Net<Stream = TcpStream> + Clock + Copy + Drop> {
    rt: R,
    address: String,
    limit: Duration,
}

impl<R: Net<Stream = TcpStream> + Clock + Copy + Drop> TcpDialer<R> {
    /// A dialer of this address, whose tries take so long at most. A refused growth is the only error.
    pub fn new(
        alloc: Global,
        rt: R,
        address: &str,
        limit: Duration,
    ) -> Result<TcpDialer<R>, AllocError> {
        Ok(TcpDialer {
            rt,
            address: String::from_str(alloc, address)?,
            limit,
        })
    }

    /// A new stream to the first of the address's peers that answers, within the time of one try.
    fn connect(&self) -> io::Result<TimedStream<R>> {
        let until = end_of_try(&self.rt, self.limit)?;
        for address in self.address.to_socket_addrs(&self.rt)? {
            let left = time_left(&self.rt, until)?;
            if let Ok(stream) = TcpStream::connect_timeout(&self.rt, &address, left) {
                return Ok(TimedStream::new(stream, self.rt, until));
            }
        }
        Err(io::Error::from(ErrorKind::NotConnected))
    }
}

impl<R: Net<Stream = TcpStream> + Clock + Copy + Drop> Dialer<TimedStream<R>> for TcpDialer<R> {
    fn dial(&mut self) -> Option<TimedStream<R>> {
        self.connect().ok()
    }

    /// Where the clock fails, no time is left.
    fn begin(&mut self, stream: &mut TimedStream<R>) {
        stream.until = end_of_try(&self.rt, self.limit).unwrap_or(Duration::ZERO);
    }
}

/// When a try that begins now is over, in the clock's monotonic time.
fn end_of_try<C: Clock>(clock: &C, limit: Duration) -> io::Result<Duration> {
    Ok(clock.monotonic()?.saturating_add(limit))
}

/// How much time is left up to there; never none at all.
fn time_left<C: Clock>(clock: &C, until: Duration) -> io::Result<Duration> {
    let left = until.saturating_sub(clock.monotonic()?);
    if left.is_zero() {
        return Err(io::Error::from(ErrorKind::TimedOut));
    }
    Ok(left)
}
