//! Writers and streams that fail when they are told to, and keep what they were given.

use channel_kinds::dialled::Dialer;
use channel_kinds::stream::AnyStream;
use std::alloc::Global;
use std::io::{self, ErrorKind, Read, Write};

/// A writer that keeps its bytes. Each call of `write` and of `flush` is counted, from 1.
#[derive(Drop)]
pub(crate) struct Device {
    /// What it was given.
    pub held: Vec<u8>,
    /// The greatest number of bytes that a call takes.
    pub most: usize,
    /// The call that fails, and each after it; 0 is none.
    pub fails: u32,
    /// How many calls there were.
    pub calls: u32,
    /// How many of them were of `flush`.
    pub flushes: u32,
}

impl Device {
    /// Takes all that it is given.
    pub(crate) fn new(alloc: Global) -> Device {
        Device {
            held: Vec::new(alloc),
            most: usize::MAX,
            fails: 0,
            calls: 0,
            flushes: 0,
        }
    }

    /// Counts a call, which may be one that fails.
    fn call(&mut self) -> io::Result<()> {
        self.calls = self.calls.saturating_add(1);
        if self.fails != 0 && self.calls >= self.fails {
            return Err(io::Error::from(ErrorKind::Other));
        }
        Ok(())
    }
}

impl Write for Device {
    fn write(&mut self, buf: &[u8]) -> io::Result<usize> {
        self.call()?;
        let count = self.most.min(buf.len());
        self.held.extend_from_slice(&buf[..count])?;
        Ok(count)
    }

    fn flush(&mut self) -> io::Result<()> {
        self.call()?;
        self.flushes = self.flushes.saturating_add(1);
        Ok(())
    }
}

/// A peer: a device, and what it answers.
#[derive(Drop)]
pub(crate) struct Peer {
    /// What it is told.
    pub told: Device,
    /// What is left of its answers.
    pub answers: &'static [u8],
    /// The call of `read` that fails, and each after it; 0 is none.
    pub fails: u32,
    /// How many calls of `read` there were.
    pub reads: u32,
}

impl Peer {
    /// Takes all that it is told, and answers this.
    pub(crate) fn new(alloc: Global, answers: &'static [u8]) -> Peer {
        Peer {
            told: Device::new(alloc),
            answers,
            fails: 0,
            reads: 0,
        }
    }
}

impl Read for Peer {
    fn read(&mut self, buf: &mut [u8]) -> io::Result<usize> {
        self.reads = self.reads.saturating_add(1);
        if self.fails != 0 && self.reads >= self.fails {
            return Err(io::Error::from(ErrorKind::Other));
        }
        let count = buf.len().min(self.answers.len());
        let (front, rest) = self.answers.split_at(count);
        buf[..count].copy_from_slice(front);
        self.answers = rest;
        Ok(count)
    }
}

impl Write for Peer {
    fn write(&mut self, buf: &[u8]) -> io::Result<usize> {
        self.told.write(buf)
    }

    fn flush(&mut self) -> io::Result<()> {
        self.told.flush()
    }
}

/// A peer that takes all that it is told, and answers `OK` again and again, up to its end.
#[derive(Drop)]
pub(crate) struct Agreeing {
    /// How many bytes it has answered.
    pub reads: usize,
    /// How many it answers at most.
    pub most: usize,
}

impl Agreeing {
    /// One that has no end.
    pub(crate) fn new() -> Agreeing {
        Agreeing {
            reads: 0,
            most: usize::MAX,
        }
    }
}

impl Read for Agreeing {
    fn read(&mut self, buf: &mut [u8]) -> io::Result<usize> {
        let answer = *b"OK\n";
        if buf.is_empty() || self.reads >= self.most {
            return Ok(0);
        }
        buf[0] = answer[self.reads % 3];
        self.reads = self.reads.wrapping_add(1);
        Ok(1)
    }
}

impl Write for Agreeing {
    fn write(&mut self, buf: &[u8]) -> io::Result<usize> {
        Ok(buf.len())
    }

    fn flush(&mut self) -> io::Result<()> {
        Ok(())
    }
}

/// Agreeing peers, each of which can be had by every other dial.
#[derive(Drop)]
pub(crate) struct Peers {
    /// How often one was dialled.
    pub dialled: usize,
}

impl Dialer<AnyStream<Agreeing>> for Peers {
    fn dial(&mut self) -> Option<AnyStream<Agreeing>> {
        self.dialled = self.dialled.wrapping_add(1);
        if self.dialled % 2 == 1 {
            return None;
        }
        Some(AnyStream::new(Agreeing::new()))
    }

    fn begin(&mut self, _stream: &mut AnyStream<Agreeing>) {}
}
