//! A program that is started for each letter.

ghost use Rattle.std.specs.Prelude.{◌≡◌, map, string_bytes, IfOk};
ghost use Rattle.std.specs.Process.{command_args, command_program};

use crate::device::TextDevice;
use crate::stream::AnyOutlet;
use crate::writing::write_whole;
use channel::Kind;
use idle_pause::Pause;
use std::alloc::{AllocError, Global};
use std::io;
use std::marker::Model;
use std::process::{Child, Command, ExitStatus, Processes, Stdio, SystemProcess};
use std::time::{Clock, Duration};

/// How many bytes a letter to a program has at most.
const LIMIT: u64 = 16_384;

/// A program with its arguments. For each letter it is started, its output and its errors to nowhere; the text is
/// written to its input, which is then closed, and its end is waited for, as long as it takes or within a time limit: one that
/// has not ended then is killed. What it has started itself isn't waited for. The drop waits for a program whose end could not be
/// waited for before.
pub struct Spawned<R: Processes<Started = SystemProcess> + Clock + Drop> {
    alloc: Global,
    processes: R,
    program: String,
    arguments: Vec<String>,
    /// How long a program may take from its start to its end, if that is limited.
    limit: Option<Duration>,
    /// A program that is to be waited for.
    left: Option<Child>,
}

impl<R: Processes<Started = SystemProcess> + Clock + Drop> Model for Spawned<R> {
    ghost use Rattle.std.specs.Prelude.{map, string_bytes};
    ghost use Rattle.channel_kinds.specs.Spawned.{Started};

    ghost Value = { Started };

    ghost view = { λ s. record {
      program = string_bytes s.program;
      arguments = map string_bytes s.arguments.items;
    } };
}

impl<R: Processes<Started = SystemProcess> + Clock + Drop> Spawned<R> {
    /// A device of a program and its arguments. It starts nothing. A refused growth is
    /// the only error.
    pub fn new(
        alloc: Global,
        processes: R,
        program: &str,
        arguments: &[&str],
    ) -> Result<Spawned<R>, AllocError>
        ensures program { IfOk result (λ device. device.program ≡ program.now) }
        ensures arguments { IfOk result
            (λ device. device.arguments ≡ map (λ argument. argument.now) arguments.now) }
    {
        Ok(Spawned {
            alloc,
            processes,
            program: String::from_str(alloc, program)?,
            arguments: copies_of(alloc, arguments)?,
            limit: None,
            left: None,
        })
    }

    /// The same device, whose program may take so long from its start to its end.
    pub fn within(mut self, limit: Duration) -> Spawned<R>
        ensures { result ≡ self }
    {
        self.limit = Some(limit);
        self
    }
}

impl<R: Processes<Started = SystemProcess> + Clock + Drop> Drop for Spawned<R> {
    fn drop(self) {
        let Spawned {
            alloc: _,
            processes: _,
            program: _,
            arguments: _,
            limit: _,
            mut left,
        } = self;
        reap(&mut left);
    }
}

impl<R: Processes<Started = SystemProcess> + Clock + Drop> TextDevice for Spawned<R> {
    ghost use Rattle.channel.specs.declared.Kind.TheVariants as kinds;
    ghost use Rattle.channel_kinds.specs.Spawned.{program_limit};

    ghost kind = { λ _. kinds.Spawned };

    ghost limit = { λ _. program_limit };

    // The program and its arguments stay.
    ghost sends = { λ old _ _ new. new ≡ old };

    fn kind(&self) -> Kind {
        Kind::Spawned
    }

    fn limit(&self) -> u64 {
        LIMIT
    }

    /// Starts the program, and takes the text where the program took it whole and ended with status 0 in time. All else is
    /// a refusal: also a start that finds no memory.
    fn send(&mut self, text: &[u8]) -> bool {
        reap(&mut self.left);
        let until = end_of_try(&self.processes, self.limit);
        let started = start(
            self.alloc,
            &self.processes,
            self.program.as_str(),
            &self.arguments,
        );
        match started {
            Some(child) => hand_over(&self.processes, child, text, until, &mut self.left),
            None => false,
        }
    }
}

/// Copies of texts, in order.
fn copies_of(alloc: Global, texts: &[&str]) -> Result<Vec<String>, AllocError>
    ensures { IfOk result
        (λ copies. map string_bytes copies.items ≡ map (λ text. text.now) texts.now) }
{
    let mut copies = Vec::with_capacity(alloc, texts.len())?;
    for text in texts {
        copies.push(String::from_str(alloc, *text)?)?;
    }
    Ok(copies)
}

/// The command of a program and its arguments.
fn command_of(alloc: Global, program: &str, arguments: &[String]) -> Result<Command, AllocError>
    ensures program { IfOk result (λ command. command_program command ≡ program.now) }
    ensures arguments { IfOk result
        (λ command. command_args command ≡ map string_bytes arguments.now) }
{
    let mut command = Command::new(alloc, program)?;
    for argument in arguments {
        command.arg(argument.as_str())?;
    }
    Ok(command)
}

/// Starts a program, its input from a pipe, its output and its errors to nowhere; none where that fails.
fn start<R: Processes<Started = SystemProcess>>(
    alloc: Global,
    processes: &R,
    program: &str,
    arguments: &[String],
) -> Option<Child> {
    let mut command = command_of(alloc, program, arguments).ok()?;
    command.stdin(Stdio::piped());
    command.stdout(Stdio::null());
    command.stderr(Stdio::null());
    command.spawn(processes).ok()
}

/// When a try that begins now is over, in the clock's monotonic time, if it is limited. Where the clock fails, it is over.
fn end_of_try<C: Clock>(clock: &C, limit: Option<Duration>) -> Option<Duration> {
    let now = clock.monotonic().unwrap_or(Duration::ZERO);
    Some(now.saturating_add(limit?))
}

/// Whether this moment has come. Where the clock fails, it has.
fn has_come<C: Clock>(clock: &C, until: Duration) -> bool {
    match clock.monotonic() {
        Ok(now) => until <= now,
        Err(_) => true,
    }
}

/// Writes the text to a program's input, closes that, and waits for its end: whether it took the whole text and ended with
/// status 0 before this moment, if there is one. A program whose end can't be waited for is left.
fn hand_over<C: Clock>(
    clock: &C,
    mut child: Child,
    text: &[u8],
    until: Option<Duration>,
    left: &mut Option<Child>,
) -> bool {
    let is_written = match child.stdin.take() {
        Some(input) => write_whole(&mut AnyOutlet::new(input), text).is_ok(),
        None => false,
    };
    match wait_for(clock, &mut child, until) {
        Ok(status) => is_written && status.success(),
        Err(_) => {
            *left = Some(child);
            false
        }
    }
}

/// Waits for a program's end, and kills it where this moment comes before.
fn wait_for<C: Clock>(
    clock: &C,
    child: &mut Child,
    until: Option<Duration>,
) -> io::Result<ExitStatus> {
    if let Some(until) = until {
        if !ends_before(clock, child, until)? {
            child.kill()?;
        }
    }
    child.wait()
}

/// Waits for a program's end up to this moment: whether it has ended.
fn ends_before<C: Clock>(clock: &C, child: &mut Child, until: Duration) -> io::Result<bool> {
    let mut pause = Pause::new();
    for _ in 0..u64::MAX {
        if child.try_wait()?.is_some() {
            return Ok(true);
        }
        if has_come(clock, until) {
            return Ok(false);
        }
        pause.rest(clock);
    }
    Ok(false)
}

/// Waits for a program that is left.
fn reap(left: &mut Option<Child>) {
    if let Some(mut child) = left.take() {
        let _status = child.wait();
    }
}
