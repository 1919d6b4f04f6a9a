//! Replays of the worked examples, over readers and writers in memory.

ghost use Rattle.std.specs.Prelude.{IsErrOf};

use crate::writers::{Counting, Stubborn};
use acceptance_inputs::readers::{self, Watching};
use acceptance_inputs::texts::input;
use command_output::{CommandFault, Ending};
use replay::replay;
use std::alloc::Global;
use std::cell::Cell;
use std::process::Abort;
use std::test::Fail;
use text_lines::{AnyReader, Input};

/// Replays a text in pieces of so many bytes, and compares what is written.
fn gives_in_pieces(rt: &impl Abort, alloc: Global, text: &[u8], most: usize, report: &str) {
    let mut out = Vec::new(alloc);
    let reader = readers::in_pieces(text, most);
    let ended = replay(alloc, AnyReader::new(reader), &mut out);
    assert_eq!(rt; ended, Ok(Ending::Whole), "in pieces of {most}");
    assert_eq!(rt; out.as_slice(), report.as_bytes(), "in pieces of {most}");
}

#[test]
fn in_pieces(rt: HostRuntime) -> Result<(), Fail> {
    let text = input(rt.alloc(), "[1000] HOST_STATE;web;DOWN\n[1060] CLOCK\n")?;
    let report = "N;0;1000;web;PROBLEM;DOWN;1;ann;mail\nN;1;1060;web;PROBLEM;DOWN;2;ann;mail\n";
    for most in [1, 7] {
        gives_in_pieces(&rt, rt.alloc(), text.as_bytes(), most, report);
    }
    Ok(())
}

const ONE_NOTICE: &[u8] = b"N;0;1000;web;PROBLEM;DOWN;1;ann;mail\n";

/// A writer has taken what came at so many calls, and the end tells whether that is all.
fn has_stopped(rt: &impl Abort, calls: usize, ended: Result<Ending, CommandFault>, taken: &[u8]) {
    let wanted = if calls >= 8 {
        Ok(Ending::Whole)
    } else {
        Err(CommandFault::Output)
    };
    let count = calls.saturating_mul(5).min(ONE_NOTICE.len());
    assert_eq!(rt;
        (ended, taken),
        (wanted, &ONE_NOTICE[..count]),
        "after {calls} calls"
    );
}

/// Replays one host down into a writer that stops at a call, and compares how it ends and what was written.
fn stops_at(rt: &impl Abort, alloc: Global, text: &[u8], calls: usize, fails: bool) {
    let mut writer = Stubborn {
        calls,
        fails,
        taken: Vec::new(alloc),
    };
    let ended = replay(alloc, text, &mut writer);
    has_stopped(rt, calls, ended, writer.taken.as_slice());
}

/// The line has 37 bytes, so that a writer of five bytes a call takes it in eight.
#[test]
fn output_fails(rt: HostRuntime) -> Result<(), Fail> {
    let text = input(rt.alloc(), "[1000] HOST_STATE;web;DOWN\n")?;
    for (calls, fails) in [(0, true), (0, false), (5, true), (7, false), (8, true)] {
        stops_at(&rt, rt.alloc(), text.as_bytes(), calls, fails);
    }
    Ok(())
}

/// Replays into a writer that counts: it can't fail, so that the output isn't what a replay fails with.
fn count_report<R: Input + Drop>(
    alloc: Global,
    reader: R,
    writer: &mut Counting<'_>,
) -> Result<Ending, CommandFault>
    ensures { ¬ IsErrOf result CommandFault.Output }
{
    replay(alloc, reader, writer)
}

/// What an event said is written before the reader is called for more.
fn writes_at_once(rt: &impl Abort, alloc: Global, text: &[u8]) {
    let written = Cell::new(0);
    let noted = Cell::new(0);
    let left = Cell::new(0);
    let reader = Watching {
        lines: text,
        written: &written,
        noted: &noted,
        left: &left,
    };
    let mut writer = Counting { written: &written };
    let ended = count_report(alloc, AnyReader::new(reader), &mut writer);
    assert_eq!(rt;
        (ended, noted.get(), written.get()),
        (Ok(Ending::Whole), 74, 74)
    );
}

#[test]
fn as_it_comes(rt: HostRuntime) -> Result<(), Fail> {
    let text = input(rt.alloc(), "[1000] HOST_STATE;web;DOWN\n[1060] CLOCK\n")?;
    writes_at_once(&rt, rt.alloc(), text.as_bytes());
    Ok(())
}
