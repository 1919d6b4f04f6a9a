//! The lines of a report that are wanted, over readers and writers in memory.

use acceptance_inputs::texts::{BASE, input};
use command_output::{CommandFault, Ending};
use due_model::config::Choices;
use due_model::zone::Zone;
use line_forms::Picks;
use progress::Unwatched;
use report_forms::{LineForm, ShownLines, show_files, show_in};
use std::alloc::Global;
use std::process::Abort;
use std::test::Fail;

/// The lines of these letters, in a form.
fn lines_of(alloc: Global, letters: &str, form: LineForm) -> ShownLines<'_> {
    ShownLines {
        alloc,
        picks: Picks {
            only: Some(letters),
            object: Some("web"),
            contact: None,
        },
        form,
    }
}

const FEED: &str = "[1000] HOST_STATE;web;DOWN\n[1001] X\n[1010] HOST_DOWNTIME;web;START\n";

const PLAIN: &str = "\
N;0;1000;web;PROBLEM;DOWN;1;ann;mail
N;1;1010;web;DOWNTIMESTART;DOWN;-;ann;mail
";

const JSON: &str = "\
{\"letter\":\"N\",\"event\":0,\"moment\":1000,\"local\":\"1970-01-01T00:16:40+00:00\",\"object\":\"web\",\"kind\":\"PROBLEM\",\"state\":\"DOWN\",\"number\":1,\"contact\":\"ann\",\"command\":\"mail\"}
{\"letter\":\"N\",\"event\":1,\"moment\":1010,\"local\":\"1970-01-01T00:16:50+00:00\",\"object\":\"web\",\"kind\":\"DOWNTIMESTART\",\"state\":\"DOWN\",\"number\":null,\"contact\":\"ann\",\"command\":\"mail\"}
";

/// Compares what was written, and how it ended.
fn is_shown(
    rt: &impl Abort,
    out: &[u8],
    ended: Result<Ending, CommandFault>,
    wanted: &str,
    name: &str,
) {
    assert_eq!(rt;
        (ended, out),
        (Ok(Ending::Whole), wanted.as_bytes()),
        "{name}"
    );
}

/// Shows the report of one input.
fn shows_in(rt: &impl Abort, alloc: Global, text: &[u8], shown: ShownLines<'_>, wanted: &str) {
    let mut out = Vec::new(alloc);
    let ended = show_in(
        alloc,
        Choices::own(),
        &Zone::Utc,
        text,
        shown,
        &mut out,
        &mut Unwatched,
    );
    is_shown(rt, out.as_slice(), ended, wanted, "of one input");
}

/// Shows the report of object text and of a feed.
fn shows_files(
    rt: &impl Abort,
    alloc: Global,
    objects: &[u8],
    shown: ShownLines<'_>,
    wanted: &str,
) {
    let mut out = Vec::new(alloc);
    let feed = FEED.as_bytes();
    let ended = show_files(
        alloc,
        Choices::own(),
        &Zone::Utc,
        objects,
        feed,
        shown,
        &mut out,
        &mut Unwatched,
    );
    is_shown(rt, out.as_slice(), ended, wanted, "of two inputs");
}

#[test]
fn of_one_input(rt: HostRuntime) -> Result<(), Fail> {
    let alloc = rt.alloc();
    let text = input(alloc, FEED)?;
    let bytes = text.as_bytes();
    shows_in(
        &rt,
        alloc,
        bytes,
        lines_of(alloc, "NS", LineForm::Plain),
        PLAIN,
    );
    shows_in(
        &rt,
        alloc,
        bytes,
        lines_of(alloc, "N", LineForm::Json),
        JSON,
    );
    shows_in(&rt, alloc, bytes, lines_of(alloc, "RC", LineForm::Json), "");
    Ok(())
}

#[test]
fn of_two_inputs(rt: HostRuntime) -> Result<(), Fail> {
    let alloc = rt.alloc();
    let objects = BASE.as_bytes();
    shows_files(
        &rt,
        alloc,
        objects,
        lines_of(alloc, "NS", LineForm::Plain),
        PLAIN,
    );
    shows_files(
        &rt,
        alloc,
        objects,
        lines_of(alloc, "N", LineForm::Json),
        JSON,
    );
    Ok(())
}
