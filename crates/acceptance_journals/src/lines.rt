//! The lines of a journal, written, and read again whole and cut.

use crate::given::{LANE, notice};
use acceptance_inputs::configs::base;
use due_model::config::Config;
use due_model::notice::Notice;
use journal_text::entry::Entry;
use journal_text::journal::{JournalFault, ReadJournal, read_journal};
use journal_text::writing::{first_line_of, line_of};
use std::alloc::{AllocError, Global};
use std::test::Fail;

/// A journal of three entries, of a letter that was taken and one that was about to be handed over.
const TEXT: &[u8] =
    b"J;1;mail;7;\nB;8;1000;web;;PROBLEM;DOWN;1;ann;\nT;8;1000;web;;PROBLEM;DOWN;1;ann;\nB;9;1000;web;;PROBLEM;DOWN;1;ann;\n";

/// How many bytes it has up to the end of its first line, and of each other.
const ENDS: [usize; 4] = [12, 46, 80, 114];

/// Adds what was written, if it could be.
fn add(text: &mut Vec<u8>, line: Option<Vec<u8>>) -> Result<(), AllocError> {
    match line {
        Some(line) => text.extend_from_slice(&line),
        None => Ok(()),
    }
}

/// The journal of these entries.
fn written(alloc: Global, config: &Config, entries: &[Entry]) -> Result<Vec<u8>, AllocError> {
    let mut text = Vec::new(alloc);
    add(&mut text, first_line_of(alloc, config, LANE, 7)?)?;
    for entry in entries {
        add(&mut text, line_of(alloc, config, LANE, *entry)?)?;
    }
    Ok(text)
}

/// Whether these are the notices that were read, where none but the last of two may be missing.
fn are(read: &[Notice], first: Notice, second: Notice, count: usize) -> bool {
    match read {
        [] => count == 0,
        [one] => count == 1 && *one == first,
        [one, two] => count == 2 && *one == first && *two == second,
        _ => false,
    }
}

/// Whether this was read of so many lines of the journal.
fn is_read_of(read: &ReadJournal, lines: usize) -> bool {
    let from = if lines > 0 { Some(7) } else { None };
    let begun = if lines > 3 {
        2
    } else if lines > 1 {
        1
    } else {
        0
    };
    let settled = if lines > 2 { 1 } else { 0 };
    let whole = if lines > 0 {
        ENDS.get(lines - 1).copied()
    } else {
        Some(0)
    };
    read.from == from
        && are(&read.begun, notice(8, 0), notice(9, 0), begun)
        && are(&read.settled, notice(8, 0), notice(8, 0), settled)
        && whole == Some(read.whole as usize)
}

/// How many lines are whole in so many bytes.
fn lines_in(len: usize) -> usize {
    let mut lines = 0;
    for end in ENDS {
        if end <= len && lines < 4 {
            lines += 1;
        }
    }
    lines
}

#[test]
fn entries_are_lines(rt: HostRuntime) -> Result<(), Fail> {
    let config = base(rt.alloc())?;
    let entries = [
        Entry::Begun(notice(8, 0)),
        Entry::Taken(notice(8, 0)),
        Entry::Begun(notice(9, 0)),
    ];
    let text = written(rt.alloc(), &config, &entries)?;
    assert!(rt; text.as_slice() == TEXT);
    Ok(())
}

#[test]
fn each_cut_is_read(rt: HostRuntime) -> Result<(), Fail> {
    let config = base(rt.alloc())?;
    for len in 0..=TEXT.len() {
        let read = read_journal(rt.alloc(), &config, LANE, &TEXT[..len])?;
        assert!(rt; is_read_of(&read, lines_in(len)));
    }
    Ok(())
}

/// Journals with a fault, and the number of its line.
const FAULTS: [(&[u8], u64); 8] = [
    (b"\n", 1),
    (b"J;1;page;7;\n", 1),
    (b"J;2;mail;7;\n", 1),
    (b"J;1;mail;18446744073709551616;\n", 1),
    (b"J;1;mail;7;\nB;8;1000;web;;PROBLEM;DOWN;1;mia;\n", 2),
    (b"J;1;mail;7;\nB;8;1000;db;;PROBLEM;DOWN;1;ann;\n", 2),
    (b"J;1;mail;7;\nX;8;1000;web;;PROBLEM;DOWN;1;ann;\n", 2),
    (
        b"J;1;mail;7;\nT;8;1000;web;;PROBLEM;DOWN;1;ann;\nT;8;1000;web;;PROBLEM;DOWN;1;ann\n",
        3,
    ),
];

/// Whether this is the fault of that line.
fn is_fault(read: Result<ReadJournal, JournalFault>, line: u64) -> bool {
    match read {
        Ok(_) => false,
        Err(fault) => fault == JournalFault::Line(line),
    }
}

#[test]
fn a_line_that_says_nothing_is_refused(rt: HostRuntime) -> Result<(), Fail> {
    let config = base(rt.alloc())?;
    for (bytes, line) in FAULTS {
        assert!(rt; is_fault(read_journal(rt.alloc(), &config, LANE, bytes), line));
    }
    Ok(())
}
