//! The text before a mark, and the lines after it.

use acceptance_inputs::readers::{Exes, Pieces};
use std::alloc::{AllocError, Global};
use std::io::Read;
use std::process::Abort;
use std::test::Fail;
use text_lines::{AnyReader, Input, LineReader, NextLine, Stop, TextFault};

/// A text, what stands before its first mark, and the line after that.
type Split = (&'static [u8], &'static [u8], &'static [u8]);

const SPLITS: [Split; 4] = [
    (b"%events\nc\n", b"", b"c"),
    (
        b" %events\nx%events\n%events \n%event\n%events\nc\n",
        b" %events\nx%events\n%events \n%event\n",
        b"c",
    ),
    (b"a\n%events", b"a\n", b""),
    (b"a%events", b"a%events", b""),
];

/// Compares the text before a mark.
fn text_is<R: Input + Drop>(
    rt: &impl Abort,
    alloc: Global,
    lines: &mut LineReader<R>,
    mark: Option<&[u8]>,
    wanted: &[u8],
) {
    let text = lines.read_text(alloc, mark);
    assert!(rt;
        matches!(&text, Ok(text) if text.as_slice() == wanted),
        "{wanted:?}"
    );
}

/// Compares the line that comes next; with no bytes there is none.
fn goes_on<R: Input + Drop>(rt: &impl Abort, lines: &mut LineReader<R>, after: &[u8]) {
    if after.is_empty() {
        assert_eq!(rt; lines.next_line(), NextLine::Over(Stop::InputEnded));
    } else {
        assert_eq!(rt; lines.next_line(), NextLine::Line);
        assert_eq!(rt; lines.line(), after);
    }
}

/// Compares the text before the first mark, and the line after it.
fn splits(rt: &impl Abort, alloc: Global, split: Split) -> Result<(), Fail> {
    let (bytes, before, after) = split;
    let mut lines = LineReader::new(alloc, bytes)?;
    text_is(rt, alloc, &mut lines, Some(b"%events"), before);
    goes_on(rt, &mut lines, after);
    Ok(())
}

#[test]
fn splits_at_the_first_mark(rt: HostRuntime) -> Result<(), Fail> {
    for split in &SPLITS {
        splits(&rt, rt.alloc(), *split)?;
    }
    let bytes = b"a\n%events\n\nb".as_slice();
    let mut lines = LineReader::new(rt.alloc(), bytes)?;
    text_is(&rt, rt.alloc(), &mut lines, None, bytes);
    Ok(())
}

/// How many bytes the text before the mark has, or why there is none.
fn text_len<R: Read + Drop>(
    alloc: Global,
    reader: R,
) -> Result<Result<usize, TextFault>, AllocError> {
    let mut lines = LineReader::new(alloc, AnyReader::new(reader))?;
    match lines.read_text(alloc, Some(b"%events")) {
        Ok(text) => Ok(Ok(text.len())),
        Err(fault) => Ok(Err(fault)),
    }
}

/// Compares how many bytes the text before the mark has, or why there is none.
fn has_len<R: Read + Drop>(
    rt: &impl Abort,
    alloc: Global,
    reader: R,
    given: Result<usize, TextFault>,
) -> Result<(), Fail> {
    assert_eq!(rt; text_len(alloc, reader)?, given);
    Ok(())
}

/// These bytes, one at a call, and then a fault.
fn failing(bytes: &[u8]) -> Pieces<'_> {
    Pieces {
        bytes,
        size: 1,
        calls: bytes.len(),
    }
}

/// So many bytes, what comes after them, and the length of the text.
type Long = (usize, &'static [u8], Result<usize, TextFault>);

const LONG_TEXTS: [Long; 3] = [
    (16_777_215, b"\n%events\nc", Ok(16_777_216)),
    (16_777_216, b"\n%events\nc", Err(TextFault::TooLarge)),
    (usize::MAX, b"", Err(TextFault::TooLarge)),
];

/// Compares the length of a long text.
fn long_has_len(rt: &impl Abort, alloc: Global, long: Long) -> Result<(), Fail> {
    let (left, after, given) = long;
    let size = usize::MAX;
    has_len(rt, alloc, Exes { left, after, size }, given)
}

#[test]
fn limits_the_text(rt: HostRuntime) -> Result<(), Fail> {
    for long in &LONG_TEXTS {
        long_has_len(&rt, rt.alloc(), *long)?;
    }
    let cut = failing(b"a\n%event");
    has_len(&rt, rt.alloc(), cut, Err(TextFault::Unreadable))?;
    // It reads no further than the mark.
    has_len(&rt, rt.alloc(), failing(b"a\n%events\n"), Ok(2))
}
