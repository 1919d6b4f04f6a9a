//! Lines from any reader, whatever pieces it gives, through a buffer of their own.

ghost use Rattle.std.specs.Prelude.{◌≡◌, ◌≢◌, ◌+◌, ◌-◌, ◌<◌, ◌≤◌, [], false};
ghost use Rattle.std.specs.Prelude.{length, take, drop, slice_index, slice_range, IfOk, IsOk};
ghost use Rattle.std.specs.Prelude.{IsTrue};
ghost use Rattle.std.specs.Io.KnownBytes.{ReadConsumes};
ghost use Rattle.due_model.specs.claims.Limits.{line_limit};
ghost use Rattle.text_lines.specs.claims.CountedReader.{calls_after};
ghost use Rattle.text_lines.specs.claims.Lines.{has_line, has_newline};
ghost use Rattle.text_lines.specs.Lines.{IsUnbroken};
ghost use Rattle.text_lines.specs.LineReader.{Fills, MakesRoom, ReadsHeld, ReadsLine, SpendsCalls};
ghost use Rattle.text_lines.specs.claims.LineReader.{byte_limit, cut_text};
ghost use Rattle.text_lines.specs.LineReader.{ending};

use crate::bytes::{find_byte, has_line};
use crate::counted_reader::CountedReader;
use crate::input::Input;
use due_model::limits::LINE_LIMIT;
use std::alloc::{AllocError, Global};
use std::io::{self, Read};
use std::marker::Model;

/// The most bytes of a line that is read over.
pub const BYTE_LIMIT: usize = 1_048_576;

/// The most calls of a reader for one line.
pub const CALL_LIMIT: u64 = 65_536;

/// How many bytes are read at once, at most.
const BUFFER: usize = 65_536;

/// Why there is no further line.
#[derive(Clone, Copy, Debug, PartialEq, Eq)]
pub enum Stop {
    /// The input ended after a whole line.
    InputEnded,
    /// The input ended within a line.
    CutLine,
    /// The reader failed.
    ReaderFailed,
    /// A line took 65,536 calls of the reader and wasn't at its end.
    TooManyCalls,
    /// A line has over 1,048,576 bytes.
    TooManyBytes,
    /// As many lines were read as may be. Whoever counts the lines finds that, and no `LineReader` does.
    TooManyLines,
}

/// What the reading of a line came to.
#[derive(Clone, Copy, Debug, PartialEq, Eq)]
pub enum NextLine {
    /// The line is there.
    Line,
    /// The line has over 4,096 bytes. It was read over.
    Long,
    /// There is no whole line, nor will there be one.
    Over(Stop),
}

/// What a call of the reader gave.
#[derive(Clone, Copy, Debug, PartialEq, Eq)]
pub(crate) enum Filled {
    /// Some bytes.
    More,
    /// None: the input is at its end.
    Empty,
    /// The reader failed.
    Failed,
}

/// Lines from a reader, which each end at a newline. Contracts see the text of the line that was read last, the bytes
/// that are held but belong to no line yet, those that the reader still has, where it tells them, and how many calls
/// were made of it.
#[derive(Drop)]
pub struct LineReader<R: Read> {
    reader: CountedReader<R>,
    buffer: Vec<u8>,
    /// Where what is held stands in the buffer.
    start: usize,
    end: usize,
    /// Where the line that was read last stands in the buffer.
    line_start: usize,
    line_end: usize,
}

impl<R: Read> Model for LineReader<R> {
    ghost use Rattle.std.specs.Prelude.{◌≡◌, ◌≤◌, slice_range, vec_len};
    ghost use Rattle.text_lines.specs.LineReader.{Reading};

    ghost Value = { Reading };

    ghost view = { λ s. record {
      line = slice_range s.buffer.items s.line_start s.line_end;
      held = slice_range s.buffer.items s.start s.end;
      unread = s.reader.unread;
      calls = s.reader.calls;
    } };

    ghost invariant = { λ s. (s.start ≤ s.end) × (s.end ≤ vec_len s.buffer)
        × (s.line_start ≤ s.line_end)
        × (s.line_end ≤ vec_len s.buffer) × (vec_len s.buffer ≡ 65536) };
}

impl<R: Input + Drop> LineReader<R> {
    /// Nothing is read yet. A buffer of 65,536 bytes is all the memory that it takes.
    pub fn new(alloc: Global, reader: R) -> Result<Self, AllocError>
        ensures { IfOk result (λ lines.
            lines ≡ record { line = []; held = []; unread = R.remaining reader; calls = 0 }) }
    {
        let buffer = vec![in alloc; 0; BUFFER]?;
        Ok(LineReader {
            reader: CountedReader::new(reader),
            buffer,
            start: 0,
            end: 0,
            line_start: 0,
            line_end: 0,
        })
    }

    /// Reads the next line and its newline. A line of over 4,096 bytes is read over, and its text isn't kept. After
    /// `Over` there is no whole line: the input ended, within a line or after one, the reader failed, or the line took
    /// 65,536 calls of the reader or has over 1,048,576 bytes. `TooManyLines` never comes. It takes no memory, and calls
    /// the reader only where no newline is held.
    pub fn next_line(&mut self) -> NextLine
        ensures line { ReadsLine self.old result self.new }
        ensures calls { SpendsCalls self.old result self.new }
        ensures held { IsTrue (has_newline self.old.held) → ReadsHeld self.old result self.new }
        ensures sure { R.can_fail ≡ false → result ≢ NextLine.Over Stop.ReaderFailed }
    {
        let place = self.find_newline(0);
        if place < self.held_len() {
            self.end_line(0, place)
        } else {
            self.read_split_line()
        }
    }

    /// The line that was read last, without its newline: where the input ended within a line, what there is of it,
    /// and nothing of one that has over 4,096 bytes. After another `Over`, and after `Long`, it says nothing.
    pub fn line(&self) -> &[u8]
        ensures { result.now ≡ self.now.line }
    {
        &self.buffer[self.line_start..self.line_end]
    }

    /// Whether a whole line that isn't empty is held, after empty ones or at once: the next lines up to that one are
    /// read without a call of the reader.
    pub fn has_line(&self) -> bool
        ensures { result ≡ has_line self.now.held }
    {
        has_line(&self.buffer[self.start..self.end])
    }

    /// Reads a line whose newline isn't held yet.
    fn read_split_line(&mut self) -> NextLine
        requires { IsUnbroken self.old.held }
        ensures line { ReadsLine self.old result self.new }
        ensures calls { SpendsCalls self.old result self.new }
        ensures sure { R.can_fail ≡ false → result ≢ NextLine.Over Stop.ReaderFailed }
    {
        let mut skipped = 0;
        for _call in 0..CALL_LIMIT {
            if skipped + self.held_len() > BYTE_LIMIT {
                return NextLine::Over(Stop::TooManyBytes);
            }
            skipped = self.make_room(skipped);
            let searched = self.held_len();
            match self.fill() {
                Filled::Empty if skipped + searched == 0 => return NextLine::Over(Stop::InputEnded),
                Filled::Empty => return self.end_cut_line(skipped),
                Filled::Failed => return NextLine::Over(Stop::ReaderFailed),
                Filled::More => {}
            }
            let place = self.find_newline(searched);
            if place < self.held_len() {
                return self.end_line(skipped, place);
            }
        }
        NextLine::Over(Stop::TooManyCalls)
    }

    /// Ends the line at a newline of what is held, after so many bytes that were skipped.
    fn end_line(&mut self, skipped: usize, place: usize) -> NextLine
        requires place { place < length self.old.held }
        requires skipped { skipped ≤ byte_limit }
        ensures line { self.new.line ≡ take place self.old.held }
        ensures held { self.new.held ≡ drop (place + 1) self.old.held }
        ensures unread { self.new.unread ≡ self.old.unread }
        ensures calls { self.new.calls ≡ self.old.calls }
        ensures how { result ≡ ending (skipped + place) }
    {
        self.line_start = self.start;
        self.line_end = self.start + place;
        self.start = self.line_end + 1;
        if skipped + place > BYTE_LIMIT {
            NextLine::Over(Stop::TooManyBytes)
        } else if skipped + place > LINE_LIMIT {
            NextLine::Long
        } else {
            NextLine::Line
        }
    }

    /// Ends the line at the end of the input, after so many bytes that were skipped. What is held stays.
    fn end_cut_line(&mut self, skipped: usize) -> NextLine
        requires skipped { skipped + length self.old.held ≤ byte_limit }
        ensures line { self.new.line ≡ cut_text (skipped + length self.old.held) self.old.held }
        ensures held { self.new.held ≡ self.old.held }
        ensures unread { self.new.unread ≡ self.old.unread }
        ensures calls { self.new.calls ≡ self.old.calls }
        ensures how { result ≡ NextLine.Over Stop.CutLine }
    {
        let is_long = skipped + self.held_len() > LINE_LIMIT;
        self.line_start = self.start;
        self.line_end = if is_long { self.start } else { self.end };
        NextLine::Over(Stop::CutLine)
    }

    /// The place of the first newline in what is held, or the length where there is none. None is before `from`.
    #[inline(always)]
    fn find_newline(&self, from: usize) -> usize
        requires within { from ≤ length self.now.held }
        requires before { IsUnbroken (take from self.now.held) }
        ensures within { result ≤ length self.now.held }
        ensures before { IsUnbroken (take result self.now.held) }
        ensures here { result < length self.now.held → slice_index self.now.held result ≡ 10 }
    {
        from + find_byte(b'\n', &self.buffer[self.start + from..self.end])
    }

    /// How many bytes are held.
    fn held_len(&self) -> usize
        ensures length { result ≡ length self.now.held }
        ensures few { result ≤ 65536 }
    {
        self.end - self.start
    }

    /// What is held.
    pub(crate) fn held(&self) -> &[u8]
        ensures { result.now ≡ self.now.held }
    {
        &self.buffer[self.start..self.end]
    }

    /// Drops the first of what is held.
    pub(crate) fn drop_held(&mut self, count: usize)
        requires { count ≤ length self.old.held }
        ensures held { self.new.held ≡ drop count self.old.held }
        ensures unread { self.new.unread ≡ self.old.unread }
        ensures calls { self.new.calls ≡ self.old.calls }
    {
        self.start += count;
    }

    /// Drops what is held where it is longer than a line may be, and counts what was dropped.
    fn make_room(&mut self, skipped: usize) -> usize
        requires { skipped + length self.old.held ≤ byte_limit }
        ensures { MakesRoom self.old self.new skipped result }
    {
        let held = self.end - self.start;
        if held > LINE_LIMIT {
            self.start = self.end;
            skipped + held
        } else {
            skipped
        }
    }

    /// Calls the reader once, for what follows what is held.
    pub(crate) fn fill(&mut self) -> Filled
        requires { length self.old.held ≤ line_limit }
        ensures bytes { Fills self.old result self.new }
        ensures calls { self.new.calls ≡ calls_after self.old.calls 1 }
        ensures sure { R.can_fail ≡ false → result ≢ Filled.Failed }
    {
        let (start, end) = (self.start, self.end);
        self.start = 0;
        self.end = end - start;
        match refill(&mut self.reader, self.buffer.as_mut_slice(), start, end) {
            Ok(0) => Filled::Empty,
            Ok(count) => {
                self.end += count;
                Filled::More
            }
            Err(_) => Filled::Failed,
        }
    }
}

/// Moves a part of the buffer to its front.
fn move_to_front(buffer: &mut [u8], start: usize, end: usize)
    requires ordered { start ≤ end }
    requires within { end ≤ length buffer.old }
    ensures { take (end - start) buffer.new ≡ slice_range buffer.old start end }
{
    buffer.copy_within(start..end, 0);
}

/// Moves a part of the buffer to its front, and reads once into the room after it.
fn refill<R: Input>(
    reader: &mut CountedReader<R>,
    buffer: &mut [u8],
    start: usize,
    end: usize,
) -> io::Result<usize>
    requires ordered { start ≤ end }
    requires within { end ≤ length buffer.old }
    ensures kept { take (end - start) buffer.new ≡ slice_range buffer.old start end }
    ensures bound { IfOk result (λ count. end - start + count ≤ length buffer.new) }
    ensures bytes { ReadConsumes reader.old.unread reader.new.unread result
        (drop (end - start) buffer.new) }
    ensures calls { reader.new.calls ≡ calls_after reader.old.calls 1 }
    ensures sure { R.can_fail ≡ false → IsOk result }
{
    move_to_front(buffer, start, end);
    read_after(reader, buffer, end - start)
}

/// Reads once into the buffer, from a place on.
fn read_after<R: Input>(
    reader: &mut CountedReader<R>,
    buffer: &mut [u8],
    place: usize,
) -> io::Result<usize>
    requires { place ≤ length buffer.old }
    ensures front { take place buffer.new ≡ take place buffer.old }
    ensures bound { IfOk result (λ count. place + count ≤ length buffer.new) }
    ensures bytes { ReadConsumes reader.old.unread reader.new.unread result
        (drop place buffer.new) }
    ensures calls { reader.new.calls ≡ calls_after reader.old.calls 1 }
    ensures sure { R.can_fail ≡ false → IsOk result }
{
    reader.read(&mut buffer[place..])
}
