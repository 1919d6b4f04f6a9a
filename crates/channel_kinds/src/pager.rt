//! A pager: a peer that answers each letter.

ghost use Rattle.std.specs.Prelude.{◌≡◌, ◌+◌, ◌≤◌, ◌++◌, false, true, length, OnOk};
ghost use Rattle.std.specs.Io.KnownBytes.{Appends};
ghost use Rattle.channel_kinds.specs.Pager.{Talks, farewell, page_of, pager_limit};
ghost use Rattle.written.specs.claims.Written.{WritesFront};

use crate::answer;
use crate::device::TextDevice;
use crate::stream::{Outlet, Stream};
use crate::writing::{DeviceFailed, write_flushed};
use arrayvec::ArrayVec;
use channel::Kind;
use itoa::Buffer;
use std::marker::Model;

/// How many bytes a letter to a pager has at most.
const LIMIT: u64 = 1_024;

/// What is written last.
const FAREWELL: &[u8] = b"BYE\n";

/// A pager over a stream. It writes `PAGE n` and the n bytes of a letter's text, and hears an answer: at most 64
/// bytes, by at most 64 calls, up to a newline. After its first failure it writes and reads nothing more but the
/// farewell. A drop without `close` writes that too, and swallows a fault.
pub struct Pager<S: Stream> {
    stream: S,
    /// Whether it failed once.
    is_over: bool,
}

impl<S: Stream> Model for Pager<S> {
    ghost use Rattle.channel_kinds.specs.Pager.{Paged};

    ghost Value = { Paged S };

    ghost view = { λ s. record { stream = s.stream; is_over = s.is_over } };
}

impl<S: Stream> Pager<S> {
    /// A pager that didn't fail. It writes and reads nothing.
    pub fn new(stream: S) -> Pager<S>
        ensures stream { result.stream ≡ stream }
        ensures is_over { result.is_over ≡ false }
    {
        Pager {
            stream,
            is_over: false,
        }
    }

    /// Writes the farewell and gives the stream back. Where the stream fails, a front of it was written.
    pub fn close(self) -> S
        ensures { WritesFront (S.contents self.stream) (S.contents result) farewell }
    {
        let Pager {
            mut stream,
            is_over: _,
        } = self;
        let _swallowed = write_flushed(&mut stream, FAREWELL);
        stream
    }

    /// The stream as it is, without the farewell.
    pub(crate) fn into_stream(self) -> S
        ensures { result ≡ self.stream }
    {
        let Pager { stream, is_over: _ } = self;
        stream
    }
}

impl<S: Stream> Drop for Pager<S> {
    fn drop(self) {
        let Pager {
            mut stream,
            is_over: _,
        } = self;
        let _swallowed = write_flushed(&mut stream, FAREWELL);
    }
}

impl<S: Stream> TextDevice for Pager<S> {
    ghost use Rattle.channel.specs.declared.Kind.TheVariants as kinds;
    ghost use Rattle.channel_kinds.specs.Pager.{pager_limit, Pages};

    ghost kind = { λ _. kinds.Pager };

    ghost limit = { λ _. pager_limit };

    ghost sends = { Pages S.contents S.remaining S.is_flushed S.reads };

    fn kind(&self) -> Kind {
        Kind::Pager
    }

    fn limit(&self) -> u64 {
        LIMIT
    }

    /// Asks the peer, and takes the text where it answers `OK`. Any other answer, the end of input and a fault end the
    /// pager: each later text is refused, and leaves the stream alone.
    fn send(&mut self, text: &[u8]) -> bool {
        if self.is_over {
            return false;
        }
        let is_taken = talk(&mut self.stream, text);
        self.is_over = !is_taken;
        is_taken
    }
}

/// Writes a page and hears the answer: whether the letter is taken.
fn talk<S: Stream>(stream: &mut S, text: &[u8]) -> bool
    requires { length text.now ≤ pager_limit }
    ensures talks { Talks S.contents S.remaining S.is_flushed stream.old stream.new text.now result }
    ensures reads { S.reads stream.new ≤ S.reads stream.old + 64 }
{
    write_page(stream, text).is_ok() && answer::is_taken(stream)
}

/// Writes a page, by one call where the writer takes it. Where the writer fails, a front of it was written.
fn write_page<W: Outlet>(writer: &mut W, text: &[u8]) -> Result<(), DeviceFailed>
    requires { length text.now ≤ pager_limit }
    ensures ok { OnOk result
        (Appends (W.contents writer.old) (W.contents writer.new) (page_of text.now)) }
    ensures flushed { OnOk result (W.is_flushed writer.new ≡ true) }
    ensures front { WritesFront (W.contents writer.old) (W.contents writer.new)
        (page_of text.now) }
    ensures reads { W.reads writer.new ≡ W.reads writer.old }
{
    write_flushed(writer, page_of(text).as_slice())
}

/// A text after what stands before it.
fn page_of(text: &[u8]) -> ArrayVec<u8, 1100>
    requires { length text.now ≤ pager_limit }
    ensures { result.items ≡ page_of text.now }
{
    let mut page = ArrayVec::new();
    let mut buffer = Buffer::new();
    add(&mut page, b"PAGE ");
    add(&mut page, buffer.format(text.len()).as_bytes());
    add(&mut page, b"\n");
    add(&mut page, text);
    page
}

/// Adds bytes for which there is room.
fn add(page: &mut ArrayVec<u8, 1100>, bytes: &[u8])
    requires { length page.old.items + length bytes.now ≤ 1100 }
    ensures { page.new.items ≡ page.old.items ++ bytes.now }
{
    let Ok(()) = page.try_extend_from_slice(bytes) else {
        unreachable!()
    };
}
