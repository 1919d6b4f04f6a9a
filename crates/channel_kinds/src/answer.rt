//! What a peer answers.

ghost use Rattle.std.specs.Prelude.{◌≡◌, ◌≢◌, ◌+◌, ◌≤◌, All};
ghost use Rattle.std.specs.Option.{option_to_list};
ghost use Rattle.std.specs.Io.KnownBytes.{Consumes};
ghost use Rattle.channel_kinds.specs.Answer.{IsAnswer, IsHeard};
ghost use Rattle.channel_kinds.specs.Stream.{one_more};

use crate::stream::Stream;
use arrayvec::ArrayVec;

/// How many bytes an answer has at most, and by how many calls it is read.
const ROOM: usize = 64;

/// The answer that means that the letter is taken.
const TAKEN: &[u8] = b"OK\n";

/// Hears an answer, and tells whether it means that the letter is taken.
pub(crate) fn is_taken<S: Stream>(stream: &mut S) -> bool
    ensures heard { IsHeard (S.remaining stream.old) (S.remaining stream.new) result }
    ensures reads { S.reads stream.new ≤ S.reads stream.old + 64 }
    ensures flushed { S.is_flushed stream.new ≡ S.is_flushed stream.old }
{
    read_answer(stream).as_slice() == TAKEN
}

/// Reads up to a newline, one byte a call, and no more bytes than an answer has. The end of input and a fault
/// end the answer.
fn read_answer<S: Stream>(stream: &mut S) -> ArrayVec<u8, 64>
    ensures answer { IsAnswer (S.remaining stream.old) (S.remaining stream.new) result.items }
    ensures reads { S.reads stream.new ≤ S.reads stream.old + 64 }
    ensures flushed { S.is_flushed stream.new ≡ S.is_flushed stream.old }
{
    let mut answer = ArrayVec::new();
    while answer.len() < ROOM {
        let Some(byte) = next_byte(stream) else {
            return answer;
        };
        answer.push(byte);
        if byte == b'\n' {
            return answer;
        }
    }
    answer
}

/// The next byte, by one call; none at the end of input and where the reader fails.
fn next_byte<S: Stream>(stream: &mut S) -> Option<u8>
    ensures byte { Consumes (S.remaining stream.old) (S.remaining stream.new) (option_to_list result) }
    ensures reads { S.reads stream.new ≡ one_more (S.reads stream.old) }
    ensures flushed { S.is_flushed stream.new ≡ S.is_flushed stream.old }
{
    let mut bytes = [0];
    match stream.read_in(&mut bytes) {
        Ok(1) => Some(bytes[0]),
        _ => None,
    }
}
