//! All channel words of a command line.

ghost use Rattle.std.specs.Prelude.{map, IfErr, IfOk};
ghost use Rattle.channel_words.specs.Words.{AreRead, ShapeFails};

use crate::fault::ChannelFault;
use crate::word::{ChannelWord, read_word};
use std::alloc::Global;

/// What the words of a command line say. The first that says no channel is the fault; want of memory says nothing of them.
pub fn read_words<'a>(
    alloc: Global,
    texts: &[&'a str],
) -> Result<Vec<ChannelWord<'a>>, ChannelFault<'a>>
    ensures ok { IfOk result (λ words. AreRead (map (λ text. text.now) texts.now) words.items) }
    ensures fault { IfErr result (ShapeFails (map (λ text. text.now) texts.now)) }
{
    let mut words = Vec::new(alloc);
    for text in texts {
        match read_word(text) {
            Some(word) => words.push(word)?,
            None => return Err(ChannelFault::BadChannel(text)),
        };
    }
    Ok(words)
}
