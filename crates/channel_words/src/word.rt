//! A channel word.

ghost use Rattle.std.specs.Prelude.{◌≡◌, ◌≢◌, ◌<◌, [], ◌∷◌, ◌++◌, filter, length};
ghost use Rattle.std.specs.Prelude.{map};
ghost use Rattle.std.specs.Prelude.{IfNone, IfOk, IfSome, OnOk};
ghost use Rattle.channel_words.specs.declared.word.ChannelWord.{ChannelWord};
ghost use Rattle.channel_words.specs.declared.word.Device.{Device};
ghost use Rattle.channel_words.specs.Words.{IsDevice, IsWhole, device_text, has_word};
ghost use Rattle.channel_words.specs.Words.{is_word, kind_word, said_of};
ghost use Rattle.channel_words.specs.Words.{word_text, words_in};

use crate::address::is_address;
use std::alloc::{AllocError, Global};

/// What takes the messages of a command.
#[derive(Clone, Copy, Debug)]
pub enum Device<'a> {
    /// The file at this path.
    Mailbox(&'a str),
    /// The peer at this address, HOST:PORT.
    Pager(&'a str),
    /// The program of this line, and its arguments, with spaces between.
    Command(&'a str),
}

/// A word `NAME=mailbox:PATH`, `NAME=pager:HOST:PORT` or `NAME=command:PROGRAM ARGUMENT ..`.
#[derive(Clone, Copy, Debug)]
pub struct ChannelWord<'a> {
    /// The name of the command.
    pub name: &'a str,
    pub device: Device<'a>,
}

/// What a word says, if it says a channel. The name is all before the first `=`. A name, a path, a host or a program that is
/// empty, and a port that is no number of 1 to 65,535, say none.
pub(crate) fn read_word(text: &str) -> Option<ChannelWord<'_>>
    ensures some { IfSome result (λ word. IsWhole word × (text.now ≡ word_text word)) }
    ensures none { IfNone result ((word : ChannelWord) → IsWhole word → text.now ≢ word_text word) }
{
    match text.split_once('=') {
        Some((name, said)) => word_of(name, said),
        None => None,
    }
}

/// The word of a name, and of what is said after the `=`.
fn word_of<'a>(name: &'a str, said: &'a str) -> Option<ChannelWord<'a>>
    ensures some { IfSome result (λ word. (word.name.now ≡ name.now) × (0 < length name.now)
        × IsDevice word.device × (said.now ≡ device_text word.device)) }
    ensures none { IfNone result ((device : Device) → 0 < length name.now → IsDevice device
        → said.now ≢ device_text device) }
{
    if name.is_empty() {
        return None;
    }
    match read_device(said) {
        Some(device) => Some(ChannelWord { name, device }),
        None => None,
    }
}

/// The channel that the text after the `=` says.
fn read_device(text: &str) -> Option<Device<'_>>
    ensures some { IfSome result (λ device. IsDevice device × (text.now ≡ device_text device)) }
    ensures none { IfNone result ((device : Device) → IsDevice device
        → text.now ≢ device_text device) }
{
    match text.split_once(':') {
        Some((kind, said)) => device_of(kind, said),
        None => None,
    }
}

/// The channel of a kind and of what is said after the colon.
fn device_of<'a>(kind: &str, said: &'a str) -> Option<Device<'a>>
    ensures some { IfSome result (λ device. IsDevice device
        × (kind.now ≡ kind_word device) × (said.now ≡ said_of device)) }
    ensures none { IfNone result ((device : Device) → IsDevice device
        → kind.now ≡ kind_word device → said.now ≢ said_of device) }
{
    if kind == "mailbox" {
        if said.is_empty() {
            None
        } else {
            Some(Device::Mailbox(said))
        }
    } else if kind == "pager" {
        if is_address(said) {
            Some(Device::Pager(said))
        } else {
            None
        }
    } else if kind == "command" {
        if has_word(said) {
            Some(Device::Command(said))
        } else {
            None
        }
    } else {
        None
    }
}

/// Whether a line isn't spaces alone, so that it has a word.
fn has_word(line: &str) -> bool
    ensures { result ≡ has_word line.now }
{
    line.as_bytes().iter().any(|byte| *byte != b' ')
}

/// The program and the arguments of a line: what stands between its spaces and isn't empty. A refused growth is the only
/// error.
pub fn words_in<'a>(alloc: Global, line: &'a str) -> Result<Vec<&'a str>, AllocError>
    ensures { IfOk result (λ words. map (λ word. word.now) words.items ≡ words_in line.now) }
{
    let mut words = Vec::new(alloc);
    let mut rest = line;
    while let Some((word, after)) = rest.split_once(' ') {
        push_word(&mut words, word)?;
        rest = after;
    }
    push_word(&mut words, rest)?;
    Ok(words)
}

/// Adds what stands between two spaces, if it isn't empty.
fn push_word<'a>(words: &mut Vec<&'a str>, word: &'a str) -> Result<(), AllocError>
    ensures { OnOk result (map (λ word. word.now) words.new.items
        ≡ map (λ word. word.now) words.old.items ++ filter is_word (word.now ∷ [])) }
{
    if word.is_empty() {
        return Ok(());
    }
    words.push(word)?;
    Ok(())
}
