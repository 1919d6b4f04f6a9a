//! What a run reads its events from.

use crate::feed_file::FeedFile;
use std::io::{self, Read};

/// A feed: of the input, or in a file.
#[derive(Drop)]
pub enum Feed<S: Read> {
    Input(S),
    File(FeedFile),
}

impl<S: Read> Read for Feed<S> {
    fn read(&mut self, buffer: &mut [u8]) -> io::Result<usize> {
        match self {
            Feed::Input(input) => input.read(buffer),
            Feed::File(file) => file.read(buffer),
        }
    }
}
