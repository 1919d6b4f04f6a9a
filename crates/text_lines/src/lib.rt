//! Lines of any reader, and the text before a line that is a mark: the one way in which object text, a feed and
//! steps are read.
#![tactic(auto)]

pub mod bytes;
pub mod counted_reader;
pub mod input;
pub mod line_reader;
pub mod text;

pub use bytes::{find_byte, find_near};
pub use input::{AnyReader, Input};
pub use line_reader::{BYTE_LIMIT, CALL_LIMIT, LineReader, NextLine, Stop};
pub use text::{TEXT_CALL_LIMIT, TextFault};
