//! Names that are like a name.

ghost use Rattle.std.specs.Prelude.{Contains, IfOk, IfSome};

use std::alloc::{AllocError, Global};
use std::str;
use strsim::jaro_winkler;

/// How like two names must be.
const LIKE: f64 = 0.85;

/// At most so many names are looked at for one that is like a name.
const MOST_NAMES: usize = 4096;

/// How like two names are, from 0 to 1; 0 where one of them isn't text.
fn likeness(alloc: Global, name: &[u8], other: &[u8]) -> Result<f64, AllocError> {
    let (Ok(name), Ok(other)) = (str::from_utf8(name), str::from_utf8(other)) else {
        return Ok(0.0);
    };
    jaro_winkler(alloc, name, other)
}

/// The first of the names that are most like the name, if any is like it: of which the measure of Jaro and Winkler is 0.85 or
/// more. Names of over 64 bytes aren't looked at, nor any after the first 4,096.
pub fn nearest<'a>(
    alloc: Global,
    name: &[u8],
    names: &[&'a [u8]],
) -> Result<Option<&'a [u8]>, AllocError>
    // What is told is one of the names.
    ensures { IfOk result (λ found. IfSome found (Contains names.now)) }
{
    let mut best = LIKE;
    let mut found = None;
    if name.len() > 64 {
        return Ok(None);
    }
    for number in 0..names.len().min(MOST_NAMES) {
        let other = names[number];
        if other.len() <= 64 {
            let like = likeness(alloc, name, other)?;
            if like > best || (found.is_none() && like >= best) {
                best = like;
                found = Some(other);
            }
        }
    }
    Ok(found)
}
