//! In which file a line stands.

ghost use Rattle.std.specs.Prelude.{◌≡◌, ◌<◌, nat_lt, IfSome, Some, if◌then◌else◌};
ghost use Rattle.faults_told.specs.Located.{file_of, number_of, source_of};

/// A file of object text.
#[derive(Clone, Copy)]
pub struct Source<'a> {
    pub name: &'a str,
    /// How many lines stand before it in the text that is checked.
    pub before: u64,
}

/// The file, if it has begun before the line; else the one that was found before.
fn later<'a>(found: Option<Source<'a>>, source: Source<'a>, line: u64) -> Option<Source<'a>>
    requires { IfSome found (λ source. source.before < line) }
    ensures of { result ≡ (if nat_lt source.entry.before line then Some source.entry else found.entry) }
    ensures before { IfSome result (λ source. source.before < line) }
{
    if source.before < line {
        Some(source)
    } else {
        found
    }
}

/// The last of the files before which there are fewer lines.
fn source_of<'a>(sources: &[Source<'a>], line: u64) -> Option<Source<'a>>
    ensures of { result ≡ source_of sources.now line }
    ensures before { IfSome result (λ source. source.before < line) }
{
    let mut found = None;
    for source in sources {
        found = later(found, *source, line);
    }
    found
}

/// The file in which the line stands, and its number there. The line has its own number, and no file, where none of the files
/// has begun before it.
pub fn located<'a>(sources: &[Source<'a>], line: u64) -> (&'a str, u64)
    ensures file { result.0.now ≡ file_of (source_of sources.now line) }
    ensures number { result.1 ≡ number_of (source_of sources.now line) line }
{
    match source_of(sources, line) {
        Some(source) => (source.name, line - source.before),
        None => ("", line),
    }
}
