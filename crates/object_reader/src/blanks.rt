//! Bytes without the blanks at their ends. Blanks are spaces and tabs (chapter "Object Configuration
//! Overview").

ghost use Rattle.std.specs.Prelude.{◌≡◌, not, ◌≤◌};
ghost use Rattle.std.specs.List.{position};
ghost use Rattle.object_reader.specs.claims.Blanks.{is_blank, trim_start, trim_end, trimmed};

/// Whether a byte is a space or a tab.
pub(crate) fn is_blank(byte: u8) -> bool
    ensures { result ≡ is_blank byte }
{
    byte == b' ' || byte == b'\t'
}

/// The place of the first byte that is no blank.
fn first_mark(bytes: &[u8]) -> Option<usize>
    ensures { result ≡ position (λ b. not (is_blank b)) bytes.now }
{
    bytes.iter().position(|b| !is_blank(*b))
}

/// The bytes from the first on that is no blank.
pub(crate) fn trim_start(bytes: &[u8]) -> &[u8]
    ensures { result.now ≡ trim_start bytes.now }
{
    let start = first_mark(bytes).unwrap_or(bytes.len());
    &bytes[start..]
}

/// The bytes up to the last that is no blank.
pub(crate) fn trim_end(bytes: &[u8]) -> &[u8]
    ensures { result.now ≡ trim_end bytes.now }
{
    let mut end = bytes.len();
    while end > 0 && is_blank(bytes[end - 1]) {
        end -= 1;
    }
    &bytes[..end]
}

/// The bytes without the blanks at both ends. It takes no memory.
pub fn trim(bytes: &[u8]) -> &[u8]
    ensures { result.now ≡ trimmed bytes.now }
{
    trim_end(trim_start(bytes))
}
