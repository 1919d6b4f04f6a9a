//! The address of a pager.

ghost use Rattle.std.specs.Prelude.{◌≡◌, ◌↔◌, ◌<◌, length, IsTrue};
ghost use Rattle.std.specs.Char.{is_ascii_digit};
ghost use Rattle.std.specs.List.{list_all};
ghost use Rattle.channel_words.specs.Words.{IsAddress, IsPort};

/// Whether it is a host, a colon and a port. The last colon counts, so that a host may have some: `[::1]:7000`.
pub(crate) fn is_address(text: &str) -> bool
    ensures { IsTrue result ↔ IsAddress text.now }
{
    match text.rsplit_once(':') {
        Some((host, digits)) => is_parted(host, digits),
        None => false,
    }
}

/// Whether these are a host and a port.
fn is_parted(host: &str, digits: &str) -> bool
    ensures { IsTrue result ↔ ((0 < length host.now) × IsPort digits.now) }
{
    if host.is_empty() {
        return false;
    }
    is_port(digits)
}

/// Whether it is the number of a port.
fn is_port(digits: &str) -> bool
    ensures { IsTrue result ↔ IsPort digits.now }
{
    if !are_digits(digits) {
        return false;
    }
    match digits.parse::<u16>() {
        Ok(port) => port >= 1,
        Err(_) => false,
    }
}

/// Whether each byte is a decimal digit.
fn are_digits(text: &str) -> bool
    ensures { result ≡ list_all is_ascii_digit text.now }
{
    text.as_bytes().iter().all(|byte| byte.is_ascii_digit())
}
