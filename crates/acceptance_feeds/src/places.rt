//! Places of a byte in bytes, near and far.

use std::process::Abort;
use text_lines::{find_byte, find_near};

/// Bytes, and the place of the first `;` in them, or their length: fewer than 8, fewer than 16, up to 32 and more.
const PLACES: [(&[u8], usize); 14] = [
    (b"", 0),
    (b"ab;c;", 2),
    (b"abcdefg", 7),
    (b";abcdefgh", 0),
    (b"abcdefg;h", 7),
    (b"abcdefgh;i;", 8),
    (b"abcdefghijklmno", 15),
    (b"abcdefghijklmno;pq;", 15),
    (b"abcdefghijklmnop;q;", 16),
    (b"abcdefghijklmnopqrstuvwxyzabcde;", 31),
    (b"abcdefghijklmnopqrstuvwxyzabcdef", 32),
    (b"abcdefghijklmnopqrstuvwxyzabcdef;;", 32),
    (
        b"abcdefghijklmnopqrstuvwxyzabcdefghijklmnopqrstuvwxyzabcdefghijk;mn;",
        63,
    ),
    (
        b"abcdefghijklmnopqrstuvwxyzabcdefghijklmnopqrstuvwxyzabcdefghijkl;n;",
        64,
    ),
];

/// Compares the place that each search finds.
fn is_found_at(rt: &impl Abort, bytes: &[u8], place: usize) {
    assert!(rt;
        find_near(b';', bytes) == place && find_byte(b';', bytes) == place,
        "{bytes:?}"
    );
}

#[test]
fn finds_the_first(rt: HostRuntime) {
    for (bytes, place) in PLACES {
        is_found_at(&rt, bytes, place);
    }
}
