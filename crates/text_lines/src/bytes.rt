//! Places in bytes.

ghost use Rattle.std.specs.Prelude.{◌≡◌, ◌*◌, ◌<◌, ◌≤◌, ◌==◌, IfSome, length};
ghost use Rattle.std.specs.Prelude.{position, take_while};
ghost use Rattle.std.specs.List.{position_or_len};
ghost use Rattle.text_lines.specs.claims.Lines.{has_line, is_newline};

use std::simd::prelude::*;

/// The place of the first such byte, or the length where there is none.
#[inline(always)]
pub fn find_byte(byte: u8, bytes: &[u8]) -> usize
    ensures place { result ≡ position_or_len (λ b. b == byte) bytes.now }
    ensures within { result ≤ length bytes.now }
{
    match bytes.first_chunk::<64>() {
        None => find_far(byte, bytes),
        Some(front) => {
            let near = find_in(byte, front);
            if near < 64 {
                near
            } else {
                find_far(byte, bytes)
            }
        }
    }
}

/// The same, by a search that reads many bytes at once.
#[inline(never)]
fn find_far(byte: u8, bytes: &[u8]) -> usize
    ensures place { result ≡ position_or_len (λ b. b == byte) bytes.now }
    ensures within { result ≤ length bytes.now }
{
    match memchr::memchr(byte, bytes) {
        Some(place) => place,
        None => bytes.len(),
    }
}

/// The same, at less cost where the byte is one of the first sixteen.
#[inline(always)]
pub fn find_near(byte: u8, bytes: &[u8]) -> usize
    ensures { result ≡ position_or_len (λ b. b == byte) bytes.now }
{
    match find_by::<16>(byte, bytes) {
        Some(place) => place,
        None => match find_by::<8>(byte, bytes) {
            Some(place) => place,
            None => find_slowly(byte, bytes),
        },
    }
}

/// The same of at least N bytes, where the byte is one of the first N, or there are no more than twice as many.
#[inline(always)]
fn find_by<const N: usize>(byte: u8, bytes: &[u8]) -> Option<usize>
    requires { (0 < N) × (N ≤ 64) }
    ensures { IfSome result (λ place. place ≡ position_or_len (λ b. b == byte) bytes.now) }
{
    let near = find_in(byte, bytes.first_chunk::<N>()?);
    if near < N {
        return Some(near);
    }
    if bytes.len() > 2 * N {
        return None;
    }
    Some(bytes.len() - N + find_in(byte, bytes.last_chunk::<N>()?))
}

/// The same of as many bytes as a vector has, all looked at at once.
#[inline(always)]
fn find_in<const N: usize>(byte: u8, bytes: &[u8; N]) -> usize
    requires { (0 < N) × (N ≤ 64) }
    ensures { result ≡ position_or_len (λ b. b == byte) bytes.now }
{
    let lanes = Simd::<u8, N>::from_array(*bytes);
    let marks = lanes.simd_eq(Simd::splat(byte)).to_bitmask();
    if marks == 0 {
        N
    } else {
        marks.trailing_zeros() as usize
    }
}

/// The same of any bytes, one after another.
fn find_slowly(byte: u8, bytes: &[u8]) -> usize
    ensures { result ≡ position_or_len (λ b. b == byte) bytes.now }
{
    match find_first(byte, bytes) {
        Some(place) => place,
        None => bytes.len(),
    }
}

/// The place of the first such byte.
fn find_first(byte: u8, bytes: &[u8]) -> Option<usize>
    ensures { result ≡ position (λ b. b == byte) bytes.now }
{
    bytes.iter().position(|b| *b == byte)
}

/// Whether a line that isn't empty, with its newline, follows the empty lines at the front of the bytes.
pub fn has_line(bytes: &[u8]) -> bool
    ensures { result ≡ has_line bytes.now }
{
    let rest = &bytes[count_newlines(bytes)..];
    find_byte(b'\n', rest) < rest.len()
}

/// How many newlines the bytes begin with.
fn count_newlines(bytes: &[u8]) -> usize
    ensures { result ≡ length (take_while is_newline bytes.now) }
{
    bytes.iter().take_while(|byte| **byte == b'\n').count()
}
