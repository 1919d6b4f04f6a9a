//! What is wrong with time ranges.

ghost use Rattle.std.specs.Prelude.{◌≡◌, ◌⊎◌, false};
ghost use Rattle.object_values.specs.claims.Ranges.{are_ranges};

use crate::telling::RangeFault;
use object_values::ranges::are_ranges;

/// The part of a text before the first of the byte, and the rest after it.
fn split(text: &[u8], byte: u8) -> (&[u8], Option<&[u8]>) {
    match text.iter().position(|b| *b == byte) {
        Some(at) => match text.get(at + 1..) {
            Some(rest) => (&text[..at], Some(rest)),
            None => (text, None),
        },
        None => (text, None),
    }
}

/// The first range of a list of ranges that is none; the whole list where each is one.
pub fn first_wrong(text: &[u8]) -> &[u8]
    ensures { (are_ranges result.now ≡ false) ⊎ (result.now ≡ text.now) }
{
    let mut rest = text;
    for _step in 0..text.len() {
        let (part, others) = split(rest, b',');
        if !are_ranges(part) {
            return part;
        }
        match others {
            Some(more) => rest = more,
            None => return text,
        }
    }
    text
}

/// The number that one or two digits write.
fn small_number(text: &[u8]) -> Option<u32> {
    match text {
        [one] if one.is_ascii_digit() => Some(u32::from(one.saturating_sub(b'0'))),
        [tens, one] if tens.is_ascii_digit() && one.is_ascii_digit() => {
            let high = u32::from(tens.saturating_sub(b'0')) * 10;
            Some(high + u32::from(one.saturating_sub(b'0')))
        }
        _ => None,
    }
}

/// The minutes from midnight that a time says, if its hours and minutes are digits.
fn minutes_said(text: &[u8]) -> Option<u32> {
    let (hours, minutes) = split(text, b':');
    let whole = small_number(hours)?.saturating_mul(60);
    Some(whole.saturating_add(small_number(minutes?)?))
}

/// What is wrong with a range that is none.
pub fn range_fault(text: &[u8]) -> RangeFault {
    let (start, end) = split(text, b'-');
    let Some(end) = end else {
        return RangeFault::NoRange;
    };
    match (minutes_said(start), minutes_said(end)) {
        (Some(from), Some(to)) => {
            if to > 1440 {
                RangeFault::EndsLate
            } else if to < from {
                RangeFault::EndsEarly
            } else {
                RangeFault::NoRange
            }
        }
        _ => RangeFault::NoRange,
    }
}
