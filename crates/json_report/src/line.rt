//! A line as an object of JSON, byte by byte.

ghost use Rattle.std.specs.Prelude.{◌≡◌, ◌++◌, ◌∷◌, [], OnOk};
ghost use Rattle.json_report.specs.Lines.{after_byte, after_bytes, byte_text, bytes_text};
ghost use Rattle.json_report.specs.Lines.{end_text, letter_text, moment_value, next_field};
ghost use Rattle.json_report.specs.Lines.{next_text, number_from, number_value, start};
ghost use Rattle.json_report.specs.Lines.{value_of, value_text};

use crate::fields::{FieldKind, field_kind, field_name};
use line_forms::push_string;
use local_text::push_iso;
use std::alloc::{AllocError, Global};
use std::marker::Model;
use zone_times::clock::ZoneClock;

/// How far a line has come.
#[derive(Drop)]
pub struct Line {
    /// Its letter; 0 before it.
    letter: u8,
    /// The number of the field that has begun, 1 for the first; 0 before that.
    field: u8,
    /// The bytes of that field.
    value: Vec<u8>,
}

impl Model for Line {
    ghost use Rattle.json_report.specs.Lines.{Place};

    ghost Value = { Place };

    ghost view = { λ s. record { letter = s.letter; field = s.field; value = s.value.items } };
}

/// The number that decimal digits say; what is too large for it is left out.
fn number_of(digits: &[u8]) -> u64
    ensures { result ≡ number_from 0 digits.now }
{
    let mut number = 0u64;
    let mut left = digits;
    while let [digit, rest @ ..] = left {
        if number < 100_000_000_000_000_000 {
            number = number * 10 + u64::from(digit.saturating_sub(48));
        }
        left = rest;
    }
    number
}

/// Adds a moment, and what the zone's clock shows then.
#[tactic(auto, unfolding(crate::specs::Lines::moment_value))]
fn push_moment(text: &mut Vec<u8>, clock: &ZoneClock<'_>, value: &[u8]) -> Result<(), AllocError>
    ensures { OnOk result (text.new.items ≡ text.old.items ++ moment_value clock.now value.now) }
{
    text.extend_from_slice(value)?;
    text.extend_from_slice(b",\"local\":\"")?;
    push_iso(text, clock, number_of(value))?;
    text.extend_from_slice(b"\"")
}

/// Adds a number, `null` where there is none.
fn push_number(text: &mut Vec<u8>, value: &[u8]) -> Result<(), AllocError>
    ensures { OnOk result (text.new.items ≡ text.old.items ++ number_value value.now) }
{
    let [digit, ..] = value else {
        return text.extend_from_slice(b"null");
    };
    if *digit == 45 {
        return text.extend_from_slice(b"null");
    }
    text.extend_from_slice(value)
}

/// Adds a value of this kind.
fn push_value_of(
    text: &mut Vec<u8>,
    clock: &ZoneClock<'_>,
    kind: FieldKind,
    value: &[u8],
) -> Result<(), AllocError>
    ensures { OnOk result (text.new.items ≡ text.old.items ++ value_of clock.now kind value.now) }
{
    match kind {
        FieldKind::Text => push_string(text, value),
        FieldKind::Number => push_number(text, value),
        FieldKind::Moment => push_moment(text, clock, value),
    }
}

/// Adds a line's letter, which begins the object.
#[tactic(auto, unfolding(crate::specs::Lines::letter_text))]
fn push_letter(text: &mut Vec<u8>, letter: u8) -> Result<(), AllocError>
    ensures { OnOk result (text.new.items ≡ text.old.items ++ letter_text letter) }
{
    text.extend_from_slice(b"{\"letter\":\"")?;
    text.push(letter)?;
    text.extend_from_slice(b"\"")
}

/// The number of the next field, if there is one more.
fn next_field(field: u8) -> u8
    ensures { result ≡ next_field field }
{
    if field < 255 { field + 1 } else { field }
}

impl Line {
    /// Before a line.
    pub(crate) fn new(alloc: Global) -> Line
        ensures { result ≡ start }
    {
        Line {
            letter: 0,
            field: 0,
            value: Vec::new(alloc),
        }
    }

    /// Adds the value of the field that has begun, if one has.
    fn push_value(&self, text: &mut Vec<u8>, clock: &ZoneClock<'_>) -> Result<(), AllocError>
        ensures { OnOk result (text.new.items ≡ text.old.items ++ value_text clock.now self.now) }
    {
        if self.field == 0 {
            return Ok(());
        }
        push_value_of(
            text,
            clock,
            field_kind(self.letter, self.field),
            &self.value,
        )
    }

    /// Adds the end of a field, and what comes before the next one's value.
    #[tactic(auto, unfolding(crate::specs::Lines::next_text))]
    fn push_next(&self, text: &mut Vec<u8>, clock: &ZoneClock<'_>) -> Result<(), AllocError>
        ensures { OnOk result (text.new.items ≡ text.old.items ++ next_text clock.now self.now) }
    {
        self.push_value(text, clock)?;
        text.extend_from_slice(field_name(self.letter, next_field(self.field)))
    }

    /// Adds the end of a field, and of the object.
    #[tactic(auto, unfolding(crate::specs::Lines::end_text))]
    fn push_end(&self, text: &mut Vec<u8>, clock: &ZoneClock<'_>) -> Result<(), AllocError>
        ensures { OnOk result (text.new.items ≡ text.old.items ++ end_text clock.now self.now) }
    {
        self.push_value(text, clock)?;
        text.extend_from_slice(b"}\n")
    }

    /// Adds what a byte of the line does.
    fn push_byte(
        &self,
        text: &mut Vec<u8>,
        clock: &ZoneClock<'_>,
        byte: u8,
    ) -> Result<(), AllocError>
        ensures { OnOk result (text.new.items ≡ text.old.items ++ byte_text clock.now self.now byte) }
    {
        if self.letter == 0 {
            push_letter(text, byte)
        } else if byte == b';' {
            self.push_next(text, clock)
        } else if byte == b'\n' {
            self.push_end(text, clock)
        } else {
            Ok(())
        }
    }

    /// Goes on after that byte. A refused growth is the only error.
    fn go_on(&mut self, byte: u8) -> Result<(), AllocError>
        ensures { OnOk result (self.new ≡ after_byte self.old byte) }
    {
        if self.letter == 0 {
            self.letter = byte;
            self.field = 0;
            self.value.clear();
        } else if byte == b';' {
            self.field = next_field(self.field);
            self.value.clear();
        } else if byte == b'\n' {
            self.letter = 0;
            self.field = 0;
            self.value.clear();
        } else {
            self.value.push(byte)?;
        }
        Ok(())
    }

    /// Adds what bytes of lines do, and goes on after them. A refused growth is the only error; some of it may stand then.
    pub(crate) fn push_bytes(
        &mut self,
        text: &mut Vec<u8>,
        clock: &ZoneClock<'_>,
        bytes: &[u8],
    ) -> Result<(), AllocError>
        ensures text { OnOk result
            (text.new.items ≡ text.old.items ++ bytes_text clock.now self.old bytes.now) }
        ensures place { OnOk result (self.new ≡ after_bytes self.old bytes.now) }
    {
        let mut left = bytes;
        while let [byte, rest @ ..] = left {
            self.push_byte(text, clock, *byte)?;
            self.go_on(*byte)?;
            left = rest;
        }
        Ok(())
    }
}
