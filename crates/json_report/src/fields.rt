//! The fields of the lines that a run writes: the member of an object that each is, and what it holds.

ghost use Rattle.std.specs.Prelude.{◌≡◌};
ghost use Rattle.json_report.specs.Fields.{channel_name, closed_name, count_kind, field_kind};
ghost use Rattle.json_report.specs.Fields.{field_name, head_name, journal_name, letter_name};
ghost use Rattle.json_report.specs.Fields.{number_at, refused_contact_name, refused_name};
ghost use Rattle.json_report.specs.Fields.{stopped_name, suppression_kind};

/// What a field is.
#[derive(Clone, Copy)]
pub(crate) enum FieldKind {
    Text,
    /// A number in decimal digits, or one that isn't there.
    Number,
    /// A moment in seconds since the epoch.
    Moment,
}

/// What comes before the value of a field of an R line.
fn refused_name(field: u8) -> &'static [u8]
    ensures { result.now ≡ refused_name field }
{
    if field == 1 {
        b",\"line\":"
    } else {
        b",\"fault\":"
    }
}

/// The same of one of the first five of an S or C line.
fn head_name(field: u8) -> &'static [u8]
    ensures { result.now ≡ head_name field }
{
    if field == 1 {
        b",\"event\":"
    } else if field == 2 {
        b",\"moment\":"
    } else if field == 3 {
        b",\"object\":"
    } else if field == 4 {
        b",\"kind\":"
    } else {
        b",\"state\":"
    }
}

/// The same of a field of an S line.
fn stopped_name(field: u8) -> &'static [u8]
    ensures { result.now ≡ stopped_name field }
{
    if field < 6 {
        head_name(field)
    } else {
        b",\"filter\":"
    }
}

/// The same of a field of a C line.
fn refused_contact_name(field: u8) -> &'static [u8]
    ensures { result.now ≡ refused_contact_name field }
{
    if field < 6 {
        head_name(field)
    } else if field == 6 {
        b",\"number\":"
    } else if field == 7 {
        b",\"contact\":"
    } else {
        b",\"filter\":"
    }
}

/// The same of a field of a T or U line.
fn letter_name(field: u8) -> &'static [u8]
    ensures { result.now ≡ letter_name field }
{
    if field == 1 {
        b",\"command\":"
    } else if field == 2 {
        b",\"event\":"
    } else if field == 3 {
        b",\"object\":"
    } else {
        b",\"contact\":"
    }
}

/// The same of a field of a G line.
fn channel_name(field: u8) -> &'static [u8]
    ensures { result.now ≡ channel_name field }
{
    if field == 1 {
        b",\"command\":"
    } else if field == 2 {
        b",\"n\":"
    } else {
        b",\"count\":"
    }
}

/// The same of a field of a Z line.
fn closed_name(field: u8) -> &'static [u8]
    ensures { result.now ≡ closed_name field }
{
    if field == 1 {
        b",\"command\":"
    } else {
        b",\"why\":"
    }
}

/// The same of a field of a J line.
fn journal_name(field: u8) -> &'static [u8]
    ensures { result.now ≡ journal_name field }
{
    if field == 1 {
        b",\"command\":"
    } else if field == 2 {
        b",\"earlier\":"
    } else if field == 3 {
        b",\"claimed\":"
    } else if field == 4 {
        b",\"new\":"
    } else {
        b",\"again\":"
    }
}

/// What comes before the value of a field: a comma, its name and a colon. The field is known by the letter of its line and its number, which is 1 for the first.
pub(crate) fn field_name(letter: u8, field: u8) -> &'static [u8]
    ensures { result.now ≡ field_name letter field }
{
    if letter == b'R' {
        refused_name(field)
    } else if letter == b'S' {
        stopped_name(field)
    } else if letter == b'C' {
        refused_contact_name(field)
    } else if letter == b'G' {
        channel_name(field)
    } else if letter == b'Z' {
        closed_name(field)
    } else if letter == b'J' {
        journal_name(field)
    } else {
        letter_name(field)
    }
}

/// A number where the field has this number, else a text.
fn number_at(number: u8, field: u8) -> FieldKind
    ensures { result ≡ number_at number field }
{
    if field == number {
        FieldKind::Number
    } else {
        FieldKind::Text
    }
}

/// What a field of an S or C line is.
fn suppression_kind(letter: u8, field: u8) -> FieldKind
    ensures { result ≡ suppression_kind letter field }
{
    if field == 2 {
        FieldKind::Moment
    } else if field == 1 {
        FieldKind::Number
    } else if letter == b'S' {
        FieldKind::Text
    } else {
        number_at(6, field)
    }
}

/// What a field of a G or J line is.
fn count_kind(field: u8) -> FieldKind
    ensures { result ≡ count_kind field }
{
    if field == 1 {
        FieldKind::Text
    } else {
        FieldKind::Number
    }
}

/// What a field of a line is.
pub(crate) fn field_kind(letter: u8, field: u8) -> FieldKind
    ensures { result ≡ field_kind letter field }
{
    if letter == b'S' || letter == b'C' {
        suppression_kind(letter, field)
    } else if letter == b'R' {
        number_at(1, field)
    } else if letter == b'G' || letter == b'J' {
        count_kind(field)
    } else if letter == b'Z' {
        FieldKind::Text
    } else {
        number_at(2, field)
    }
}
