//! How rows are written.

ghost use Rattle.std.specs.Prelude.{◌≡◌, ◌++◌, OnOk};
ghost use Rattle.who_missed.specs.Forms.{is_coloured, is_json, reason_json, row_end, trimmed};

use line_forms::push_string;
use pretty_lines::push_unpaint;
use std::alloc::{AllocError, Global};

/// How rows are written.
#[derive(Clone, Copy, Debug, PartialEq, Eq)]
pub enum RowForm {
    /// As text.
    Plain,
    /// For people, with colours or without.
    Pretty(bool),
    /// As objects of JSON.
    Json,
}

/// How rows are written, and where they are made.
#[derive(Clone, Copy)]
pub struct Form {
    pub alloc: Global,
    pub form: RowForm,
}

/// Whether rows have colours.
pub fn is_coloured(form: RowForm) -> bool
    ensures { result ≡ is_coloured form }
{
    match form {
        RowForm::Plain => false,
        RowForm::Pretty(coloured) => coloured,
        RowForm::Json => false,
    }
}

/// Whether they are objects of JSON.
pub fn is_json(form: RowForm) -> bool
    ensures { result ≡ is_json form }
{
    match form {
        RowForm::Plain => false,
        RowForm::Pretty(_) => false,
        RowForm::Json => true,
    }
}

/// Adds the end of a row of text: that of its colour, and of the line. A refused growth is the only error.
#[tactic(auto, unfolding(crate::specs::Forms::row_end))]
pub fn push_row_end(text: &mut Vec<u8>, coloured: bool) -> Result<(), AllocError>
    ensures { OnOk result (text.new.items ≡ text.old.items ++ row_end coloured) }
{
    push_unpaint(text, coloured)?;
    text.extend_from_slice(b"\n")
}

/// A reason without the two bytes at its end, which stand before what follows it in a row of text.
fn trimmed(reason: &[u8]) -> &[u8]
    ensures { result.now ≡ trimmed reason.now }
{
    &reason[..reason.len().saturating_sub(2)]
}

/// Adds how the object of JSON begins of a contact that isn't told: its name, and why not. A refused growth is the only error.
#[tactic(auto, unfolding(crate::specs::Forms::reason_json))]
pub fn push_reason_json(text: &mut Vec<u8>, contact: &[u8], reason: &[u8]) -> Result<(), AllocError>
    ensures { OnOk result (text.new.items ≡ text.old.items ++ reason_json contact.now reason.now) }
{
    text.extend_from_slice(b"{\"letter\":\"M\",\"contact\":")?;
    push_string(text, contact)?;
    text.extend_from_slice(b",\"reason\":")?;
    push_string(text, trimmed(reason))
}
