//! Values and lines, as warnings print them.
ghost use Rattle.std.specs.Prelude.{◌≡◌, ◌++◌, OnOk, unwrap_or};
ghost use Rattle.kc_language.specs.Values.{same_given};
ghost use Rattle.kc_user.specs.ValueView.{given_of_value};
ghost use Rattle.kc_language.specs.ConfigFile.{plain_location, string_text, value_text, text_in_config, without_prefix};
ghost use Rattle.kc_input.specs.ShownView.{given_by, location_of};

use crate::text::add_between_quotes;
use kc_expr::expression::{SymbolType, Tri};
use kc_expr::values::tri_text;
use kc_user::value::UserValue;
use std::alloc::AllocError;

/// A line of an input file.
#[derive(Clone, Copy, Debug, PartialEq, Eq)]
pub struct InputLine<'a> {
    /// The file's name, as given.
    pub file: &'a [u8],
    /// The line number, starting at 1.
    pub number: u64,
}

impl<'a> InputLine<'a> {
    // Removes the lead of fragment names from the file's name.
    pub(crate) fn without(self, lead: &[u8]) -> InputLine<'a>
        ensures { location_of result ≡ plain_location lead.now (location_of self.entry) }
    {
        InputLine {
            file: without_lead(lead, self.file),
            number: self.number,
        }
    }
}

/// A line whose value was not allowed.
#[derive(Clone, Copy, Debug)]
pub struct RefusedLine<'a> {
    /// The line.
    pub at: InputLine<'a>,
    /// The text right of its `=`.
    pub value: &'a [u8],
}

// The name without the lead, or the whole name if it does not start with it.
fn without_lead<'a>(lead: &[u8], name: &'a [u8]) -> &'a [u8]
    ensures { result.now ≡ unwrap_or (without_prefix lead.now name.entry.now) name.entry.now }
{
    match name.strip_prefix(lead) {
        Some(rest) => rest,
        None => name,
    }
}

/// A symbol's value: a truth value for a bool or tristate, otherwise a text.
#[derive(Clone, Copy, Debug, PartialEq, Eq)]
pub enum ShownValue<'a> {
    Truth(Tri),
    Text(&'a [u8]),
}

/// Returns a user value in printed form.
pub fn shown_given<'a>(given: &'a UserValue) -> ShownValue<'a>
    ensures { given_by result ≡ given_of_value given.now }
{
    match given {
        UserValue::Tri(tri) => ShownValue::Truth(*tri),
        UserValue::Text(text) => ShownValue::Text(text),
    }
}

/// Returns whether both are the same value: equal truth values, or texts of the same bytes.
pub fn is_same(given: ShownValue<'_>, value: ShownValue<'_>) -> bool
    ensures { result ≡ same_given (given_by given.entry) (given_by value.entry) }
{
    match (given, value) {
        (ShownValue::Truth(given), ShownValue::Truth(tri)) => given == tri,
        (ShownValue::Text(given), ShownValue::Text(text)) => given == text,
        (ShownValue::Truth(_), ShownValue::Text(_)) => false,
        (ShownValue::Text(_), ShownValue::Truth(_)) => false,
    }
}

// Adds a string in quotes.
fn add_string(is_raw: bool, text: &[u8], line: &mut Vec<u8>) -> Result<(), AllocError>
    ensures { OnOk result (line.new.items ≡ line.old.items ++ string_text is_raw text.now) }
{
    line.extend_from_slice(b"\"")?;
    add_between_quotes(is_raw, text, line)?;
    line.extend_from_slice(b"\"")
}

// Adds a text as a `.config` writes it.
fn add_text(
    is_raw: bool,
    symbol_type: SymbolType,
    text: &[u8],
    line: &mut Vec<u8>,
) -> Result<(), AllocError>
    ensures { OnOk result (line.new.items ≡ line.old.items ++ text_in_config is_raw symbol_type text.now) }
{
    match symbol_type {
        SymbolType::Str => add_string(is_raw, text, line),
        SymbolType::Undefined
        | SymbolType::Bool
        | SymbolType::Tristate
        | SymbolType::Int
        | SymbolType::Hex => { line.extend_from_slice(text) }
    }
}

/// Adds the value of a symbol of this type as a `.config` writes it. A string is in quotes, with a `\` before each `"`
/// and `\` unless strings are raw.
///
/// # Errors
/// Fails if there is not enough memory.
pub fn add_value(
    is_raw: bool,
    symbol_type: SymbolType,
    shown: ShownValue<'_>,
    line: &mut Vec<u8>,
) -> Result<(), AllocError>
    ensures { OnOk result (line.new.items ≡ line.old.items ++ value_text is_raw symbol_type (given_by shown.entry)) }
{
    match shown {
        ShownValue::Truth(tri) => line.extend_from_slice(tri_text(tri)),
        ShownValue::Text(text) => add_text(is_raw, symbol_type, text, line),
    }
}
