//! The value in the text right of a line's `=`.
ghost use Rattle.std.specs.Prelude.{◌≡◌, slice_index, IfOk, option_map};
ghost use Rattle.std.specs.Option.{option_copied};
ghost use Rattle.kc_language.specs.Values.{GivenText, GivenTruth};
ghost use Rattle.kc_user.specs.ValueView.{given_of_value};
ghost use Rattle.kc_language.specs.ConfigFile as spec;
ghost use Rattle.kc_input.specs.PartsOfConfigFile as spec_parts;

use kc_expr::expression::{SymbolType, Tri};
use kc_text::{read_hex, read_int, unescape_into};
use kc_user::value::{LONGEST_VALUE, UserValue, is_short_quoted};
use std::alloc::{AllocError, Global};

/// Returns the value that the text gives to a symbol of this type, or None if it is not allowed. A bool takes `y` or
/// `n` as the first byte, a tristate `y`, `m` or `n`; any bytes may follow. A string takes the text between the `"` at
/// its start and the next `"` that is not escaped by a `\`, where `\c` means c. If strings are raw, it takes all
/// between a `"` at the start and a `"` at the end. An int or hex takes the whole text, if it is a number of that type.
/// A text of more than 65,000 bytes gives None; so does a raw string that is longer than that with escapes, and a
/// symbol without a type.
///
/// # Errors
/// Fails if there is not enough memory.
#[inline(always)]
pub fn line_value(
    alloc: Global,
    symbol_type: SymbolType,
    text: &[u8],
    is_raw: bool,
) -> Result<Option<UserValue>, AllocError>
    ensures { IfOk result (λ found. option_map given_of_value found ≡ spec_parts.line_value is_raw symbol_type text.now) }
{
    if text.len() > LONGEST_VALUE {
        return Ok(None);
    }
    match symbol_type {
        SymbolType::Undefined => Ok(None),
        SymbolType::Bool => Ok(truth_value(yes_or_no(first_byte(text)))),
        SymbolType::Tristate => Ok(truth_value(yes_m_or_no(first_byte(text)))),
        SymbolType::Str => string_value(alloc, text, is_raw),
        SymbolType::Int => number_value(alloc, text, read_int(text).is_some()),
        SymbolType::Hex => number_value(alloc, text, read_hex(text).is_some()),
    }
}

// The first byte; 0 if there is none.
fn first_byte(text: &[u8]) -> u8
    ensures { result ≡ slice_index text.now 0 }
{
    match text {
        [first, ..] => *first,
        [] => 0,
    }
}

fn yes_or_no(byte: u8) -> Option<Tri>
    ensures { result ≡ spec.yes_or_no byte }
{
    match byte {
        b'y' => Some(Tri::Y),
        b'n' => Some(Tri::N),
        _ => None,
    }
}

fn yes_m_or_no(byte: u8) -> Option<Tri>
    ensures { result ≡ spec_parts.yes_m_or_no byte }
{
    if byte == b'm' {
        return Some(Tri::M);
    }
    yes_or_no(byte)
}

fn truth_value(found: Option<Tri>) -> Option<UserValue>
    ensures { option_map given_of_value result ≡ option_map GivenTruth found }
{
    match found {
        Some(tri) => Some(UserValue::Tri(tri)),
        None => None,
    }
}

// The unchanged text, if it is a number.
fn number_value(
    alloc: Global,
    text: &[u8],
    is_number: bool,
) -> Result<Option<UserValue>, AllocError>
    ensures { IfOk result (λ found. option_map given_of_value found ≡ spec_parts.number_value text.now is_number) }
{
    if !is_number {
        return Ok(None);
    }
    Ok(Some(UserValue::Text(Vec::from_slice(alloc, text)?)))
}

// The text of a string.
fn string_value(alloc: Global, text: &[u8], is_raw: bool) -> Result<Option<UserValue>, AllocError>
    ensures { IfOk result (λ found. option_map given_of_value found ≡ spec_parts.string_value is_raw text.now) }
{
    if is_raw {
        raw_value(alloc, raw_string(text))
    } else {
        escaped_value(alloc, text)
    }
}

// The text between the first byte and the last one, each of which is a `"`.
fn between_ends(text: &[u8]) -> Option<&[u8]>
    ensures { option_copied result ≡ spec_parts.between_ends text.now }
{
    text.strip_prefix(b"\"")?.strip_suffix(b"\"")
}

// The same, if it is not too long with escapes added.
fn raw_string(text: &[u8]) -> Option<&[u8]>
    ensures { option_copied result ≡ spec.raw_string text.now }
{
    let raw = between_ends(text)?;
    if is_short_quoted(raw) {
        Some(raw)
    } else {
        None
    }
}

// The value of a raw string's text.
fn raw_value(alloc: Global, raw: Option<&[u8]>) -> Result<Option<UserValue>, AllocError>
    ensures { IfOk result (λ found. option_map given_of_value found ≡ option_map GivenText (option_copied raw.entry)) }
{
    match raw {
        Some(raw) => Ok(Some(UserValue::Text(Vec::from_slice(alloc, raw)?))),
        None => Ok(None),
    }
}

// The value of a string with escapes.
fn escaped_value(alloc: Global, text: &[u8]) -> Result<Option<UserValue>, AllocError>
    ensures { IfOk result (λ found. option_map given_of_value found ≡ option_map GivenText (spec.escaped_string text.now)) }
{
    match quoted(text) {
        Some(raw) => {
            let mut value = Vec::new(alloc);
            unescape_into(raw, &mut value)?;
            Ok(Some(UserValue::Text(value)))
        }
        None => Ok(None),
    }
}

// The text between the `"` at the start and the closing `"`.
fn quoted(text: &[u8]) -> Option<&[u8]>
    ensures { option_map (λ raw. raw.now) result ≡ spec_parts.quoted text.now }
{
    match text {
        [b'"', body @ ..] => until_quote(body),
        _ => None,
    }
}

// The text before the first `"` that is not escaped by a `\`.
fn until_quote(body: &[u8]) -> Option<&[u8]>
    ensures { option_map (λ raw. raw.now) result ≡ spec.until_quote body.now }
{
    let mut at = 0;
    'bytes: while at < body.len() {
        if body[at] == b'"' {
            return Some(&body[..at]);
        }
        at += if body[at] == b'\\' { 2 } else { 1 };
    }
    None
}
