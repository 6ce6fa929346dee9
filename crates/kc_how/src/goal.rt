//! A symbol and the value that it shall have.

ghost use Rattle.std.specs.Prelude.{◌≡◌, IfOk, option_map};
ghost use Rattle.std.specs.List.{list_any};
ghost use Rattle.kc_language.specs.Lines.{is_line_feed};
ghost use Rattle.kc_user.specs.ValueView.{given_of_value};
ghost use Rattle.kc_how.specs.How as spec;

use kc_expr::expression::{SymId, SymbolType};
use kc_input::value::line_value;
use kc_user::value::{UserValue, is_short_quoted};
use std::alloc::{AllocError, Global};

/// A symbol and the value that it shall have (our own).
#[derive(Debug, Drop)]
pub struct Goal {
    /// The symbol.
    pub symbol: SymId,
    /// The value: n, m or y of a bool or tristate; otherwise a text.
    pub value: UserValue,
}

// Whether the text has a line feed.
fn has_line_feed(text: &[u8]) -> bool
    ensures { result ≡ list_any is_line_feed text.now }
{
    text.iter().any(|b| *b == b'\n')
}

// A string without quotes.
fn unquoted(
    alloc: Global,
    symbol_type: SymbolType,
    text: &[u8],
) -> Result<Option<UserValue>, AllocError>
    ensures { IfOk result (λ value. option_map given_of_value value ≡ spec.unquoted symbol_type text.now) }
{
    match symbol_type {
        SymbolType::Str if is_short_quoted(text) && !has_line_feed(text) => {
            Ok(Some(UserValue::Text(Vec::from_slice(alloc, text)?)))
        }
        _ => Ok(None),
    }
}

/// The value that a text asks for, for a symbol of this type (our own). It is what the text gives right of the `=` of a `.config`
/// line. A string may also stand without quotes. None if the text is no value of the type. The only error is that memory runs out.
pub fn wanted_value(
    alloc: Global,
    symbol_type: SymbolType,
    text: &[u8],
    is_raw: bool,
) -> Result<Option<UserValue>, AllocError>
    ensures { IfOk result (λ value. option_map given_of_value value ≡ spec.wanted_value is_raw symbol_type text.now) }
{
    match line_value(alloc, symbol_type, text, is_raw)? {
        Some(value) => Ok(Some(value)),
        None => unquoted(alloc, symbol_type, text),
    }
}
