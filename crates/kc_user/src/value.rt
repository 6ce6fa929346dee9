//! The values that a user may give for one symbol.
ghost use Rattle.std.specs.Prelude.{◌≡◌, ◌+◌, length, nat_le, count_by};
ghost use Rattle.std.specs.List.{list_any};
ghost use Rattle.kc_language.specs.Lines.{is_line_feed};
ghost use Rattle.kc_language.specs.Text.{longest_value, escape};
ghost use Rattle.kc_text.specs.PartsOfText.{is_escaped};
ghost use Rattle.kc_user.specs.Places as spec;
ghost use Rattle.kc_user.specs.ValueView.{given_of_value};

use kc_expr::expression::{SymId, SymbolType, Tri};
use kc_text::{is_escaped, read_hex, read_int};
use kc_tree::tree::Tree;

/// The most bytes after the `=` of a `.config` line (our own limit).
pub const LONGEST_VALUE: usize = 65000;

/// A value that a user gives for one symbol (kconfiglib's `user_value`).
#[derive(Debug, Drop)]
pub enum UserValue {
    /// For a bool or tristate.
    Tri(Tri),
    /// For a string, without its quotes and backslashes; for an int or hex, as it is spelled.
    Text(Vec<u8>),
}

/// Whether some line of a `.config` gives the symbol this value: n or y for a bool; n, m or y for a tristate; for a
/// string, a text without a line feed that has at most 65,000 bytes when it is quoted and escaped; for an int or hex, a
/// number of that type with at most 65,000 bytes; no value for a symbol that has no type or is not defined. (Our own
/// limits.)
pub fn allowed(tree: &Tree, id: SymId, value: &UserValue) -> bool
    ensures { result ≡ spec.allowed tree.now id (given_of_value value.now) }
{
    match tree.facts(id) {
        Some(symbol) => is_allowed(symbol.symbol_type, value),
        None => false,
    }
}

// Whether a line gives a symbol of this type this value.
fn is_allowed(symbol_type: SymbolType, value: &UserValue) -> bool
    ensures { result ≡ spec.allowed_by symbol_type (given_of_value value.now) }
{
    match value {
        UserValue::Tri(tri) => is_allowed_tri(symbol_type, *tri),
        UserValue::Text(text) => is_allowed_text(symbol_type, text),
    }
}

fn is_allowed_tri(symbol_type: SymbolType, tri: Tri) -> bool
    ensures { result ≡ spec.allowed_truth symbol_type tri }
{
    match symbol_type {
        SymbolType::Bool => match tri {
            Tri::M => false,
            Tri::N | Tri::Y => true,
        },
        SymbolType::Tristate => true,
        SymbolType::Undefined | SymbolType::Str | SymbolType::Int | SymbolType::Hex => false,
    }
}

fn is_allowed_text(symbol_type: SymbolType, text: &[u8]) -> bool
    ensures { result ≡ spec.allowed_text symbol_type text.now }
{
    match symbol_type {
        SymbolType::Str => fits_quoted(text),
        SymbolType::Int => text.len() <= LONGEST_VALUE && read_int(text).is_some(),
        SymbolType::Hex => text.len() <= LONGEST_VALUE && read_hex(text).is_some(),
        SymbolType::Undefined | SymbolType::Bool | SymbolType::Tristate => false,
    }
}

// The number of bytes that get a `\` before them.
fn escaped_count(text: &[u8]) -> usize
    ensures count { result ≡ count_by is_escaped text.now }
{
    text.iter().filter(|b| is_escaped(**b)).count()
}

// Whether the text has a line feed.
fn has_line_feed(text: &[u8]) -> bool
    ensures { result ≡ list_any is_line_feed text.now }
{
    text.iter().any(|b| *b == b'\n')
}

/// Returns whether the text has at most 65,000 bytes when it is quoted and escaped (our own limit).
pub fn is_short_quoted(text: &[u8]) -> bool
    ensures { result ≡ nat_le (length (escape text.now) + 2) longest_value }
{
    text.len() <= LONGEST_VALUE && text.len() + escaped_count(text) + 2 <= LONGEST_VALUE
}

// Whether the text, quoted and escaped, is allowed after the `=` of a line.
fn fits_quoted(text: &[u8]) -> bool
    ensures { result ≡ spec.fits_quoted text.now }
{
    is_short_quoted(text) && !has_line_feed(text)
}
