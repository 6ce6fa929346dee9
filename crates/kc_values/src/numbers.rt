//! Ranges of numbers, and the equation of an int or hex symbol.

ghost use Rattle.std.specs.Prelude.{◌≡◌, ◌<◌, None, Some, IfOk, IfSome, bytes_eq, not, unsigned_abs};
ghost use Rattle.std.specs.Option.{option_copied};
ghost use Rattle.kc_text.specs.PartsOfText.{hex_limit};
ghost use Rattle.kc_values.specs.AtTable as spec;
ghost use Rattle.kc_values.specs.TableFacts.{condition_at, IsRowOf};
ghost use Rattle.kc_values.specs.FoundRows.{IsMetRange};
ghost use Rattle.kc_language.specs.Values as digits;
ghost use Rattle.kc_values.specs.Small.{HasSmallBounds};
ghost use Rattle.kc_values.specs.User.{given_in};

use crate::conditions::{condition, is_n};
use crate::table::Table;
use crate::texts::{default_text, visible_text_of};
use kc_entries::statement::SymbolRange;
use kc_expr::expression::{SymId, SymbolType};
use kc_expr::values::text;
pub use kc_language::values::Interval;
use kc_text::{read_hex, read_int};
use kc_tree::attributes::range_of;
use kc_tree::rows::{EntryId, EntryPlace, Symbol};
use kc_user::value::UserValue;
use std::alloc::{AllocError, Global};

/// Parses a number by its type: decimal for int, with or without `0x` for hex. Returns none for another type or text
/// (our own limits, 64 bits each).
pub(crate) fn number_as(symbol_type: SymbolType, text: &[u8]) -> Option<i128>
    ensures { result ≡ digits.number_as symbol_type text.now }
{
    match symbol_type {
        SymbolType::Int => read_int(text),
        SymbolType::Hex => read_hex(text),
        _ => None,
    }
}

// The number of a text, or 0.
#[tactic(auto, using(crate::proofs::SmallNumbers::number_or_zero_below))]
fn number_or_zero(symbol_type: SymbolType, text: &[u8]) -> i128
    ensures number { result ≡ digits.number_or_zero symbol_type text.now }
    ensures small { unsigned_abs result < hex_limit }
{
    number_as(symbol_type, text).unwrap_or(0)
}

/// The bounds of a range.
pub fn bounds_of(table: &Table<'_>, symbol_type: SymbolType, range: &SymbolRange) -> Interval
    ensures range { Some result ≡ spec.interval table.now symbol_type range.now }
    ensures small { HasSmallBounds result }
{
    Interval {
        low: number_or_zero(symbol_type, text(&range.low, table)),
        high: number_or_zero(symbol_type, text(&range.high, table)),
    }
}

// The first range of a definition with this place whose condition is not n.
fn first_met<'t>(table: &Table<'t>, at: EntryId, place: EntryPlace) -> Option<&'t SymbolRange>
    ensures { IsMetRange table.now (spec.range_at table.now at.0 (condition_at table.now place.context.0)) result }
{
    let layout = table.layout;
    for line in layout.attributes(at) {
        if let Some(range) = range_of(&line.attribute) {
            if !is_n(condition(table, place.context, &range.when)) {
                return Some(range);
            }
        }
    }
    None
}

/// The active range of a symbol: the first range whose condition is not n (the kernel's kconfig-language document,
/// "Menu attributes": numerical ranges). A bound that is not a number counts as 0 (our own).
pub fn active_range(table: &Table<'_>, id: SymId, symbol: &Symbol) -> Option<Interval>
    requires { IsRowOf table.now id symbol.now }
    ensures range { result ≡ spec.active_range table.now id symbol.now }
    ensures small { IfSome result HasSmallBounds }
{
    let mut at = symbol.first;
    'definitions: while at.is_some() {
        let place = table.layout.place(at);
        if place.has_range {
            if let Some(range) = first_met(table, at, place) {
                return Some(bounds_of(table, symbol.symbol_type, range));
            }
        }
        at = place.next;
    }
    None
}

/// Whether the number of a text is inside the range, both bounds included; true without a range (kconfiglib's
/// `str_value`). A text that is not a number counts as 0 (our own).
pub fn is_within_range(symbol_type: SymbolType, range: Option<Interval>, text: &[u8]) -> bool
    ensures { result ≡ digits.is_within_range symbol_type range text.now }
{
    match range {
        Some(bounds) => {
            let number = number_or_zero(symbol_type, text);
            bounds.low <= number && number <= bounds.high
        }
        None => true,
    }
}

/// The user's text if its number is inside the range. Any other text is dropped, not clamped (kconfiglib's
/// `str_value`).
pub fn if_within_range(
    symbol_type: SymbolType,
    range: Option<Interval>,
    given: Option<&[u8]>,
) -> Option<&[u8]>
    ensures { option_copied result ≡ digits.if_within_range symbol_type range (option_copied given.entry) }
{
    match given {
        Some(bytes) if is_within_range(symbol_type, range, bytes) => Some(bytes),
        _ => None,
    }
}

/// Formats a number: decimal for int, `0x` and lower-case digits for hex (kconfiglib's `str_value`). Fails only if
/// there is not enough memory.
pub fn number_text(
    alloc: Global,
    symbol_type: SymbolType,
    number: i128,
) -> Result<Vec<u8>, AllocError>
    requires { unsigned_abs number < hex_limit }
    ensures { IfOk result (λ v. v.items ≡ digits.number_text symbol_type number) }
{
    let text = match symbol_type {
        SymbolType::Hex => {
            let magnitude = number.unsigned_abs() as u64;
            format!(in alloc; "0x{magnitude:x}")?
        }
        _ => format!(in alloc; "{number}")?,
    };
    Ok(text.into_bytes())
}

/// Returns the text if its number is inside the range. Otherwise returns the bound that it violates, checking the low
/// one first (kconfiglib's `str_value` of a default outside its range). A text that is not a number counts as 0 (our
/// own). Fails only if there is not enough memory.
pub fn clamped(
    alloc: Global,
    symbol_type: SymbolType,
    range: Option<Interval>,
    text: &[u8],
) -> Result<Vec<u8>, AllocError>
    requires { IfSome range HasSmallBounds }
    ensures { IfOk result (λ v. v.items ≡ digits.clamped symbol_type range text.now) }
{
    if let Some(bounds) = range {
        let number = number_or_zero(symbol_type, text);
        if number < bounds.low {
            let low = number_text(alloc, symbol_type, bounds.low)?;
            return Ok(low);
        }
        if bounds.high < number {
            let high = number_text(alloc, symbol_type, bounds.high)?;
            return Ok(high);
        }
    }
    let copy = Vec::from_slice(alloc, text)?;
    Ok(copy)
}

/// The value of an int or hex symbol outside a choice: the user's text, unchanged, if the symbol is visible and the
/// number is inside the active range. Otherwise it is the first default's text, clamped (kconfiglib's `str_value`);
/// without a default it is empty (our own). Fails only if there is not enough memory.
pub(crate) fn number_equation(
    alloc: Global,
    table: &Table<'_>,
    id: SymId,
    symbol: &Symbol,
    user: Option<&UserValue>,
) -> Result<Vec<u8>, AllocError>
    requires { IsRowOf table.now id symbol.now }
    ensures { IfOk result (λ v. v.items ≡ spec.number_equation table.now id symbol.now (given_in user.entry)) }
{
    let range = active_range(table, id, symbol);
    let given = visible_text_of(table, id, symbol, user);
    if let Some(bytes) = if_within_range(symbol.symbol_type, range, given) {
        let copy = Vec::from_slice(alloc, bytes)?;
        return Ok(copy);
    }
    let default = default_text(table, id, symbol);
    let value = clamped(alloc, symbol.symbol_type, range, default)?;
    Ok(value)
}

/// Whether a text is another than the value of an int or hex symbol outside a choice without the user's: the first default's
/// text, clamped (our own rule of the minimal file). Fails only when it is out of memory.
#[tactic(auto, using(crate::proofs::SmallNumbers::inside_keeps))]
pub(crate) fn differs_from_default(
    alloc: Global,
    table: &Table<'_>,
    id: SymId,
    symbol: &Symbol,
    text: &[u8],
) -> Result<bool, AllocError>
    requires { IsRowOf table.now id symbol.now }
    ensures { IfOk result (λ b. b ≡ not (bytes_eq text.now (spec.number_equation table.now id symbol.now None))) }
{
    let range = active_range(table, id, symbol);
    let default = default_text(table, id, symbol);
    if is_within_range(symbol.symbol_type, range, default) {
        return Ok(text != default);
    }
    let used = clamped(alloc, symbol.symbol_type, range, default)?;
    Ok(text != used.as_slice())
}
