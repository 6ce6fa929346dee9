//! The texts that the ranges of an int or hex symbol keep it from.

ghost use Rattle.std.specs.List.{AllByRecursion, filter_map, list_any};
ghost use Rattle.std.specs.Prelude.{◌≡◌, IfSome, true};
ghost use Rattle.kc_language.specs.declared.expressions.SymId.{SymId};
ghost use Rattle.kc_language.specs.Expressions.{SymbolValue};
ghost use Rattle.kc_language.specs.Symbols.{range_in};
ghost use Rattle.kc_language.specs.Values as values;
ghost use Rattle.kc_tree.specs.Layouts.{said_at};
ghost use Rattle.kc_tree.specs.LineParts.{range_said};
ghost use Rattle.kc_possible.specs.PartsOfPossible.{IsNoText, IsRowOf};
ghost use Rattle.kc_possible.specs.Possible.{Allows};
ghost use Rattle.kc_possible.specs.Ranges as spec;

use crate::possible::Possible;
use crate::texts::fixed_operand;
use kc_entries::statement::SymbolRange;
use kc_expr::expression::{SymId, SymbolType};
use kc_language::values::Interval;
use kc_text::{read_hex, read_int};
use kc_tree::attributes::range_of;
use kc_tree::rows::{EntryId, Symbol};

// The number of a text, or 0.
fn number_of(symbol_type: SymbolType, text: &[u8]) -> i128
    ensures { result ≡ values.number_or_zero symbol_type text.now }
{
    let number = match symbol_type {
        SymbolType::Int => read_int(text),
        SymbolType::Hex => read_hex(text),
        _ => None,
    };
    number.unwrap_or(0)
}

// Whether the number of a text is below both bounds, or above both.
fn is_outside(symbol_type: SymbolType, bounds: Interval, text: &[u8]) -> bool
    ensures { result ≡ spec.is_outside symbol_type text.now bounds }
{
    let number = number_of(symbol_type, text);
    (number < bounds.low && number < bounds.high) || (bounds.low < number && bounds.high < number)
}

// The bounds of a range, if no input changes them.
fn fixed_bounds(p: &Possible<'_>, symbol_type: SymbolType, range: &SymbolRange) -> Option<Interval>
    ensures { IfSome result (λ bounds. (known : SymId → SymbolValue) → Allows p.now known → spec.interval known symbol_type (range_said range.now).0 ≡ bounds) }
{
    let Some(low) = fixed_operand(p, &range.low) else {
        return None;
    };
    let Some(high) = fixed_operand(p, &range.high) else {
        return None;
    };
    Some(Interval {
        low: number_of(symbol_type, low),
        high: number_of(symbol_type, high),
    })
}

// Whether a range keeps a symbol from a text, if it is the one that counts.
fn excludes(p: &Possible<'_>, symbol_type: SymbolType, text: &[u8], range: &SymbolRange) -> bool
    ensures { result ≡ true → (known : SymId → SymbolValue) → Allows p.now known → spec.IsExcluded known symbol_type text.now (range_said range.now) }
{
    match fixed_bounds(p, symbol_type, range) {
        Some(bounds) => is_outside(symbol_type, bounds, text),
        None => false,
    }
}

// Whether each range of an entry does.
fn all_exclude(p: &Possible<'_>, symbol_type: SymbolType, text: &[u8], at: EntryId) -> bool
    ensures { result ≡ true → (known : SymId → SymbolValue) → Allows p.now known →
        AllByRecursion (spec.IsExcluded known symbol_type text.now) (filter_map range_in (said_at p.now.laid.layout.now at.0)) }
{
    for line in p.laid.layout.attributes(at) {
        if let Some(range) = range_of(&line.attribute) {
            if !excludes(p, symbol_type, text, range) {
                return false;
            }
        }
    }
    true
}

// Whether an entry has a range without an `if`.
fn has_plain_range(p: &Possible<'_>, at: EntryId) -> bool
    ensures { result ≡ list_any spec.is_plain (filter_map range_in (said_at p.now.laid.layout.now at.0)) }
{
    for line in p.laid.layout.attributes(at) {
        if let Some(range) = range_of(&line.attribute) {
            if range.when.is_none() {
                return true;
            }
        }
    }
    false
}

// Whether each definition has a range without an `if`, and only ranges that keep the symbol from a text.
fn are_bounded(p: &Possible<'_>, id: SymId, row: &Symbol, text: &[u8]) -> bool
    requires { IsRowOf p.now id row.now }
    ensures { result ≡ true → (known : SymId → SymbolValue) → Allows p.now known → spec.IsBounded p.now.laid.tree.now known row.now.symbol_type text.now (spec.all_definitions p.now id) }
{
    let mut at = row.first;
    'definitions: while at.is_some() {
        if !has_plain_range(p, at) {
            return false;
        }
        if !all_exclude(p, row.symbol_type, text, at) {
            return false;
        }
        at = p.laid.layout.place(at).next;
    }
    true
}

/// Whether the ranges of an int or hex symbol keep it from a text: its number is outside each of them, and a definition whose
/// prompt or default may count has one that counts too.
pub(crate) fn is_out_of_range(p: &Possible<'_>, id: SymId, row: &Symbol, text: &[u8]) -> bool
    requires { IsRowOf p.now id row.now }
    ensures { result ≡ true → IsNoText p.now id row.now text.now }
{
    match row.symbol_type {
        SymbolType::Int | SymbolType::Hex => !text.is_empty() && are_bounded(p, id, row, text),
        _ => false,
    }
}
