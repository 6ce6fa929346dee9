//! The `range` lines that stand in the way of a number.

ghost use Rattle.std.specs.Prelude.{◌≡◌, ◌++◌, OnOk, Some, codes};
ghost use Rattle.std.specs.List.{flat_map};
ghost use Rattle.kc_expr.specs.Form.{leaf_of};
ghost use Rattle.kc_language.specs.Values.{number_as};
ghost use Rattle.kc_tree.specs.LineParts.{range_said};
ghost use Rattle.kc_explain.specs.FactTexts.{plain_range_words};
ghost use Rattle.kc_explain.specs.LineViews.{line_view};
ghost use Rattle.kc_explain.specs.RangeLines as spec;
ghost use Rattle.kc_explain.specs.RangeViews as told;

use crate::fact_text::add_range_words;
use crate::lines::{Line, attribute_line, definitions_of};
use crate::teller::Teller;
use kc_entries::entries::{AttributeLine, Entry, EntryLines};
use kc_entries::statement::SymbolRange;
use kc_expr::expression::{Operand, SymId, SymbolType};
use kc_expr::values::{Values, tri_text};
use kc_text::{read_hex, read_int};
use kc_tree::attributes::range_of;
use kc_tree::rows::EntryId;
use kc_values::numbers::{Interval, is_within_range};
use kc_values::table::name;
use std::alloc::{AllocError, Global};

/// A number that a symbol of this type shall have, as a text; and what stands before each line (our own).
#[derive(Clone, Copy)]
struct Wanted<'w> {
    symbol_type: SymbolType,
    number: &'w [u8],
    lead: &'w [u8],
}

// ---- bounds

// The number of a text, for a symbol of this type.
fn number_as(symbol_type: SymbolType, text: &[u8]) -> Option<i128>
    ensures { result ≡ number_as symbol_type text.now }
{
    match symbol_type {
        SymbolType::Int => read_int(text),
        SymbolType::Hex => read_hex(text),
        _ => None,
    }
}

// The number that a name without a type is.
fn name_number(t: &Teller<'_, '_, '_>, symbol_type: SymbolType, id: SymId) -> Option<i128>
    ensures { result ≡ told.name_number t.now.solved.now.tree symbol_type id }
{
    if t.solved.symbol_type(id) == SymbolType::Undefined {
        number_as(symbol_type, name(t.solved.tree(), id))
    } else {
        None
    }
}

// The number that a bound is under every input.
fn plain_number(t: &Teller<'_, '_, '_>, symbol_type: SymbolType, bound: &Operand) -> Option<i128>
    ensures { result ≡ spec.plain_number t.now.solved.now.tree symbol_type (leaf_of bound.now) }
{
    match bound {
        Operand::Const(text) => number_as(symbol_type, text),
        Operand::TristateConstant(value) => number_as(symbol_type, tri_text(*value)),
        Operand::Sym(id) => name_number(t, symbol_type, *id),
    }
}

// The bounds of a range that are such numbers.
fn plain_interval(
    t: &Teller<'_, '_, '_>,
    symbol_type: SymbolType,
    range: &SymbolRange,
) -> Option<Interval>
    ensures { result ≡ spec.plain_interval t.now.solved.now.tree symbol_type (range_said range.now).0 }
{
    match plain_number(t, symbol_type, &range.low) {
        Some(low) => match plain_number(t, symbol_type, &range.high) {
            Some(high) => Some(Interval { low, high }),
            None => None,
        },
        None => None,
    }
}

// Whether the bounds of a range always allow the number.
fn allows(t: &Teller<'_, '_, '_>, wanted: &Wanted<'_>, range: &SymbolRange) -> bool
    ensures { result ≡ spec.allows t.now.solved.now.tree wanted.now.symbol_type wanted.now.number.now (range_said range.now).0 }
{
    let bounds = plain_interval(t, wanted.symbol_type, range);
    bounds.is_some() && is_within_range(wanted.symbol_type, bounds, wanted.number)
}

// ---- lines

// Appends the line of a range after the lead.
fn add_line(
    t: &Teller<'_, '_, '_>,
    lead: &[u8],
    line: Line<'_>,
    range: &SymbolRange,
    text: &mut Vec<u8>,
) -> Result<(), AllocError>
    ensures { OnOk result (text.new.items ≡ text.old.items ++ (lead.now ++ plain_range_words t.now.is_raw t.now.solved.now.tree
        (record { line = Some (line_view line.entry); what = range_said range.now }) ++ codes "\n")) }
{
    text.extend_from_slice(lead)?;
    add_range_words(t, line, range, text)?;
    text.extend_from_slice(b"\n")
}

// Appends the line of a range, unless its bounds always allow the number.
fn add_range(
    t: &Teller<'_, '_, '_>,
    wanted: &Wanted<'_>,
    line: Line<'_>,
    range: &SymbolRange,
    text: &mut Vec<u8>,
) -> Result<(), AllocError>
    ensures { OnOk result (text.new.items ≡ text.old.items ++ told.told t.now.is_raw t.now.solved.now.tree wanted.now
        (record { line = Some (line_view line.entry); what = range_said range.now })) }
{
    if allows(t, wanted, range) {
        Ok(())
    } else {
        add_line(t, wanted.lead, line, range, text)
    }
}

// The same for a line of an entry, if it is a range.
fn add_if_range(
    t: &Teller<'_, '_, '_>,
    wanted: &Wanted<'_>,
    first: &Entry,
    own: &AttributeLine,
    text: &mut Vec<u8>,
) -> Result<(), AllocError>
    ensures { OnOk result (text.new.items ≡ text.old.items ++ told.attribute_told t.now.is_raw t.now.solved.now.tree wanted.now first.now own.now) }
{
    match range_of(&own.attribute) {
        Some(range) => add_range(t, wanted, attribute_line(first, own), range, text),
        None => Ok(()),
    }
}

// The same for the lines of an entry.
fn add_own(
    t: &Teller<'_, '_, '_>,
    wanted: &Wanted<'_>,
    own: EntryLines<'_>,
    text: &mut Vec<u8>,
) -> Result<(), AllocError>
    ensures { OnOk result (text.new.items ≡ text.old.items
        ++ flat_map (told.attribute_told t.now.is_raw t.now.solved.now.tree wanted.now own.entry.first.now) own.entry.attributes.now) }
{
    for line in own.attributes {
        add_if_range(t, wanted, own.first, line, text)?;
    }
    Ok(())
}

// The same for the entry with this number.
fn add_at(
    t: &Teller<'_, '_, '_>,
    wanted: &Wanted<'_>,
    entry: EntryId,
    text: &mut Vec<u8>,
) -> Result<(), AllocError>
    ensures { OnOk result (text.new.items ≡ text.old.items
        ++ told.entry_told t.now.is_raw t.now.solved.now.tree wanted.now t.now.layout.now entry) }
{
    match t.layout.entry(entry) {
        Some(own) => add_own(t, wanted, own, text),
        None => Ok(()),
    }
}

// The same for these entries.
fn add_all(
    t: &Teller<'_, '_, '_>,
    wanted: &Wanted<'_>,
    entries: &[EntryId],
    text: &mut Vec<u8>,
) -> Result<(), AllocError>
    ensures { OnOk result (text.new.items ≡ text.old.items
        ++ flat_map (told.entry_told t.now.is_raw t.now.solved.now.tree wanted.now t.now.layout.now) entries.now) }
{
    for entry in entries {
        add_at(t, wanted, *entry, text)?;
    }
    Ok(())
}

// Whether the values of a type are numbers.
fn holds_number(symbol_type: SymbolType) -> bool
    ensures { result ≡ spec.holds_number symbol_type }
{
    matches!(symbol_type, SymbolType::Int | SymbolType::Hex)
}

/// Appends the ranges of an int or hex that do not always allow this number, each in a line after the lead (our own). Of any other
/// symbol there are none. The only error is that memory runs out.
pub fn add_range_lines(
    alloc: Global,
    t: &Teller<'_, '_, '_>,
    lead: &[u8],
    id: SymId,
    number: &[u8],
    text: &mut Vec<u8>,
) -> Result<(), AllocError>
    ensures { OnOk result (text.new.items ≡ text.old.items ++ spec.range_lines t.now.is_raw t.now.solved.now.tree lead.now id number.now) }
{
    let symbol_type = t.solved.symbol_type(id);
    if !holds_number(symbol_type) {
        return Ok(());
    }
    let wanted = Wanted {
        symbol_type,
        number,
        lead,
    };
    let entries = definitions_of(alloc, t.layout, id)?;
    add_all(t, &wanted, &entries, text)
}
