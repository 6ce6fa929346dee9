//! The warnings about the values of a tree.

ghost use Rattle.std.specs.Prelude.{◌≡◌, ◌++◌, IfOk, IfSome, OnOk};
ghost use Rattle.std.specs.Option.{option_copied};
ghost use Rattle.kc_diagnostics.specs.Warnings.{owned_warning};
ghost use Rattle.kc_values.specs.AtTable as at;
ghost use Rattle.kc_values.specs.TableFacts.{IsRowOf};
ghost use Rattle.kc_language.specs.Values.{name, number_text, above};
ghost use Rattle.kc_values.specs.Small.{HasSmallBounds};
ghost use Rattle.kc_values.specs.User.{given_in};
ghost use Rattle.kc_language.specs.Texts as spec;
ghost use Rattle.kc_values.specs.PartsOfTexts as spec_parts;
ghost use Rattle.kc_values.specs.Warnings.{held};

use crate::numbers::{
    Interval, active_range, clamped, if_within_range, is_within_range, number_text,
};
use crate::table::{Table, name};
use crate::texts::{met_text, visible_text_of};
use crate::truths::{direct, selected_to};
use kc_diagnostics::Warning;
use kc_expr::expression::{SymId, SymbolType, Tri};
use kc_expr::values::tri_text;
use kc_tree::rows::Symbol;
use kc_user::value::UserValue;
use std::alloc::{AllocError, Global};

/// Whether one truth is greater than another.
pub(crate) fn is_above(a: Tri, b: Tri) -> bool
    ensures { result ≡ above a b }
{
    match (a, b) {
        (Tri::N, _) => false,
        (Tri::M, Tri::N) => true,
        (Tri::M, _) => false,
        (Tri::Y, Tri::Y) => false,
        (Tri::Y, _) => true,
    }
}

// The warning about a symbol that is selected above its dependency.
fn selected_warning(
    alloc: Global,
    name: &[u8],
    selected_to: Tri,
    direct: Tri,
) -> Result<Warning<Vec<u8>>, AllocError>
    ensures { IfOk result (λ w. owned_warning w ≡ spec_parts.selected_warning name.now selected_to direct) }
{
    Ok(Warning::Selected {
        name: Vec::from_slice(alloc, name)?,
        selected_to: Vec::from_slice(alloc, tri_text(selected_to))?,
        direct: Vec::from_slice(alloc, tri_text(direct))?,
    })
}

// Formats the low bound.
fn low_text(alloc: Global, symbol_type: SymbolType, range: Interval) -> Result<Vec<u8>, AllocError>
    requires { HasSmallBounds range }
    ensures { IfOk result (λ v. v.items ≡ number_text symbol_type range.low) }
{
    let text = number_text(alloc, symbol_type, range.low)?;
    Ok(text)
}

// Formats the high bound.
fn high_text(alloc: Global, symbol_type: SymbolType, range: Interval) -> Result<Vec<u8>, AllocError>
    requires { HasSmallBounds range }
    ensures { IfOk result (λ v. v.items ≡ number_text symbol_type range.high) }
{
    let text = number_text(alloc, symbol_type, range.high)?;
    Ok(text)
}

// The warning about a user's text outside the range.
fn user_outside(
    alloc: Global,
    symbol_type: SymbolType,
    range: Interval,
    name: &[u8],
    text: &[u8],
) -> Result<Warning<Vec<u8>>, AllocError>
    requires { HasSmallBounds range }
    ensures { IfOk result (λ w. owned_warning w ≡ spec_parts.user_warning symbol_type range name.now text.now) }
{
    Ok(Warning::UserOutside {
        name: Vec::from_slice(alloc, name)?,
        value: Vec::from_slice(alloc, text)?,
        low: low_text(alloc, symbol_type, range)?,
        high: high_text(alloc, symbol_type, range)?,
    })
}

// The warning about a default outside the range.
fn default_outside(
    alloc: Global,
    symbol_type: SymbolType,
    range: Interval,
    name: &[u8],
    text: &[u8],
) -> Result<Warning<Vec<u8>>, AllocError>
    requires { HasSmallBounds range }
    ensures { IfOk result (λ w. owned_warning w ≡ spec_parts.default_warning symbol_type range name.now text.now) }
{
    Ok(Warning::DefaultOutside {
        name: Vec::from_slice(alloc, name)?,
        value: Vec::from_slice(alloc, text)?,
        low: low_text(alloc, symbol_type, range)?,
        high: high_text(alloc, symbol_type, range)?,
        used: clamped(alloc, symbol_type, Some(range), text)?,
    })
}

// Adds the warning about a visible user value outside the active range.
fn user_warning(
    alloc: Global,
    symbol_type: SymbolType,
    name: &[u8],
    range: Option<Interval>,
    given: Option<&[u8]>,
    out: &mut Vec<Warning<Vec<u8>>>,
) -> Result<(), AllocError>
    requires { IfSome range HasSmallBounds }
    ensures { OnOk result (held out.new.items ≡ held out.old.items ++ spec.user_warnings symbol_type name.now range (option_copied given.entry)) }
{
    let Some(bounds) = range else {
        return Ok(());
    };
    let Some(text) = given else {
        return Ok(());
    };
    if is_within_range(symbol_type, Some(bounds), text) {
        return Ok(());
    }
    let warning = user_outside(alloc, symbol_type, bounds, name, text)?;
    out.push(warning)?;
    Ok(())
}

// Adds the warning about a default that applied and was clamped.
fn default_warning(
    alloc: Global,
    symbol_type: SymbolType,
    name: &[u8],
    range: Option<Interval>,
    used: Option<&[u8]>,
    default: Option<&[u8]>,
    out: &mut Vec<Warning<Vec<u8>>>,
) -> Result<(), AllocError>
    requires { IfSome range HasSmallBounds }
    ensures { OnOk result (held out.new.items ≡ held out.old.items ++ spec.default_warnings symbol_type name.now range (option_copied used.entry) (option_copied default.entry)) }
{
    if used.is_some() {
        return Ok(());
    }
    let Some(bounds) = range else {
        return Ok(());
    };
    let Some(text) = default else {
        return Ok(());
    };
    if is_within_range(symbol_type, Some(bounds), text) {
        return Ok(());
    }
    let warning = default_outside(alloc, symbol_type, bounds, name, text)?;
    out.push(warning)?;
    Ok(())
}

// Adds the warnings of an int or hex symbol.
fn range_warnings(
    alloc: Global,
    table: &Table<'_>,
    id: SymId,
    symbol: &Symbol,
    user: Option<&UserValue>,
    out: &mut Vec<Warning<Vec<u8>>>,
) -> Result<(), AllocError>
    requires { IsRowOf table.now id symbol.now }
    ensures { OnOk result (held out.new.items ≡ held out.old.items ++ at.range_warnings table.now (name table.now.tree.now id) id symbol.now (given_in user.entry)) }
{
    let range = active_range(table, id, symbol);
    // Nothing is outside of no range.
    if let None = range {
        return Ok(());
    }
    let given = visible_text_of(table, id, symbol, user);
    let used = if_within_range(symbol.symbol_type, range, given);
    let default = met_text(table, id, symbol);
    let name = name(table.tree, id);
    user_warning(alloc, symbol.symbol_type, name, range, given, out)?;
    default_warning(alloc, symbol.symbol_type, name, range, used, default, out)?;
    Ok(())
}

// Adds the warning of a bool or tristate symbol.
fn select_warnings(
    alloc: Global,
    table: &Table<'_>,
    id: SymId,
    symbol: &Symbol,
    out: &mut Vec<Warning<Vec<u8>>>,
) -> Result<(), AllocError>
    requires { IsRowOf table.now id symbol.now }
    ensures { OnOk result (held out.new.items ≡ held out.old.items ++ at.select_warnings table.now (name table.now.tree.now id) id symbol.now) }
{
    let selected_to = selected_to(table, id, symbol);
    // A symbol that is not selected can't be above its direct dependency.
    if let Tri::N = selected_to {
        return Ok(());
    }
    let direct = direct(table, id, symbol);
    if !is_above(selected_to, direct) {
        return Ok(());
    }
    let warning = selected_warning(alloc, name(table.tree, id), selected_to, direct)?;
    out.push(warning)?;
    Ok(())
}

/// Appends the warnings of one symbol under these values. A bool or tristate: it is selected above its direct
/// dependency. An int or hex: a visible user value is outside the active range; then: a default was clamped. A member
/// of a choice has none (our own lines). Fails only if there is not enough memory; some warnings may then have been added.
pub fn warnings_into(
    alloc: Global,
    table: &Table<'_>,
    id: SymId,
    symbol: &Symbol,
    user: Option<&UserValue>,
    out: &mut Vec<Warning<Vec<u8>>>,
) -> Result<(), AllocError>
    requires { IsRowOf table.now id symbol.now }
    ensures { OnOk result (held out.new.items ≡ held out.old.items ++ at.warnings_of table.now id symbol.now (given_in user.entry)) }
{
    if symbol.choice.is_some() {
        return Ok(());
    }
    match symbol.symbol_type {
        SymbolType::Undefined => Ok(()),
        SymbolType::Bool => select_warnings(alloc, table, id, symbol, out),
        SymbolType::Tristate => select_warnings(alloc, table, id, symbol, out),
        SymbolType::Str => Ok(()),
        SymbolType::Int => range_warnings(alloc, table, id, symbol, user, out),
        SymbolType::Hex => range_warnings(alloc, table, id, symbol, user, out),
    }
}
