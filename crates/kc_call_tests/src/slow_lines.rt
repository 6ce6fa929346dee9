//! The results of the plain slow solver, as lines.

ghost use Rattle.kc_values.specs.TableFacts.{IsRowOf};

use crate::trial::{SymbolReport, choice_count, choice_into, symbol_into, warnings_into};
use kc_diagnostics::Warning;
use kc_expr::expression::{SymId, SymbolType};
use kc_expr::values::{Values, tri_text};
use kc_tree::rows::{ChoiceId, Symbol};
use kc_user::user::User;
use kc_user::value::UserValue;
use kc_values::choices::selected_in;
use kc_values::differs::member_differs;
use kc_values::equation::own_equation;
use kc_values::table::{Table, name};
use kc_values::truths::visibility;
use kc_values::warnings;
use kc_values::written::written;
use std::alloc::{AllocError, Global};

// The user value of the symbol.
fn given(user: &User, id: SymId) -> Option<&UserValue> {
    user.symbols().get(id.0)
}

// The member that the user chose.
fn chosen(user: &User, choice: ChoiceId) -> Option<SymId> {
    match user.choices().get(choice.0 as usize) {
        Some(Some(member)) => Some(*member),
        _ => None,
    }
}

// Whether the symbol's value differs from its value without its user value.
fn differs(
    alloc: Global,
    table: &Table<'_>,
    user: &User,
    id: SymId,
    symbol: &Symbol,
) -> Result<bool, AllocError>
    requires row { IsRowOf table.now id symbol.now }
{
    if let Some(choice) = symbol.choice.get() {
        let selection = selected_in(table, choice, chosen(user, choice));
        let default = selected_in(table, choice, None);
        return Ok(member_differs(selection, default, id));
    }
    match own_equation(alloc, table, id, symbol, None) {
        Ok(without) => Ok(!table.values.holds(id.0, &Some(without))),
        Err(fault) => Err(fault),
    }
}

// The value as a text.
fn text_of<'t>(table: &'t Table<'_>, id: SymId) -> &'t [u8] {
    match table.symbol_type(id) {
        SymbolType::Bool | SymbolType::Tristate => tri_text(table.tri(id)),
        _ => table.text(id),
    }
}

// Adds the line of a symbol, and its warnings.
fn symbol_line(
    alloc: Global,
    table: &Table<'_>,
    user: &User,
    id: SymId,
    out: &mut Vec<u8>,
    warned: &mut Vec<Warning<Vec<u8>>>,
) -> Result<(), AllocError> {
    let Some(symbol) = table.layout.symbol(id) else {
        return Ok(());
    };
    let shown = visibility(table, id, symbol);
    let report = SymbolReport {
        name: name(table.tree, id),
        value: text_of(table, id),
        visibility: shown,
        is_written: written(table, id, symbol, shown),
        differs: differs(alloc, table, user, id, symbol)?,
    };
    symbol_into(report, out)?;
    let own = given(user, id);
    warnings::warnings_into(alloc, table, id, symbol, own, warned)
}

/// Adds the lines of the values in a table. Adds the warnings to the earlier ones, and all of them to the text.
pub(crate) fn lines_into(
    alloc: Global,
    table: &Table<'_>,
    user: &User,
    out: &mut Vec<u8>,
    warned: &mut Vec<Warning<Vec<u8>>>,
) -> Result<(), AllocError> {
    for id in table.layout.defined() {
        symbol_line(alloc, table, user, *id, out, warned)?;
    }
    for c in 0..choice_count(table.tree) {
        let choice = ChoiceId(c as u32);
        let selection = selected_in(table, choice, chosen(user, choice));
        let default = selected_in(table, choice, None);
        choice_into(table.tree, selection, default, out)?;
    }
    warnings_into(warned, out)
}
