//! The results of the solver, as lines.

use crate::trial::{SymbolReport, choice_count, choice_into, symbol_into, warnings_into};
use kc_expr::expression::SymId;
use kc_expr::values::Values;
use kc_solve::solved::Solved;
use kc_tree::rows::ChoiceId;
use kc_values::table::name;
use std::alloc::AllocError;

// Adds the line of a symbol.
fn symbol_line(solved: &Solved<'_, '_>, id: SymId, out: &mut Vec<u8>) -> Result<(), AllocError> {
    let report = SymbolReport {
        name: name(solved.tree(), id),
        value: solved.text(id),
        visibility: solved.visibility(id),
        is_written: solved.written(id),
        differs: id.0 < solved.tree().name_count() && solved.differs(id),
    };
    symbol_into(report, out)
}

// Adds the line of a choice.
fn choice_line(
    solved: &Solved<'_, '_>,
    choice: ChoiceId,
    out: &mut Vec<u8>,
) -> Result<(), AllocError> {
    if choice.0 as usize >= choice_count(solved.tree()) {
        return Ok(());
    }
    let selection = solved.selection(choice);
    let default = solved.default_selection(choice);
    choice_into(solved.tree(), selection, default, out)
}

/// Adds the lines of a solution.
pub(crate) fn lines_into(solved: &Solved<'_, '_>, out: &mut Vec<u8>) -> Result<(), AllocError> {
    for id in solved.tree().layout().defined() {
        symbol_line(solved, *id, out)?;
    }
    for c in 0..choice_count(solved.tree()) {
        choice_line(solved, ChoiceId(c as u32), out)?;
    }
    warnings_into(solved.value_warnings(), out)
}
