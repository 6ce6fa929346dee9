//! Whether a goal is reached.

use crate::facts::{Aim, Fact, Outcome};
use crate::question::Question;
use crate::shown::has_value;
use kc_diagnostics::Warning;
use kc_expr::expression::{SymId, SymbolType};
use kc_solve::solved::Solved;
use std::alloc::AllocError;

// A conflict: the name of a symbol that is selected above its dependency (K11), and what it is selected to.
#[derive(Clone, Copy)]
struct Conflict<'a> {
    name: &'a [u8],
    selected_to: &'a [u8],
}

// The conflict that a warning is about.
fn conflict_of(warning: &Warning<Vec<u8>>) -> Option<Conflict<'_>> {
    match warning {
        Warning::Selected {
            name,
            selected_to,
            ..
        } => Some(Conflict { name, selected_to }),
        _ => None,
    }
}

// Whether the symbol of this name is in conflict.
fn is_in_conflict(solved: &Solved<'_, '_>, name: &[u8]) -> bool {
    for warning in solved.value_warnings() {
        match conflict_of(warning) {
            Some(conflict) if conflict.name == name => return true,
            _ => {}
        }
    }
    false
}

// The conflict that a warning is about, if it was not there before.
fn new_conflict<'a>(
    before: &Solved<'_, '_>,
    warning: &'a Warning<Vec<u8>>,
) -> Option<Conflict<'a>> {
    match conflict_of(warning) {
        Some(conflict) if !is_in_conflict(before, conflict.name) => Some(conflict),
        _ => None,
    }
}

/// Whether the symbol of the goal has its value, and no symbol is in conflict that was not so before.
pub(crate) fn is_reached(question: &Question<'_, '_, '_, '_>, now: &Solved<'_, '_>) -> bool {
    if !has_value(now, question.goal.symbol, &question.goal.value) {
        return false;
    }
    for warning in now.value_warnings() {
        if new_conflict(question.before, warning).is_some() {
            return false;
        }
    }
    true
}

// What the dependency of a symbol shall be that is selected to this.
fn aim_of(outcome: &Outcome<'_>, id: SymId, selected_to: &[u8]) -> Aim {
    if selected_to == b"y".as_slice() && outcome.type_of(id) == SymbolType::Tristate {
        Aim::AtLeastY
    } else {
        Aim::AtLeastM
    }
}

/// Adds what ends the conflicts that were not there before.
pub(crate) fn add_dependencies(
    outcome: &Outcome<'_>,
    facts: &mut Vec<Fact>,
) -> Result<(), AllocError> {
    for warning in outcome.now.value_warnings() {
        let Some(conflict) = new_conflict(outcome.before, warning) else {
            continue;
        };
        if let Some(id) = outcome.now.tree().find(conflict.name) {
            let aim = aim_of(outcome, id, conflict.selected_to);
            facts.push(Fact::Allowed(id, aim))?;
        }
    }
    Ok(())
}
