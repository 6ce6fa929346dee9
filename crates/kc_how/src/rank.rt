//! How much a fragment costs the user.

use crate::lines::Line;
use crate::question::Question;
use crate::shown::{has_value, shown_value, user_value};
use kc_expr::expression::{SymId, Tri};
use kc_input::shown::{ShownValue, is_same, shown_given};
use kc_language::sources::Source;
use kc_solve::solved::Solved;
use kc_tree::layout::Layout;

/// What a line costs.
pub(crate) const LINE: u32 = 100;

// What it costs if the goal is only selected although it has a prompt.
const ONLY_SELECTED: u32 = 120;

/// A fragment, with the solution for it.
#[derive(Clone, Copy)]
pub(crate) struct Trial<'r, 't, 'u> {
    pub lines: &'r [Line],
    pub after: &'r Solved<'t, 'u>,
}

// What becomes of a symbol.
#[derive(Clone, Copy)]
enum Change {
    // Its value is the same.
    Same,
    // A truth value of the user is lowered.
    Lowered,
    // A text of the user changes.
    Replaced,
    // A truth value of the user is raised, and no line asks for it.
    Raised,
    // A line asks for another value than that of the user.
    Asked,
    // Another value changes.
    Other,
}

impl Change {
    // What it costs, in quarters.
    fn quarters(self) -> u32 {
        match self {
            Change::Same | Change::Asked => 0,
            Change::Lowered => 400,
            Change::Replaced => 200,
            Change::Raised => 40,
            Change::Other => 1,
        }
    }
}

// What becomes of a value of the user that was in force.
fn own_change(old: ShownValue<'_>, new: ShownValue<'_>, is_asked: bool) -> Change {
    match (old, new) {
        (ShownValue::Truth(old), ShownValue::Truth(new)) if new < old => Change::Lowered,
        (ShownValue::Truth(_), ShownValue::Truth(_)) if is_asked => Change::Asked,
        (ShownValue::Truth(_), ShownValue::Truth(_)) => Change::Raised,
        _ => Change::Replaced,
    }
}

// Whether the user's value of a symbol is that of the input, and no line gives it another one.
fn has_own(question: &Question<'_, '_, '_, '_>, after: &Solved<'_, '_>, id: SymId) -> bool {
    match (
        user_value(question.input.user(), id),
        user_value(after.user(), id),
    ) {
        (Some(own), Some(now)) => is_same(shown_given(own), shown_given(now)),
        _ => false,
    }
}

// What becomes of a symbol.
fn change_of(question: &Question<'_, '_, '_, '_>, trial: Trial<'_, '_, '_>, id: SymId) -> Change {
    let old = shown_value(question.before, id);
    let new = shown_value(trial.after, id);
    if is_same(old, new) || id == question.goal.symbol {
        return Change::Same;
    }
    match user_value(question.input.user(), id) {
        Some(own) if is_same(shown_given(own), old) => {
            own_change(old, new, !has_own(question, trial.after, id))
        }
        _ => Change::Other,
    }
}

// Whether a symbol is a member of a choice.
fn is_member(layout: &Layout, id: SymId) -> bool {
    match layout.symbol(id) {
        Some(row) => row.choice.is_some(),
        None => false,
    }
}

// Whether the question of a symbol, which no line answers, is asked now and was not asked before.
fn is_asked_anew(question: &Question<'_, '_, '_, '_>, after: &Solved<'_, '_>, id: SymId) -> bool {
    after.visibility(id) != Tri::N
        && question.before.visibility(id) == Tri::N
        && user_value(after.user(), id).is_none()
        && !is_member(question.laid.layout, id)
}

// Whether one of the definitions of a symbol has a prompt.
fn has_prompt(layout: &Layout, id: SymId) -> bool {
    let Some(row) = layout.symbol(id) else {
        return false;
    };
    let mut at = row.first;
    for _ in 0..layout.place_count() {
        if !at.is_some() {
            return false;
        }
        let place = layout.place(at);
        if layout.prompt(place).is_some() {
            return true;
        }
        at = place.next;
    }
    false
}

// Whether the goal is only selected although it has a prompt.
fn is_only_selected(question: &Question<'_, '_, '_, '_>, after: &Solved<'_, '_>) -> bool {
    let goal = question.goal.symbol;
    goal.0 < after.tree().name_count()
        && after.source(goal) == Source::Selected
        && has_prompt(question.laid.layout, goal)
}

/// What lines cost, as lines.
pub(crate) fn lines_cost(lines: &[Line]) -> u32 {
    let mut cost = 0u32;
    for _ in lines {
        cost = cost.saturating_add(LINE);
    }
    cost
}

/// What a fragment costs: mainly its lines, and the values of the user that it turns off.
pub(crate) fn score(question: &Question<'_, '_, '_, '_>, trial: Trial<'_, '_, '_>) -> u32 {
    let mut quarters = 0u32;
    for id in question.laid.layout.defined() {
        quarters = quarters.saturating_add(change_of(question, trial, *id).quarters());
        if is_asked_anew(question, trial.after, *id) {
            quarters = quarters.saturating_add(1);
        }
    }
    let mut score = lines_cost(trial.lines).saturating_add(quarters / 4);
    if is_only_selected(question, trial.after) {
        score = score.saturating_add(ONLY_SELECTED);
    }
    score
}

/// Whether each symbol has the value of its line.
pub(crate) fn is_taken(trial: Trial<'_, '_, '_>) -> bool {
    for line in trial.lines {
        if !has_value(trial.after, line.symbol, &line.value) {
            return false;
        }
    }
    true
}

// Whether a value of the user is lost that was in force, and that no line overrides.
fn is_lost(question: &Question<'_, '_, '_, '_>, after: &Solved<'_, '_>, id: SymId) -> bool {
    match user_value(question.input.user(), id) {
        Some(own) => {
            has_value(question.before, id, own)
                && !has_value(after, id, own)
                && has_own(question, after, id)
        }
        None => false,
    }
}

/// Whether the user loses a value.
pub(crate) fn has_loss(question: &Question<'_, '_, '_, '_>, after: &Solved<'_, '_>) -> bool {
    for id in question.laid.layout.defined() {
        if is_lost(question, after, *id) {
            return true;
        }
    }
    false
}
