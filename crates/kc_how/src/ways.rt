//! The ways to a fact.

use crate::facts::{Fact, Outcome};
use crate::needs::Ways;
use kc_expr::expression::SymId;
use kc_tree::rows::SelectorId;
use std::alloc::{AllocError, Global};

// The last line that selects a symbol, and the last that implies it.
fn last_lines<'a>(outcome: &Outcome<'a>, id: SymId) -> (SelectorId, SelectorId) {
    match outcome.layout.symbol(id) {
        Some(row) => (row.last_select, row.last_imply),
        None => (SelectorId::none(), SelectorId::none()),
    }
}

/// The ways to a fact. Their numbers are the same in each outcome.
pub(crate) fn ways_of<'a>(
    alloc: Global,
    outcome: &Outcome<'a>,
    fact: Fact,
) -> Result<Ways<'a>, AllocError> {
    let mut ways = Ways::new(alloc, outcome);
    match fact {
        Fact::Truth(id, aim) => ways.truth_ways(id, aim)?,
        Fact::Prompts(id, aim) => ways.prompt_ways(id, aim)?,
        Fact::Direct(id, aim) => ways.direct_ways(id, aim)?,
        Fact::Selected(id, aim) => ways.selector_ways(last_lines(outcome, id).0, aim)?,
        Fact::Implied(id, aim) => ways.selector_ways(last_lines(outcome, id).1, aim)?,
        Fact::Allowed(id, aim) => ways.allowed_ways(id, aim)?,
        Fact::Context(at, aim) => ways.context_ways(at, aim)?,
        Fact::Visible(id, aim) => ways.visible_ways(id, aim)?,
        Fact::Dependency(id, aim) => ways.dependency_ways(id, aim)?,
        Fact::Mode(id, aim) => ways.mode_ways(id, aim)?,
        Fact::First(id, kind, number) => ways.first_ways(id, kind, number)?,
        Fact::GoalText => ways.goal_text_ways()?,
    }
    Ok(ways)
}
