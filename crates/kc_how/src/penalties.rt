//! What a search avoids.

use crate::facts::Fact;
use crate::plan::Plan;
use kc_expr::expression::SymId;
use std::alloc::AllocError;

/// A fact of a plan, and the number of the way to it that was taken.
#[derive(Clone, Copy, Debug, PartialEq, Eq)]
pub(crate) struct Step {
    pub fact: Fact,
    pub way: usize,
}

/// What is to be avoided: a way to a fact, or a line that gives this symbol a value.
#[derive(Clone, Copy, Debug, PartialEq, Eq)]
pub(crate) enum Blame {
    Step(Step),
    Line(SymId),
}

/// How much more that costs.
#[derive(Clone, Copy, Debug)]
pub(crate) struct Penalty {
    pub blame: Blame,
    pub more: u32,
}

/// How much more it costs to do the same again: a step of a plan, one of its lines, and to plan from the same lines.
#[derive(Clone, Copy)]
pub(crate) struct Rise {
    pub step: u32,
    pub line: u32,
    pub start: u32,
}

// Adds a penalty.
fn add(penalties: &mut Vec<Penalty>, blame: Blame, more: u32) -> Result<(), AllocError> {
    if more > 0 {
        penalties.push(Penalty { blame, more })?;
    }
    Ok(())
}

/// Adds penalties for the steps and lines of a plan, but for no line of the goal.
pub(crate) fn add_plan(
    penalties: &mut Vec<Penalty>,
    plan: &Plan,
    goal: SymId,
    rise: Rise,
) -> Result<(), AllocError> {
    for line in &plan.lines {
        if line.symbol != goal {
            add(penalties, Blame::Line(line.symbol), rise.line)?;
        }
    }
    for step in &plan.steps {
        add(penalties, Blame::Step(*step), rise.step)?;
    }
    Ok(())
}

/// The sum of the penalties.
pub(crate) fn total(penalties: &[Penalty]) -> u32 {
    let mut sum = 0u32;
    for penalty in penalties {
        sum = sum.saturating_add(penalty.more);
    }
    sum
}
