//! What comes of lines that are tried.

ghost use Rattle.kc_how.specs.Questions.{IsQuestion};

use crate::lines::{Line, are_same, copied, with_lines};
use crate::penalties::{Penalty, Step};
use crate::plan::{Plan, cheapest, has_failed};
use crate::question::Question;
use crate::rank::{Trial, has_loss, is_taken, score};
use crate::reached::is_reached;
use kc_expr::values::Values;
use kc_solve::solve::solve;
use kc_solve::solved::Solved;
use kc_user::value::UserValue;
use std::alloc::{AllocError, Global};

/// How often the tree may still be solved.
#[derive(Debug, Drop)]
pub(crate) struct Budget {
    pub left: usize,
}

impl Budget {
    // Takes one of what is left.
    fn take(&mut self) -> bool {
        if self.left == 0 {
            return false;
        }
        self.left -= 1;
        true
    }
}

/// What comes of lines.
#[derive(Drop)]
pub(crate) enum Verdict {
    /// They reach the goal.
    Reached,
    /// They do not. These steps of the plan failed.
    Missed(Vec<Step>),
    /// They were not tried, since the budget is used up.
    Unknown,
}

/// The cheapest plan from what these lines give. None if there is none, or the budget is used up.
pub(crate) fn planned(
    alloc: Global,
    question: &Question<'_, '_, '_, '_>,
    lines: &[Line],
    penalties: &[Penalty],
    budget: &mut Budget,
) -> Result<Option<Plan>, AllocError>
    requires { IsQuestion question.now }
{
    if lines.is_empty() {
        return cheapest(alloc, question, question.before, penalties);
    }
    if !budget.take() {
        return Ok(None);
    }
    let user = with_lines(alloc, question, lines)?;
    let now = solve(alloc, question.laid, question.order, &user)?;
    cheapest(alloc, question, &now, penalties)
}

// The steps that failed.
fn failed_steps(
    alloc: Global,
    question: &Question<'_, '_, '_, '_>,
    now: &Solved<'_, '_>,
    steps: &[Step],
) -> Result<Vec<Step>, AllocError>
    requires { IsQuestion question.now }
{
    let mut failed = Vec::new(alloc);
    for step in steps {
        if has_failed(alloc, question, now, *step)? {
            failed.push(*step)?;
        }
    }
    Ok(failed)
}

/// What comes of these lines, which a plan with these steps led to.
pub(crate) fn tried(
    alloc: Global,
    question: &Question<'_, '_, '_, '_>,
    lines: &[Line],
    steps: &[Step],
    budget: &mut Budget,
) -> Result<Verdict, AllocError>
    requires { IsQuestion question.now }
{
    if !budget.take() {
        return Ok(Verdict::Unknown);
    }
    let user = with_lines(alloc, question, lines)?;
    let now = solve(alloc, question.laid, question.order, &user)?;
    if is_reached(question, &now) {
        return Ok(Verdict::Reached);
    }
    Ok(Verdict::Missed(failed_steps(alloc, question, &now, steps)?))
}

/// What lines cost that reach the goal. None if they do not count, since one of them is not taken, or the user loses a value.
pub(crate) fn worth(
    alloc: Global,
    question: &Question<'_, '_, '_, '_>,
    lines: &[Line],
) -> Result<Option<u32>, AllocError>
    requires { IsQuestion question.now }
{
    let user = with_lines(alloc, question, lines)?;
    let after = &solve(alloc, question.laid, question.order, &user)?;
    let trial = Trial { lines, after };
    if !is_taken(trial) || question.is_strict && has_loss(question, after) {
        return Ok(None);
    }
    Ok(Some(score(question, trial)))
}

/// The lines with the values that their symbols get from them, if these are others and the goal is reached with them too.
pub(crate) fn settled(
    alloc: Global,
    question: &Question<'_, '_, '_, '_>,
    lines: &[Line],
    budget: &mut Budget,
) -> Result<Option<Vec<Line>>, AllocError>
    requires { IsQuestion question.now }
{
    let user = with_lines(alloc, question, lines)?;
    let after = solve(alloc, question.laid, question.order, &user)?;
    let mut settled = copied(alloc, lines)?;
    for line in &mut settled {
        if let UserValue::Tri(value) = &mut line.value {
            *value = after.tri(line.symbol);
        }
    }
    if are_same(&settled, lines) {
        return Ok(None);
    }
    match tried(alloc, question, &settled, &[], budget)? {
        Verdict::Reached => Ok(Some(settled)),
        Verdict::Missed(_) | Verdict::Unknown => Ok(None),
    }
}
