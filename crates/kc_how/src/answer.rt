//! The answer to a question.

ghost use Rattle.std.specs.Prelude.{◌≡◌, All, IfOk, OnOk, true};
ghost use Rattle.kc_how.specs.How.{IsOutOfReach};
ghost use Rattle.kc_how.specs.Questions.{Answers, IsQuestion, goal_of};
ghost use Rattle.kc_possible.specs.Possible.{IsOff, IsSound};

use crate::fix::is_fix;
use crate::lines::line_text;
use crate::question::Question;
use crate::search::best;
use crate::shown::has_value;
use kc_expr::expression::SymId;
use kc_possible::dead::{may_be, may_have_text};
use kc_possible::possible::Possible;
use kc_possible::reason::shared_reasons;
use kc_possible::shared::SharedReasons;
use kc_user::value::UserValue;
use std::alloc::{AllocError, Global};

// How many symbols that stand in the way are listed.
const MOST_REASONS: usize = 16;

/// Why a search ended without an answer (our own).
#[derive(Clone, Copy, Debug, PartialEq, Eq)]
pub enum Miss {
    /// As many fragments as allowed were tried.
    NoTryLeft,
    /// No other fragment is expected to reach the goal.
    NoPlanLeft,
}

/// The answer to a question (our own).
#[derive(Debug, Drop)]
pub enum Answer {
    /// The lines of a fragment, without their line ends, in the order of the tree. There is none if the goal is reached already.
    Found(Vec<Vec<u8>>),
    /// No input reaches the goal. These symbols are n whatever the user gives. The first ones stand in its way, and the others in
    /// that of those before them. There are at most 16, each once.
    Impossible(Vec<SymId>),
    /// The search ended without an answer.
    NotFound(Miss),
}

// Whether the bounds show that no input gives the symbol the text.
fn is_excluded_text(question: &Question<'_, '_, '_, '_>) -> bool
    requires { IsQuestion question.now }
    ensures { result ≡ true → IsOutOfReach question.now.laid.now.tree.now (goal_of question.now.goal.now) }
{
    match &question.goal.value {
        UserValue::Tri(_) => false,
        UserValue::Text(text) => !may_have_text(question.possible, question.goal.symbol, text),
    }
}

// Whether the bounds show that no input gives the symbol the value.
fn is_excluded(question: &Question<'_, '_, '_, '_>) -> bool
    requires { IsQuestion question.now }
    ensures { result ≡ true → IsOutOfReach question.now.laid.now.tree.now (goal_of question.now.goal.now) }
{
    match question.goal.value {
        UserValue::Tri(tri) => !may_be(question.possible, question.goal.symbol, tri),
        UserValue::Text(_) => is_excluded_text(question),
    }
}

// The lines that the search suggests, as texts: none of them if the symbol has the value already.
fn suggested(
    alloc: Global,
    question: &Question<'_, '_, '_, '_>,
) -> Result<Result<Vec<Vec<u8>>, Miss>, AllocError>
    requires { IsQuestion question.now }
{
    let mut texts = Vec::new(alloc);
    if has_value(question.before, question.goal.symbol, &question.goal.value) {
        return Ok(Ok(texts));
    }
    let lines = match best(alloc, question)? {
        Ok(lines) => lines,
        Err(miss) => return Ok(Err(miss)),
    };
    for line in &lines {
        texts.push(line_text(alloc, question, line)?)?;
    }
    Ok(Ok(texts))
}

// Whether this symbol is among these.
fn is_among(found: &[SymId], id: SymId) -> bool {
    for symbol in found {
        if symbol.0 == id.0 {
            return true;
        }
    }
    false
}

// Adds a symbol that is off, unless it is there or there are enough.
fn add_new(p: &Possible<'_>, id: SymId, found: &mut Vec<SymId>) -> Result<(), AllocError>
    requires off { IsOff p.now.laid.tree.now id }
    requires found { All (IsOff p.now.laid.tree.now) found.old.items }
    ensures { OnOk result (All (IsOff p.now.laid.tree.now) found.new.items) }
{
    if found.len() < MOST_REASONS && !is_among(found, id) {
        found.push(id)?;
    }
    Ok(())
}

// The same for each of these.
fn add_all_new(p: &Possible<'_>, more: &[SymId], found: &mut Vec<SymId>) -> Result<(), AllocError>
    requires more { All (IsOff p.now.laid.tree.now) more.now }
    requires found { All (IsOff p.now.laid.tree.now) found.old.items }
    ensures { OnOk result (All (IsOff p.now.laid.tree.now) found.new.items) }
{
    for id in more {
        add_new(p, *id, found)?;
    }
    Ok(())
}

// The symbols that stand in the way of a symbol, and those that stand in the way of these.
fn all_reasons(alloc: Global, p: &Possible<'_>, id: SymId) -> Result<Vec<SymId>, AllocError>
    requires { IsSound p.now }
    ensures { IfOk result (λ found. All (IsOff p.now.laid.tree.now) found.items) }
{
    let mut shared = SharedReasons::new(alloc, p)?;
    let mut found = shared_reasons(p, id, &mut shared)?;
    'reasons: for next in 0..MOST_REASONS {
        let Some(reason) = found.get(next).copied() else {
            break;
        };
        let more = shared_reasons(p, reason, &mut shared)?;
        add_all_new(p, &more, &mut found)?;
    }
    Ok(found)
}

/// Searches a fix for the question (our own). The only error is that memory runs out.
pub fn answered(alloc: Global, question: &Question<'_, '_, '_, '_>) -> Result<Answer, AllocError>
    requires { IsQuestion question.now }
    ensures { IfOk result (Answers question.now) }
{
    if is_excluded(question) {
        let found = all_reasons(alloc, question.possible, question.goal.symbol)?;
        return Ok(Answer::Impossible(found));
    }
    let lines = match suggested(alloc, question)? {
        Ok(lines) => lines,
        Err(miss) => return Ok(Answer::NotFound(miss)),
    };
    if is_fix(alloc, question, &lines)? {
        Ok(Answer::Found(lines))
    } else {
        Ok(Answer::NotFound(Miss::NoPlanLeft))
    }
}
