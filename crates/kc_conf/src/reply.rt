//! What a run replies that is asked what must be set so that a symbol has a value.
ghost use Rattle.std.specs.Prelude.{All, IfOk, OnOk, Some, map, not, ◌<◌, ◌||◌, ◌++◌, ◌≡◌};
ghost use Rattle.kc_language.specs.ConfigFile.{ArePlacesOf};
ghost use Rattle.kc_language.specs.Values.{name_count};
ghost use Rattle.kc_language.specs.declared.expressions.SymId.{SymId};
ghost use Rattle.kc_possible.specs.Possible.{IsOff};
ghost use Rattle.kc_how.specs.How.{IsFix, IsOutOfReach};
ghost use Rattle.kc_how.specs.FixTexts as spec;
ghost use Rattle.kc_how.specs.Questions.{IsQuestion, IsWith, goal_of};
ghost use Rattle.kc_conf.specs.How.{asked_first, modules_line, prompt_line, goal_range_lines};
ghost use Rattle.kc_conf.specs.HowParts.{AddsReasons, IsInquiry, IsReply, IsTellerOf, Replies};

use crate::accepted::OrderedTree;
use crate::lost::has_prompt;
use kc_explain::{Teller, add_fixed, add_range_lines, asked_symbol};
use kc_expr::expression::{SymId, SymbolType, Tri};
use kc_expr::values::Values;
use kc_how::answer::{Answer, Miss, answered};
use kc_how::fix::{fragment_alone, with_fragment};
use kc_how::goal::{Goal, wanted_value};
use kc_how::question::Question;
use kc_how::text::{
    Fix, add_reason, fix_text, impossible_line, loses_nothing, no_value_text, not_found_text,
};
use kc_input::user_input::UserInput;
use kc_options::Options;
use kc_possible::possible::Possible;
use kc_solve::solve::solve;
use kc_tree::tree::Tree;
use kc_user::value::UserValue;
use kc_values::laws::rows_tell_facts;
use std::alloc::{AllocError, Global};

/// What is asked of the symbol of the first name to be explained (our own).
#[derive(Clone, Copy, Debug)]
pub struct Asked<'w> {
    /// The value that it shall have, as it stands right of the `=` of a `.config` line. A string may also stand without quotes.
    pub value: &'w str,
    /// The number of fragments that may be tried.
    pub steps: usize,
}

/// What is asked of a tree, and what its symbols may be.
#[derive(Clone, Copy)]
pub(crate) struct Inquiry<'q> {
    pub asked: &'q Asked<'q>,
    pub possible: &'q Possible<'q>,
}

/// A reply.
#[derive(Drop)]
pub(crate) enum Reply {
    /// This text, for each output.
    Text(Vec<u8>),
    /// The lines of a refusal.
    Refusal(Vec<u8>),
}

// ---- to a question

// No fix was found.
fn not_found(
    alloc: Global,
    question: &Question<'_, '_, '_, '_>,
    miss: Miss,
) -> Result<Reply, AllocError>
    ensures { IfOk result (Replies question.now) }
{
    let text = not_found_text(
        alloc,
        question.laid.tree,
        question.prefix,
        question.goal,
        question.steps,
        miss,
    )?;
    Ok(Reply::Refusal(text))
}

// Adds a line, after the lead, if a symbol has a type and no prompt.
fn add_prompt_line(
    tree: &Tree,
    lead: &[u8],
    id: SymId,
    text: &mut Vec<u8>,
) -> Result<(), AllocError>
    ensures { OnOk result (text.new.items ≡ text.old.items ++ prompt_line lead.now tree.now id) }
{
    rows_tell_facts();
    let layout = tree.layout();
    let Some(symbol) = layout.symbol(id) else {
        return Ok(());
    };
    if symbol.symbol_type == SymbolType::Undefined || has_prompt(layout, id, symbol) {
        return Ok(());
    }
    text.extend_from_slice(lead)?;
    text.extend_from_slice(b"no prompt\n")
}

// Adds a line, after the lead, if the goal is m and the tree has no modules symbol.
fn add_modules_line(
    tree: &Tree,
    lead: &[u8],
    goal: &Goal,
    text: &mut Vec<u8>,
) -> Result<(), AllocError>
    ensures { OnOk result (text.new.items ≡ text.old.items ++ modules_line lead.now tree.now (goal_of goal.now)) }
{
    match (tree.modules_symbol(), &goal.value) {
        (None, UserValue::Tri(Tri::M)) => {
            text.extend_from_slice(lead)?;
            text.extend_from_slice(b"no modules symbol\n")
        }
        _ => Ok(()),
    }
}

// Adds the ranges that do not allow the number of the goal, each in a line after the lead.
fn add_ranges(
    alloc: Global,
    teller: &Teller<'_, '_, '_>,
    lead: &[u8],
    goal: &Goal,
    text: &mut Vec<u8>,
) -> Result<(), AllocError>
    ensures { OnOk result (text.new.items ≡ text.old.items ++ goal_range_lines teller.now.is_raw teller.now.solved.now.tree lead.now (goal_of goal.now)) }
{
    match &goal.value {
        UserValue::Text(number) => {
            add_range_lines(alloc, teller, lead, goal.symbol, number, text)
        }
        UserValue::Tri(_) => Ok(()),
    }
}

// Adds the lines of a symbol that is off: that, and what no line can change.
fn add_reason_lines(
    alloc: Global,
    question: &Question<'_, '_, '_, '_>,
    teller: &Teller<'_, '_, '_>,
    reason: SymId,
    text: &mut Vec<u8>,
) -> Result<(), AllocError>
    requires question { IsQuestion question.now }
    requires teller { IsTellerOf question.now teller.now }
    requires off { IsOff question.now.laid.now.tree.now reason }
    ensures { OnOk result (AddsReasons question.now text.old.items text.new.items) }
{
    add_reason(question.laid.tree, reason, text)?;
    add_prompt_line(question.laid.tree, b"    ", reason, text)?;
    add_fixed(alloc, teller, question.possible, b"    ", reason, text)
}

// The same for all of these symbols.
fn add_reasons(
    alloc: Global,
    question: &Question<'_, '_, '_, '_>,
    teller: &Teller<'_, '_, '_>,
    reasons: &[SymId],
    text: &mut Vec<u8>,
) -> Result<(), AllocError>
    requires question { IsQuestion question.now }
    requires teller { IsTellerOf question.now teller.now }
    requires off { All (IsOff question.now.laid.now.tree.now) reasons.now }
    ensures { OnOk result (AddsReasons question.now text.old.items text.new.items) }
{
    for reason in reasons {
        add_reason_lines(alloc, question, teller, *reason, text)?;
    }
    Ok(())
}

// No input reaches the goal, and these symbols are off.
fn impossible(
    alloc: Global,
    question: &Question<'_, '_, '_, '_>,
    reasons: &[SymId],
) -> Result<Reply, AllocError>
    requires question { IsQuestion question.now }
    requires out { IsOutOfReach question.now.laid.now.tree.now (goal_of question.now.goal.now) }
    requires off { All (IsOff question.now.laid.now.tree.now) reasons.now }
    ensures { IfOk result (Replies question.now) }
{
    let goal = question.goal;
    let teller = Teller::new(question.before, question.input, question.prefix.is_raw());
    let mut text = impossible_line(alloc, question.laid.tree, question.prefix, goal)?;
    add_prompt_line(question.laid.tree, b"  ", goal.symbol, &mut text)?;
    add_modules_line(question.laid.tree, b"  ", goal, &mut text)?;
    add_ranges(alloc, &teller, b"  ", goal, &mut text)?;
    add_fixed(
        alloc,
        &teller,
        question.possible,
        b"  ",
        goal.symbol,
        &mut text,
    )?;
    add_reasons(alloc, question, &teller, reasons, &mut text)?;
    Ok(Reply::Refusal(text))
}

// Whether a fix counts: where no value may be lost, it loses none.
fn counts(question: &Question<'_, '_, '_, '_>, fix: &Fix<'_, '_, '_>) -> bool
    requires question { IsQuestion question.now }
    requires fix { IsWith question.now fix.now }
    ensures { result ≡ (not question.now.is_strict || spec.loses_nothing question.now.laid.now.tree.now question.now.prefix.now question.now.input.now question.now.before.now
        fix.now.after.now (map (λ line. line.items) fix.now.lines.now)) }
{
    !question.is_strict || loses_nothing(question, fix)
}

// A fragment of these lines is a fix.
fn fixed(
    alloc: Global,
    question: &Question<'_, '_, '_, '_>,
    lines: &[Vec<u8>],
) -> Result<Reply, AllocError>
    requires question { IsQuestion question.now }
    requires fix { IsFix question.now.laid.now.tree.now question.now.prefix.now question.now.input.now question.now.before.now (goal_of question.now.goal.now)
        (map (λ line. line.items) lines.now) }
    ensures { IfOk result (Replies question.now) }
{
    let alone = fragment_alone(alloc, question, lines)?;
    let user = with_fragment(alloc, question, lines)?;
    let after = solve(alloc, question.laid, question.order, &user)?;
    let fix = Fix {
        lines,
        alone: &alone,
        after: &after,
    };
    if counts(question, &fix) {
        let text = fix_text(alloc, question, &fix)?;
        Ok(Reply::Text(text))
    } else {
        not_found(alloc, question, Miss::NoPlanLeft)
    }
}

// The reply to a question.
fn reply_to(alloc: Global, question: &Question<'_, '_, '_, '_>) -> Result<Reply, AllocError>
    requires { IsQuestion question.now }
    ensures { IfOk result (Replies question.now) }
{
    let answer = answered(alloc, question)?;
    match answer {
        Answer::Found(lines) => fixed(alloc, question, &lines),
        Answer::Impossible(reasons) => impossible(alloc, question, &reasons),
        Answer::NotFound(miss) => not_found(alloc, question, miss),
    }
}

// ---- about an input

// The symbol of the first name to be explained, if there is one.
fn asked_first(options: &Options, tree: &Tree) -> Option<SymId>
    ensures symbol { result ≡ asked_first options.now tree.now }
    ensures there { (s : SymId) → result ≡ Some s → s.0 < name_count tree.now }
{
    let _count = tree.name_count();
    match options.explain.as_slice() {
        [] => None,
        [name, ..] => asked_symbol(tree, &options.prefix, name.as_bytes()),
    }
}

/// The reply about the user's input of an accepted tree. The caller must pass an order, bounds and user values of the tree. The
/// only error is that memory runs out.
pub(crate) fn reply_about(
    alloc: Global,
    options: &Options,
    inquiry: &Inquiry<'_>,
    accepted: &OrderedTree<'_>,
    input: &UserInput<'_>,
) -> Result<Reply, AllocError>
    requires inquiry { IsInquiry accepted.now inquiry.now }
    requires places { ArePlacesOf accepted.now.laid.tree.now input.now.places }
    ensures { IfOk result (IsReply options.now inquiry.now.asked.now accepted.now.laid.tree.now input.now) }
{
    let asked = inquiry.asked;
    let before = solve(alloc, &accepted.laid, &accepted.order, input.user())?;
    let tree = accepted.laid.tree;
    let Some(symbol) = asked_first(options, tree) else {
        return Ok(Reply::Text(Vec::new(alloc)));
    };
    let symbol_type = before.symbol_type(symbol);
    let text = asked.value.as_bytes();
    let Some(value) = wanted_value(alloc, symbol_type, text, options.prefix.is_raw())? else {
        let line = no_value_text(alloc, tree, &options.prefix, symbol, asked.value)?;
        return Ok(Reply::Refusal(line));
    };
    let goal = Goal { symbol, value };
    let question = Question {
        laid: &accepted.laid,
        order: &accepted.order,
        possible: inquiry.possible,
        prefix: &options.prefix,
        input,
        before: &before,
        goal: &goal,
        steps: asked.steps,
        is_strict: options.strict,
    };
    reply_to(alloc, &question)
}
