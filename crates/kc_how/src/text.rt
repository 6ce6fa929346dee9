//! The text of a fix, with its cost as comments, and the errors E25 and E26.

ghost use Rattle.std.specs.Prelude.{◌≡◌, ◌++◌, codes, decimal, IfOk, OnOk, map};
ghost use Rattle.kc_how.specs.FixCosts.{is_lost};
ghost use Rattle.kc_how.specs.FixTexts as spec;
ghost use Rattle.kc_how.specs.How.{fragment_text};
ghost use Rattle.kc_how.specs.Questions.{IsQuestion, IsWith, goal_of};

use crate::answer::Miss;
use crate::changes::{add_costs, is_lost};
use crate::goal::Goal;
use crate::question::Question;
use crate::shown::{add_number, add_setting, type_of};
use kc_expr::expression::{SymId, SymbolType};
use kc_input::prefix::Prefix;
use kc_solve::solved::Solved;
use kc_tree::tree::Tree;
use kc_user::user::User;
use kc_values::table::name;
use std::alloc::{AllocError, Global};

/// A fix, for its text: its lines, what they give alone, and the solution with them.
#[derive(Clone, Copy)]
pub struct Fix<'f, 't, 'u> {
    /// The lines.
    pub lines: &'f [Vec<u8>],
    /// What they give alone.
    pub alone: &'f User,
    /// The solution with them.
    pub after: &'f Solved<'t, 'u>,
}

// Adds these lines.
fn add_lines(lines: &[Vec<u8>], text: &mut Vec<u8>) -> Result<(), AllocError>
    ensures { OnOk result (text.new.items ≡ text.old.items ++ fragment_text (map (λ line. line.items) lines.now)) }
{
    for line in lines {
        text.extend_from_slice(line)?;
        text.extend_from_slice(b"\n")?;
    }
    Ok(())
}

// Adds the comment that the goal is reached already.
fn add_already(question: &Question<'_, '_, '_, '_>, text: &mut Vec<u8>) -> Result<(), AllocError>
    ensures { let goal = goal_of question.now.goal.now in
        OnOk result (text.new.items ≡ text.old.items ++ (codes "# " ++ spec.setting question.now.laid.now.tree.now question.now.prefix.now goal.symbol goal.value ++ codes " already\n")) }
{
    let goal = question.goal;
    text.extend_from_slice(b"# ")?;
    add_setting(
        question.laid.tree,
        question.prefix,
        goal.symbol,
        &goal.value,
        text,
    )?;
    text.extend_from_slice(b" already\n")
}

/// The text of a fix: its lines, how many other values change, and which values of the user it overrides or loses (our own).
pub fn fix_text(
    alloc: Global,
    question: &Question<'_, '_, '_, '_>,
    fix: &Fix<'_, '_, '_>,
) -> Result<Vec<u8>, AllocError>
    requires question { IsQuestion question.now }
    requires fix { IsWith question.now fix.now }
    ensures { IfOk result (λ text. text.items ≡ spec.fix_text question.now.laid.now.tree.now question.now.prefix.now question.now.input.now question.now.before.now fix.now.after.now
        (map (λ line. line.items) fix.now.lines.now) (goal_of question.now.goal.now)) }
{
    let mut text = Vec::new(alloc);
    if fix.lines.is_empty() {
        add_already(question, &mut text)?;
    } else {
        add_lines(fix.lines, &mut text)?;
        add_costs(question, fix, &mut text)?;
    }
    Ok(text)
}

/// Whether a fix loses no value of the user but those that its lines override (our own).
pub fn loses_nothing(question: &Question<'_, '_, '_, '_>, fix: &Fix<'_, '_, '_>) -> bool
    requires question { IsQuestion question.now }
    requires fix { IsWith question.now fix.now }
    ensures { result ≡ spec.loses_nothing question.now.laid.now.tree.now question.now.prefix.now question.now.input.now question.now.before.now fix.now.after.now
        (map (λ line. line.items) fix.now.lines.now) }
{
    for id in question.laid.layout.defined() {
        if is_lost(question, fix, *id) {
            return false;
        }
    }
    true
}

// Why a symbol of this type is always n.
fn reason_text(symbol_type: SymbolType) -> &'static [u8]
    ensures { result.now ≡ spec.reason_text symbol_type }
{
    match symbol_type {
        SymbolType::Undefined => b": not defined\n",
        _ => b": always n\n",
    }
}

/// Adds a line: this symbol, which stands in the way of a goal, is always n (our own).
pub fn add_reason(tree: &Tree, id: SymId, text: &mut Vec<u8>) -> Result<(), AllocError>
    ensures { OnOk result (text.new.items ≡ text.old.items ++ spec.reason_line tree.now id) }
{
    text.extend_from_slice(b"  ")?;
    text.extend_from_slice(name(tree, id))?;
    text.extend_from_slice(reason_text(type_of(tree, id)))
}

/// E25: no input reaches the goal (our own).
pub fn impossible_line(
    alloc: Global,
    tree: &Tree,
    prefix: &Prefix,
    goal: &Goal,
) -> Result<Vec<u8>, AllocError>
    ensures { IfOk result (λ text. text.items ≡ spec.impossible_line tree.now prefix.now (goal_of goal.now)) }
{
    let mut text = Vec::from_slice(alloc, b"error E25: no input gives ")?;
    add_setting(tree, prefix, goal.symbol, &goal.value, &mut text)?;
    text.push(b'\n')?;
    Ok(text)
}

// The words for a type.
fn type_words(symbol_type: SymbolType) -> &'static [u8]
    ensures { result.now ≡ spec.type_words symbol_type }
{
    match symbol_type {
        SymbolType::Undefined => b"no type",
        SymbolType::Bool => b"the type bool",
        SymbolType::Tristate => b"the type tristate",
        SymbolType::Str => b"the type string",
        SymbolType::Int => b"the type int",
        SymbolType::Hex => b"the type hex",
    }
}

/// E25: the text is no value of the symbol's type (our own).
pub fn no_value_text(
    alloc: Global,
    tree: &Tree,
    prefix: &Prefix,
    id: SymId,
    value: &str,
) -> Result<Vec<u8>, AllocError>
    ensures { IfOk result (λ text. text.items ≡ spec.no_value_text tree.now prefix.now id value.now) }
{
    let mut text = Vec::from_slice(alloc, b"error E25: ")?;
    text.extend_from_slice(prefix.as_bytes())?;
    text.extend_from_slice(name(tree, id))?;
    text.extend_from_slice(b" has ")?;
    text.extend_from_slice(type_words(type_of(tree, id)))?;
    text.extend_from_slice(b": not ")?;
    text.extend_from_slice(value.as_bytes())?;
    text.push(b'\n')?;
    Ok(text)
}

// Adds that no fix was found in so many tries.
fn add_tries(steps: usize, text: &mut Vec<u8>) -> Result<(), AllocError>
    ensures { OnOk result (text.new.items ≡ text.old.items ++ codes " was found in " ++ decimal steps ++ codes " tries; --how-steps allows more") }
{
    text.extend_from_slice(b" was found in ")?;
    add_number(steps, text)?;
    text.extend_from_slice(b" tries; --how-steps allows more")?;
    Ok(())
}

// Adds why no fix was found.
fn add_miss(steps: usize, miss: Miss, text: &mut Vec<u8>) -> Result<(), AllocError>
    ensures { OnOk result (text.new.items ≡ text.old.items ++ spec.miss_text steps miss) }
{
    match miss {
        Miss::NoTryLeft => add_tries(steps, text),
        Miss::NoPlanLeft => {
            text.extend_from_slice(b" was found, and none is left to try")?;
            Ok(())
        }
    }
}

/// E26: no fix was found in at most so many tries (our own).
pub fn not_found_text(
    alloc: Global,
    tree: &Tree,
    prefix: &Prefix,
    goal: &Goal,
    steps: usize,
    miss: Miss,
) -> Result<Vec<u8>, AllocError>
    ensures { IfOk result (λ text. text.items ≡ spec.not_found_text tree.now prefix.now (goal_of goal.now) steps miss) }
{
    let mut text = Vec::from_slice(alloc, b"error E26: no way to ")?;
    add_setting(tree, prefix, goal.symbol, &goal.value, &mut text)?;
    add_miss(steps, miss, &mut text)?;
    text.push(b'\n')?;
    Ok(text)
}
