//! The check of a fragment: whether it is a fix.

ghost use Rattle.std.specs.Prelude.{◌≡◌, ◌++◌, ◌||◌, [], Some, IfOk, OnOk, map, not, true};
ghost use Rattle.std.specs.List.{list_all};
ghost use Rattle.kc_language.specs.ConfigFile.{ArePlacesOf};
ghost use Rattle.kc_language.specs.Texts.{known, read_alone};
ghost use Rattle.kc_language.specs.Values.{above};
ghost use Rattle.kc_values.specs.TableFacts.{IsRowOf, facts_in, known_at};
ghost use Rattle.kc_how.specs.Fragments.{EndsIn, HasValues, IsRead, NeedsEach, is_in_conflict_by, lines_in, with_text};
ghost use Rattle.kc_how.specs.How as spec;
ghost use Rattle.kc_how.specs.Questions.{IsQuestion, goal_of};

use crate::merged::merged;
use crate::question::Question;
use crate::shown::{has_value, user_value};
use kc_expr::expression::{SymId, SymbolType, Tri};
use kc_input::fault::InputFault;
use kc_input::prefix::Prefix;
use kc_input::reader::InputReader;
use kc_input::user_input::UserInput;
use kc_solve::solve::solve;
use kc_solve::solved::Solved;
use kc_tree::rows::Symbol;
use kc_tree::tree::Tree;
use kc_user::user::User;
use kc_values::table::Table;
use kc_values::truths::{direct, selected_to};
use std::alloc::{AllocError, Global};

/// What a text gives alone: the user's input, the warnings, and whether it was read to its end.
#[derive(Drop)]
pub(crate) struct Alone<'a> {
    pub(crate) input: UserInput<'a>,
    pub(crate) warned: Vec<u8>,
    pub(crate) is_whole: bool,
}

// ---- the text of a fragment

// Adds lines, each with its line end.
fn add_lines(lines: &[Vec<u8>], text: &mut Vec<u8>) -> Result<(), AllocError>
    ensures { OnOk result (text.new.items ≡ text.old.items ++ spec.fragment_text (lines_in lines.now)) }
{
    for line in lines {
        text.extend_from_slice(line)?;
        text.extend_from_slice(b"\n")?;
    }
    Ok(())
}

// The text of a fragment of the lines of both lists.
fn text_of(alloc: Global, front: &[Vec<u8>], back: &[Vec<u8>]) -> Result<Vec<u8>, AllocError>
    ensures { IfOk result (λ text. text.items ≡ spec.fragment_text (lines_in front.now ++ lines_in back.now)) }
{
    let mut text = Vec::new(alloc);
    add_lines(front, &mut text)?;
    add_lines(back, &mut text)?;
    Ok(text)
}

// ---- what it gives

// Reads a text without earlier input.
fn read<'a>(
    alloc: Global,
    tree: &'a Tree,
    prefix: &'a Prefix,
    text: &[u8],
) -> Result<Alone<'a>, AllocError>
    ensures { IfOk result (IsRead (read_alone tree.now prefix.now [] text.now)) }
{
    let mut input = UserInput::new(alloc, tree, false)?;
    let mut warned = Vec::new(alloc);
    let mut reader = InputReader::new(alloc, tree, prefix, b"");
    match reader.feed(text, &mut input, &mut warned) {
        Ok(()) => {}
        Err(InputFault::InputLineTooLong(_)) => {
            return Ok(Alone {
                input,
                warned,
                is_whole: false,
            });
        }
        Err(InputFault::Memory) => return Err(AllocError),
    }
    match reader.finish(&mut input, &mut warned) {
        Ok(()) => Ok(Alone {
            input,
            warned,
            is_whole: true,
        }),
        Err(_) => Err(AllocError),
    }
}

// What the input files give, and over it what the text gives alone.
fn over_input(
    alloc: Global,
    question: &Question<'_, '_, '_, '_>,
    text: &[u8],
    alone: &Alone<'_>,
) -> Result<User, AllocError>
    requires question { IsQuestion question.now }
    requires alone { IsRead (read_alone question.now.laid.now.tree.now question.now.prefix.now [] text.now) alone.now }
    ensures with_text { IfOk result (λ user. user ≡ with_text question.now text.now) }
    ensures places { IfOk result (λ user. ArePlacesOf question.now.laid.now.tree.now user) }
{
    merged(
        alloc,
        question.laid.tree,
        question.input.user(),
        alone.input.user(),
    )
}

/// What a fragment of these lines gives alone (our own). The only error is that memory runs out.
pub fn fragment_alone(
    alloc: Global,
    question: &Question<'_, '_, '_, '_>,
    lines: &[Vec<u8>],
) -> Result<User, AllocError>
    ensures { IfOk result (λ user. user ≡ (spec.fragment_alone question.now.laid.now.tree.now question.now.prefix.now (map (λ line. line.items) lines.now)).input.places) }
{
    let tree = question.laid.tree;
    let text = text_of(alloc, lines, &[])?;
    let alone = read(alloc, tree, question.prefix, &text)?;
    let nothing = User::new(alloc, tree)?;
    merged(alloc, tree, &nothing, alone.input.user())
}

/// What the input files give with a fragment of these lines as the last one (our own). The only error is that memory runs out.
pub fn with_fragment(
    alloc: Global,
    question: &Question<'_, '_, '_, '_>,
    lines: &[Vec<u8>],
) -> Result<User, AllocError>
    requires { IsQuestion question.now }
    ensures user { IfOk result (λ user. user ≡ (spec.with_fragment question.now.laid.now.tree.now question.now.prefix.now question.now.input.now (map (λ line. line.items) lines.now)).places) }
    ensures places { IfOk result (λ user. ArePlacesOf question.now.laid.now.tree.now user) }
{
    let text = text_of(alloc, lines, &[])?;
    let alone = read(alloc, question.laid.tree, question.prefix, &text)?;
    over_input(alloc, question, &text, &alone)
}

// ---- conflicts

// Whether one truth is greater than another.
fn is_above(selected_to: Tri, direct: Tri) -> bool
    ensures { result ≡ above selected_to direct }
{
    match (selected_to, direct) {
        (Tri::N, _) | (Tri::M, Tri::M | Tri::Y) | (Tri::Y, Tri::Y) => false,
        (Tri::M, Tri::N) | (Tri::Y, Tri::N | Tri::M) => true,
    }
}

// Whether the symbol with this row is selected above its dependencies.
fn is_row_in_conflict(table: &Table<'_>, id: SymId, row: &Symbol) -> bool
    requires { IsRowOf table.now id row.now }
    ensures { result ≡ is_in_conflict_by table.now.tree.now (known_at table.now) (Some (facts_in table.now id row.now)) }
{
    if row.choice.is_some() {
        return false;
    }
    match row.symbol_type {
        SymbolType::Bool | SymbolType::Tristate => {
            is_above(selected_to(table, id, row), direct(table, id, row))
        }
        SymbolType::Undefined | SymbolType::Str | SymbolType::Int | SymbolType::Hex => false,
    }
}

// Whether a symbol is selected above its dependencies (K11).
fn is_in_conflict(solved: &Solved<'_, '_>, id: SymId) -> bool
    ensures { result ≡ spec.is_in_conflict solved.now id }
{
    let table = solved.table();
    match table.layout.symbol(id) {
        Some(row) => is_row_in_conflict(table, id, row),
        None => false,
    }
}

// Whether a symbol is in conflict only if it was so before.
fn is_no_new_conflict(before: &Solved<'_, '_>, solved: &Solved<'_, '_>, id: SymId) -> bool
    ensures { result ≡ (spec.is_in_conflict before.now id || not (spec.is_in_conflict solved.now id)) }
{
    is_in_conflict(before, id) || !is_in_conflict(solved, id)
}

// Whether each symbol that is in conflict was so before.
fn adds_no_conflict(before: &Solved<'_, '_>, solved: &Solved<'_, '_>) -> bool
    ensures { result ≡ list_all (λ s. spec.is_in_conflict before.now s || not (spec.is_in_conflict solved.now s)) solved.now.tree.defined }
{
    for id in solved.table().layout.defined() {
        if !is_no_new_conflict(before, solved, *id) {
            return false;
        }
    }
    true
}

// ---- fixes

// Whether the goal is reached.
fn reaches(question: &Question<'_, '_, '_, '_>, solved: &Solved<'_, '_>) -> bool
    ensures { result ≡ spec.reaches (goal_of question.now.goal.now) question.now.before.now solved.now }
{
    has_value(solved, question.goal.symbol, &question.goal.value)
        && adds_no_conflict(question.before, solved)
}

// Whether the goal is reached with a fragment of the lines of both lists.
fn is_reached(
    alloc: Global,
    question: &Question<'_, '_, '_, '_>,
    front: &[Vec<u8>],
    back: &[Vec<u8>],
) -> Result<bool, AllocError>
    requires { IsQuestion question.now }
    ensures { IfOk result (λ is_reached. EndsIn question.now is_reached (lines_in front.now ++ lines_in back.now)) }
{
    let text = text_of(alloc, front, back)?;
    let alone = read(alloc, question.laid.tree, question.prefix, &text)?;
    let user = over_input(alloc, question, &text, &alone)?;
    let solved = solve(alloc, question.laid, question.order, &user)?;
    Ok(reaches(question, &solved))
}

// Whether the goal is not reached if any one of these lines is left out.
fn needs_each(
    alloc: Global,
    question: &Question<'_, '_, '_, '_>,
    lines: &[Vec<u8>],
) -> Result<bool, AllocError>
    requires { IsQuestion question.now }
    ensures { IfOk result (λ needs. needs ≡ true → NeedsEach question.now (lines_in lines.now)) }
{
    for number in 0..lines.len() {
        if is_reached(alloc, question, &lines[..number], &lines[number + 1..])? {
            return Ok(false);
        }
    }
    Ok(true)
}

// Whether each symbol that the user gives a value has it.
fn has_values(user: &User, solved: &Solved<'_, '_>) -> bool
    ensures { result ≡ true → HasValues user.now solved.now }
{
    for number in 0..user.symbols().len() {
        let id = SymId(number);
        if let Some(value) = user_value(user, id) {
            if !has_value(solved, id, value) {
                return false;
            }
        }
    }
    true
}

/// Whether a fragment of these lines is a fix. The only error is that memory runs out.
pub(crate) fn is_fix(
    alloc: Global,
    question: &Question<'_, '_, '_, '_>,
    lines: &[Vec<u8>],
) -> Result<bool, AllocError>
    requires { IsQuestion question.now }
    ensures { IfOk result (λ is_fix. is_fix ≡ true → spec.IsFix question.now.laid.now.tree.now question.now.prefix.now question.now.input.now question.now.before.now
        (goal_of question.now.goal.now) (lines_in lines.now)) }
{
    let text = text_of(alloc, lines, &[])?;
    let alone = read(alloc, question.laid.tree, question.prefix, &text)?;
    if !alone.warned.is_empty() || !alone.is_whole {
        return Ok(false);
    }
    let user = over_input(alloc, question, &text, &alone)?;
    let solved = solve(alloc, question.laid, question.order, &user)?;
    if !reaches(question, &solved) || !has_values(alone.input.user(), &solved) {
        return Ok(false);
    }
    needs_each(alloc, question, lines)
}
