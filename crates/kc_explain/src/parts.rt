//! The parts of conditions, and their values.

ghost use Rattle.std.specs.Prelude.{◌≡◌, ◌++◌, map, option_map, Some, IfOk, OnOk};
ghost use Rattle.std.specs.List.{filter_map, flat_map};
ghost use Rattle.std.specs.Option.{option_and_then};
ghost use Rattle.kc_expr.specs.Form.{form_of};
ghost use Rattle.kc_language.specs.Expansion.{last_of};
ghost use Rattle.kc_outcome.specs.Explanations as rules;
ghost use Rattle.kc_language.specs.Symbols as line_rules;
ghost use Rattle.kc_language.specs.Texts.{known};
ghost use Rattle.kc_language.specs.Values.{and_value, is_n};
ghost use Rattle.kc_entries.specs.Entries.{attribute_line as line_of, own_lines};
ghost use Rattle.kc_entries.specs.StatementViews.{attribute_view};
ghost use Rattle.kc_tree.specs.EntryViews.{statements_of};
ghost use Rattle.kc_tree.specs.Layouts as see;
ghost use Rattle.kc_explain.specs.LineViews.{at_entry, line_view, lines_of, own_of};
ghost use Rattle.kc_explain.specs.PartViews as view;
ghost use Rattle.kc_explain.specs.PartViews.{part_view, prompt_said};
ghost use Rattle.kc_explain.specs.PartsOfExplanations as named;

use crate::lines::{Line, attribute_line, enclosing, first_line, head_line};
use crate::teller::Teller;
use kc_entries::entries::{AttributeLine, Entry, EntryLines};
use kc_entries::statement::{Attribute, Head, Prompt};
use kc_expr::expression::{Expr, Tri};
use kc_expr::values::{eval, lesser};
use kc_solve::solved::Solved;
use kc_tree::attributes::{condition, depends_of, prompt_of, visible_of};
use kc_tree::layout::Layout;
use kc_tree::rows::EntryId;
use kc_values::conditions::context;
use std::alloc::{AllocError, Global};

/// The content of a part of a condition: an expression, or the mode of a choice (our own).
#[derive(Clone, Copy)]
pub(crate) enum Asked<'a> {
    Worth(&'a Expr),
    ModeOf(usize),
}

/// A part of a condition, and the line that adds it (our own).
#[derive(Clone, Copy)]
pub(crate) struct ConditionPart<'a> {
    pub line: Line<'a>,
    pub asks: Asked<'a>,
}

/// A prompt, and its line (our own).
#[derive(Clone, Copy)]
pub(crate) struct PromptLine<'a> {
    pub line: Line<'a>,
    pub prompt: &'a Prompt,
}

// The conditions of an entry: its `depends on` lines or its `visible if` lines.
#[derive(Clone, Copy)]
enum OwnCondition {
    Depends,
    Visible,
}

// The expression of a line of this kind.
fn own_condition(word: OwnCondition, attribute: &Attribute) -> Option<&Expr>
    ensures { option_map (λ e. form_of e.now) result ≡ named.read_by word (attribute_view attribute.now) }
{
    match word {
        OwnCondition::Depends => depends_of(attribute),
        OwnCondition::Visible => visible_of(attribute),
    }
}

// Appends the condition of a line of this kind, if it is one.
fn add_worth<'a>(
    line: Line<'a>,
    when: Option<&'a Expr>,
    parts: &mut Vec<ConditionPart<'a>>,
) -> Result<(), AllocError>
    ensures { OnOk result (map part_view parts.new.items ≡ map part_view parts.old.items
        ++ view.worth_parts (Some (line_view line.entry)) (option_map (λ e. form_of e.now) when.entry)) }
{
    match when {
        Some(e) => {
            let asks = Asked::Worth(e);
            parts.push(ConditionPart { line, asks })?;
            Ok(())
        }
        None => Ok(()),
    }
}

// Appends the conditions of the lines of an entry.
fn add_own<'a>(
    own: EntryLines<'a>,
    word: OwnCondition,
    parts: &mut Vec<ConditionPart<'a>>,
) -> Result<(), AllocError>
    ensures { OnOk result (map part_view parts.new.items ≡ map part_view parts.old.items
        ++ view.asked_of (named.read_by word) (own_lines own.entry.first.now own.entry.attributes.now)) }
{
    for line in own.attributes {
        let when = own_condition(word, &line.attribute);
        add_worth(attribute_line(own.first, line), when, parts)?;
    }
    Ok(())
}

// ---- Blocks

// Appends the conditions that a block adds for all that is in it.
fn add_block<'a>(
    layout: &'a Layout,
    block: EntryId,
    parts: &mut Vec<ConditionPart<'a>>,
) -> Result<(), AllocError>
    ensures { OnOk result (map part_view parts.new.items ≡ map part_view parts.old.items ++ at_entry layout.now (named.block_parts (lines_of layout.now)) block) }
{
    match layout.entry(block) {
        Some(own) => match &own.first.head {
            Head::If(e) => add_worth(head_line(own.first), Some(e), parts),
            Head::Menu(_) => add_own(own, OwnCondition::Depends, parts),
            _ => Ok(()),
        },
        None => Ok(()),
    }
}

// Appends the conditions that these blocks add.
fn add_blocks<'a>(
    layout: &'a Layout,
    around: &[EntryId],
    parts: &mut Vec<ConditionPart<'a>>,
) -> Result<(), AllocError>
    ensures { OnOk result (map part_view parts.new.items ≡ map part_view parts.old.items
        ++ flat_map (at_entry layout.now (named.block_parts (lines_of layout.now))) around.now) }
{
    for block in around {
        add_block(layout, *block, parts)?;
    }
    Ok(())
}

// The mode that a block adds, if it is a choice.
fn mode_part<'a>(layout: &'a Layout, block: EntryId) -> Option<ConditionPart<'a>>
    ensures { option_map part_view result ≡ option_and_then (named.mode_part (lines_of layout.now)) (see.index_at layout.now block.0) }
{
    match first_line(layout, block) {
        Some(line) => match layout.choice_of(block) {
            Some(choice) => Some(ConditionPart {
                line,
                asks: Asked::ModeOf(choice.0 as usize),
            }),
            None => None,
        },
        None => None,
    }
}

// The mode of the innermost choice among these blocks.
fn innermost_mode<'a>(layout: &'a Layout, around: &[EntryId]) -> Option<ConditionPart<'a>>
    ensures { option_map part_view result
        ≡ last_of (filter_map (λ b. option_and_then (named.mode_part (lines_of layout.now)) (see.index_at layout.now b.0)) around.now) }
{
    let mut last = None;
    for block in around {
        last = mode_part(layout, *block).or(last);
    }
    last
}

// Appends a part, if there is one.
fn add_part_of<'a>(
    part: Option<ConditionPart<'a>>,
    parts: &mut Vec<ConditionPart<'a>>,
) -> Result<(), AllocError>
    ensures { OnOk result (map part_view parts.new.items ≡ map part_view parts.old.items ++ line_rules.listed (option_map part_view part.entry)) }
{
    match part {
        Some(part) => {
            parts.push(part)?;
            Ok(())
        }
        None => Ok(()),
    }
}

// What this entry depends on.
fn parts_of<'a>(
    alloc: Global,
    layout: &'a Layout,
    entry: EntryId,
    own: EntryLines<'a>,
) -> Result<Vec<ConditionPart<'a>>, AllocError>
    requires first { see.entry_at layout.now entry.0 ≡ Some own.first.now }
    requires own { own.attributes.now ≡ see.own_at layout.now entry.0 }
    ensures { IfOk result (λ ps. map part_view ps.items ≡ at_entry layout.now (named.dependency_parts (lines_of layout.now)) entry) }
{
    let around = enclosing(alloc, layout, entry)?;
    let mut parts = Vec::new(alloc);
    add_blocks(layout, &around, &mut parts)?;
    add_own(own, OwnCondition::Depends, &mut parts)?;
    add_part_of(innermost_mode(layout, &around), &mut parts)?;
    Ok(parts)
}

/// What an entry depends on: what the blocks around it and its own lines ask, and the mode of the innermost choice around it.
/// Its only error is to be out of memory.
pub(crate) fn dependency_parts<'a>(
    alloc: Global,
    layout: &'a Layout,
    entry: EntryId,
) -> Result<Vec<ConditionPart<'a>>, AllocError>
    ensures { IfOk result (λ ps. map part_view ps.items ≡ at_entry layout.now (named.dependency_parts (lines_of layout.now)) entry) }
{
    match layout.entry(entry) {
        Some(own) => parts_of(alloc, layout, entry, own),
        None => Ok(Vec::new(alloc)),
    }
}

// Appends the `visible if` conditions of a block, if it is a menu.
fn add_menu<'a>(
    layout: &'a Layout,
    block: EntryId,
    parts: &mut Vec<ConditionPart<'a>>,
) -> Result<(), AllocError>
    ensures { OnOk result (map part_view parts.new.items ≡ map part_view parts.old.items ++ at_entry layout.now (named.visible_parts (lines_of layout.now)) block) }
{
    match layout.entry(block) {
        Some(own) => match &own.first.head {
            Head::Menu(_) => add_own(own, OwnCondition::Visible, parts),
            _ => Ok(()),
        },
        None => Ok(()),
    }
}

// Appends the `visible if` conditions of the menus among these blocks.
fn add_menus<'a>(
    layout: &'a Layout,
    around: &[EntryId],
    parts: &mut Vec<ConditionPart<'a>>,
) -> Result<(), AllocError>
    ensures { OnOk result (map part_view parts.new.items ≡ map part_view parts.old.items
        ++ flat_map (at_entry layout.now (named.visible_parts (lines_of layout.now))) around.now) }
{
    for block in around {
        add_menu(layout, *block, parts)?;
    }
    Ok(())
}

/// Returns the conditions of a prompt besides the dependency of its entry: the `visible if` lines of the menus around it, and
/// its own condition. The only error is that memory runs out.
pub(crate) fn shown_parts<'a>(
    alloc: Global,
    layout: &'a Layout,
    entry: EntryId,
    prompt: &PromptLine<'a>,
) -> Result<Vec<ConditionPart<'a>>, AllocError>
    ensures { IfOk result (λ ps. map part_view ps.items ≡ named.shown_parts layout.now entry (prompt_said prompt.now)) }
{
    let around = enclosing(alloc, layout, entry)?;
    let mut parts = Vec::new(alloc);
    add_menus(layout, &around, &mut parts)?;
    add_worth(prompt.line, condition(&prompt.prompt.when), &mut parts)?;
    Ok(parts)
}

// ---- Values

/// The value of an expression.
pub(crate) fn expression_value(solved: &Solved<'_, '_>, e: &Expr) -> Tri
    ensures { result ≡ view.asked_value solved.now (rules.Worth (form_of e.now)) }
{
    solved.tells_known();
    eval(e, solved)
}

/// The value of a part of a condition.
pub(crate) fn part_value(solved: &Solved<'_, '_>, part: &ConditionPart<'_>) -> Tri
    ensures { result ≡ view.asked_value solved.now (view.asked_view part.now.asks) }
{
    match part.asks {
        Asked::Worth(e) => expression_value(solved, e),
        Asked::ModeOf(k) => solved.mode(k),
    }
}

/// The value of a condition with these parts: the least of their values.
pub(crate) fn parts_value(solved: &Solved<'_, '_>, parts: &[ConditionPart<'_>]) -> Tri
    ensures { result ≡ view.parts_value solved.now (map part_view parts.now) }
{
    let mut least = Tri::Y;
    for part in parts {
        least = lesser(least, part_value(solved, part));
    }
    least
}

// The value of a line's own condition; y without one.
#[tactic(auto, using(kc_values::proofs::TriLemmas::lesser_y))]
fn when_value(solved: &Solved<'_, '_>, when: Option<&Expr>) -> Tri
    ensures { result ≡ view.when_value solved.now (option_map (λ e. form_of e.now) when.entry) }
{
    match when {
        Some(e) => expression_value(solved, e),
        None => Tri::Y,
    }
}

/// The value of a line with this condition, given the value of its entry's dependency.
pub(crate) fn value_under(solved: &Solved<'_, '_>, dependency: Tri, when: Option<&Expr>) -> Tri
    ensures { result ≡ view.value_under solved.now dependency (option_map (λ e. form_of e.now) when.entry) }
{
    lesser(dependency, when_value(solved, when))
}

// The least of what the `depends on` lines among these ask.
fn own_least(solved: &Solved<'_, '_>, attributes: &[AttributeLine]) -> Tri
    ensures { result ≡ and_value solved.now.tree (known solved.now) (filter_map line_rules.dependency_in (statements_of attributes.now)) }
{
    let mut least = Tri::Y;
    for line in attributes {
        least = lesser(least, when_value(solved, depends_of(&line.attribute)));
    }
    least
}

/// The value of what an entry depends on. What the blocks around it ask is already computed.
pub(crate) fn dependency_value(t: &Teller<'_, '_, '_>, entry: EntryId) -> Tri
    ensures { result ≡ view.parts_value t.now.solved.now (at_entry t.now.layout.now (named.dependency_parts (lines_of t.now.layout.now)) entry) }
{
    let table = t.solved.table();
    match table.layout.entry(entry) {
        Some(own) => lesser(
            context(table, table.layout.outer_context(entry)),
            own_least(t.solved, own.attributes),
        ),
        None => Tri::Y,
    }
}

/// Whether a value is n.
pub(crate) fn is_n(t: Tri) -> bool
    ensures { result ≡ is_n t }
{
    match t {
        Tri::N => true,
        Tri::M => false,
        Tri::Y => false,
    }
}

// ---- Prompts

// The prompt of a line of an entry.
fn prompt_in<'a>(first: &'a Entry, line: &'a AttributeLine) -> Option<PromptLine<'a>>
    ensures { option_map prompt_said result ≡ view.said_one line_rules.prompt_of (line_of first.now.file.value.items line.now.line line.now.attribute) }
{
    match prompt_of(&line.attribute) {
        Some(prompt) => Some(PromptLine {
            line: attribute_line(first, line),
            prompt,
        }),
        None => None,
    }
}

// The last prompt of an entry.
fn last_prompt<'a>(own: EntryLines<'a>) -> Option<PromptLine<'a>>
    ensures { option_map prompt_said result ≡ last_of (view.said_of line_rules.prompt_of (own_lines own.entry.first.now own.entry.attributes.now)) }
{
    let mut last = None;
    for line in own.attributes {
        last = prompt_in(own.first, line).or(last);
    }
    last
}

/// The prompt that counts for an entry: its last one.
pub(crate) fn prompt_at<'a>(layout: &'a Layout, entry: EntryId) -> Option<PromptLine<'a>>
    ensures { option_map prompt_said result ≡ last_of (view.said_of line_rules.prompt_of (own_of layout.now entry.0)) }
{
    match layout.entry(entry) {
        Some(own) => last_prompt(own),
        None => None,
    }
}
