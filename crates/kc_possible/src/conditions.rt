//! What conditions may be.

ghost use Rattle.std.specs.List.{filter_map};
ghost use Rattle.kc_language.specs.Symbols.{dependency_in, visible_in};
ghost use Rattle.kc_language.specs.Values.{and_value, choice_at, condition, mode_of};
ghost use Rattle.kc_expr.specs.When.{when_view};
ghost use Rattle.kc_entries.specs.StatementViews.{head_view, input_prompt_view};
ghost use Rattle.kc_tree.specs.EntryViews.{statements_of};
ghost use Rattle.kc_tree.specs.Layouts.{condition_at, prompt_view, visible_at, with_when};
ghost use Rattle.kc_values.specs.Computed.{choice_dependency, when_value};
ghost use Rattle.kc_tree.specs.Layouts as rows;
ghost use Rattle.kc_values.specs.PartsOfValues.{prompt_value};
ghost use Rattle.kc_possible.specs.PartsOfPossible.{Covers, IsChoiceRow, asked_value, mode_at};

use crate::bounds::Bounds;
use crate::expression::expression;
use crate::possible::Possible;
use kc_entries::entries::{AttributeLine, EntryLines};
use kc_entries::statement::{Head, Prompt};
use kc_expr::expression::{Expr, Tri};
use kc_tree::attributes::{depends_of, visible_of};
use kc_tree::rows::{Choice, ChoiceId, EntryId, EntryPlace, VisibleId};
use std::rc::Rc;

// ---- what is in its place

/// What a context may be: an entry, with what is around it.
pub(crate) fn context(p: &Possible<'_>, at: EntryId) -> Bounds
    ensures { Covers p.now result (λ known. condition p.now.laid.tree.now known (condition_at p.now.laid.layout.now at.0)) }
{
    match p.contexts.get(at.0 as usize) {
        Some(bounds) => *bounds,
        None => Bounds::any(),
    }
}

/// What a menu and the menus around it may ask of what is visible.
pub(crate) fn visible(p: &Possible<'_>, id: VisibleId) -> Bounds
    ensures { Covers p.now result (λ known. and_value p.now.laid.tree.now known (visible_at p.now.laid.layout.now id.0)) }
{
    match p.visibles.get(id.0 as usize) {
        Some(bounds) => *bounds,
        None => Bounds::any(),
    }
}

/// What a choice may depend on itself.
pub(crate) fn dependency(p: &Possible<'_>, id: ChoiceId) -> Bounds
    ensures { Covers p.now result (λ known. choice_dependency p.now.laid.tree.now p.now.laid.layout.now known id.0) }
{
    match p.dependencies.get(id.0 as usize) {
        Some(bounds) => *bounds,
        None => Bounds::any(),
    }
}

/// What the mode of a choice may be.
pub(crate) fn mode(p: &Possible<'_>, id: ChoiceId) -> Bounds
    ensures { Covers p.now result (λ known. mode_of p.now.laid.tree.now known (choice_at p.now.laid.tree.now id.0)) }
{
    match p.modes.get(id.0 as usize) {
        Some(bounds) => *bounds,
        None => Bounds::any(),
    }
}

// ---- lines

// What an `if` may be; y if there is none.
fn if_bounds(p: &Possible<'_>, when: &Option<Rc<Expr>>) -> Bounds
    ensures { Covers p.now result (λ known. when_value p.now.laid.tree.now known (when_view when.now)) }
{
    match when {
        Some(e) => expression(p, e),
        None => Bounds::exactly(Tri::Y),
    }
}

// What the `depends on` lines among these may ask for.
fn depends_bounds(p: &Possible<'_>, attributes: &[AttributeLine]) -> Bounds
    ensures { Covers p.now result (λ known. and_value p.now.laid.tree.now known (filter_map dependency_in (statements_of attributes.now))) }
{
    let mut least = Bounds::exactly(Tri::Y);
    for line in attributes {
        if let Some(e) = depends_of(&line.attribute) {
            least = least.lesser(expression(p, e));
        }
    }
    least
}

// What the `visible if` lines among these may ask for.
fn shown_bounds(p: &Possible<'_>, attributes: &[AttributeLine]) -> Bounds
    ensures { Covers p.now result (λ known. and_value p.now.laid.tree.now known (filter_map visible_in (statements_of attributes.now))) }
{
    let mut least = Bounds::exactly(Tri::Y);
    for line in attributes {
        if let Some(e) = visible_of(&line.attribute) {
            least = least.lesser(expression(p, e));
        }
    }
    least
}

// What the mode of the choice may be that an entry begins; n of another entry.
fn mode_begun(p: &Possible<'_>, at: EntryId) -> Bounds
    ensures { Covers p.now result (λ known. mode_at p.now.laid.tree.now p.now.laid.layout.now known at.0) }
{
    match p.laid.layout.choice_of(at) {
        Some(id) => mode(p, id),
        None => Bounds::exactly(Tri::N),
    }
}

// What an entry may ask of what stands in it.
fn asked(p: &Possible<'_>, at: EntryId, lines: EntryLines<'_>) -> Bounds
    ensures { Covers p.now result (λ known. asked_value p.now.laid.tree.now p.now.laid.layout.now known at.0 (head_view lines.entry.first.now.head) (statements_of lines.entry.attributes.now)) }
{
    match &lines.first.head {
        Head::Choice => mode_begun(p, at),
        Head::If(e) => expression(p, e),
        _ => depends_bounds(p, lines.attributes),
    }
}

// ---- what belongs in its place

/// What an entry may ask of what is in it, with what is around it, from the bounds of these.
pub(crate) fn context_bounds(p: &Possible<'_>, at: EntryId) -> Bounds
    ensures { Covers p.now result (λ known. condition p.now.laid.tree.now known (condition_at p.now.laid.layout.now at.0)) }
{
    let around = context(p, p.laid.layout.outer_context(at));
    match p.laid.layout.entry(at) {
        Some(lines) => around.lesser(asked(p, at, lines)),
        None => around,
    }
}

/// What a menu and the menus around it may ask of what is visible, from the bounds of these.
pub(crate) fn visible_bounds(p: &Possible<'_>, id: VisibleId) -> Bounds
    ensures { Covers p.now result (λ known. and_value p.now.laid.tree.now known (visible_at p.now.laid.layout.now id.0)) }
{
    if !id.is_some() {
        return Bounds::exactly(Tri::Y);
    }
    let layout = p.laid.layout;
    let menu = layout.visible_menu(id);
    let around = visible(p, layout.outer_visible(menu));
    around.lesser(shown_bounds(p, layout.attributes(menu)))
}

// What this choice may depend on itself.
fn depended(p: &Possible<'_>, id: ChoiceId, choice: &Choice) -> Bounds
    requires { IsChoiceRow p.now id.0 choice.now }
    ensures { Covers p.now result (λ known. condition p.now.laid.tree.now known (rows.choice_dependency p.now.laid.layout.now choice.now)) }
{
    let layout = p.laid.layout;
    let around = context(p, layout.outer_context(choice.entry));
    around.lesser(depends_bounds(p, layout.attributes(choice.entry)))
}

/// What a choice may depend on itself, from the bounds of its lines. N where there is no such choice.
pub(crate) fn dependency_bounds(p: &Possible<'_>, id: ChoiceId) -> Bounds
    ensures { Covers p.now result (λ known. choice_dependency p.now.laid.tree.now p.now.laid.layout.now known id.0) }
{
    match p.laid.layout.choice(id) {
        Some(choice) => depended(p, id, choice),
        None => Bounds::exactly(Tri::N),
    }
}

// What the condition of a choice's prompt may be; n without one.
fn choice_prompt(p: &Possible<'_>, id: ChoiceId, choice: &Choice) -> Bounds
    requires { IsChoiceRow p.now id.0 choice.now }
    ensures { Covers p.now result (λ known. prompt_value p.now.laid.tree.now known (rows.choice_facts p.now.laid.layout.now id.0 choice.now).prompt) }
{
    let place = p.laid.layout.place(choice.entry);
    match p.laid.layout.prompt(place) {
        Some(prompt) => {
            let shown = dependency(p, id).lesser(visible(p, place.visible));
            shown.lesser(if_bounds(p, &prompt.when))
        }
        None => Bounds::exactly(Tri::N),
    }
}

/// What the mode of a choice may be, from the bounds of its prompt. N where there is no such choice.
pub(crate) fn mode_bounds(p: &Possible<'_>, id: ChoiceId) -> Bounds
    ensures { Covers p.now result (λ known. mode_of p.now.laid.tree.now known (choice_at p.now.laid.tree.now id.0)) }
{
    match p.laid.layout.choice(id) {
        Some(choice) => choice_prompt(p, id, choice).upgrade(),
        None => Bounds::exactly(Tri::N),
    }
}

/// What a line may be worth that depends on a context and on its own `if` (our own).
pub fn line_bounds(p: &Possible<'_>, within: EntryId, when: &Option<Rc<Expr>>) -> Bounds
    ensures { Covers p.now result (λ known. condition p.now.laid.tree.now known (with_when (condition_at p.now.laid.layout.now within.0) (when_view when.now))) }
{
    context(p, within).lesser(if_bounds(p, when))
}

/// What the condition of the prompt of a definition with this place may be.
pub(crate) fn prompt_bounds(p: &Possible<'_>, place: EntryPlace, prompt: &Prompt) -> Bounds
    ensures { Covers p.now result (λ known. condition p.now.laid.tree.now known
        (prompt_view (condition_at p.now.laid.layout.now place.context.0) (visible_at p.now.laid.layout.now place.visible.0) (input_prompt_view prompt.now))) }
{
    let first = context(p, place.context).lesser(visible(p, place.visible));
    first.lesser(if_bounds(p, &prompt.when))
}
