//! Conditions under the values computed so far.

ghost use Rattle.std.specs.Prelude.{◌≡◌, None, Some, false, option_map};
ghost use Rattle.std.specs.List.{filter_map};
ghost use Rattle.kc_language.specs.Symbols.{dependency_in, visible_in};
ghost use Rattle.kc_language.specs.Expressions.{lesser};
ghost use Rattle.kc_expr.specs.When.{when_view};
ghost use Rattle.kc_entries.specs.StatementViews.{head_view, input_prompt_view};
ghost use Rattle.kc_tree.specs.EntryViews.{is_choice_line, statements_of};
ghost use Rattle.kc_tree.specs.Layouts.{asked_by, choice_dependency, entry_at, outer_context, prompt_view, visible_at, with_when};
ghost use Rattle.kc_values.specs.AtTable as at;
ghost use Rattle.kc_values.specs.TableFacts.{condition_at, IsChoiceRow};
ghost use Rattle.kc_language.specs.Values as spec;

use crate::table::Table;
use kc_entries::entries::{AttributeLine, EntryLines};
use kc_entries::statement::{Head, Prompt};
use kc_expr::expression::{Expr, Tri};
use kc_expr::values::{eval, lesser};
use kc_tree::attributes::{depends_of, visible_of};
use kc_tree::rows::{Choice, ChoiceId, EntryId, EntryPlace, VisibleId};
use std::rc::Rc;

/// Changes m to y, for a symbol that can't be m (kconfiglib, of symbols that are not tristate).
pub fn upgrade(value: Tri) -> Tri
    ensures { result ≡ spec.upgrade value }
{
    match value {
        Tri::N => Tri::N,
        Tri::M | Tri::Y => Tri::Y,
    }
}

/// Whether the value is n. A condition that is n fails (the kernel's kconfig-language document, "Menu dependencies").
pub(crate) fn is_n(value: Tri) -> bool
    ensures { result ≡ spec.is_n value }
{
    match value {
        Tri::N => true,
        Tri::M | Tri::Y => false,
    }
}

/// The value of an `if` condition; y if there is no `if`.
pub(crate) fn if_value(when: &Option<Rc<Expr>>, table: &Table<'_>) -> Tri
    ensures { result ≡ at.when_value table.now (when_view when.now) }
{
    match when {
        Some(e) => eval(e, table),
        None => Tri::Y,
    }
}

// The least of a value and of what the `depends on` lines among these ask for.
fn depends_least(table: &Table<'_>, attributes: &[AttributeLine], first: Tri) -> Tri
    ensures { result ≡ lesser first (at.and_value table.now (filter_map dependency_in (statements_of attributes.now))) }
{
    let mut least = first;
    for line in attributes {
        if let Some(e) = depends_of(&line.attribute) {
            least = lesser(least, eval(e, table));
        }
    }
    least
}

// The least of a value and of what the `visible if` lines among these ask for.
fn visible_least(table: &Table<'_>, attributes: &[AttributeLine], first: Tri) -> Tri
    ensures { result ≡ lesser first (at.and_value table.now (filter_map visible_in (statements_of attributes.now))) }
{
    let mut least = first;
    for line in attributes {
        if let Some(e) = visible_of(&line.attribute) {
            least = lesser(least, eval(e, table));
        }
    }
    least
}

// The least of a value and of what an entry asks for that is no choice.
fn own_least(table: &Table<'_>, lines: EntryLines<'_>, first: Tri) -> Tri
    requires { is_choice_line (Some (head_view lines.first.now.head)) ≡ false }
    ensures { result ≡ lesser first (at.and_value table.now (asked_by (Some (head_view lines.entry.first.now.head)) (statements_of lines.entry.attributes.now))) }
{
    match &lines.first.head {
        Head::If(e) => lesser(first, eval(e, table)),
        _ => depends_least(table, lines.attributes, first),
    }
}

// The least of a value and of what the entries from a context outwards ask for, up to one that is computed. None of them is a
// choice.
fn enclosing_least(table: &Table<'_>, within: EntryId, first: Tri) -> Tri
    requires { (condition_at table.now within.0).mode ≡ None }
    ensures { result ≡ lesser first (at.context table.now within.0) }
{
    let mut least = first;
    let mut at = within;
    'blocks: while at.is_some() {
        if let Some(value) = table.computed_context(at) {
            return lesser(least, value);
        }
        if let Some(lines) = table.layout.entry(at) {
            least = own_least(table, lines, least);
        }
        at = table.layout.outer_context(at);
    }
    least
}

/// What a menu and the menus around it ask of what is visible.
pub fn visible_context(table: &Table<'_>, within: VisibleId) -> Tri
    ensures { result ≡ at.visible_context table.now within.0 }
{
    let mut least = Tri::Y;
    let mut at = within;
    'menus: while at.is_some() {
        if let Some(value) = table.computed_visible(at) {
            return lesser(least, value);
        }
        let menu = table.layout.visible_menu(at);
        least = visible_least(table, table.layout.attributes(menu), least);
        at = table.layout.outer_visible(menu);
    }
    least
}

// What a choice depends on itself: what its own lines and the blocks around it ask for. Choices do not nest.
fn found_dependency(table: &Table<'_>, choice: &Choice) -> Tri
    requires { (condition_at table.now (outer_context table.now.layout.now choice.now.entry.0)).mode ≡ None }
    ensures { result ≡ at.condition table.now (choice_dependency table.now.layout.now choice.now) }
{
    let attributes = table.layout.attributes(choice.entry);
    let own = depends_least(table, attributes, Tri::Y);
    enclosing_least(table, table.layout.outer_context(choice.entry), own)
}

/// What a choice depends on itself, unlike its members: its prompt and its defaults depend on it. N where there is no such
/// choice.
pub fn choice_dependency(table: &Table<'_>, id: ChoiceId) -> Tri
    ensures { result ≡ at.choice_dependency table.now id.0 }
{
    if let Some(value) = table.computed_dependency(id) {
        return value;
    }
    match table.layout.choice(id) {
        Some(choice) => found_dependency(table, choice),
        None => Tri::N,
    }
}

// The condition of the prompt of a choice, n without one.
fn choice_prompt(table: &Table<'_>, id: ChoiceId, choice: &Choice) -> Tri
    requires { IsChoiceRow table.now id.0 choice.now }
    ensures { result ≡ at.prompt_value table.now id.0 choice.now }
{
    let place = table.layout.place(choice.entry);
    match table.layout.prompt(place) {
        Some(prompt) => {
            let shown = lesser(
                choice_dependency(table, id),
                visible_context(table, place.visible),
            );
            guarded(shown, &prompt.when, table)
        }
        None => Tri::N,
    }
}

/// The mode of a choice: y if the condition of its prompt is not n, otherwise n. It is n without a prompt, and if there
/// is no such choice (kconfiglib's `tri_value` of a choice; that its members are bools and that m counts as y is our
/// own).
pub fn mode_of(table: &Table<'_>, id: ChoiceId) -> Tri
    ensures { result ≡ at.mode_of table.now id.0 }
{
    match table.layout.choice(id) {
        Some(choice) => upgrade(choice_prompt(table, id, choice)),
        None => Tri::N,
    }
}

// The mode of the choice that an entry begins; n of another entry.
fn mode_at(table: &Table<'_>, entry: EntryId) -> Tri
    ensures { result ≡ at.mode_at table.now entry.0 }
{
    match table.layout.choice_of(entry) {
        Some(id) => mode_of(table, id),
        None => Tri::N,
    }
}

// The least of a value and of what an entry asks of what stands in it: a choice its mode.
fn asked_least(table: &Table<'_>, entry: EntryId, lines: EntryLines<'_>, first: Tri) -> Tri
    ensures { result ≡ lesser first (at.asked_value table.now entry.0 (head_view lines.entry.first.now.head) (statements_of lines.entry.attributes.now)) }
{
    match &lines.first.head {
        Head::Choice => lesser(first, mode_at(table, entry)),
        _ => own_least(table, lines, first),
    }
}

// What the entries from a context outwards ask for, up to one that is computed.
fn found_context(table: &Table<'_>, within: EntryId) -> Tri
    ensures { result ≡ at.context table.now within.0 }
{
    let mut least = Tri::Y;
    let mut at = within;
    'blocks: while at.is_some() {
        if let Some(value) = table.computed_context(at) {
            return lesser(least, value);
        }
        if let Some(lines) = table.layout.entry(at) {
            least = asked_least(table, at, lines, least);
        }
        at = table.layout.outer_context(at);
    }
    least
}

/// What a context is worth: the `&&` of what it and those outside ask for, and of the mode of the enclosing choice (the
/// kernel's kconfig-language document, "Menu dependencies").
#[inline(always)]
pub fn context(table: &Table<'_>, within: EntryId) -> Tri
    ensures { result ≡ at.context table.now within.0 }
{
    match table.computed_context(within) {
        Some(value) => value,
        None => found_context(table, within),
    }
}

/// What an entry depends on itself: of a choice not what its members depend on.
pub fn dependency(table: &Table<'_>, entry: EntryId) -> Tri
    ensures { result ≡ at.dependency table.now entry.0 }
{
    match table.layout.choice_of(entry) {
        Some(id) => choice_dependency(table, id),
        None => context(table, table.layout.place(entry).context),
    }
}

/// A value up to an `if`, which is looked at only where the value is not n.
pub fn guarded(first: Tri, when: &Option<Rc<Expr>>, table: &Table<'_>) -> Tri
    ensures { result ≡ lesser first (at.when_value table.now (when_view when.now)) }
{
    if is_n(first) {
        Tri::N
    } else {
        lesser(first, if_value(when, table))
    }
}

/// What a line is worth that depends on a context and on its own `if`.
pub(crate) fn condition(table: &Table<'_>, within: EntryId, when: &Option<Rc<Expr>>) -> Tri
    ensures { result ≡ at.condition table.now (with_when (condition_at table.now within.0) (when_view when.now)) }
{
    guarded(context(table, within), when, table)
}

/// The condition of the prompt of a definition with this place.
pub(crate) fn prompt_condition(table: &Table<'_>, place: EntryPlace, prompt: &Prompt) -> Tri
    ensures { result ≡ at.condition table.now (prompt_view (condition_at table.now place.context.0) (visible_at table.now.layout.now place.visible.0) (input_prompt_view prompt.now)) }
{
    let first = lesser(
        context(table, place.context),
        visible_context(table, place.visible),
    );
    guarded(first, &prompt.when, table)
}

/// When the menu or comment of an entry is shown; y of another entry.
pub fn title_condition(table: &Table<'_>, entry: EntryId) -> Tri
    ensures { result ≡ at.title_value table.now entry.0 (option_map (λ e. head_view e.head) (entry_at table.now.layout.now entry.0)) }
{
    let place = table.layout.place(entry);
    match table.layout.head(entry) {
        Some(Head::Menu(_)) => lesser(
            context(table, place.context),
            visible_context(table, place.visible),
        ),
        Some(Head::Comment(_)) => context(table, place.context),
        _ => Tri::Y,
    }
}
