//! The selections of choices.

ghost use Rattle.std.specs.Prelude.{◌≡◌};
ghost use Rattle.kc_user.specs.PartsOfConfigFile.{member_place};
ghost use Rattle.kc_values.specs.TableFacts.{IsChoiceRow, IsSelected};
ghost use Rattle.kc_values.specs.AtTable as spec;

use crate::conditions::{choice_dependency, guarded, is_n, mode_of};
use crate::table::Table;
use crate::truths::prompts_condition;
use kc_expr::expression::{SymId, Tri};
use kc_tree::attributes::stated_default;
use kc_tree::rows::{Choice, ChoiceId};

/// Whether the condition of one of the symbol's prompts is not n. An undefined name has no prompts (kconfiglib's
/// `visibility`).
pub(crate) fn visible(table: &Table<'_>, id: SymId) -> bool
    ensures { result ≡ spec.visible table.now id }
{
    match table.layout.symbol(id) {
        Some(symbol) => !is_n(prompts_condition(table, id, symbol)),
        None => false,
    }
}

// Whether it is a member of the choice with a visible prompt.
fn visible_member(table: &Table<'_>, choice: ChoiceId, id: SymId) -> bool
    ensures { result ≡ spec.visible_member table.now choice.0 id }
{
    table.layout.is_member(choice, id) && visible(table, id)
}

// The first default whose condition is not n and that names a visible member.
fn first_default(table: &Table<'_>, id: ChoiceId, choice: &Choice) -> Option<SymId>
    requires { IsChoiceRow table.now id.0 choice.now }
    ensures { result ≡ spec.first_default table.now id.0 choice.now }
{
    let within = choice_dependency(table, id);
    for line in table.layout.attributes(choice.entry) {
        if let Some(stated) = stated_default(&line.attribute) {
            if let Some(member) = table.layout.default_member(id, &line.attribute) {
                if !is_n(guarded(within, &stated.when, table)) && visible(table, member) {
                    return Some(member);
                }
            }
        }
    }
    None
}

fn first_visible(table: &Table<'_>, members: &[SymId]) -> Option<SymId>
    ensures { result ≡ spec.first_visible table.now members.now }
{
    for member in members {
        if visible(table, *member) {
            return Some(*member);
        }
    }
    None
}

// The default selection: that default, else the first visible member.
fn unselected(table: &Table<'_>, id: ChoiceId, choice: &Choice) -> Option<SymId>
    requires { IsChoiceRow table.now id.0 choice.now }
    ensures { result ≡ spec.unselected table.now id.0 choice.now }
{
    match first_default(table, id, choice) {
        Some(id) => Some(id),
        None => first_visible(table, &choice.members),
    }
}

// The selection of a choice; none if its mode is n. It is the user's member if that is a visible member of the choice.
// Otherwise it is the default selection.
fn selected(table: &Table<'_>, id: ChoiceId, choice: &Choice, user: Option<SymId>) -> Option<SymId>
    requires { IsChoiceRow table.now id.0 choice.now }
    ensures { result ≡ spec.selected_by table.now id.0 choice.now (member_place user) }
{
    if is_n(mode_of(table, id)) {
        return None;
    }
    match user {
        Some(member) if visible_member(table, id, member) => Some(member),
        _ => unselected(table, id, choice),
    }
}

/// Returns the selection of a choice for this user's member; none if its mode is n or there is no such choice. It is
/// the user's member if that is a visible member of the choice. Otherwise it is the member of the first default whose
/// condition is not n and whose member is visible, otherwise the first visible member (kconfiglib's `selection`; the
/// kernel's kconfig-language document on choices).
pub fn selected_in(table: &Table<'_>, choice: ChoiceId, user: Option<SymId>) -> Option<SymId>
    ensures { result ≡ spec.selected table.now choice.0 (member_place user) }
{
    match table.layout.choice(choice) {
        Some(found) => selected(table, choice, found, user),
        None => None,
    }
}

/// Like `selected_in`, but uses the selection that the table has computed, if there is one (our own). The caller must
/// have computed it for this member.
pub fn selection(table: &Table<'_>, choice: ChoiceId, user: Option<SymId>) -> Option<SymId>
    requires { IsSelected table.now choice.0 user }
    ensures { result ≡ spec.selected table.now choice.0 (member_place user) }
{
    match table.computed_selection(choice) {
        Some(computed) => computed,
        None => selected_in(table, choice, user),
    }
}

/// The value of a member: y if it is selected, otherwise n. Its own defaults have no effect (the kernel's
/// kconfig-language document on choices). `user` is the member that the user chose.
pub(crate) fn member_equation(
    table: &Table<'_>,
    id: SymId,
    choice: ChoiceId,
    user: Option<SymId>,
) -> Tri
    requires { IsSelected table.now choice.0 user }
    ensures { result ≡ spec.member_equation table.now id choice.0 (member_place user) }
{
    match selection(table, choice, user) {
        Some(member) if member.0 == id.0 => Tri::Y,
        _ => Tri::N,
    }
}
