//! Which symbols would change if the user answered.

ghost use Rattle.std.specs.Prelude.{◌≡◌, None, int_lt, not, true};
ghost use Rattle.std.specs.Option.{option_map_or};
ghost use Rattle.std.specs.List.{list_any};
ghost use Rattle.kc_language.specs.Expressions.{same_symbol};
ghost use Rattle.kc_language.specs.declared.values.Interval.{Interval};
ghost use Rattle.kc_values.specs.AtTable as spec;
ghost use Rattle.kc_values.specs.TableFacts.{IsRowOf};

use crate::choices::visible;
use crate::conditions::is_n;
use crate::numbers::{Interval, active_range};
use crate::table::Table;
use crate::truths::{truth_equation, visibility};
use kc_expr::expression::{SymId, SymbolType, Tri};
use kc_expr::values::truth_of;
use kc_tree::rows::{Choice, ChoiceId, Symbol};
use kc_user::value::UserValue;

// Whether this truth value as the user value would change the value of a bool or tristate symbol outside a choice.
fn changes(table: &Table<'_>, id: SymId, symbol: &Symbol, answer: Tri) -> bool
    requires { IsRowOf table.now id symbol.now }
    ensures { result ≡ spec.changes table.now id symbol.now answer }
{
    let given = UserValue::Tri(answer);
    truth_equation(table, id, symbol, Some(&given)) != truth_of(id, table)
}

// Whether the range contains a number.
fn has_room(range: Option<Interval>) -> bool
    ensures { result ≡ option_map_or (λ (r : Interval). not (int_lt r.high r.low)) range true }
{
    match range {
        Some(bounds) => bounds.low <= bounds.high,
        None => true,
    }
}

/// Whether a symbol is visible: the condition of one of its prompts is not n (kconfiglib's `visibility`).
pub fn is_visible(table: &Table<'_>, id: SymId, symbol: &Symbol) -> bool
    requires { IsRowOf table.now id symbol.now }
    ensures { result ≡ spec.is_visible table.now id symbol.now }
{
    !is_n(visibility(table, id, symbol))
}

/// Whether some user value would change the value of a symbol outside a choice, if all other values stay the same (our
/// own). A bool can be y or n, a tristate y, m or n, a string any text, an int or hex a number. A number can have more
/// leading zeros. So a visible int or hex can change unless its active range is empty.
pub fn can_change(table: &Table<'_>, id: SymId, symbol: &Symbol) -> bool
    requires { IsRowOf table.now id symbol.now }
    ensures { result ≡ spec.can_change table.now id symbol.now }
{
    match symbol.symbol_type {
        SymbolType::Undefined => false,
        SymbolType::Bool => {
            changes(table, id, symbol, Tri::Y) || changes(table, id, symbol, Tri::N)
        }
        SymbolType::Tristate => {
            changes(table, id, symbol, Tri::Y)
                || changes(table, id, symbol, Tri::M)
                || changes(table, id, symbol, Tri::N)
        }
        SymbolType::Str => is_visible(table, id, symbol),
        SymbolType::Int | SymbolType::Hex => {
            is_visible(table, id, symbol) && has_room(active_range(table, id, symbol))
        }
    }
}

// Whether a member is visible and is not the selected one.
fn is_other_visible(table: &Table<'_>, selected: SymId, members: &[SymId]) -> bool
    ensures { result ≡ list_any (spec.is_other table.now selected) members.now }
{
    for member in members {
        if selected.0 != member.0 && visible(table, *member) {
            return true;
        }
    }
    false
}

// Whether a choice has a visible member other than its default selection.
fn has_other_member(
    table: &Table<'_>,
    id: ChoiceId,
    choice: &Choice,
    default: Option<SymId>,
) -> bool
    requires { default ≡ spec.selected_by table.now id.0 choice.now None }
    ensures { result ≡ spec.has_other_member table.now id.0 choice.now }
{
    match default {
        Some(selected) => is_other_visible(table, selected, &choice.members),
        None => false,
    }
}

/// Whether a choice has a visible member other than its default selection, which the user could select instead (our
/// own). The caller passes the default selection, so that it is not computed twice.
pub fn has_other(table: &Table<'_>, choice: ChoiceId, default: Option<SymId>) -> bool
    requires { default ≡ spec.selected table.now choice.0 None }
    ensures { result ≡ spec.has_other table.now choice.0 }
{
    match table.layout.choice(choice) {
        Some(found) => has_other_member(table, choice, found, default),
        None => false,
    }
}
