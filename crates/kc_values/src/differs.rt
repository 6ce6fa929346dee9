//! Which symbols differ from their values without the user.

ghost use Rattle.std.specs.Prelude.{◌≡◌, ◌&&◌, None, not, IfOk};
ghost use Rattle.std.specs.Option.{is_some};
ghost use Rattle.kc_language.specs.Symbols.{is_symbol_of};
ghost use Rattle.kc_values.specs.PartsOfValues.{same_value};
ghost use Rattle.kc_values.specs.TableFacts.{known_at, own_value, IsRowOf};
ghost use Rattle.kc_values.specs.User.{given_in};
ghost use Rattle.kc_language.specs.Values as value;

use crate::conditions::is_n;
use crate::numbers::differs_from_default;
use crate::table::{Table, name};
use crate::texts::default_text;
use crate::truths::truth_equation;
use kc_expr::expression::{SymId, SymbolType, Tri};
use kc_expr::values::Values;
use kc_tree::rows::Symbol;
use kc_user::value::UserValue;
use std::alloc::{AllocError, Global};

/// Whether the value of a symbol outside a choice differs from what its equation gives without its user value, if all
/// other values stay the same (our own rule of the minimal file). Fails only if there is not enough memory.
pub fn own_differs(
    alloc: Global,
    table: &Table<'_>,
    id: SymId,
    symbol: &Symbol,
) -> Result<bool, AllocError>
    requires { IsRowOf table.now id symbol.now }
    ensures { IfOk result (λ b. b ≡ not (same_value (known_at table.now id) (own_value table.now id symbol.now None))) }
{
    match symbol.symbol_type {
        SymbolType::Bool => Ok(table.tri(id) != truth_equation(table, id, symbol, None)),
        SymbolType::Tristate => Ok(table.tri(id) != truth_equation(table, id, symbol, None)),
        SymbolType::Str => Ok(table.text(id) != default_text(table, id, symbol)),
        SymbolType::Int => differs_from_default(alloc, table, id, symbol, table.text(id)),
        SymbolType::Hex => differs_from_default(alloc, table, id, symbol, table.text(id)),
        SymbolType::Undefined => Ok(table.text(id) != name(table.tree, id)),
    }
}

/// Whether a user value can have an effect on a symbol of this visibility: there is one, and the symbol is visible.
/// Otherwise the equation gives the same value without it, so the symbol does not differ (kconfiglib's `visibility`).
pub fn can_count(user: Option<&UserValue>, visibility: Tri) -> bool
    ensures { result ≡ (is_some (given_in user.entry) && not (value.is_n visibility)) }
{
    user.is_some() && !is_n(visibility)
}

/// Whether the symbol is the selection.
pub(crate) fn selects(selection: Option<SymId>, id: SymId) -> bool
    ensures { result ≡ is_symbol_of id selection }
{
    match selection {
        Some(member) => member.0 == id.0,
        None => false,
    }
}

/// Whether a member is selected and is not the default selection (our own rule of the minimal file).
pub fn member_differs(selection: Option<SymId>, default: Option<SymId>, id: SymId) -> bool
    ensures { result ≡ (is_symbol_of id selection && not (is_symbol_of id default)) }
{
    selects(selection, id) && !selects(default, id)
}
