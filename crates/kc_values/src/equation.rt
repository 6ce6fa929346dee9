//! The equation of a symbol of any kind.

ghost use Rattle.std.specs.Prelude.{◌≡◌, None, slice_index_or, IfOk};
ghost use Rattle.kc_values.specs.AtTable as spec;
ghost use Rattle.kc_values.specs.TableFacts.{own_value, AreSelected, IsRowOf};
ghost use Rattle.kc_values.specs.Selections.{given_for};
ghost use Rattle.kc_values.specs.Table.{known_value};
ghost use Rattle.kc_values.specs.User.{given_in};

use crate::choices::member_equation;
use crate::numbers::number_equation;
use crate::table::{Table, Value, name};
use crate::texts::text_equation;
use crate::truths::truth_equation;
use kc_expr::expression::{SymId, SymbolType};
use kc_tree::rows::{ChoiceId, Symbol};
use kc_user::value::UserValue;
use std::alloc::{AllocError, Global};

/// Evaluates the equation of a symbol outside a choice, by its type (the kernel's kconfig-language document, "Menu
/// attributes"; kconfiglib's `tri_value` and `str_value`). A symbol without a type, such as an undefined name, has its
/// name as its value (kconfiglib). Fails only if there is not enough memory.
pub fn own_equation(
    alloc: Global,
    table: &Table<'_>,
    id: SymId,
    symbol: &Symbol,
    user: Option<&UserValue>,
) -> Result<Value, AllocError>
    requires { IsRowOf table.now id symbol.now }
    ensures { IfOk result (λ x. known_value symbol.now.symbol_type x ≡ own_value table.now id symbol.now (given_in user.entry)) }
{
    match symbol.symbol_type {
        SymbolType::Bool => Ok(Value::Truth(truth_equation(table, id, symbol, user))),
        SymbolType::Tristate => Ok(Value::Truth(truth_equation(table, id, symbol, user))),
        SymbolType::Str => {
            let text = text_equation(alloc, table, id, symbol, user)?;
            Ok(Value::Text(text))
        }
        SymbolType::Int => {
            let text = number_equation(alloc, table, id, symbol, user)?;
            Ok(Value::Text(text))
        }
        SymbolType::Hex => {
            let text = number_equation(alloc, table, id, symbol, user)?;
            Ok(Value::Text(text))
        }
        SymbolType::Undefined => {
            let text = Vec::from_slice(alloc, name(table.tree, id))?;
            Ok(Value::Text(text))
        }
    }
}

// The member that the user chose for a choice.
fn given_member(users: &[Option<SymId>], choice: ChoiceId) -> Option<SymId>
    ensures { result ≡ slice_index_or users.now choice.0 None }
{
    match users.get(choice.0 as usize) {
        Some(given) => *given,
        None => None,
    }
}

/// Evaluates the equation of a symbol. `user` is its user value, and `users` holds the user's member of each choice
/// (the kernel's kconfig-language document; where that is vague, kconfiglib's documented rules). Uses what the table
/// has already computed. Fails only if there is not enough memory.
pub fn equation(
    alloc: Global,
    table: &Table<'_>,
    id: SymId,
    symbol: &Symbol,
    user: Option<&UserValue>,
    users: &[Option<SymId>],
) -> Result<Value, AllocError>
    requires row { IsRowOf table.now id symbol.now }
    requires selected { AreSelected table.now users.now }
    ensures { IfOk result (λ x. known_value symbol.now.symbol_type x
        ≡ spec.equation table.now id symbol.now (given_for symbol.now.choice (given_in user.entry) users.now)) }
{
    match symbol.choice.get() {
        Some(choice) => {
            let given = given_member(users, choice);
            Ok(Value::Truth(member_equation(table, id, choice, given)))
        }
        None => own_equation(alloc, table, id, symbol, user),
    }
}
