//! The equation of a string symbol.

ghost use Rattle.std.specs.Prelude.{◌≡◌, IfOk};
ghost use Rattle.std.specs.Option.{option_copied};
ghost use Rattle.kc_expr.specs.Form.{form_of};
ghost use Rattle.kc_expr.specs.Value.{values_by};
ghost use Rattle.kc_values.specs.AtTable as at;
ghost use Rattle.kc_values.specs.TableFacts.{IsRowOf};
ghost use Rattle.kc_values.specs.User.{given_in};
ghost use Rattle.kc_language.specs.Values as spec;

use crate::conditions::is_n;
use crate::table::Table;
use crate::truths::{met_default, visibility};
use kc_expr::expression::{Expr, SymId, Tri};
use kc_expr::values::{Values, text};
use kc_tree::rows::Symbol;
use kc_user::value::UserValue;
use std::alloc::{AllocError, Global};

/// The text of a default that is one operand; empty for any other (the kernel's kconfig-language document, "Menu
/// attributes"; that it must be one operand is our own).
pub fn single_text<'a, V: Values>(expr: &'a Expr, values: &'a V) -> &'a [u8]
    ensures { result.now ≡ spec.single_text (values_by (V.type_of values.now) (V.tri_of values.now) (V.text_of values.now)) (form_of expr.now) }
{
    match expr {
        Expr::One(operand) => text(operand, values),
        Expr::Rel(..)
        | Expr::NotOne(_)
        | Expr::Not(_)
        | Expr::Module
        | Expr::All(_)
        | Expr::Any(_) => b"",
    }
}

/// The text of the first default whose condition is not n, if there is one.
pub(crate) fn met_text<'a>(table: &'a Table<'_>, id: SymId, symbol: &Symbol) -> Option<&'a [u8]>
    requires { IsRowOf table.now id symbol.now }
    ensures { option_copied result ≡ at.met_text table.now id symbol.now }
{
    match met_default(table, id, symbol) {
        Some((default, _)) => Some(single_text(&default.value, table)),
        None => None,
    }
}

/// The text of the first default whose condition is not n; empty if there is none (the kernel's kconfig-language
/// document, "Menu attributes": default value).
pub(crate) fn default_text<'a>(table: &'a Table<'_>, id: SymId, symbol: &Symbol) -> &'a [u8]
    requires { IsRowOf table.now id symbol.now }
    ensures { result.now ≡ at.default_text table.now id symbol.now }
{
    met_text(table, id, symbol).unwrap_or(b"")
}

/// The user's text if the symbol is visible (kconfiglib's `str_value`).
pub(crate) fn visible_text(user: Option<&UserValue>, visibility: Tri) -> Option<&[u8]>
    ensures { option_copied result ≡ spec.visible_text (given_in user.entry) visibility }
{
    if is_n(visibility) {
        return None;
    }
    match user {
        Some(UserValue::Text(bytes)) => Some(bytes),
        _ => None,
    }
}

/// Like `visible_text`, but computes the symbol's visibility only if the user gave a text (kconfiglib's `str_value`).
pub fn visible_text_of<'a>(
    table: &Table<'_>,
    id: SymId,
    symbol: &Symbol,
    user: Option<&'a UserValue>,
) -> Option<&'a [u8]>
    requires { IsRowOf table.now id symbol.now }
    ensures { option_copied result ≡ spec.visible_text (given_in user.entry) (at.visibility table.now id symbol.now) }
{
    match user {
        Some(UserValue::Text(_)) => visible_text(user, visibility(table, id, symbol)),
        _ => None,
    }
}

/// The value of a string symbol outside a choice: the user's text if the symbol is visible, otherwise the text of the
/// first default whose condition is not n, otherwise empty (kconfiglib's `str_value`). Fails only if there is not
/// enough memory.
pub(crate) fn text_equation(
    alloc: Global,
    table: &Table<'_>,
    id: SymId,
    symbol: &Symbol,
    user: Option<&UserValue>,
) -> Result<Vec<u8>, AllocError>
    requires { IsRowOf table.now id symbol.now }
    ensures { IfOk result (λ v. v.items ≡ at.text_equation table.now id symbol.now (given_in user.entry)) }
{
    if let Some(bytes) = visible_text_of(table, id, symbol, user) {
        let copy = Vec::from_slice(alloc, bytes)?;
        return Ok(copy);
    }
    let default = default_text(table, id, symbol);
    let copy = Vec::from_slice(alloc, default)?;
    Ok(copy)
}
