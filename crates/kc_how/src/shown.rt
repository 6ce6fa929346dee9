//! Values of symbols, as texts show them.

ghost use Rattle.std.specs.Prelude.{◌≡◌, ◌++◌, OnOk, decimal};
ghost use Rattle.kc_expr.specs.Value.{value_by_type};
ghost use Rattle.kc_how.specs.FixTexts.{setting};
ghost use Rattle.kc_how.specs.How as spec;
ghost use Rattle.kc_input.specs.ShownView.{given_by};
ghost use Rattle.kc_language.specs.ConfigFile.{place_at};
ghost use Rattle.kc_language.specs.Texts.{known};
ghost use Rattle.kc_language.specs.Values.{SymbolPlace, facts, given_of, type_in};
ghost use Rattle.kc_user.specs.ValueView.{given_of_value};
ghost use Rattle.kc_values.specs.User.{given_in};

use itoa::Buffer;
use kc_expr::expression::{SymId, SymbolType, Tri};
use kc_expr::values::Values;
use kc_input::prefix::Prefix;
use kc_input::shown::{ShownValue, add_value, is_same, shown_given};
use kc_input::text::add_parts;
use kc_solve::solved::Solved;
use kc_tree::tree::Tree;
use kc_user::user::User;
use kc_user::value::UserValue;
use kc_values::table::name;
use std::alloc::AllocError;

// The value of a symbol of this type.
fn shown_by<'a>(symbol_type: SymbolType, tri: Tri, text: &'a [u8]) -> ShownValue<'a>
    ensures { given_by result ≡ given_of (value_by_type symbol_type tri text.now) }
{
    match symbol_type {
        SymbolType::Bool | SymbolType::Tristate => ShownValue::Truth(tri),
        SymbolType::Undefined | SymbolType::Str | SymbolType::Int | SymbolType::Hex =>
            ShownValue::Text(text),
    }
}

/// The value of a symbol in a solution.
pub(crate) fn shown_value<'a>(solved: &'a Solved<'_, '_>, id: SymId) -> ShownValue<'a>
    ensures { given_by result ≡ given_of (known solved.now id) }
{
    solved.tells_known();
    shown_by(solved.symbol_type(id), solved.tri(id), solved.text(id))
}

/// Whether a symbol has this value in a solution.
pub(crate) fn has_value(solved: &Solved<'_, '_>, id: SymId, value: &UserValue) -> bool
    ensures { result ≡ spec.has_value solved.now id (given_of_value value.now) }
{
    is_same(shown_given(value), shown_value(solved, id))
}

/// The user's value of a symbol.
pub(crate) fn user_value<'a>(user: &'a User, id: SymId) -> Option<&'a UserValue>
    ensures { given_in result ≡ place_at user.now (SymbolPlace id.0) }
{
    user.symbols().get(id.0)
}

/// The type of a symbol.
pub(crate) fn type_of(tree: &Tree, id: SymId) -> SymbolType
    ensures { result ≡ type_in (facts tree.now id) }
{
    match tree.facts(id) {
        Some(symbol) => symbol.symbol_type,
        None => SymbolType::Undefined,
    }
}

/// Adds `CONFIG_NAME=value`.
pub(crate) fn add_setting(
    tree: &Tree,
    prefix: &Prefix,
    id: SymId,
    value: &UserValue,
    text: &mut Vec<u8>,
) -> Result<(), AllocError>
    ensures { OnOk result (text.new.items ≡ text.old.items ++ setting tree.now prefix.now id (given_of_value value.now)) }
{
    add_parts(&[prefix.as_bytes(), name(tree, id), b"="], text)?;
    add_value(prefix.is_raw(), type_of(tree, id), shown_given(value), text)
}

/// Adds a number.
pub(crate) fn add_number(number: usize, text: &mut Vec<u8>) -> Result<(), AllocError>
    ensures { OnOk result (text.new.items ≡ text.old.items ++ decimal number) }
{
    let mut buffer = Buffer::new();
    text.extend_from_slice(buffer.format(number).as_bytes())
}
