//! Where the value of a symbol comes from.

ghost use Rattle.std.specs.Prelude.{◌≡◌};
ghost use Rattle.std.specs.Option.{option_copied};
ghost use Rattle.kc_user.specs.PartsOfConfigFile.{member_place};
ghost use Rattle.kc_values.specs.AtTable as at;
ghost use Rattle.kc_values.specs.TableFacts.{IsRowOf};
ghost use Rattle.kc_values.specs.Sources as spec;
ghost use Rattle.kc_values.specs.User.{given_in};

use crate::answers::is_visible;
use crate::conditions::{is_n, mode_of};
use crate::differs::selects;
use crate::numbers::{active_range, if_within_range, is_within_range};
use crate::table::Table;
use crate::texts::{default_text, visible_text_of};
use crate::truths::{default_truth, given_or_implied, implied, met_default, selected_to, upgraded};
use crate::warnings::is_above;
use kc_expr::expression::{SymId, SymbolType};
use kc_language::sources::Source;
use kc_tree::rows::{ChoiceId, Symbol};
use kc_user::value::UserValue;

// The default that applied, either unchanged or moved into the active range.
fn default_source(table: &Table<'_>, id: SymId, symbol: &Symbol) -> Source
    requires { IsRowOf table.now id symbol.now }
    ensures { result ≡ spec.default_source table.now id symbol.now }
{
    if met_default(table, id, symbol).is_none() {
        return Source::NoDefault;
    }
    let range = active_range(table, id, symbol);
    if is_within_range(symbol.symbol_type, range, default_text(table, id, symbol)) {
        Source::Default
    } else {
        Source::MovedDefault
    }
}

// Whether the user gave a truth value and the symbol is visible.
fn is_truth_used(table: &Table<'_>, id: SymId, symbol: &Symbol, user: Option<&UserValue>) -> bool
    requires { IsRowOf table.now id symbol.now }
    ensures { result ≡ spec.is_truth_used table.now id symbol.now (given_in user.entry) }
{
    match user {
        Some(UserValue::Tri(_)) => is_visible(table, id, symbol),
        _ => false,
    }
}

// The source of a bool or tristate symbol without user value and `select`: an `imply` that raises the default,
// otherwise the default.
fn implied_source(table: &Table<'_>, id: SymId, symbol: &Symbol) -> Source
    requires { IsRowOf table.now id symbol.now }
    ensures { result ≡ spec.implied_source table.now id symbol.now }
{
    let default = upgraded(table, symbol.symbol_type, default_truth(table, id, symbol));
    let raised = upgraded(table, symbol.symbol_type, implied(table, id, symbol));
    if is_above(raised, default) {
        Source::Implied
    } else {
        default_source(table, id, symbol)
    }
}

// The source of a bool or tristate symbol without a `select`: the user if the symbol is visible, otherwise
// `implied_source`.
fn unselected_source(
    table: &Table<'_>,
    id: SymId,
    symbol: &Symbol,
    user: Option<&UserValue>,
) -> Source
    requires { IsRowOf table.now id symbol.now }
    ensures { result ≡ spec.unselected_source table.now id symbol.now (given_in user.entry) }
{
    if is_truth_used(table, id, symbol, user) {
        Source::User
    } else {
        implied_source(table, id, symbol)
    }
}

// The source of a bool or tristate symbol: a `select` that raises its value, otherwise `unselected_source`.
fn truth_source(table: &Table<'_>, id: SymId, symbol: &Symbol, user: Option<&UserValue>) -> Source
    requires { IsRowOf table.now id symbol.now }
    ensures { result ≡ spec.truth_source table.now id symbol.now (given_in user.entry) }
{
    let rest = given_or_implied(table, id, symbol, user);
    let unselected = upgraded(table, symbol.symbol_type, rest);
    if is_above(selected_to(table, id, symbol), unselected) {
        Source::Selected
    } else {
        unselected_source(table, id, symbol, user)
    }
}

// The source of a string, int or hex symbol: the user's text if it is used, otherwise the default.
fn text_source(table: &Table<'_>, id: SymId, symbol: &Symbol, used: Option<&[u8]>) -> Source
    requires { IsRowOf table.now id symbol.now }
    ensures { result ≡ spec.text_source table.now id symbol.now (option_copied used.entry) }
{
    match used {
        Some(_) => Source::User,
        None => default_source(table, id, symbol),
    }
}

// The source of an int or hex symbol. The user's text must be inside its range.
fn number_source(table: &Table<'_>, id: SymId, symbol: &Symbol, user: Option<&UserValue>) -> Source
    requires { IsRowOf table.now id symbol.now }
    ensures { result ≡ spec.number_source table.now id symbol.now (given_in user.entry) }
{
    let range = active_range(table, id, symbol);
    let given = visible_text_of(table, id, symbol, user);
    text_source(
        table,
        id,
        symbol,
        if_within_range(symbol.symbol_type, range, given),
    )
}

/// Where the value of a symbol outside a choice comes from (our own). For a bool or tristate: a `select` that raises
/// the value, otherwise the user's truth value if the symbol is visible, otherwise an `imply` that raises the default.
/// For a string: the user's text if the symbol is visible. For an int or hex the text must also be in the active range.
/// Otherwise: the default that applied, which the active range may have moved, or none. A symbol without a type has no
/// source.
pub fn own_source(table: &Table<'_>, id: SymId, symbol: &Symbol, user: Option<&UserValue>) -> Source
    requires { IsRowOf table.now id symbol.now }
    ensures { result ≡ spec.own_source table.now id symbol.now (given_in user.entry) }
{
    match symbol.symbol_type {
        SymbolType::Undefined => Source::Untyped,
        SymbolType::Bool => truth_source(table, id, symbol, user),
        SymbolType::Tristate => truth_source(table, id, symbol, user),
        SymbolType::Str => text_source(table, id, symbol, visible_text_of(table, id, symbol, user)),
        SymbolType::Int => number_source(table, id, symbol, user),
        SymbolType::Hex => number_source(table, id, symbol, user),
    }
}

// Whether a choice selects the user's member.
fn is_of_user(
    table: &Table<'_>,
    choice: ChoiceId,
    user: Option<SymId>,
    selection: Option<SymId>,
) -> bool
    requires { selection ≡ at.selected table.now choice.0 (member_place user) }
    ensures { result ≡ spec.is_of_user table.now choice.0 (member_place user) }
{
    match user {
        Some(member) => selects(selection, member),
        None => false,
    }
}

/// Where the values of the members of a choice come from (our own): the choice's mode is n, or it selects the user's
/// member, or a default or the first visible member. The caller passes the selection for the user's member, so that it
/// is not computed twice.
pub fn member_source(
    table: &Table<'_>,
    choice: ChoiceId,
    user: Option<SymId>,
    selection: Option<SymId>,
) -> Source
    requires { selection ≡ at.selected table.now choice.0 (member_place user) }
    ensures { result ≡ spec.member_source table.now choice.0 (member_place user) }
{
    if is_n(mode_of(table, choice)) {
        Source::ChoiceOff
    } else if is_of_user(table, choice, user, selection) {
        Source::UserMember
    } else {
        Source::DefaultMember
    }
}
