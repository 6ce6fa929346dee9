//! The equation of a bool or tristate symbol outside a choice.

ghost use Rattle.std.specs.Prelude.{◌≡◌};
ghost use Rattle.kc_language.specs.declared.expressions.SymId.{SymId};
ghost use Rattle.kc_language.specs.declared.symbols.SelectOrImply.{SelectOrImply};
ghost use Rattle.kc_language.specs.Symbols.{listed};
ghost use Rattle.kc_tree.specs.Layouts.{prompt_when, selector_facts, selectors_up_to};
ghost use Rattle.kc_values.specs.AtTable as spec;
ghost use Rattle.kc_values.specs.TableFacts.{condition_at, facts_in, IsLineAt, IsRowOf};
ghost use Rattle.kc_values.specs.FoundRows.{IsMetDefault};
ghost use Rattle.kc_values.specs.User.{given_in};
ghost use Rattle.kc_language.specs.Values.{user_or};

use crate::conditions::{condition, context, is_n, prompt_condition};
use crate::table::Table;
use kc_entries::statement::SymbolDefault;
use kc_expr::expression::{SymId, SymbolType, Tri};
use kc_expr::values::{eval, greater, lesser, truth_of};
use kc_tree::attributes::stated_default;
use kc_tree::rows::{EntryId, EntryPlace, Selector, SelectorId, Symbol};
use kc_user::value::UserValue;

// Whether the symbol can be m: its type is tristate, and the modules symbol is a bool or tristate that is not n.
fn is_tristate(table: &Table<'_>, symbol_type: SymbolType) -> bool
    ensures { result ≡ spec.is_tristate table.now symbol_type }
{
    if symbol_type != SymbolType::Tristate {
        return false;
    }
    match table.tree.modules_symbol() {
        Some(id) => !is_n(truth_of(id, table)),
        None => false,
    }
}

/// The tristate upgrade: m as y where the type is not tristate under the values: where it is written as another one, or
/// where the modules symbol is n, or is no bool or tristate, or is not there (kconfiglib's `tri_value`). The modules symbol is
/// looked at only where the value is m.
#[tactic(auto, using(crate::proofs::UpgradeLemmas::n_stays, crate::proofs::UpgradeLemmas::y_stays, crate::proofs::UpgradeLemmas::m_upgraded, crate::proofs::UpgradeLemmas::m_kept))]
pub(crate) fn upgraded(table: &Table<'_>, symbol_type: SymbolType, value: Tri) -> Tri
    ensures { result ≡ spec.upgraded table.now symbol_type value }
{
    match value {
        Tri::M if !is_tristate(table, symbol_type) => Tri::Y,
        _ => value,
    }
}

// The condition of the prompt of a definition with this place; n without one.
fn prompt_visibility(table: &Table<'_>, place: EntryPlace) -> Tri
    ensures { result ≡ spec.conditions table.now (listed (prompt_when table.now.layout.now (condition_at table.now place.context.0) place)) }
{
    match table.layout.prompt(place) {
        Some(prompt) => prompt_condition(table, place, prompt),
        None => Tri::N,
    }
}

/// The greatest condition of the prompts of a symbol; n without a prompt.
pub fn prompts_condition(table: &Table<'_>, id: SymId, symbol: &Symbol) -> Tri
    requires { IsRowOf table.now id symbol.now }
    ensures { result ≡ spec.conditions table.now (facts_in table.now id symbol.now).prompts }
{
    let mut greatest = Tri::N;
    let mut at = symbol.first;
    'definitions: while at.is_some() {
        let place = table.layout.place(at);
        greatest = greater(greatest, prompt_visibility(table, place));
        at = place.next;
    }
    greatest
}

/// The visibility of a symbol: the greatest condition of its prompts, with y for m if the symbol can't be m; n without
/// a prompt (kconfiglib's `visibility`).
pub fn visibility(table: &Table<'_>, id: SymId, symbol: &Symbol) -> Tri
    requires { IsRowOf table.now id symbol.now }
    ensures { result ≡ spec.visibility table.now id symbol.now }
{
    upgraded(
        table,
        symbol.symbol_type,
        prompts_condition(table, id, symbol),
    )
}

// The first default of a definition with this place whose condition is not n, and that condition.
fn first_met<'t>(
    table: &Table<'t>,
    at: EntryId,
    place: EntryPlace,
) -> Option<(&'t SymbolDefault, Tri)>
    ensures { IsMetDefault table.now (spec.default_at table.now at.0 (condition_at table.now place.context.0)) result }
{
    let layout = table.layout;
    for line in layout.attributes(at) {
        if let Some(default) = stated_default(&line.attribute) {
            let when = condition(table, place.context, &default.when);
            if !is_n(when) {
                return Some((default, when));
            }
        }
    }
    None
}

/// The first default of a symbol whose condition is not n, and that condition.
#[inline(always)]
pub(crate) fn met_default<'t>(
    table: &Table<'t>,
    id: SymId,
    symbol: &Symbol,
) -> Option<(&'t SymbolDefault, Tri)>
    requires { IsRowOf table.now id symbol.now }
    ensures { IsMetDefault table.now (spec.met_default table.now id symbol.now) result }
{
    let layout = table.layout;
    let mut at = symbol.first;
    'definitions: while at.is_some() {
        let place = layout.place(at);
        if place.has_default {
            if let Some(found) = first_met(table, at, place) {
                return Some(found);
            }
        }
        at = place.next;
    }
    None
}

/// min(value, condition) of the first default whose condition is not n, or n (the kernel's kconfig-language document, "Menu
/// attributes": default value).
pub(crate) fn default_truth(table: &Table<'_>, id: SymId, symbol: &Symbol) -> Tri
    requires { IsRowOf table.now id symbol.now }
    ensures { result ≡ spec.default_value table.now id symbol.now }
{
    match met_default(table, id, symbol) {
        Some((default, when)) => lesser(eval(&default.value, table), when),
        None => Tri::N,
    }
}

// min(value of the other symbol, condition) of a `select` or `imply` line.
fn selector_value(table: &Table<'_>, line: &Selector) -> Tri
    ensures { result ≡ spec.selector_values table.now (listed (selector_facts table.now.layout.now line.now)) }
{
    let Some(source) = table.layout.symbol_of(line.entry) else {
        return Tri::N;
    };
    let value = truth_of(source, table);
    if is_n(value) {
        return Tri::N;
    }
    match table.layout.target(line) {
        Some(target) => {
            let within = table.layout.place(line.entry).context;
            lesser(value, condition(table, within, target.when))
        }
        None => Tri::N,
    }
}

// The greatest of them, from the last line on. They all select, or imply, the same symbol.
fn selector_values(table: &Table<'_>, last: SelectorId) -> Tri
    requires { (w : SelectOrImply) × (s : SymId) × IsLineAt table.now w s last.0 }
    ensures { (w : SelectOrImply) (s : SymId) → IsLineAt table.now w s last.0 → result ≡ spec.selector_values table.now (selectors_up_to table.now.layout.now w s last.0) }
{
    let mut greatest = Tri::N;
    let mut at = last;
    'lines: while let Some(line) = table.layout.selector(at) {
        greatest = greater(greatest, selector_value(table, line));
        at = line.next;
    }
    greatest
}

/// The direct dependency of a symbol: the greatest dependency of its definitions, with y for m if the symbol can't be m
/// (kconfiglib's `direct_dep`).
pub fn direct(table: &Table<'_>, id: SymId, symbol: &Symbol) -> Tri
    requires { IsRowOf table.now id symbol.now }
    ensures { result ≡ spec.direct table.now id symbol.now }
{
    let mut greatest = Tri::N;
    let mut at = symbol.first;
    'definitions: while at.is_some() {
        let place = table.layout.place(at);
        greatest = greater(greatest, context(table, place.context));
        at = place.next;
    }
    upgraded(table, symbol.symbol_type, greatest)
}

/// What a symbol is selected to: the greatest min(value of the selecting symbol, condition), with y for m if the symbol
/// can't be m (the kernel's kconfig-language document, "Menu attributes": reverse dependencies).
pub fn selected_to(table: &Table<'_>, id: SymId, symbol: &Symbol) -> Tri
    requires { IsRowOf table.now id symbol.now }
    ensures { result ≡ spec.selected_to table.now id symbol.now }
{
    if !symbol.last_select.is_some() {
        return Tri::N;
    }
    upgraded(
        table,
        symbol.symbol_type,
        selector_values(table, symbol.last_select),
    )
}

/// What a symbol is implied to: the same for the symbols that imply it (the kernel's kconfig-language document, "Menu
/// attributes": weak reverse dependencies).
pub(crate) fn implied_to(table: &Table<'_>, id: SymId, symbol: &Symbol) -> Tri
    requires { IsRowOf table.now id symbol.now }
    ensures { result ≡ spec.implied_to table.now id symbol.now }
{
    if !symbol.last_imply.is_some() {
        return Tri::N;
    }
    upgraded(
        table,
        symbol.symbol_type,
        selector_values(table, symbol.last_imply),
    )
}

/// The default, which an `imply` raises at most to the direct dependency. Computes that dependency only if a symbol
/// implies this one.
pub(crate) fn implied(table: &Table<'_>, id: SymId, symbol: &Symbol) -> Tri
    requires { IsRowOf table.now id symbol.now }
    ensures { result ≡ spec.implied_value table.now id symbol.now }
{
    let default = default_truth(table, id, symbol);
    let implied_to = implied_to(table, id, symbol);
    match implied_to {
        Tri::N => default,
        _ => lesser(greater(default, implied_to), direct(table, id, symbol)),
    }
}

/// If the symbol is visible, the user's truth value, limited to the visibility. Otherwise its default. Computes only
/// what is used.
pub(crate) fn given_or_implied(
    table: &Table<'_>,
    id: SymId,
    symbol: &Symbol,
    user: Option<&UserValue>,
) -> Tri
    requires { IsRowOf table.now id symbol.now }
    ensures { result ≡ user_or (given_in user.entry) (spec.visibility table.now id symbol.now) (spec.implied_value table.now id symbol.now) }
{
    match user {
        Some(UserValue::Tri(given)) => match visibility(table, id, symbol) {
            Tri::N => implied(table, id, symbol),
            visible => lesser(*given, visible),
        },
        _ => implied(table, id, symbol),
    }
}

/// The value of a bool or tristate symbol outside a choice. If it is visible, this is the user value, limited to the
/// visibility. Otherwise it is the default, which an `imply` raises at most to the direct dependency (that order is our
/// own). A `select` raises it, even above its direct dependency. If the symbol can't be m, y takes the place of m (the
/// kernel's kconfig-language document, "Menu attributes"; kconfiglib's `tri_value`).
#[inline(always)]
pub(crate) fn truth_equation(
    table: &Table<'_>,
    id: SymId,
    symbol: &Symbol,
    user: Option<&UserValue>,
) -> Tri
    requires { IsRowOf table.now id symbol.now }
    ensures { result ≡ spec.truth_equation table.now id symbol.now (given_in user.entry) }
{
    let value = given_or_implied(table, id, symbol, user);
    let selected = selected_to(table, id, symbol);
    upgraded(table, symbol.symbol_type, greater(value, selected))
}
