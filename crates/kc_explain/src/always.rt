//! What the lines of a symbol are worth under every input.

ghost use Rattle.std.specs.Prelude.{◌≡◌, true};
ghost use Rattle.kc_expr.specs.Form.{form_of};
ghost use Rattle.kc_expr.specs.When.{when_view};
ghost use Rattle.kc_language.specs.Expressions.{SymbolValue, truth_of_value, value};
ghost use Rattle.kc_language.specs.Values.{single_text};
ghost use Rattle.kc_language.specs.declared.expressions.SymId.{SymId};
ghost use Rattle.kc_language.specs.declared.expressions.Tri.{Tri, TheVariants.{Y}};
ghost use Rattle.kc_outcome.specs.Explanations as rules;
ghost use Rattle.kc_possible.specs.Bounds.{IsWithin};
ghost use Rattle.kc_possible.specs.PartsOfPossible.{IsRowOf};
ghost use Rattle.kc_possible.specs.Possible.{Allows};
ghost use Rattle.kc_explain.specs.FixedViews as told;

use kc_expr::expression::{Expr, SymId, SymbolType, Tri};
use kc_language::symbols::SelectOrImply;
use kc_possible::bounds::Bounds;
use kc_possible::conditions::line_bounds;
use kc_possible::expression::{expression, symbol};
use kc_possible::possible::Possible;
use kc_possible::texts::fixed_text;
use kc_possible::truths::{implied_to_bounds, selected_bounds};
use kc_tree::rows::Symbol;
use std::rc::Rc;

/// Whether there is only this value between the bounds.
pub(crate) fn is_exactly(bounds: Bounds, value: Tri) -> bool
    ensures { result ≡ true → (t : Tri) → IsWithin bounds t → t ≡ value }
{
    bounds.low == value && bounds.high == value
}

// ---- conditions

// Whether a line with this condition has this value in each definition of a symbol.
fn is_in_each(
    p: &Possible<'_>,
    id: SymId,
    row: &Symbol,
    when: &Option<Rc<Expr>>,
    value: Tri,
) -> bool
    requires { IsRowOf p.now id row.now }
    ensures { result ≡ true → (known : SymId → SymbolValue) → Allows p.now known → told.HasValue p.now.laid.tree.now known id (when_view when.now) value }
{
    let mut at = row.first;
    'definitions: while at.is_some() {
        let place = p.laid.layout.place(at);
        if !is_exactly(line_bounds(p, place.context, when), value) {
            return false;
        }
        at = place.next;
    }
    true
}

// Of how many definitions the conditions are looked at.
const MOST_DEFINITIONS: usize = 16;

// Whether a symbol has more definitions than are looked at.
fn has_many_definitions(p: &Possible<'_>, row: &Symbol) -> bool {
    let mut at = row.first;
    for _ in 0..MOST_DEFINITIONS {
        if !at.is_some() {
            return false;
        }
        at = p.laid.layout.next(at);
    }
    at.is_some()
}

/// Whether a line of a symbol with this condition has this value under every input, in whichever definition it is. Of a symbol with
/// many definitions nothing is known.
pub(crate) fn has_value(p: &Possible<'_>, id: SymId, when: &Option<Rc<Expr>>, value: Tri) -> bool
    ensures { result ≡ true → (known : SymId → SymbolValue) → Allows p.now known → told.HasValue p.now.laid.tree.now known id (when_view when.now) value }
{
    match p.laid.layout.symbol(id) {
        Some(row) => !has_many_definitions(p, row) && is_in_each(p, id, row, when, value),
        None => false,
    }
}

// ---- what lines give

// Whether an expression has the same text under every input.
fn has_fixed_text(p: &Possible<'_>, e: &Expr) -> bool
    ensures { result ≡ true → (a b : SymId → SymbolValue) → Allows p.now a → Allows p.now b →
        single_text a (form_of e.now) ≡ single_text b (form_of e.now) }
{
    match fixed_text(p, e) {
        Some(_) => true,
        None => false,
    }
}

// Whether an expression has the same truth value under every input.
fn has_fixed_truth(p: &Possible<'_>, e: &Expr) -> bool
    ensures { result ≡ true → (a b : SymId → SymbolValue) → Allows p.now a → Allows p.now b →
        value a p.now.laid.tree.now.modules (form_of e.now) ≡ value b p.now.laid.tree.now.modules (form_of e.now) }
{
    let bounds = expression(p, e);
    is_exactly(bounds, bounds.low)
}

// Whether a default of a symbol of this type gives the same under every input.
fn has_fixed_value(p: &Possible<'_>, symbol_type: SymbolType, e: &Expr) -> bool
    ensures { result ≡ true → (a b : SymId → SymbolValue) → Allows p.now a → Allows p.now b →
        rules.default_given p.now.laid.tree.now a symbol_type (form_of e.now) ≡ rules.default_given p.now.laid.tree.now b symbol_type (form_of e.now) }
{
    match symbol_type {
        SymbolType::Str | SymbolType::Int | SymbolType::Hex => has_fixed_text(p, e),
        SymbolType::Undefined | SymbolType::Bool | SymbolType::Tristate => has_fixed_truth(p, e),
    }
}

/// Whether a default of a symbol of this type gives the same under every input, if it counts.
pub(crate) fn gives_the_same(
    p: &Possible<'_>,
    symbol_type: SymbolType,
    e: &Expr,
    counts: bool,
) -> bool
    ensures { result ≡ true → counts ≡ true → (a b : SymId → SymbolValue) → Allows p.now a → Allows p.now b →
        rules.default_given p.now.laid.tree.now a symbol_type (form_of e.now) ≡ rules.default_given p.now.laid.tree.now b symbol_type (form_of e.now) }
{
    if counts {
        has_fixed_value(p, symbol_type, e)
    } else {
        true
    }
}

// ---- lines that raise

// Whether no line selects or implies a symbol under any input.
fn is_row_unraised(p: &Possible<'_>, word: SelectOrImply, id: SymId, row: &Symbol) -> bool
    requires { IsRowOf p.now id row.now }
    ensures { result ≡ true → (known : SymId → SymbolValue) → Allows p.now known → told.IsUnraised p.now.laid.tree.now known word id }
{
    match word {
        SelectOrImply::Select => is_exactly(selected_bounds(p, id, row), Tri::N),
        SelectOrImply::Imply => is_exactly(implied_to_bounds(p, id, row), Tri::N),
    }
}

/// Whether no line selects or implies a symbol under any input.
pub(crate) fn is_unraised(p: &Possible<'_>, word: SelectOrImply, id: SymId) -> bool
    ensures { result ≡ true → (known : SymId → SymbolValue) → Allows p.now known → told.IsUnraised p.now.laid.tree.now known word id }
{
    match p.laid.layout.symbol(id) {
        Some(row) => is_row_unraised(p, word, id, row),
        None => false,
    }
}

// Whether a symbol is y under every input, and with it a line of the symbol with this condition.
fn raises_to_y(p: &Possible<'_>, by: SymId, when: &Option<Rc<Expr>>) -> bool
    ensures { result ≡ true → (known : SymId → SymbolValue) → Allows p.now known →
        (truth_of_value (known by) ≡ Y) × told.RaisesTo p.now.laid.tree.now known by (when_view when.now) Y }
{
    if !is_exactly(symbol(p, by), Tri::Y) {
        return false;
    }
    has_value(p, by, when, Tri::Y)
}

/// Whether a symbol and a line of it that raises have these values under every input. That is looked at only if both are y.
pub(crate) fn raises_to(
    p: &Possible<'_>,
    by: SymId,
    by_value: Tri,
    when: &Option<Rc<Expr>>,
    value: Tri,
) -> bool
    ensures { result ≡ true → (known : SymId → SymbolValue) → Allows p.now known →
        (truth_of_value (known by) ≡ by_value) × told.RaisesTo p.now.laid.tree.now known by (when_view when.now) value }
{
    match (by_value, value) {
        (Tri::Y, Tri::Y) => raises_to_y(p, by, when),
        _ => false,
    }
}
