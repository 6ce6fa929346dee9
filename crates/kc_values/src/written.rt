//! Which symbols are written.

ghost use Rattle.std.specs.Prelude.{◌≡◌};
ghost use Rattle.kc_values.specs.AtTable as spec;
ghost use Rattle.kc_values.specs.TableFacts.{IsRowOf};

use crate::conditions::is_n;
use crate::table::Table;
use crate::truths::{default_truth, direct, implied_to, met_default, selected_to};
use kc_expr::expression::{SymId, SymbolType, Tri};
use kc_tree::rows::Symbol;

// Whether a bool or tristate symbol outside a choice is written.
fn truth_is_written(table: &Table<'_>, id: SymId, symbol: &Symbol, visibility: Tri) -> bool
    requires row { IsRowOf table.now id symbol.now }
    requires visibility { visibility ≡ spec.visibility table.now id symbol.now }
    ensures { result ≡ spec.written_truth table.now id symbol.now }
{
    !is_n(visibility)
        || !is_n(default_truth(table, id, symbol))
        || !is_n(selected_to(table, id, symbol))
        || (!is_n(implied_to(table, id, symbol)) && !is_n(direct(table, id, symbol)))
}

// Whether a string, int or hex symbol is written.
fn text_is_written(table: &Table<'_>, id: SymId, symbol: &Symbol, visibility: Tri) -> bool
    requires row { IsRowOf table.now id symbol.now }
    requires visibility { visibility ≡ spec.visibility table.now id symbol.now }
    ensures { result ≡ spec.written_text table.now id symbol.now }
{
    !is_n(visibility) || met_default(table, id, symbol).is_some()
}

// Whether a symbol outside a choice is written, by its type.
fn own_is_written(table: &Table<'_>, id: SymId, symbol: &Symbol, visibility: Tri) -> bool
    requires row { IsRowOf table.now id symbol.now }
    requires visibility { visibility ≡ spec.visibility table.now id symbol.now }
    ensures { result ≡ spec.written_by_type table.now id symbol.now }
{
    match symbol.symbol_type {
        SymbolType::Undefined => false,
        SymbolType::Bool | SymbolType::Tristate => truth_is_written(table, id, symbol, visibility),
        SymbolType::Str | SymbolType::Int | SymbolType::Hex => text_is_written(
            table, id, symbol, visibility,
        ),
    }
}

/// Whether a symbol of this visibility has a line in the `.config` under these values. It has one if it is visible.
/// Outside a choice, a bool or tristate has one if its default, what it is selected to, or what it is implied to within
/// its direct dependency is not n. A string, int or hex has one if the condition of a default is not n. A symbol
/// without a type has none (kconfiglib's `config_string`). The caller passes the visibility, so that it is computed
/// once.
pub fn written(table: &Table<'_>, id: SymId, symbol: &Symbol, visibility: Tri) -> bool
    requires row { IsRowOf table.now id symbol.now }
    requires visibility { visibility ≡ spec.visibility table.now id symbol.now }
    ensures { result ≡ spec.is_written table.now id symbol.now }
{
    match symbol.choice.get() {
        Some(_) => !is_n(visibility),
        None => own_is_written(table, id, symbol, visibility),
    }
}
