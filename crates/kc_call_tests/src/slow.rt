//! The plain slow solver, with which the tests compare the solver: it computes every value again in each iteration.

ghost use Rattle.std.specs.Prelude.{◌≡◌, ◌<◌, ℕ, length, slice_get, Some, IfOk, IfSome, OnOk, []};
ghost use Rattle.kc_expr.specs.Value.{value_by_type};
ghost use Rattle.kc_language.specs.declared.expressions.Tri.TheVariants.{N};
ghost use Rattle.kc_language.specs.Values.{IsOnlySolution, Solves, SymbolPlace, equations, name_count};
ghost use Rattle.kc_solve.specs.Computing.{IsComputedSymbol, IsUnread};
ghost use Rattle.kc_solve.specs.PlaceLists.{places};
ghost use Rattle.kc_solve.specs.Kept.{valuation};
ghost use Rattle.kc_language.specs.ConfigFile.{ArePlacesOf, place_at};
ghost use Rattle.kc_values.specs.AtTable as at;
ghost use Rattle.kc_language.specs.Needs.{IsAccepted};
ghost use Rattle.kc_values.specs.Selections.{given_for, member_given};
ghost use Rattle.kc_values.specs.Table.{known_value};
ghost use Rattle.kc_values.specs.TableFacts.{IsRowOf};

use kc_expr::expression::{SymId, SymbolType, Tri};
use kc_tree::laid_tree::LaidTree;
use kc_tree::layout::Layout;
use kc_tree::rows::{ChoiceId, Symbol};
use kc_tree::tree::Tree;
use kc_user::sparse::SparseVec;
use kc_user::user::User;
use kc_user::value::UserValue;
use kc_values::choices::selected_in;
use kc_values::equation::own_equation;
use kc_values::laws::accepted_have_one_solution;
use kc_values::table::{Table, Value};
use kc_values::value_list::ValueList;
use std::alloc::{AllocError, Global};

// The row of a symbol.
fn symbol_row(layout: &Layout, id: SymId) -> &Symbol
    requires { id.0 < length layout.now.symbols.items }
    ensures { slice_get layout.now.symbols.items id.0 ≡ Some result.now }
{
    match layout.symbol(id) {
        Some(symbol) => symbol,
        None => unreachable!(),
    }
}

// n, or the empty text.
fn first_value(alloc: Global, symbol_type: SymbolType) -> Value
    ensures { known_value symbol_type result ≡ value_by_type symbol_type N [] }
{
    match symbol_type {
        SymbolType::Bool => Value::Truth(Tri::N),
        SymbolType::Tristate => Value::Truth(Tri::N),
        SymbolType::Str => Value::Text(Vec::new(alloc)),
        SymbolType::Int => Value::Text(Vec::new(alloc)),
        SymbolType::Hex => Value::Text(Vec::new(alloc)),
        SymbolType::Undefined => Value::Text(Vec::new(alloc)),
    }
}

// A table of n and empty texts.
fn first_values(alloc: Global, tree: &Tree) -> Result<ValueList, AllocError>
    ensures { IfOk result (λ v. length v ≡ name_count tree.now) }
{
    let count = tree.name_count();
    let mut values = ValueList::empty(alloc, count)?;
    for i in 0..count {
        let symbol_type = symbol_row(tree.layout(), SymId(i)).symbol_type;
        values.set(i, Some(first_value(alloc, symbol_type)))?;
    }
    Ok(values)
}

// A table of n and empty texts, where nothing is computed that names a symbol.
fn first_table<'t>(alloc: Global, laid: &LaidTree<'t>) -> Result<Table<'t>, AllocError>
    ensures tree { IfOk result (λ t. t.tree.now ≡ laid.now.tree.now) }
    ensures count { IfOk result (λ t. length t.values ≡ name_count laid.now.tree.now) }
    ensures unread { IfOk result (λ t. (s : ℕ) → IsUnread t s) }
{
    let mut table = Table::empty(alloc, laid)?;
    table.values = first_values(alloc, laid.tree)?;
    Ok(table)
}

// The value of a member of a choice: y if it is selected. Computes the selection again.
fn member_value(table: &Table, id: SymId, choice: ChoiceId, chosen: &[Option<SymId>]) -> Tri
    requires { choice.0 < length chosen.now }
    ensures { result ≡ at.member_equation table.now id choice.0 (member_given chosen.now choice.0) }
{
    match selected_in(table, choice, chosen[choice.0 as usize]) {
        Some(member) if member.0 == id.0 => Tri::Y,
        _ => Tri::N,
    }
}

// The value of the equation of a symbol, under the values of the table.
fn value_anew(
    alloc: Global,
    table: &Table,
    id: SymId,
    symbol: &Symbol,
    given: &SparseVec<UserValue>,
    chosen: &[Option<SymId>],
) -> Result<Value, AllocError>
    requires row { IsRowOf table.now id symbol.now }
    requires users { IfSome symbol.now.choice (λ c. c.0 < length chosen.now) }
    ensures { IfOk result (λ x. known_value symbol.now.symbol_type x
        ≡ at.equation table.now id symbol.now (given_for symbol.now.choice (places given.now chosen.now (SymbolPlace id.0)) chosen.now)) }
{
    let own = given.get(id.0);
    match symbol.choice.get() {
        Some(choice) => Ok(Value::Truth(member_value(table, id, choice, chosen))),
        None => {
            let value = own_equation(alloc, table, id, symbol, own)?;
            Ok(value)
        }
    }
}

// Stores the value of the equation of a symbol, under the values of the table.
fn compute_anew(
    alloc: Global,
    table: &mut Table<'_>,
    id: SymId,
    given: &SparseVec<UserValue>,
    chosen: &[Option<SymId>],
) -> Result<(), AllocError>
    requires defined { id.0 < length table.old.values }
    requires full { length table.old.values ≡ name_count table.old.tree.now }
    requires given { length given.now ≡ length table.old.values }
    requires chosen { length chosen.now ≡ length table.old.tree.now.choices }
    requires unread { IsUnread table.old id.0 }
    ensures { OnOk result (IsComputedSymbol given.now chosen.now id table.old table.new) }
{
    // A member's choice exists in the tree: this follows from `name_count`.
    let _count = table.tree.name_count();
    let symbol = symbol_row(table.layout, id);
    let value = value_anew(alloc, table, id, symbol, given, chosen)?;
    table.values.set(id.0, Some(value))?;
    Ok(())
}

/// Computes the values that [`kc_solve::solve::solve`] computes, in the plainest way. In a table of n and empty texts
/// it computes every equation again, one symbol after another in the order of their first mention, in as many
/// iterations as there are symbols (our own). The caller must pass a tree without dependency loops, and user values of
/// that tree. Fails only if there is not enough memory.
pub(crate) fn slow_table<'t>(
    alloc: Global,
    laid: &LaidTree<'t>,
    user: &User,
) -> Result<Table<'t>, AllocError>
    requires accepted { IsAccepted laid.now.tree.now }
    requires user { ArePlacesOf laid.now.tree.now user.now }
    ensures tree { IfOk result (λ t. t.tree.now ≡ laid.now.tree.now) }
    ensures count { IfOk result (λ t. length t.values ≡ name_count laid.now.tree.now) }
    ensures solves { IfOk result (λ t. Solves (name_count laid.now.tree.now) (equations laid.now.tree.now (place_at user.now)) (valuation laid.now.tree.now t.values)) }
    ensures only { IfOk result (λ t. IsOnlySolution (name_count laid.now.tree.now) (equations laid.now.tree.now (place_at user.now)) (valuation laid.now.tree.now t.values)) }
{
    accepted_have_one_solution();
    let count = laid.tree.name_count();
    let given = user.symbols();
    let chosen = user.choices();
    let mut table = first_table(alloc, laid)?;
    for _iteration in 0..count {
        for i in 0..count {
            compute_anew(alloc, &mut table, SymId(i), given, chosen)?;
        }
    }
    Ok(table)
}
