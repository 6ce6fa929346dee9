//! The table of values, computed once in an order of the nodes.

ghost use Rattle.std.specs.Prelude.{◌≡◌, ◌<◌, length, slice_get, Some, IfOk, OnOk};
ghost use Rattle.kc_language.specs.Values.{name_count};
ghost use Rattle.kc_solve.specs.Computing.{equation_at, place_value, IsComputedSymbol, IsComputedVisible, IsComputedContext, IsComputedDependency, IsComputedSelection, IsSolvedTable, IsUnread};
ghost use Rattle.kc_solve.specs.Orders.{IsNodeOrder};
ghost use Rattle.kc_solve.specs.PlaceLists.{places};
ghost use Rattle.kc_language.specs.Values as lookup;
ghost use Rattle.kc_values.specs.TableFacts.{AreSelected, IsRowOf};
ghost use Rattle.kc_values.specs.User.{given_in};

use kc_expr::expression::{SymId, SymbolType};
use kc_tree::laid_tree::LaidTree;
use kc_tree::layout::Layout;
use kc_tree::rows::{ChoiceId, EntryId, Symbol, VisibleId};
use kc_user::sparse::SparseVec;
use kc_user::value::UserValue;
use kc_values::choices::selected_in;
use kc_values::conditions::{choice_dependency, context, visible_context};
use kc_values::equation::equation;
use kc_values::nodes::{Node, node_of};
use kc_values::table::{Table, Value};
use std::alloc::{AllocError, Global};

/// The row of a symbol.
pub(crate) fn symbol_row(layout: &Layout, id: SymId) -> &Symbol
    requires { id.0 < length layout.now.symbols.items }
    ensures { slice_get layout.now.symbols.items id.0 ≡ Some result.now }
{
    match layout.symbol(id) {
        Some(symbol) => symbol,
        None => unreachable!(),
    }
}

/// The value to store for a symbol: what its equation gives. A symbol without a type has its name as its value. An empty
/// place means the same, so nothing is stored for it.
pub(crate) fn kept_value(
    alloc: Global,
    table: &Table<'_>,
    id: SymId,
    symbol: &Symbol,
    given: Option<&UserValue>,
    chosen: &[Option<SymId>],
) -> Result<Option<Value>, AllocError>
    requires row { IsRowOf table.now id symbol.now }
    requires selected { AreSelected table.now chosen.now }
    ensures { IfOk result (λ x. place_value symbol.now.symbol_type (lookup.name table.now.tree.now id) x ≡ equation_at table.now id symbol.now (given_in given.entry) chosen.now) }
{
    if let SymbolType::Undefined = symbol.symbol_type {
        return Ok(None);
    }
    let value = equation(alloc, table, id, symbol, given, chosen)?;
    Ok(Some(value))
}

// Computes the value of the next symbol.
fn compute_symbol(
    alloc: Global,
    table: &mut Table<'_>,
    id: SymId,
    given: &SparseVec<UserValue>,
    chosen: &[Option<SymId>],
) -> Result<(), AllocError>
    requires there { id.0 < length table.old.values }
    requires given { length given.now ≡ length table.old.values }
    requires full { length table.old.values ≡ name_count table.old.tree.now }
    requires selected { AreSelected table.old chosen.now }
    requires unread { IsUnread table.old id.0 }
    ensures { OnOk result (IsComputedSymbol given.now chosen.now id table.old table.new) }
{
    let symbol = symbol_row(table.layout, id);
    let own = given.get(id.0);
    let value = kept_value(alloc, table, id, symbol, own, chosen)?;
    table.values.set(id.0, value)?;
    Ok(())
}

/// Computes what the next menu asks of what is visible.
pub(crate) fn compute_visible(table: &mut Table<'_>, id: VisibleId)
    requires { id.0 < length table.old.visibles.items }
    ensures { IsComputedVisible id.0 table.old table.new }
{
    let value = visible_context(table, id);
    table.visibles[id.0 as usize] = Some(value);
}

/// Computes what the next entry depends on.
pub(crate) fn compute_context(table: &mut Table<'_>, id: EntryId)
    requires { id.0 < length table.old.contexts.items }
    ensures { IsComputedContext id.0 table.old table.new }
{
    let value = context(table, id);
    table.contexts[id.0 as usize] = Some(value);
}

/// Computes what the next choice depends on itself.
pub(crate) fn compute_dependency(table: &mut Table<'_>, id: ChoiceId)
    requires { id.0 < length table.old.dependencies.items }
    ensures { IsComputedDependency id.0 table.old table.new }
{
    let value = choice_dependency(table, id);
    table.dependencies[id.0 as usize] = Some(value);
}

/// Computes what the next choice selects.
pub(crate) fn compute_selection(table: &mut Table<'_>, id: ChoiceId, chosen: &[Option<SymId>])
    requires there { id.0 < length table.old.selections.items }
    requires chosen { id.0 < length chosen.now }
    ensures { IsComputedSelection chosen.now id.0 table.old table.new }
{
    let place = id.0 as usize;
    let selection = selected_in(table, id, chosen[place]);
    table.selections[place] = Some(selection);
}

/// Computes the values of a tree's symbols in an order of them and of their contexts and choices, each once. The
/// resulting table solves the equations for the user values and the member chosen for each choice.
pub(crate) fn compute<'t>(
    alloc: Global,
    laid: &LaidTree<'t>,
    nodes: &[u32],
    given: &SparseVec<UserValue>,
    chosen: &[Option<SymId>],
) -> Result<Table<'t>, AllocError>
    requires order { IsNodeOrder laid.now.tree.now laid.now.layout.now nodes.now }
    requires given { length given.now ≡ name_count laid.now.tree.now }
    requires chosen { length chosen.now ≡ length laid.now.tree.now.choices }
    ensures solved { IfOk result (IsSolvedTable laid.now.tree.now (places given.now chosen.now) chosen.now) }
    ensures layout { IfOk result (λ t. t.layout.now ≡ laid.now.layout.now) }
{
    let mut table = Table::empty(alloc, laid)?;
    for node in nodes {
        match node_of(table.layout, *node) {
            Node::Symbol(id) => compute_symbol(alloc, &mut table, id, given, chosen)?,
            Node::Visible(id) => compute_visible(&mut table, id),
            Node::Context(id) => compute_context(&mut table, id),
            Node::Dependency(id) => compute_dependency(&mut table, id),
            Node::Choice(id) => compute_selection(&mut table, id, chosen),
        }
    }
    Ok(table)
}
