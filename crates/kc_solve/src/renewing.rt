//! The table for further user values, from the one for other ones: only what may be worth something else is computed.

ghost use Rattle.std.specs.Prelude.{◌≡◌, false, slice_index_or, true, IfOk, OnOk};
ghost use Rattle.kc_language.specs.ConfigFile.{ArePlacesOf, place_at};
ghost use Rattle.kc_tree.specs.Layouts.{place_of};
ghost use Rattle.kc_values.specs.Table.{known_in};
ghost use Rattle.kc_solve.specs.Again.{IsKeptOf, IsPlanOf};
ghost use Rattle.kc_solve.specs.Computing.{IsComputedSymbol, IsSolvedTable};
ghost use Rattle.kc_solve.specs.PlaceLists.{places};
ghost use Rattle.kc_solve.specs.Renewing.{IsNextSymbol, IsAskedAlike, IsTableFrom, SolvesAt};

use crate::asked::{UserLists, chosen_of, is_asked_alike};
use crate::compute::{kept_value, symbol_row};
use crate::plan::Plan;
use crate::slots::{ChosenMembers, KeptSlots};
use kc_expr::expression::SymId;
use kc_tree::laid_tree::LaidTree;
use kc_tree::layout::Layout;
use kc_tree::rows::EntryId;
use kc_user::user::User;
use kc_values::nodes::{Node, node_of};
use kc_values::table::Table;
use kc_values::value_list::ValueList;
use std::alloc::{AllocError, Global};

/// The values of a solution, what else was computed for it, and the user values that it is for (our own).
#[derive(Drop)]
pub struct Kept {
    pub(crate) values: ValueList,
    pub(crate) slots: KeptSlots,
    pub(crate) user: User,
}

// Whether a node is marked.
fn is_marked(marks: &[bool], node: u32) -> bool
    ensures { result ≡ slice_index_or marks.now node true }
{
    match marks.get(node as usize) {
        Some(mark) => *mark,
        None => true,
    }
}

// Computes the value of the next symbol. Returns whether it is another than before.
fn recompute_symbol(
    alloc: Global,
    table: &mut Table<'_>,
    id: SymId,
    user: &UserLists<'_>,
) -> Result<bool, AllocError>
    requires { IsNextSymbol user.now.values.now user.now.members.now id table.old }
    ensures computed { OnOk result (IsComputedSymbol user.now.values.now user.now.members.now id table.old table.new) }
    ensures same { IfOk result (λ changed. changed ≡ false → known_in table.old.tree.now table.new.values id ≡ known_in table.old.tree.now table.old.values id) }
{
    let symbol = symbol_row(table.layout, id);
    let own = user.values.get(id.0);
    let value = kept_value(alloc, table, id, symbol, own, user.members)?;
    if table.values.holds(id.0, &value) {
        return Ok(false);
    }
    table.values.set(id.0, value)?;
    Ok(true)
}

// Renews the value of the next symbol. Returns whether it is another than before. Its equation gives the same as before for the
// same user values, unless it is marked.
fn renew_symbol(
    alloc: Global,
    table: &mut Table<'_>,
    id: SymId,
    before: &UserLists<'_>,
    now: &UserLists<'_>,
    is_marked: bool,
) -> Result<bool, AllocError>
    requires next { IsNextSymbol now.now.values.now now.now.members.now id table.old }
    requires same { is_marked ≡ false → IsAskedAlike before.now now.now id table.old → SolvesAt table.old.tree.now (places now.now.values.now now.now.members.now) table.old.values id.0 }
    ensures computed { OnOk result (IsComputedSymbol now.now.values.now now.now.members.now id table.old table.new) }
    ensures same { IfOk result (λ changed. changed ≡ false → known_in table.old.tree.now table.new.values id ≡ known_in table.old.tree.now table.old.values id) }
{
    if !is_marked && is_asked_alike(before, now, id, symbol_row(table.layout, id)) {
        return Ok(false);
    }
    recompute_symbol(alloc, table, id, now)
}

// Whether an entry is its own context: only then its row says all that it reads.
fn is_own_context(layout: &Layout, at: EntryId) -> bool
    ensures { result ≡ true → (place_of layout.now at.0).context.0 ≡ at.0 }
{
    layout.place(at).context.0 == at.0
}

// A table with the values before, where nothing else is computed but the top.
fn table_from<'t>(
    alloc: Global,
    laid: &LaidTree<'t>,
    values: ValueList,
) -> Result<Table<'t>, AllocError>
    ensures { IfOk result (IsTableFrom laid.now values) }
{
    let mut table = Table::empty(alloc, laid)?;
    table.values = values;
    Ok(table)
}

/// The table for these user values, from what is kept of the one before. A node is marked if one that it reads is worth something
/// else. Only the symbols that are marked or that ask for another user value are computed, and of the other nodes those that are
/// marked. The others are worth what they were.
pub(crate) fn renewed<'t>(
    alloc: Global,
    laid: &LaidTree<'t>,
    plan: &Plan,
    kept: Kept,
    user: &User,
) -> Result<Table<'t>, AllocError>
    requires plan { IsPlanOf laid.now plan.now }
    requires kept { IsKeptOf laid.now kept }
    requires user { ArePlacesOf laid.now.tree.now user.now }
    ensures solved { IfOk result (IsSolvedTable laid.now.tree.now (place_at user.now) user.now.choices) }
    ensures layout { IfOk result (λ t. t.layout.now ≡ laid.now.layout.now) }
{
    let Kept {
        values,
        slots,
        user: asked,
    } = kept;
    let before = UserLists {
        values: asked.symbols(),
        members: asked.choices(),
    };
    let now = UserLists {
        values: user.symbols(),
        members: user.choices(),
    };
    let mut table = table_from(alloc, laid, values)?;
    let mut marks = vec![in alloc; false; plan.count()]?;
    for node in &plan.nodes {
        let is_marked = is_marked(&marks, *node);
        let may_differ = match node_of(table.layout, *node) {
            Node::Symbol(id) => renew_symbol(alloc, &mut table, id, &before, &now, is_marked)?,
            Node::Visible(id) => slots.renew_visible(&mut table, id, is_marked),
            Node::Context(id) => {
                let is_stale = is_marked || !is_own_context(table.layout, id);
                slots.renew_context(&mut table, id, is_stale)
            }
            Node::Dependency(id) => slots.renew_dependency(&mut table, id, is_marked),
            Node::Choice(id) => {
                let chosen = ChosenMembers {
                    before: chosen_of(before.members, id),
                    members: now.members,
                };
                slots.renew_selection(&mut table, id, &chosen, is_marked)
            }
        };
        if may_differ {
            plan.mark_readers(*node, &mut marks);
        }
    }
    Ok(table)
}
