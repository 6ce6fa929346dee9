//! The selections of choices and the flags of symbols, under the values of a full table.

ghost use Rattle.std.specs.Prelude.{◌≡◌, ◌<◌, ◌&&◌, false, length, map, not, option_map, slice_index_or, None, Some, true, IfOk, IfSome};
ghost use Rattle.std.specs.Option.{is_some};
ghost use Rattle.kc_language.specs.Values.{ChoicePlace, Solves, is_chosen, is_n, name_count, equations};
ghost use Rattle.kc_solve.specs.Flags as flag;
ghost use Rattle.kc_solve.specs.Flags.{row_differs, IsSolvedAt, IsSolvedRow};
ghost use Rattle.kc_solve.specs.FlagLists.{AreSelectionsOf};
ghost use Rattle.kc_language.specs.ConfigFile.{ArePlacesOf, place_at};
ghost use Rattle.kc_user.specs.PartsOfConfigFile.{member_place};
ghost use Rattle.kc_values.specs.AtTable as at;
ghost use Rattle.kc_values.specs.Table.{tri_in, value_in};
ghost use Rattle.kc_values.specs.TableFacts.{AreSelected, IsRowOf};
ghost use Rattle.kc_values.specs.User.{given_in};
ghost use Rattle.kc_diagnostics.specs.Warnings.{owned_warning};
ghost use Rattle.kc_values.specs.PartsOfTexts.{warnings_of_values as value_warnings};

use crate::compute::symbol_row;
use crate::solved::is_written;
use kc_diagnostics::Warning;
use kc_expr::expression::{SymId, SymbolType, Tri};
use kc_expr::values::Values;
use kc_tree::rows::{ChoiceId, Symbol};
use kc_tree::tree::Tree;
use kc_user::user::User;
use kc_user::value::UserValue;
use kc_values::answers::{can_change, has_other, is_visible};
use kc_values::choices::{selected_in, selection};
use kc_values::differs::{can_count, member_differs, own_differs};
use kc_values::table::Table;
use kc_values::truths::visibility;
use kc_values::warnings::warnings_into;
use std::alloc::{AllocError, Global};

/// The number of choices in a tree.
pub(crate) fn choice_count(tree: &Tree) -> usize
    ensures { result ≡ length tree.now.choices }
{
    tree.choices().len()
}

// The selection of a choice without the user's member. It is the given selection if the user chose no member.
fn default_of(
    table: &Table,
    choice: ChoiceId,
    given: Option<SymId>,
    selection: Option<SymId>,
) -> Option<SymId>
    requires { selection ≡ at.selected table.now choice.0 (member_place given) }
    ensures { result ≡ at.selected table.now choice.0 None }
{
    match given {
        Some(_) => selected_in(table, choice, None),
        None => selection,
    }
}

/// The selection of each choice, by number.
#[derive(Drop)]
pub(crate) struct ChoiceSelections {
    /// The selection.
    pub selected: Vec<Option<SymId>>,
    /// The default selection: the one without the user's member.
    pub default: Vec<Option<SymId>>,
}

impl ChoiceSelections {
    ghost use Rattle.std.specs.Prelude.{◌≡◌, ◌<◌, None, length, slice_index_or};

    /// The selection of a choice.
    pub(crate) fn selected(&self, choice: ChoiceId) -> Option<SymId>
        requires { choice.0 < length self.now.selected.items }
        ensures { result ≡ slice_index_or self.now.selected.items choice.0 None }
    {
        at_choice(&self.selected, choice)
    }

    /// The default selection of a choice.
    pub(crate) fn default(&self, choice: ChoiceId) -> Option<SymId>
        requires { choice.0 < length self.now.default.items }
        ensures { result ≡ slice_index_or self.now.default.items choice.0 None }
    {
        at_choice(&self.default, choice)
    }
}

/// Returns the selection of each choice under the values of a full table and the user values of that tree. Uses what
/// the table has computed.
pub(crate) fn selections(
    alloc: Global,
    table: &Table,
    user: &User,
) -> Result<ChoiceSelections, AllocError>
    requires full { length table.now.values ≡ name_count table.now.tree.now }
    requires user { ArePlacesOf table.now.tree.now user.now }
    requires selected { AreSelected table.now user.now.choices }
    ensures { IfOk result (AreSelectionsOf table.now user.now) }
{
    let count = choice_count(table.tree);
    let mut selected = Vec::with_capacity(alloc, count)?;
    let mut default = Vec::with_capacity(alloc, count)?;
    for c in 0..count {
        let choice = ChoiceId(c as u32);
        let given = user.selected(choice);
        let selection = selection(table, choice, given);
        selected.push(selection)?;
        default.push(default_of(table, choice, given, selection))?;
    }
    Ok(ChoiceSelections { selected, default })
}

/// The selection of a choice in the list.
pub(crate) fn at_choice(selections: &[Option<SymId>], choice: ChoiceId) -> Option<SymId>
    requires { choice.0 < length selections.now }
    ensures { result ≡ slice_index_or selections.now choice.0 None }
{
    selections[choice.0 as usize]
}

/// The flag of a symbol in the list, or false if it has none.
pub(crate) fn at_symbol(flags: &[bool], id: SymId) -> bool
    ensures { result ≡ slice_index_or flags.now id.0 false }
{
    id.0 < flags.len() && flags[id.0]
}

/// A symbol and its row, with the table that says what it is worth.
#[derive(Clone, Copy)]
pub(crate) struct TableRow<'t> {
    pub table: &'t Table<'t>,
    pub id: SymId,
    pub symbol: &'t Symbol,
}

// Whether a user value can have an effect on a symbol. Its visibility is computed only if there is one.
fn has_effect(row: &TableRow<'_>, user: Option<&UserValue>) -> bool
    requires { IsRowOf row.now.table.now row.now.id row.now.symbol.now }
    ensures { result ≡ (is_some (given_in user.entry) && not (is_n (at.visibility row.now.table.now row.now.id row.now.symbol.now))) }
{
    match user {
        Some(_) => can_count(user, visibility(row.table, row.id, row.symbol)),
        None => false,
    }
}

// Whether a symbol differs. A symbol whose user value has no effect does not: its equation gives its value without it.
fn symbol_differs(
    alloc: Global,
    row: &TableRow<'_>,
    user: Option<&UserValue>,
    selections: &ChoiceSelections,
) -> Result<bool, AllocError>
    requires row { IsRowOf row.now.table.now row.now.id row.now.symbol.now }
    requires selections { IfSome row.now.symbol.now.choice (λ c. c.0 < length selections.now.selected.items) }
    requires defaults { IfSome row.now.symbol.now.choice (λ c. c.0 < length selections.now.default.items) }
    requires solved { IsSolvedRow row.now.table.now row.now.id row.now.symbol.now (given_in user) }
    ensures { IfOk result (λ b. b ≡ row_differs row.now.table.now row.now.id row.now.symbol.now selections.now.selected.items selections.now.default.items) }
{
    match row.symbol.choice.get() {
        Some(choice) => Ok(member_differs(
            selections.selected(choice),
            selections.default(choice),
            row.id,
        )),
        None => {
            if has_effect(row, user) {
                own_differs(alloc, row.table, row.id, row.symbol)
            } else {
                Ok(false)
            }
        }
    }
}

// Whether the choice of this visible member has a visible member other than the given default selection. Any other
// member is one itself. So the members are searched only for the default selection: once for each choice.
fn has_other_by(row: &TableRow<'_>, choice: ChoiceId, default: Option<SymId>) -> bool
    requires row { IsRowOf row.now.table.now row.now.id row.now.symbol.now }
    requires member { row.now.symbol.now.choice ≡ Some choice }
    requires visible { at.is_visible row.now.table.now row.now.id row.now.symbol.now ≡ true }
    requires default { default ≡ at.selected row.now.table.now choice.0 None }
    ensures { result ≡ at.has_other row.now.table.now choice.0 }
{
    match default {
        Some(selected) if selected.0 != row.id.0 => true,
        _ => has_other(row.table, choice, default),
    }
}

// Whether a choice selects the member that the user chose.
fn is_chosen(given: Option<SymId>, selected: Option<SymId>) -> bool
    ensures { result ≡ is_chosen selected (member_place given) }
{
    match (given, selected) {
        (Some(member), Some(selected)) => member.0 == selected.0,
        _ => false,
    }
}

// Whether a member without a user value is new. The caller passes its choice's selection and default selection.
fn member_is_new(
    row: &TableRow<'_>,
    user: &User,
    choice: ChoiceId,
    selected: Option<SymId>,
    default: Option<SymId>,
) -> bool
    requires row { IsRowOf row.now.table.now row.now.id row.now.symbol.now }
    requires member { row.now.symbol.now.choice ≡ Some choice }
    requires user { choice.0 < length user.now.choices }
    requires selected { selected ≡ at.selected row.now.table.now choice.0 (place_at user.now (ChoicePlace choice.0)) }
    requires default { default ≡ at.selected row.now.table.now choice.0 None }
    ensures { result ≡ flag.member_is_new row.now.table.now user.now row.now.id row.now.symbol.now choice.0 }
{
    is_visible(row.table, row.id, row.symbol)
        && !is_chosen(user.selected(choice), selected)
        && has_other_by(row, choice, default)
}

/// Whether a symbol is new under the values of a full table and the user values of that tree: no line answered its
/// question. The caller passes the selections and the default selections.
pub(crate) fn symbol_is_new(row: &TableRow<'_>, user: &User, selections: &ChoiceSelections) -> bool
    requires row { IsRowOf row.now.table.now row.now.id row.now.symbol.now }
    requires full { length row.now.table.now.values ≡ name_count row.now.table.now.tree.now }
    requires below { row.now.id.0 < name_count row.now.table.now.tree.now }
    requires user { ArePlacesOf row.now.table.now.tree.now user.now }
    requires selections { AreSelectionsOf row.now.table.now user.now selections.now }
    ensures { result ≡ flag.row_is_new row.now.table.now user.now row.now.id row.now.symbol.now }
{
    let _count = row.table.tree.name_count();
    if user.get(row.id).is_some() {
        return false;
    }
    match row.symbol.choice.get() {
        Some(choice) => member_is_new(
            row,
            user,
            choice,
            selections.selected(choice),
            selections.default(choice),
        ),
        None => can_change(row.table, row.id, row.symbol),
    }
}

/// Returns whether each symbol differs under the values of a full table that solves, the user values of that tree, and the
/// selections, by number: its value is not what its equation gives without its user value. A member differs if it is
/// selected and is not the default selection.
pub(crate) fn differing_of(
    alloc: Global,
    table: &Table,
    user: &User,
    selections: &ChoiceSelections,
) -> Result<Vec<bool>, AllocError>
    requires full { length table.now.values ≡ name_count table.now.tree.now }
    requires user { ArePlacesOf table.now.tree.now user.now }
    requires solves { Solves (name_count table.now.tree.now) (equations table.now.tree.now (place_at user.now)) (flag.values_in table.now) }
    requires selections { AreSelectionsOf table.now user.now selections.now }
    ensures { IfOk result (λ differing. differing.items ≡ flag.differing_by table.now user.now) }
{
    let count = table.tree.name_count();
    let mut differing = Vec::with_capacity(alloc, count)?;
    for i in 0..count {
        let id = SymId(i);
        let symbol = symbol_row(table.layout, id);
        let own = user.get(id);
        let row = TableRow {
            table: &*table,
            id,
            symbol,
        };
        let differs = symbol_differs(alloc, &row, own, selections)?;
        differing.push(differs)?;
    }
    Ok(differing)
}

// Whether each symbol has a line in the `.config`, by number, under the values of a full table that solves.
fn all_written(alloc: Global, table: &Table) -> Result<Vec<bool>, AllocError>
    requires full { length table.now.values ≡ name_count table.now.tree.now }
    requires solved { (id : SymId) → IsSolvedAt table.now id }
    ensures { IfOk result (λ written. written.items ≡ flag.written_in table.now) }
{
    let count = table.tree.name_count();
    let mut written = Vec::with_capacity(alloc, count)?;
    for i in 0..count {
        written.push(is_written(table, SymId(i)))?;
    }
    Ok(written)
}

/// Returns whether each symbol has a line in the `.config`, by number, under the values of a full table that solves, if
/// that is to be kept.
pub(crate) fn written_if(
    alloc: Global,
    table: &Table,
    is_kept: bool,
) -> Result<Option<Vec<bool>>, AllocError>
    requires full { length table.now.values ≡ name_count table.now.tree.now }
    requires solved { (id : SymId) → IsSolvedAt table.now id }
    ensures { IfOk result (λ kept. IfSome (option_map (λ v. v.items) kept) (λ written. written ≡ flag.written_in table.now)) }
{
    if is_kept {
        Ok(Some(all_written(alloc, table)?))
    } else {
        Ok(None)
    }
}

// Whether a symbol is a bool or tristate that is n.
fn is_off(table: &Table<'_>, id: SymId, symbol: &Symbol) -> bool
    ensures { result ≡ flag.is_off symbol.now.symbol_type (tri_in (value_in table.now.values id)) }
{
    match symbol.symbol_type {
        SymbolType::Bool | SymbolType::Tristate => matches!(table.tri(id), Tri::N),
        _ => false,
    }
}

/// Returns the warnings of the defined symbols under the values of a full table that solves and the user values of that
/// tree, in the order of first definitions. A bool or tristate that is n has none, because it is not selected.
pub(crate) fn warnings_of(
    alloc: Global,
    table: &Table,
    user: &User,
) -> Result<Vec<Warning<Vec<u8>>>, AllocError>
    requires full { length table.now.values ≡ name_count table.now.tree.now }
    requires user { ArePlacesOf table.now.tree.now user.now }
    requires solves { Solves (name_count table.now.tree.now) (equations table.now.tree.now (place_at user.now)) (flag.values_in table.now) }
    ensures { IfOk result (λ v. map owned_warning v.items ≡ value_warnings table.now.tree.now (place_at user.now) (flag.values_in table.now)) }
{
    let mut warnings = Vec::new(alloc);
    for id in table.layout.defined() {
        let symbol = symbol_row(table.layout, *id);
        if !is_off(table, *id, symbol) {
            let own = user.get(*id);
            warnings_into(alloc, table, *id, symbol, own, &mut warnings)?;
        }
    }
    Ok(warnings)
}
