//! Sources of values, conditions of prompts, and modes of choices, under the values of a full table.

ghost use Rattle.std.specs.Prelude.{◌≡◌, ◌<◌, length};
ghost use Rattle.std.specs.List.{flat_map};
ghost use Rattle.kc_language.specs.ConfigFile.{ArePlacesOf};
ghost use Rattle.kc_language.specs.Symbols.{listed};
ghost use Rattle.kc_language.specs.Values.{facts, name_count};
ghost use Rattle.kc_solve.specs.Flags.{selected_by};
ghost use Rattle.kc_solve.specs.Sources.{row_source};
ghost use Rattle.kc_values.specs.AtTable as at;
ghost use Rattle.kc_values.specs.TableFacts.{IsRowOf};

use crate::flags::{at_choice, choice_count};
use kc_expr::expression::{SymId, Tri};
use kc_language::sources::Source;
use kc_tree::rows::{ChoiceId, Symbol};
use kc_user::user::User;
use kc_values::conditions::mode_of;
use kc_values::sources::{member_source, own_source};
use kc_values::table::Table;
use kc_values::truths::prompts_condition;

/// Where the value of a symbol comes from under the values of a full table and the user values of that tree. The caller
/// passes the selections.
pub(crate) fn symbol_source(
    table: &Table,
    user: &User,
    id: SymId,
    symbol: &Symbol,
    selections: &[Option<SymId>],
) -> Source
    requires row { IsRowOf table.now id symbol.now }
    requires full { length table.now.values ≡ name_count table.now.tree.now }
    requires below { id.0 < name_count table.now.tree.now }
    requires user { ArePlacesOf table.now.tree.now user.now }
    requires selections { selections.now ≡ selected_by table.now user.now }
    ensures { result ≡ row_source table.now user.now id symbol.now }
{
    let _count = table.tree.name_count();
    match symbol.choice.get() {
        Some(choice) => {
            let given = user.selected(choice);
            member_source(table, choice, given, at_choice(selections, choice))
        }
        None => own_source(table, id, symbol, user.get(id)),
    }
}

/// The mode of the choice of this number; n if there is none.
pub(crate) fn mode_at(table: &Table, choice: usize) -> Tri
    ensures { result ≡ at.mode_of table.now choice }
{
    let count = choice_count(table.tree);
    if choice < count {
        mode_of(table, ChoiceId(choice as u32))
    } else {
        Tri::N
    }
}

/// The greatest condition of the prompts of the symbol of this number; n if there is none.
pub(crate) fn prompts_condition_at(table: &Table, id: SymId) -> Tri
    ensures { result ≡ at.conditions table.now (flat_map (λ f. f.prompts) (listed (facts table.now.tree.now id))) }
{
    match table.layout.symbol(id) {
        Some(symbol) => prompts_condition(table, id, symbol),
        None => Tri::N,
    }
}
