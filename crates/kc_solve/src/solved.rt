//! The solution of a tree's equations for the user values, and what follows from it.

ghost use Rattle.std.specs.Prelude.{◌≡◌, ◌<◌, length, map, option_and_then, slice_get, IfSome};
ghost use Rattle.kc_expr.specs.PartsOfExpressions.{text_of_value};
ghost use Rattle.kc_values.specs.PartsOfValues.{written_facts};
ghost use Rattle.kc_values.specs.Small.{HasSmallBounds};
ghost use Rattle.kc_tree.specs.Places.{mode_view};
ghost use Rattle.kc_values.specs.Table.{tri_in, value_in};
ghost use Rattle.kc_values.specs.TableFacts.{known_at};
ghost use Rattle.kc_solve.specs.Answers as spec;
ghost use Rattle.kc_solve.specs.Flags as flag;
ghost use Rattle.kc_solve.specs.Flags.{IsSolvedAt};
ghost use Rattle.kc_diagnostics.specs.Warnings.{owned_warning};
ghost use Rattle.kc_language.specs.Sources.{source};
ghost use Rattle.kc_language.specs.Texts.{IsSolution, known, value_warnings};
ghost use Rattle.kc_solve.specs.SolvedLaws.{IsMinimal, IdempotentWhere};
ghost use Rattle.kc_solve.specs.Answers.{TellsKnown};
ghost use Rattle.kc_solve.specs.Tables.{IsTableOf};
ghost use Rattle.kc_language.specs.Needs.{IsAccepted};
ghost use Rattle.kc_language.specs.Values.{active_range, choice_at, facts, mode_of, name_count};

use crate::compute::symbol_row;
use crate::flags::{ChoiceSelections, TableRow, at_symbol, symbol_is_new};
use crate::sources::{mode_at, prompts_condition_at, symbol_source};
use kc_diagnostics::Warning;
use kc_expr::expression::{SymId, SymbolType, Tri};
use kc_expr::values::{Values, tri_text, truth_of};
use kc_language::sources::Source;
use kc_tree::rows::{ChoiceId, Symbol};
use kc_tree::tree::Tree;
use kc_user::user::User;
use kc_values::laws::{idempotent_where, minimal_restores};
use kc_values::numbers::{Interval, active_range};
use kc_values::table::Table;
use kc_values::truths::visibility;
use kc_values::written::written;
use std::marker::Model;

/// The one solution of a tree's equations for the user values, as returned by [`crate::solve::solve`], with the flags
/// and warnings that follow from it. Its methods do not allocate.
#[derive(Drop)]
pub struct Solved<'t, 'u> {
    pub(crate) table: Table<'t>,
    pub(crate) user: &'u User,
    pub(crate) selections: ChoiceSelections,
    pub(crate) differing: Vec<bool>,
    pub(crate) written: Option<Vec<bool>>,
    pub(crate) warnings: Vec<Warning<Vec<u8>>>,
}

impl<'t, 'u> Model for Solved<'t, 'u> {
    ghost use Rattle.std.specs.Prelude.{◌≡◌, map, option_map};
    ghost use Rattle.kc_diagnostics.specs.Warnings.{owned_warning};
    ghost use Rattle.kc_language.specs.Texts.{Solution};
    ghost use Rattle.kc_solve.specs.Kept.{IsSolved, solution_in};
    ghost use Rattle.kc_solve.specs.SolutionCode.{solution_code};

    ghost Value = { Solution };

    ghost coded = { solution_code };

    ghost view = { λ s. solution_in s.table.tree.now s.user.now s.table.values };

    ghost invariant = { λ s. IsSolved s.table.tree.now s.user.now s.table.values s.selections.selected.items s.selections.default.items
        s.differing.items (option_map (λ v. v.items) s.written) (map owned_warning s.warnings.items) };
}

impl<'t, 'u> Solved<'t, 'u> {
    /// The tree that this is a solution of.
    pub fn tree(&self) -> &'t Tree
        ensures { result.now ≡ self.now.tree }
    {
        self.table.tree
    }

    /// The user values that this is the solution for.
    pub fn user(&self) -> &'u User
        ensures { result.now ≡ self.now.places }
    {
        self.user
    }

    /// Law of every solution: its values solve the equations of its tree for its user values, and no other values do.
    pub fn is_solution(&self)
        ensures { IsSolution self.now }
    {
        let _ = &self.table;
    }

    /// The tree is accepted: no symbol needs itself, directly or through others.
    pub fn is_accepted(&self)
        ensures { IsAccepted self.now.tree }
    {
        let _ = &self.table;
    }

    /// Its methods of [`Values`] return what its valuation gives for each symbol.
    pub fn tells_known(&self)
        ensures { TellsKnown self.now }
    {
        let _ = &self.table;
    }

    /// The lines of the symbols that differ restore the values, and no nonempty set of these lines can be left out (our
    /// own).
    pub fn is_minimal(&self)
        ensures { IsMinimal self.now }
    {
        minimal_restores();
        let _count = self.table.tree.name_count();
    }

    /// The allowed written values, as user values, restore the solution if and only if no symbol changes on rereading.
    /// A symbol changes if it is outside a choice, has the type tristate, is visible, and its value is greater than
    /// both its visibility and what it is selected to (our own).
    pub fn is_idempotent_where(&self)
        ensures { IdempotentWhere self.now }
    {
        idempotent_where();
        let _count = self.table.tree.name_count();
    }

    /// The table of the values, beside the layout of the tree: what the conditions of its entries are worth is asked of it (our own).
    pub fn table(&self) -> &Table<'t>
        ensures { IsTableOf self.now result.now }
    {
        &self.table
    }

    /// The visibility of a symbol: the greatest condition of its prompts, with y for m if the symbol can't be m
    /// (kconfiglib's `visibility`). It is computed on each call.
    pub fn visibility(&self, id: SymId) -> Tri
        ensures { result ≡ spec.visibility self.now id }
    {
        visibility_in(&self.table, id)
    }

    /// The greatest condition of the symbol's prompts as written: m stays m even if the symbol can't be m; n if the
    /// tree has no such symbol (our own). It is computed on each call.
    pub fn prompts_condition(&self, id: SymId) -> Tri
        ensures { result ≡ spec.prompts_condition self.now id }
    {
        prompts_condition_at(&self.table, id)
    }

    /// Whether the symbol has a line in the `.config`. It has one if it is visible. Outside a choice, a bool or
    /// tristate has one if its default, what it is selected to, or what it is implied to within its dependency is not
    /// n. A string, int or hex has one if one of its defaults applies. A symbol without a type has none (kconfiglib's
    /// `config_string`). For one of many configurations it is computed on each call.
    pub fn written(&self, id: SymId) -> bool
        ensures { result ≡ spec.written self.now id }
    {
        match &self.written {
            Some(written) => at_symbol(written, id),
            None => is_written(&self.table, id),
        }
    }

    /// The selected member of a choice, if its mode is not n: the user's member if it is visible, otherwise the default
    /// selection (kconfiglib's `selection`).
    pub fn selection(&self, choice: ChoiceId) -> Option<SymId>
        requires { choice.0 < length self.now.tree.choices }
        ensures { result ≡ spec.selection self.now choice.0 }
    {
        self.selections.selected(choice)
    }

    /// The selection of a choice without the user's member: that of the first default whose condition is not n and
    /// whose member is visible, otherwise the first visible member (the kernel's kconfig-language document on choices).
    pub fn default_selection(&self, choice: ChoiceId) -> Option<SymId>
        requires { choice.0 < length self.now.tree.choices }
        ensures { result ≡ spec.default_selection self.now choice.0 }
    {
        self.selections.default(choice)
    }

    /// Whether the symbol has a line in the minimal file: its value is not what its equation gives without its user
    /// value, if all other values stay the same. A member has one if it is selected and is not the default selection
    /// (our own).
    pub fn differs(&self, id: SymId) -> bool
        requires { id.0 < name_count self.now.tree }
        ensures { result ≡ spec.differs self.now id }
    {
        at_symbol(&self.differing, id)
    }

    /// Whether the symbol is new: no line answered its question (our own). No line gave it a value, and an answer would
    /// change its value. A member is new if no line gave it a value or chose the selection of its choice, it is
    /// visible, and another member could be selected. It is computed on each call. The members of a choice are searched
    /// only for its default selection, so asking for each symbol once takes time linear in the tree.
    pub fn is_new(&self, id: SymId) -> bool
        requires { id.0 < name_count self.now.tree }
        ensures { result ≡ spec.is_new self.now id }
    {
        let symbol = symbol_row(self.table.layout, id);
        let row = TableRow {
            table: &self.table,
            id,
            symbol,
        };
        symbol_is_new(&row, self.user, &self.selections)
    }

    /// Where the value of the symbol comes from (our own): a `select` that raises it, the user, an `imply`, a default,
    /// or none; for a member, how its choice selects. It is computed on each call.
    pub fn source(&self, id: SymId) -> Source
        requires { id.0 < name_count self.now.tree }
        ensures { result ≡ source self.now id }
    {
        let symbol = symbol_row(self.table.layout, id);
        symbol_source(
            &self.table,
            self.user,
            id,
            symbol,
            &self.selections.selected,
        )
    }

    /// The active range of the symbol: the first range whose condition is not n (the kernel's kconfig-language
    /// document, "Menu attributes": numerical ranges). It is computed on each call.
    pub fn active_range(&self, id: SymId) -> Option<Interval>
        requires { id.0 < name_count self.now.tree }
        ensures range { result ≡ option_and_then (active_range self.now.tree (known self.now)) (facts self.now.tree id) }
        ensures small { IfSome result HasSmallBounds }
    {
        let symbol = symbol_row(self.table.layout, id);
        active_range(&self.table, id, symbol)
    }

    /// The mode of the choice of this number: y if the condition of its prompt is not n, otherwise n; n if there is no
    /// such choice (kconfiglib's `tri_value` of a choice).
    pub fn mode(&self, choice: usize) -> Tri
        ensures { result ≡ mode_of self.now.tree (known self.now) (choice_at self.now.tree choice) }
    {
        mode_at(&self.table, choice)
    }

    /// The warnings about values, in the order of first definitions: a symbol is selected above its dependency (K11), a
    /// visible user value is outside the active range (K12), a default was clamped (K13) (our own).
    pub fn value_warnings(&self) -> &[Warning<Vec<u8>>]
        ensures { map owned_warning result.now ≡ value_warnings self.now }
    {
        &self.warnings
    }
}

// The visibility of a symbol, or n if there is no such symbol.
fn visibility_in(table: &Table, id: SymId) -> Tri
    ensures { result ≡ spec.visibility_by table.now.tree.now (known_at table.now) (facts table.now.tree.now id) }
{
    match table.layout.symbol(id) {
        Some(symbol) => visibility(table, id, symbol),
        None => Tri::N,
    }
}

// Whether a symbol is a bool or tristate outside a choice that is not n.
fn is_on(table: &Table, id: SymId, symbol: &Symbol) -> bool
    ensures { result ≡ flag.is_on (mode_view symbol.now.choice) symbol.now.symbol_type (tri_in (value_in table.now.values id)) }
{
    match (symbol.choice.get(), symbol.symbol_type) {
        (None, SymbolType::Bool | SymbolType::Tristate) => !matches!(table.tri(id), Tri::N),
        _ => false,
    }
}

/// Whether a symbol has a line in the `.config`. A bool or tristate outside a choice that is not n has one, so its
/// visibility is not computed.
pub(crate) fn is_written(table: &Table, id: SymId) -> bool
    requires { IsSolvedAt table.now id }
    ensures { result ≡ written_facts table.now.tree.now (known_at table.now) (facts table.now.tree.now id) }
{
    match table.layout.symbol(id) {
        Some(symbol) => {
            is_on(table, id, symbol) || written(table, id, symbol, visibility(table, id, symbol))
        }
        None => false,
    }
}

// The text of what is known of a symbol: `n`, `m` or `y` of a bool or tristate.
fn known_text<'t>(table: &'t Table, id: SymId) -> &'t [u8]
    ensures { result.now ≡ text_of_value (known_at table.now id) }
{
    match table.symbol_type(id) {
        SymbolType::Bool | SymbolType::Tristate => tri_text(table.tri(id)),
        _ => table.text(id),
    }
}

impl<'t, 'u> Values for Solved<'t, 'u> {
    ghost tri_of = { spec.tri_of };

    ghost text_of = { spec.text_of };

    ghost type_of = { spec.type_of };

    ghost modules_of = { spec.modules_of };

    fn tri(&self, id: SymId) -> Tri {
        truth_of(id, &self.table)
    }

    fn text(&self, id: SymId) -> &[u8] {
        known_text(&self.table, id)
    }

    fn symbol_type(&self, id: SymId) -> SymbolType {
        self.table.symbol_type(id)
    }

    fn modules(&self) -> Option<SymId> {
        self.table.modules()
    }
}
