//! The values computed so far: those of the symbols, entries, menus and choices, by number.

ghost use Rattle.std.specs.Prelude.{◌≡◌, ◌∷◌, None, Some, length, replicate, slice_index_or, suc, IfOk};
ghost use Rattle.kc_language.specs.declared.expressions.Tri.TheVariants.{Y};
ghost use Rattle.kc_tree.specs.Layouts.{IsLayoutOf};
ghost use Rattle.kc_tree.specs.LaidTrees.{layout-prop};
ghost use Rattle.kc_entries.specs.WellFormed.{IsWellFormed};
ghost use Rattle.kc_language.specs.Values as lookup;
ghost use Rattle.kc_values.specs.Computed.{AreContextsComputed, AreVisiblesComputed, AreDependenciesComputed};
ghost use Rattle.kc_values.specs.Table.{value_in, tri_in, text_in};
ghost use Rattle.kc_language.specs.Values.{type_in};

use crate::value_list::ValueList;
use kc_expr::expression::{SymId, SymbolType, Tri};
use kc_expr::values::Values;
use kc_tree::laid_tree::LaidTree;
use kc_tree::layout::Layout;
use kc_tree::rows::{ChoiceId, EntryId, VisibleId};
use kc_tree::tree::Tree;
use std::alloc::{AllocError, Global};

/// The value of a symbol: a truth value for a bool or tristate, a text for other types (kconfiglib's `tri_value` and
/// `str_value`).
#[derive(Debug, Drop)]
pub enum Value {
    /// For a bool or tristate.
    Truth(Tri),
    /// For a string, int or hex: its text as it is spelled. For a symbol without a type: its name.
    Text(Vec<u8>),
}

/// Returns the name of a symbol; empty if the tree has no such symbol (our own).
pub fn name(tree: &Tree, id: SymId) -> &[u8]
    ensures { result.now ≡ lookup.name tree.now id }
{
    if id.0 < tree.name_count() {
        tree.name(id)
    } else {
        b""
    }
}

/// The values of the symbols of a tree. Each name in the tree is a symbol. Some places may still be empty. As `Values`,
/// an empty place reads as n, or as the symbol's name if a text is wanted, which is also the value of a symbol without
/// a type (kconfiglib). The table also keeps what entries and choices depend on, what menus ask of what is visible, and the
/// selections of choices, once computed, so that each is computed once. One that is not kept is computed at each use.
#[derive(Drop)]
pub struct Table<'t> {
    /// The tree of these symbols.
    pub tree: &'t Tree,
    /// Its layout.
    pub layout: &'t Layout,
    /// A place for each symbol, by number.
    pub values: ValueList,
    /// What each entry depends on, if that is computed.
    pub contexts: Vec<Option<Tri>>,
    /// What each menu asks of what is visible, if that is computed.
    pub visibles: Vec<Option<Tri>>,
    /// What each choice depends on itself, if that is computed.
    pub dependencies: Vec<Option<Tri>>,
    /// What each choice selects, if that is computed; no member can be selected too.
    pub selections: Vec<Option<Option<SymId>>>,
    ghost laid: { IsLayoutOf tree.now layout.now } by { layout-prop tree.now layout.now },
    ghost formed: { ∥ IsWellFormed tree.now ∥₁ },
    ghost contexts_computed: { AreContextsComputed tree.now layout.now values contexts.items },
    ghost visibles_computed: { AreVisiblesComputed tree.now layout.now values visibles.items },
    ghost dependencies_computed: { AreDependenciesComputed tree.now layout.now values dependencies.items },
}

impl<'t> Table<'t> {
    /// A table of empty places, where nothing is computed but the top, which asks for nothing. Fails only when it is out of memory.
    pub fn empty(alloc: Global, laid: &LaidTree<'t>) -> Result<Table<'t>, AllocError>
        ensures tree { IfOk result (λ t. t.tree.now ≡ laid.now.tree.now) }
        ensures layout { IfOk result (λ t. t.layout.now ≡ laid.now.layout.now) }
        ensures values { IfOk result (λ t. t.values ≡ replicate (length laid.now.tree.now.symbols) None) }
        ensures contexts { IfOk result (λ t. t.contexts.items ≡ Some Y ∷ replicate (length laid.now.layout.now.places.items) None) }
        ensures visibles { IfOk result (λ t. t.visibles.items ≡ replicate (suc (length laid.now.layout.now.visibles.items)) None) }
        ensures dependencies { IfOk result (λ t. t.dependencies.items ≡ replicate (length laid.now.layout.now.choices.items) None) }
        ensures selections { IfOk result (λ t. t.selections.items ≡ replicate (length laid.now.layout.now.choices.items) None) }
    {
        let LaidTree { tree, layout } = *laid;
        let values = ValueList::empty(alloc, tree.name_count())?;
        let mut contexts = vec![in alloc; None; layout.place_count()]?;
        contexts[0] = Some(Tri::Y);
        let visibles = vec![in alloc; None; layout.visible_count()]?;
        let dependencies = vec![in alloc; None; layout.choices().len()]?;
        let selections = vec![in alloc; None; layout.choices().len()]?;
        Ok(Table {
            tree,
            layout,
            values,
            contexts,
            visibles,
            dependencies,
            selections,
        })
    }

    /// What a menu asks of what is visible, if that is computed.
    pub(crate) fn computed_visible(&self, id: VisibleId) -> Option<Tri>
        ensures { result ≡ slice_index_or self.now.visibles.items id.0 None }
    {
        match self.visibles.get(id.0 as usize) {
            Some(computed) => *computed,
            None => None,
        }
    }

    /// What an entry depends on, if that is computed.
    pub(crate) fn computed_context(&self, id: EntryId) -> Option<Tri>
        ensures { result ≡ slice_index_or self.now.contexts.items id.0 None }
    {
        match self.contexts.get(id.0 as usize) {
            Some(computed) => *computed,
            None => None,
        }
    }

    /// What a choice depends on itself, if that is computed.
    pub(crate) fn computed_dependency(&self, id: ChoiceId) -> Option<Tri>
        ensures { result ≡ slice_index_or self.now.dependencies.items id.0 None }
    {
        match self.dependencies.get(id.0 as usize) {
            Some(computed) => *computed,
            None => None,
        }
    }

    /// What a choice selects, if that is computed.
    pub(crate) fn computed_selection(&self, id: ChoiceId) -> Option<Option<SymId>>
        ensures { result ≡ slice_index_or self.now.selections.items id.0 None }
    {
        match self.selections.get(id.0 as usize) {
            Some(computed) => *computed,
            None => None,
        }
    }
}

impl<'t> Values for Table<'t> {
    ghost tri_of = { λ t s. tri_in (value_in t.values s) };

    ghost text_of = { λ t s. text_in (value_in t.values s) (lookup.name t.tree.now s) };

    ghost type_of = { λ t s. type_in (lookup.facts t.tree.now s) };

    ghost modules_of = { λ t. t.tree.now.modules };

    fn tri(&self, id: SymId) -> Tri {
        self.values.tri(id.0)
    }

    fn text(&self, id: SymId) -> &[u8] {
        match self.values.text(id.0) {
            Some(text) => text,
            None => name(self.tree, id),
        }
    }

    fn symbol_type(&self, id: SymId) -> SymbolType {
        match self.layout.symbol(id) {
            Some(symbol) => symbol.symbol_type,
            None => SymbolType::Undefined,
        }
    }

    fn modules(&self) -> Option<SymId> {
        self.tree.modules_symbol()
    }
}
