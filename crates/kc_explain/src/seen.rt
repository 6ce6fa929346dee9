//! Symbols that were seen.

ghost use Rattle.std.specs.Prelude.{◌≡◌, [], not, position, IfOk};
ghost use Rattle.kc_language.specs.Expressions.{same_symbol};
ghost use Rattle.kc_expr.specs.PartsOfSymbols.{added, stands_in};

use indexmap::IndexSet;
use kc_expr::expression::SymId;
use std::alloc::{AllocError, Global};
use std::marker::Model;

/// Symbols in the order in which they were seen, each once. The cost depends on how many they are, not on the size of the tree.
/// Contracts see the list of the symbols.
#[derive(Drop)]
pub struct Seen {
    symbols: IndexSet<SymId>,
}

impl Model for Seen {
    ghost use Rattle.std.specs.Prelude.{List};
    ghost use Rattle.kc_language.specs.declared.expressions.SymId.{SymId};

    ghost Value = { List SymId };

    ghost view = { λ s. s.symbols.keys };
}

impl Seen {
    /// Returns a list without symbols.
    pub fn new(alloc: Global) -> Self
        ensures { result ≡ [] }
    {
        Seen {
            symbols: IndexSet::new(alloc),
        }
    }

    /// Adds the symbol, and returns whether it is new. Fails only if memory runs out.
    pub fn add(&mut self, id: SymId) -> Result<bool, AllocError>
        ensures seen { IfOk result (λ is_new. self.new ≡ added self.old id) }
        ensures told { IfOk result (λ is_new. is_new ≡ not (stands_in self.old id)) }
    {
        let is_new = self.symbols.insert(id)?;
        Ok(is_new)
    }

    /// The symbols in their order. It allocates nothing.
    pub fn symbols(&self) -> &[SymId]
        ensures { result.now ≡ self.now }
    {
        self.symbols.as_slice()
    }

    /// The index of the symbol, if it was seen. It allocates nothing.
    pub fn position(&self, id: SymId) -> Option<usize>
        ensures { result ≡ position (same_symbol id) self.now }
    {
        self.symbols.get_index_of(&id)
    }
}
