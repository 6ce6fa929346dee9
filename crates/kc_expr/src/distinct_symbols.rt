//! Symbols in the order in which they were added.

ghost use Rattle.std.specs.Prelude.{◌≡◌, ◌<◌, ◌∷◌, ◌++◌, ℕ, [], false, length, OnOk, OnErr};
ghost use Rattle.kc_expr.specs.PartsOfSymbols.{added, stands_in};
ghost use Rattle.kc_expr.specs.DistinctSymbols.{is_marked};

use crate::expression::SymId;
use std::alloc::{AllocError, Global};
use std::marker::Model;

/// Symbols in the order in which they were added, each once. Contracts see the list of the symbols.
#[derive(Drop)]
pub struct DistinctSymbols {
    symbols: Vec<SymId>,
    // For each number, whether the symbol is in the list.
    marks: Vec<bool>,
}

impl Model for DistinctSymbols {
    ghost use Rattle.std.specs.Prelude.{◌≡◌, ◌==◌, ℕ, List};
    ghost use Rattle.std.specs.List.{list_any};
    ghost use Rattle.kc_expr.specs.DistinctSymbols.{is_marked};
    ghost use Rattle.kc_language.specs.declared.expressions.SymId.{SymId};

    ghost Value = { List SymId };

    ghost view = { λ o. o.symbols.items };

    ghost invariant = { λ o. (i : ℕ) → is_marked o.marks.items i ≡ list_any (λ s. i == s.0) o.symbols.items };
}

// The mark at an index of the list. Past the end of the list there is no mark.
fn is_marked(marks: &[bool], i: usize) -> bool
    ensures { result ≡ is_marked marks.now i }
{
    match marks.get(i) {
        Some(mark) => *mark,
        None => false,
    }
}

// Extends the list so that it has this index. The marks do not change.
fn reach(marks: &mut Vec<bool>, i: usize) -> Result<(), AllocError>
    ensures reached { OnOk result (i < length marks.new.items) }
    ensures same { (k : ℕ) → is_marked marks.new.items k ≡ is_marked marks.old.items k }
{
    while marks.len() <= i {
        marks.push(false)?;
    }
    Ok(())
}

impl DistinctSymbols {
    /// Returns a list without symbols.
    pub fn new(alloc: Global) -> Self
        ensures { result ≡ [] }
    {
        DistinctSymbols {
            symbols: Vec::new(alloc),
            marks: Vec::new(alloc),
        }
    }

    /// The number of symbols. It allocates nothing.
    pub fn count(&self) -> usize
        ensures { result ≡ length self.now }
    {
        self.symbols.len()
    }

    /// Returns the symbols in their order. It allocates nothing.
    pub fn into_symbols(self) -> Vec<SymId>
        ensures { result.items ≡ self }
    {
        self.symbols
    }

    // Appends a symbol that is not in the list.
    fn append(&mut self, id: SymId) -> Result<(), AllocError>
        requires { stands_in self.old id ≡ false }
        ensures order { OnOk result (self.new ≡ self.old ++ id ∷ []) }
        ensures err { OnErr result (self.new ≡ self.old) }
    {
        reach(&mut self.marks, id.0)?;
        self.symbols.push(id)?;
        self.marks[id.0] = true;
        Ok(())
    }

    /// Appends the symbol, unless it is in the list. The only error is that memory runs out. Then the list is
    /// unchanged.
    pub fn add(&mut self, id: SymId) -> Result<(), AllocError>
        ensures order { OnOk result (self.new ≡ added self.old id) }
        ensures err { OnErr result (self.new ≡ self.old) }
    {
        if is_marked(&self.marks, id.0) {
            return Ok(());
        }
        self.append(id)
    }
}
