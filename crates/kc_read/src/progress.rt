//! The state of reading that all files share.

ghost use Rattle.std.specs.Prelude.{◌≡◌, IfErr, OnOk, None, Some};
ghost use Rattle.std.specs.Option.{option_or};
ghost use Rattle.kc_expr.specs.PartsOfSymbols.{added};
ghost use Rattle.kc_read.specs.Progress.{defining_cause, ids_match, HasSymbolsWithin, IsDefined, IsRemembered, symbol_limit_cause, KeepsWhenDefining, KeepsWhenMarking};
ghost use Rattle.kc_entries.specs.StatementViews.{attribute_view, head_view};
ghost use Rattle.kc_read.specs.LineReads.{IsFault};
ghost use Rattle.kc_language.specs.Expansion.{defined_name};

use kc_diagnostics::Cause;
use kc_entries::entries::Entries;
use kc_entries::statement::{Attribute, Head, LineFault};
use kc_expr::distinct_symbols::DistinctSymbols;
use kc_expr::expression::SymId;
use kc_expr::names::Names;
use std::rc::Rc;

// The most symbols that may be defined.
const MOST_SYMBOLS: usize = 65535;

/// The state of reading that all files share: their entries, the number of their physical lines, the defined symbols in
/// order of their first definition, the symbol defined last, the symbol of the first `modules` line, the names of all opened
/// files in the order of their first opening, and the files that are open now, the innermost last.
#[derive(Drop)]
pub(crate) struct Progress {
    pub entries: Entries,
    pub total_lines: usize,
    pub defined: DistinctSymbols,
    pub config: Option<SymId>,
    pub modules: Option<SymId>,
    pub opened: Names,
    pub open_files: Vec<Rc<Vec<u8>>>,
}

impl Progress {
    /// Whether the symbol that was defined last may have a `modules` line.
    pub(crate) fn may_be_modules(&self) -> bool
        ensures { result ≡ ids_match self.now.modules self.now.config }
    {
        match (self.modules, self.config) {
            (None, _) => true,
            (Some(_), None) => false,
            (Some(first), Some(now)) => first.0 == now.0,
        }
    }

    // Defines the symbol. The 65,536th is refused.
    fn define(&mut self, id: SymId) -> Result<(), LineFault<'static>>
        requires { HasSymbolsWithin self.old }
        ensures defined { OnOk result (IsDefined id self.old self.new) }
        ensures kept { KeepsWhenDefining self.old self.new }
        ensures within { OnOk result (HasSymbolsWithin self.new) }
        ensures allowed { OnOk result (symbol_limit_cause self.old.defined id ≡ None) }
        ensures fault { IfErr result (λ f. IsFault f (λ c. symbol_limit_cause self.old.defined id ≡ Some c)) }
    {
        self.defined.add(id)?;
        if self.defined.count() > MOST_SYMBOLS {
            return Err(Cause::TooManySymbols);
        }
        self.config = Some(id);
        Ok(())
    }

    // Records that the symbol defined last has a `modules` line.
    fn note_modules(&mut self)
        ensures modules { self.new.modules ≡ option_or self.old.modules self.old.config }
        ensures kept { KeepsWhenMarking self.old self.new }
    {
        if self.modules.is_none() {
            self.modules = self.config;
        }
    }

    /// Records the line that begins an entry. A `config` line defines its symbol; the 65,536th symbol is refused.
    pub(crate) fn remember(&mut self, head: &Head) -> Result<(), LineFault<'static>>
        requires { HasSymbolsWithin self.old }
        ensures remembered { OnOk result (IsRemembered (head_view head.now) self.old self.new) }
        ensures within { OnOk result (HasSymbolsWithin self.new) }
        ensures allowed { OnOk result (defining_cause self.old.defined (defined_name (head_view head.now)) ≡ None) }
        ensures fault { IfErr result (λ f. IsFault f (λ c. defining_cause self.old.defined (defined_name (head_view head.now)) ≡ Some c)) }
    {
        match head {
            Head::Config(id) => self.define(*id),
            _ => Ok(()),
        }
    }

    /// Records an attribute: only the first `modules` line is kept.
    pub(crate) fn remember_attribute(&mut self, attribute: &Attribute)
        ensures { IsRemembered (attribute_view attribute.now) self.old self.new }
    {
        match attribute {
            Attribute::Modules => self.note_modules(),
            _ => {}
        }
    }
}
