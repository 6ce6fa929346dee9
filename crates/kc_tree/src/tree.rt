//! The tree of a Kconfig file.

ghost use Rattle.std.specs.Prelude.{◌≡◌, ◌<◌, length, map, Some, slice_get, position, option_map};
ghost use Rattle.kc_language.specs.Expressions.{symbol, same_name};
ghost use Rattle.kc_tree.specs.TreeView.{tree_of, IsNamed};
ghost use Rattle.kc_tree.specs.RowFacts.{IsSymbolRowOf, AreChoicesOf};
ghost use Rattle.kc_tree.specs.Layouts.{IsLayoutOf};
ghost use Rattle.kc_entries.specs.WellFormed.{IsWellFormed};

use crate::laid_tree::LaidTree;
use crate::layout::{Layout, TreeParts};
use crate::rows::{Choice, Symbol};
use kc_expr::expression::SymId;
use kc_expr::names::Names;
use std::marker::Model;

/// The symbols, choices and entries of a Kconfig file and of the files that it sources, and the warnings about them.
/// The names that they mention are numbered from 0, in the order of their first mention. A symbol has the number of its
/// name. The content of a tree follows the kernel's kconfig-language document; the numbers are our own.
#[derive(Drop)]
pub struct Tree {
    names: Names,
    layout: Layout,
    warnings: Vec<Vec<u8>>,
    main_menu: Vec<u8>,
}

impl Model for Tree {
    ghost use Rattle.kc_language.specs.Symbols.{TreeFacts};
    ghost use Rattle.kc_entries.specs.WellFormed.{IsWellFormed};
    ghost use Rattle.kc_tree.specs.TreeCode.{tree_code};

    ghost Value = { TreeFacts };

    ghost coded = { tree_code };

    ghost use Rattle.kc_tree.specs.TreeView.{tree_of_parts, IsNamed};

    ghost view = { tree_of_parts };

    ghost invariant = { λ t. IsWellFormed (tree_of_parts t) × IsNamed t.names t.layout };
}

impl Tree {
    /// Returns the tree with these names and parts. The caller must make sure that they are well formed, and that the layout has these names.
    pub fn of(names: Names, parts: TreeParts) -> Tree
        requires formed { IsWellFormed (tree_of names parts) }
        requires named { IsNamed names parts.layout }
        ensures { result ≡ tree_of names parts }
    {
        let TreeParts {
            layout,
            warnings,
            main_menu,
        } = parts;
        Tree {
            names,
            layout,
            warnings,
            main_menu,
        }
    }

    /// The number of defined symbols, each counted once: at most 65,535 (the limit is our own; kconfiglib's
    /// `unique_defined_syms` are the same symbols).
    pub fn symbol_count(&self) -> usize
        ensures count { result ≡ length self.now.defined }
        ensures formed { IsWellFormed self.now }
    {
        self.layout.defined().len()
    }

    /// The defined symbol at an index, in the order of their first definition, like kconfiglib's `unique_defined_syms`. The
    /// index must be below `symbol_count`.
    pub fn symbol(&self, i: usize) -> SymId
        requires { i < length self.now.defined }
        ensures { slice_get self.now.defined i ≡ Some result }
    {
        self.layout.defined()[i]
    }

    /// The names that the tree mentions, each once, in the order of their first mention (our own).
    pub fn names(&self) -> &Names
        ensures { result.now ≡ self.now.names }
    {
        &self.names
    }

    /// The number of a name that the tree mentions, defined or not; `None` for another name (the numbers are our own;
    /// kconfiglib's `syms` finds the same names).
    pub fn find(&self, name: &[u8]) -> Option<SymId>
        ensures { result ≡ option_map symbol (position (same_name name.now) self.now.names) }
    {
        self.names.find(name)
    }

    /// The number of names that the tree mentions: those of symbols and those that are not defined (our own; they are the names of
    /// kconfiglib's `syms`).
    pub fn name_count(&self) -> usize
        ensures count { result ≡ length self.now.names }
        ensures formed { IsWellFormed self.now }
    {
        self.names.count()
    }

    /// The name of a symbol, or a name that is mentioned but not defined (kconfiglib's `name` of a symbol). The number must be
    /// below `name_count`.
    pub fn name(&self, id: SymId) -> &[u8]
        requires { id.0 < length self.now.names }
        ensures { slice_get self.now.names id.0 ≡ Some result.now }
    {
        self.names.name(id)
    }

    /// The row of a symbol, with its type and its choice. A name that is not defined has neither. `None` past the last
    /// name (our own).
    pub fn facts(&self, id: SymId) -> Option<&Symbol>
        ensures { IsSymbolRowOf (slice_get self.now.symbols id.0) result }
    {
        self.layout.symbol(id)
    }

    /// The layout of the tree, from which the facts about its symbols are found (our own).
    pub fn layout(&self) -> &Layout
        ensures laid { IsLayoutOf self.now result.now }
        ensures formed { IsWellFormed self.now }
    {
        &self.layout
    }

    /// The tree with its layout (our own).
    pub fn laid(&self) -> LaidTree<'_>
        ensures tree { result.tree.now ≡ self.now }
        ensures formed { IsWellFormed self.now }
    {
        LaidTree {
            tree: self,
            layout: &self.layout,
        }
    }

    /// The choices, in the order in which they open: choice k has number k (choices follow the kernel's kconfig-language
    /// document, the numbers are our own).
    pub fn choices(&self) -> &[Choice]
        ensures { AreChoicesOf self.now.choices result.now }
    {
        self.layout.choices()
    }

    /// The warnings about the tree, in the order of the lines that they are about, without line feeds (their texts are
    /// our own).
    pub fn parse_warnings(&self) -> &[Vec<u8>]
        ensures { map (λ w. w.items) result.now ≡ self.now.warnings }
    {
        &self.warnings
    }

    /// The title of the main menu: that of the last `mainmenu` line, by the kernel's kconfig-language document, or
    /// `Main menu` (kconfiglib's `mainmenu_text`).
    pub fn main_menu(&self) -> &[u8]
        ensures { result.now ≡ self.now.main_menu }
    {
        &self.main_menu
    }

    /// The modules symbol, if it is defined: the one with the first `modules` line, by the kernel's
    /// kconfig-language document. Without such a line it is the one named `MODULES`.
    pub fn modules_symbol(&self) -> Option<SymId>
        ensures { result ≡ self.now.modules }
    {
        self.layout.modules
    }
}
