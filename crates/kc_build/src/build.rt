//! The tree of a root file.

ghost use Rattle.std.specs.Prelude.{◌≡◌, ◌≢◌, ◌<◌, ◌≤◌, ◌+◌, ◌*◌, ◌^◌, ℕ, List, length, IfOk, IfErr, OnOk, Ok, Err};
ghost use Rattle.kc_expr.specs.PartsOfSymbols.{stands_in};
ghost use Rattle.kc_language.specs.Symbols.{defined_symbols, IsTreeOf, modules_symbol, tree_with};
ghost use Rattle.kc_entries.specs.PartsOfSymbols.{symbol_if};
ghost use Rattle.kc_language.specs.Expansion.{Files};
ghost use Rattle.kc_read.specs.RefusalView.{IsMemory, refusal_view};
ghost use Rattle.kc_entries.specs.Entries.{lines_in};
ghost use Rattle.kc_language.specs.declared.diagnostics.Cause.TheVariants.{Memory};
ghost use Rattle.kc_build.specs.Limits.{most_names};
ghost use Rattle.kc_build.specs.Listings.{IsListingOf};
ghost use Rattle.kc_build.specs.PartsView.{AreNamed, parts_view};
ghost use Rattle.kc_tree.specs.EntryViews.{statements_in};
ghost use Rattle.kc_build.specs.Sound.{AreSound};

use crate::blocks::{Blocks, blocks_of, main_menu_of};
use crate::diagnostics::diagnose;
use crate::listing::Listing;
use crate::selectors::selectors_of;
use crate::symbols::{definitions_of, give_choices};
use kc_entries::entries::Entries;
use kc_expr::expression::SymId;
use kc_expr::names::Names;
use kc_read::refusal::Refusal;
use kc_tree::layout::{Layout, TreeParts};
use kc_tree::tree::Tree;
use std::alloc::{AllocError, Global};

// The most names that a tree may mention, and the most attributes that its entries may have. That many need far more memory than a
// machine has.
const MOST_NAMES: usize = 2147483648;

// Whether the symbol is one of these.
fn is_one_of(symbols: &[SymId], id: SymId) -> bool
    ensures { result ≡ stands_in symbols.now id }
{
    symbols.iter().any(|s| id.0 == s.0)
}

// The symbol, if there is one and it is defined.
fn if_defined(defined: &[SymId], symbol: Option<SymId>) -> Option<SymId>
    ensures { result ≡ symbol_if (stands_in defined.now) symbol }
{
    match symbol {
        Some(id) if is_one_of(defined, id) => Some(id),
        _ => None,
    }
}

// Fails if there are more names or attributes than a tree may have.
fn check_count(count: usize) -> Result<(), AllocError>
    ensures { OnOk result (count ≤ most_names) }
{
    if count <= MOST_NAMES {
        Ok(())
    } else {
        Err(AllocError)
    }
}

// Builds all parts of the tree, or returns the first refusal that only the whole list shows. The entries define these symbols.
// `modules` is the modules symbol, if it is one of them. The only error is that memory runs out.
fn build_parts(
    alloc: Global,
    names: &Names,
    entries: Entries,
    defined: Vec<SymId>,
    modules: Option<SymId>,
) -> Result<Result<TreeParts, Refusal>, AllocError>
    requires lines { AreSound (length names.now) (statements_in entries) }
    requires defined { defined.items ≡ defined_symbols (statements_in entries) }
    requires modules { modules ≡ modules_symbol names.now (statements_in entries) }
    requires few { 8 * length (lines_in entries) + 8 < 2 ^ 32 }
    ensures parts { IfOk result (λ s. parts_view names.now s ≡ tree_with names.now (lines_in entries)) }
    ensures named { IfOk result (AreNamed names.now) }
{
    let count = names.count();
    check_count(count)?;
    check_count(entries.attributes.len())?;
    let Blocks {
        mut places,
        visibles,
        choices,
        ..
    } = blocks_of(alloc, &entries)?;
    let mut symbols = definitions_of(alloc, &entries, &mut places, count)?;
    give_choices(&mut symbols, &choices)?;
    let diagnostics = diagnose(alloc, names, &entries, &symbols)?;
    let selectors = selectors_of(alloc, &entries, &places, &mut symbols)?;
    let main_menu = main_menu_of(alloc, &entries)?;
    let modules = if_defined(&defined, modules);
    match diagnostics.into_warnings() {
        Err(refusal) => Ok(Err(refusal)),
        Ok(warnings) => Ok(Ok(TreeParts {
            layout: Layout {
                entries,
                places,
                visibles,
                symbols,
                selectors,
                choices,
                defined,
                modules,
            },
            warnings,
            main_menu,
        })),
    }
}

/// Builds the tree from the lines of a root file, or returns the first refusal that only the whole list shows. The files that
/// the lines were read from are not read again.
///
/// E13 is at the first `config` line, in order, that defines a choice's member and is not its first definition, or that is
/// in a choice while its symbol is not bool. So if a symbol is defined once outside and then in its choice, it is the line in
/// the choice. Without such a line, E14 is at the first default of a string, int or hex symbol that is not one operand, or of
/// a choice that is not one name (parentheses do not count). Both name the symbol, or `choice`. E20, which has no location:
/// memory ran out.
///
/// The listing must come from [`read_listing`](crate::read_listing).
///
/// The meaning of the statements is that of the kernel's kconfig-language document and of kconfiglib's
/// documentation; the limits, the order of checks and the warnings are our own.
pub fn tree_of(alloc: Global, listing: Listing) -> Result<Tree, Refusal>
    requires { (files : Files) × (root : List ℕ) × IsListingOf files root listing }
    ensures built { IfOk result (λ t. (files : Files) (root : List ℕ) → IsListingOf files root listing → IsTreeOf files root (Ok t)) }
    ensures refused { IfErr result (λ r. r.cause ≢ Memory → (files : Files) (root : List ℕ) → IsListingOf files root listing → IsTreeOf files root (Err (refusal_view r))) }
    ensures memory { IfErr result IsMemory }
{
    let Listing {
        names,
        defined,
        modules,
        entries,
    } = listing;
    let outcome = match build_parts(alloc, &names, entries, defined, modules) {
        Ok(outcome) => outcome,
        Err(_) => return Err(Refusal::out_of_memory()),
    };
    match outcome {
        Err(refusal) => Err(refusal),
        Ok(parts) => {
            names.are_distinct();
            Ok(Tree::of(names, parts))
        }
    }
}
