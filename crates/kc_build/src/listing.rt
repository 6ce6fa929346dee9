//! The lines of a root file, and the symbols that they define.

ghost use Rattle.kc_read.specs.Files.{files_in};
ghost use Rattle.std.specs.Prelude.{◌≡◌, ◌≢◌, IfOk, IfErr, Err, [], Some, codes, position, option_map};
ghost use Rattle.std.specs.Option.{option_or};
ghost use Rattle.kc_language.specs.Expressions.{same_name, symbol};
ghost use Rattle.kc_read.specs.Expanded.{IsExpansion};
ghost use Rattle.kc_language.specs.Expansion.{ReadSoFar, Expands, AreOpened};
ghost use Rattle.kc_read.specs.RefusalView.{IsMemory, refusal_view};
ghost use Rattle.kc_language.specs.declared.diagnostics.Cause.TheVariants.{Memory};
ghost use Rattle.kc_build.specs.Listings.{IsListing, IsListingOf};

use kc_entries::entries::Entries;
use kc_expr::expression::SymId;
use kc_expr::names::Names;
use kc_read::expansion::{Expansion, expand};
use kc_read::file_map::FileMap;
use kc_read::refusal::Refusal;
use std::alloc::Global;

/// The lines of a root file.
#[derive(Drop)]
pub struct Listing {
    /// The names that the lines mention, numbered in the order of their first mention.
    pub names: Names,
    /// The defined symbols, in the order of their first definition.
    pub defined: Vec<SymId>,
    /// The symbol with the first `modules` line. Without such a line: the symbol named `MODULES`, if it is mentioned.
    pub modules: Option<SymId>,
    pub entries: Entries,
}

/// The result of reading a root file: its listing, and the names of the opened files, each once, in the order of
/// their first opening.
#[derive(Drop)]
pub struct RootReading {
    pub listing: Listing,
    pub opened: Names,
}

// The modules symbol: this one, or the symbol named `MODULES`, if it is mentioned.
fn modules_symbol(names: &Names, modules: Option<SymId>) -> Option<SymId>
    ensures { result ≡ option_or modules (option_map symbol (position (same_name (codes "MODULES")) names.now)) }
{
    match modules {
        Some(id) => Some(id),
        None => names.find(b"MODULES"),
    }
}

// The listing of an expansion.
fn listing_of(names: Names, expansion: Expansion) -> RootReading
    requires { (log : ReadSoFar) × IsExpansion [] names log expansion }
    ensures listing { (log : ReadSoFar) → IsExpansion [] names log expansion → IsListing log result.listing }
    ensures opened { result.opened ≡ expansion.opened }
{
    let Expansion {
        entries,
        defined,
        modules,
        opened,
    } = expansion;
    let modules = modules_symbol(&names, modules);
    RootReading {
        listing: Listing {
            names,
            defined: defined.into_symbols(),
            modules,
            entries,
        },
        opened,
    }
}

/// Reads the lines of a root file, and returns them with the files that were opened. Otherwise returns the first refusal: E1 to
/// E12 and E16, each at the first faulty line, as `expand` of kc_read returns them. The files are not read again later. E20,
/// which has no location: memory ran out.
pub fn read_listing(alloc: Global, map: &FileMap, root: &[u8]) -> Result<RootReading, Refusal>
    ensures listed { IfOk result (λ r. IsListingOf (files_in map.now) root.now r.listing) }
    ensures opened { IfOk result (λ r. AreOpened (files_in map.now) root.now r.opened) }
    ensures refused { IfErr result (λ r. r.cause ≢ Memory → Expands (files_in map.now) root.now (Err (refusal_view r))) }
    ensures memory { IfErr result IsMemory }
{
    let mut names = Names::keyed(alloc, map.key());
    let expansion = expand(alloc, map, root, &mut names)?;
    Ok(listing_of(names, expansion))
}
