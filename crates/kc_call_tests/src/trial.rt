//! Claims about a tree, user values, and lines for a solution.

ghost use Rattle.std.specs.Prelude.{◌≡◌, length};
ghost use Rattle.kc_language.specs.ConfigFile.{ArePlacesOf};

use kc_build::{read_listing, tree_of};
use kc_diagnostics::{Warning, add_warning, borrowed};
use kc_expr::expression::{SymId, Tri};
use kc_expr::values::tri_text;
use kc_read::file_map::FileMap;
use kc_read::refusal::Refusal;
use kc_tree::rows::ChoiceId;
use kc_tree::tree::Tree;
use kc_user::user::User;
use kc_user::value::UserValue;
use kc_values::table::name;
use std::alloc::{AllocError, Global};

/// A user value.
pub(crate) enum Setting {
    /// For a bool or tristate symbol of this name.
    Truth(&'static [u8], Tri),
    /// For a string, int or hex symbol of this name.
    Text(&'static [u8], &'static [u8]),
    /// The member of the first choice.
    Member(&'static [u8]),
}

/// A claim about a tree.
pub(crate) trait Claim {
    /// Whether it holds.
    fn holds_of(&self, alloc: Global, tree: &Tree) -> bool;
}

// Puts a file of this text into the map.
fn put_file(alloc: Global, kconfig: &[u8], files: &mut FileMap) -> Result<(), AllocError> {
    let bytes = Vec::from_slice(alloc, kconfig)?;
    files.insert(Vec::from_slice(alloc, b"Kconfig")?, bytes)
}

// The tree of the root file of these.
fn built(alloc: Global, files: &FileMap) -> Result<Tree, Refusal> {
    let reading = read_listing(alloc, files, b"Kconfig")?;
    tree_of(alloc, reading.listing)
}

// The tree of this file; None if it is refused.
fn tree_with(alloc: Global, kconfig: &[u8]) -> Option<Tree> {
    let mut files = FileMap::new(alloc, false);
    match put_file(alloc, kconfig, &mut files) {
        Ok(()) => built(alloc, &files).ok(),
        Err(_) => None,
    }
}

// No other function owns the tree: the code that drops it would be in each of them.
/// Whether the claim holds for the tree of this file.
pub(crate) fn is_true_of(alloc: Global, kconfig: &[u8], claim: &dyn Claim) -> bool {
    match tree_with(alloc, kconfig) {
        Some(tree) => claim.holds_of(alloc, &tree),
        None => false,
    }
}

/// The number of choices.
pub(crate) fn choice_count(tree: &Tree) -> usize
    ensures { result ≡ length tree.now.choices }
{
    tree.choices().len()
}

// Stores the user value of the symbol of this name, if there is one.
#[tactic(auto, using(crate::proofs::PlaceLemmas::set_stays))]
fn set(tree: &Tree, user: &mut User, name: &[u8], value: UserValue) -> bool
    requires { ArePlacesOf tree.now user.old }
    ensures { ArePlacesOf tree.now user.new }
{
    match tree.find(name) {
        Some(id) if id.0 < tree.name_count() => user.set(id, value).is_ok(),
        _ => false,
    }
}

// Selects the symbol of this name in the first choice, if there is one.
#[tactic(auto, using(crate::proofs::PlaceLemmas::select_stays))]
fn select(tree: &Tree, user: &mut User, name: &[u8]) -> bool
    requires { ArePlacesOf tree.now user.old }
    ensures { ArePlacesOf tree.now user.new }
{
    match tree.find(name) {
        Some(member) if choice_count(tree) > 0 => {
            user.select(ChoiceId(0), member);
            true
        }
        _ => false,
    }
}

// Stores one user value. Returns whether its symbol or choice exists.
fn give(alloc: Global, tree: &Tree, user: &mut User, given: &Setting) -> bool
    requires { ArePlacesOf tree.now user.old }
    ensures { ArePlacesOf tree.now user.new }
{
    match given {
        Setting::Truth(name, tri) => set(tree, user, name, UserValue::Tri(*tri)),
        Setting::Text(name, text) => match Vec::from_slice(alloc, text) {
            Ok(bytes) => set(tree, user, name, UserValue::Text(bytes)),
            Err(_) => false,
        },
        Setting::Member(name) => select(tree, user, name),
    }
}

/// Stores these user values, one after another. Returns whether all their symbols and choices exist.
pub(crate) fn give_all(alloc: Global, tree: &Tree, user: &mut User, given: &[Setting]) -> bool
    requires { ArePlacesOf tree.now user.old }
    ensures { ArePlacesOf tree.now user.new }
{
    for one in given {
        if !give(alloc, tree, user, one) {
            return false;
        }
    }
    true
}

/// The reported facts of a symbol.
pub(crate) struct SymbolReport<'a> {
    pub name: &'a [u8],
    pub value: &'a [u8],
    pub visibility: Tri,
    pub is_written: bool,
    pub differs: bool,
}

/// Adds the line of a symbol to the text.
pub(crate) fn symbol_into(report: SymbolReport<'_>, out: &mut Vec<u8>) -> Result<(), AllocError> {
    let SymbolReport {
        name,
        value,
        visibility,
        is_written,
        differs,
    } = report;
    out.extend_from_slice(name)?;
    out.push(b'=')?;
    out.extend_from_slice(value)?;
    out.push(b' ')?;
    out.extend_from_slice(tri_text(visibility))?;
    out.extend_from_slice(if is_written { b" written" } else { b"" })?;
    out.extend_from_slice(if differs { b" differs\n" } else { b"\n" })
}

// The name of the selected member.
fn member_name(tree: &Tree, selection: Option<SymId>) -> &[u8] {
    match selection {
        Some(member) => name(tree, member),
        None => b"-",
    }
}

/// Adds the line of a choice to the text.
pub(crate) fn choice_into(
    tree: &Tree,
    selection: Option<SymId>,
    default: Option<SymId>,
    out: &mut Vec<u8>,
) -> Result<(), AllocError> {
    out.extend_from_slice(b"choice ")?;
    out.extend_from_slice(member_name(tree, selection))?;
    out.extend_from_slice(b" by default ")?;
    out.extend_from_slice(member_name(tree, default))?;
    out.push(b'\n')?;
    Ok(())
}

/// Adds the warnings to the text.
pub(crate) fn warnings_into(
    warnings: &[Warning<Vec<u8>>],
    out: &mut Vec<u8>,
) -> Result<(), AllocError> {
    for warning in warnings {
        add_warning(borrowed(warning), out)?;
        out.push(b'\n')?;
    }
    Ok(())
}
