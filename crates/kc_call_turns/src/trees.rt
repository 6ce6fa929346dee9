//! Files, trees and orders.

use crate::end::{CallEnd, done, refused};
use kc_build::{read_listing, tree_of};
use kc_diagnostics::Cause;
use kc_expr::expression::SymId;
use kc_read::file_map::FileMap;
use kc_read::refusal::Refusal;
use kc_read::sources_of;
use kc_solve::evaluation_order::EvaluationOrder;
use kc_tree::tree::Tree;
use std::alloc::{AllocError, Global};

const FILES: &[(&[u8], &[u8])] = &[
    (b"Kconfig", b"source \"a\"\nsource \"b\"\n"),
    (b"a", b"config A\n"),
    (b"b", b""),
    (b"c", b"source \"d\"\n"),
    (b"d", b"config D\n"),
    (b"e", b"endmenu\n"),
];

// The first `count` of `FILES` have their bytes, and the others have none.
fn are_filled(files: &FileMap, count: usize) -> bool {
    let mut left = count;
    for (name, bytes) in FILES {
        let want = if left > 0 { Some(*bytes) } else { None };
        if files.get(name) != want {
            return false;
        }
        left = left.saturating_sub(1);
    }
    true
}

// Puts copies of a file's name and bytes into the map. Returns whether `insert` succeeded.
fn insert_one(
    alloc: Global,
    files: &mut FileMap,
    name: &[u8],
    bytes: &[u8],
) -> Result<bool, AllocError> {
    let own_name = Vec::from_slice(alloc, name)?;
    let own_bytes = Vec::from_slice(alloc, bytes)?;
    Ok(files.insert(own_name, own_bytes).is_ok())
}

// Puts `FILES` into the map, up to the first for which `insert` fails. Returns their number.
fn insert_all(alloc: Global, files: &mut FileMap) -> Result<usize, AllocError> {
    let mut count = 0usize;
    for (name, bytes) in FILES {
        if !insert_one(alloc, files, name, bytes)? {
            return Ok(count);
        }
        count = count.saturating_add(1);
    }
    Ok(count)
}

/// `insert`, for each of `FILES`.
pub(crate) fn call_insert(alloc: Global) -> Result<CallEnd, AllocError> {
    let mut files = FileMap::new(alloc, false);
    let count = insert_all(alloc, &mut files)?;
    let is_right = are_filled(&files, count);
    if count < FILES.len() {
        Ok(refused(is_right))
    } else {
        Ok(done(is_right))
    }
}

const SOURCES: &[u8] =
    b"source \"a\"\nconfig A\n\thelp\n\t  source \"no\"\nsource \"b/\\\nc\"\nsource d\n";

// The names are these.
fn are_named(names: &[Vec<u8>], want: &[&[u8]]) -> bool {
    if names.len() != want.len() {
        return false;
    }
    for (name, other) in names.iter().zip(want) {
        if name.as_slice() != *other {
            return false;
        }
    }
    true
}

/// `sources_of`, for a file with three such lines, one of them joined.
pub(crate) fn call_sources_of(alloc: Global) -> CallEnd {
    match sources_of(alloc, SOURCES) {
        Ok(names) => done(are_named(&names, &[b"a", b"b/c", b"d"])),
        Err(_) => CallEnd::Refused,
    }
}

/// The tree of the calls: a bool, a string that depends on it, a number whose default is outside its range, and a name
/// without a type.
pub(crate) const KCONFIG: &[u8] = b"config A\n\
    \tbool \"a\"\n\
    \tdefault y\n\
    config B\n\
    \tstring \"b\"\n\
    \tdefault \"x\" if A\n\
    config N\n\
    \tint \"n\"\n\
    \trange 5 10\n\
    \tdefault 20\n\
    menu \"m\"\n\
    config U\n\
    endmenu\n";

/// A tree with a dependency loop.
pub(crate) const LOOP: &[u8] =
    b"config A\n\tbool \"a\"\n\tdepends on B\n\tselect B\nconfig B\n\tbool \"b\"\n";

// A map of this one file.
fn files_of(alloc: Global, kconfig: &[u8]) -> Result<FileMap, AllocError> {
    let mut files = FileMap::new(alloc, false);
    if insert_one(alloc, &mut files, b"Kconfig", kconfig)? {
        Ok(files)
    } else {
        Err(AllocError)
    }
}

// The tree of the root file of these.
fn built(alloc: Global, files: &FileMap) -> Result<Tree, Refusal> {
    let reading = read_listing(alloc, files, b"Kconfig")?;
    tree_of(alloc, reading.listing)
}

// The tree of this one file.
fn tree_with(alloc: Global, kconfig: &[u8]) -> Result<Tree, AllocError> {
    let files = files_of(alloc, kconfig)?;
    match built(alloc, &files) {
        Ok(tree) => Ok(tree),
        Err(_) => Err(AllocError),
    }
}

/// A call on a tree.
pub(crate) trait TreeCall {
    /// Its result. An error means out of memory while its other input was prepared.
    fn end(&self, alloc: Global, tree: &Tree) -> Result<CallEnd, AllocError>;
}

/// The result of the call on the tree of this one file. No other function owns a tree, because the code that drops it
/// is long.
pub(crate) fn on_tree(
    alloc: Global,
    kconfig: &[u8],
    call: &dyn TreeCall,
) -> Result<CallEnd, AllocError> {
    let tree = tree_with(alloc, kconfig)?;
    call.end(alloc, &tree)
}

// The refusal is out of memory, without a location.
fn is_memory(refusal: &Refusal) -> bool {
    refusal.cause == Cause::Memory && refusal.location.is_none()
}

// Whether the tree of `KCONFIG` has its symbols and its warning.
fn is_built(tree: &Tree) -> bool {
    tree.symbol_count() == 4
        && tree.find(b"N") == Some(SymId(2))
        && are_named(
            tree.parse_warnings(),
            &[b"Kconfig:12: warning K3: U has no type"],
        )
}

/// `read_listing`, and `tree_of` for its result.
pub(crate) fn call_build(alloc: Global) -> Result<CallEnd, AllocError> {
    let files = files_of(alloc, KCONFIG)?;
    match built(alloc, &files) {
        Ok(tree) => Ok(done(is_built(&tree))),
        Err(refusal) => Ok(refused(is_memory(&refusal) && files.get(b"Kconfig") == Some(KCONFIG))),
    }
}

// A stands before B, and N and U are there. The words 5, 10 and 20 define nothing, so the order may leave them out.
fn is_order(nodes: &[u32]) -> bool {
    let first = nodes.iter().position(|node| *node == 0);
    let second = nodes.iter().position(|node| *node == 1);
    nodes.len() >= 4
        && first.is_some()
        && first < second
        && nodes.contains(&2)
        && nodes.contains(&6)
}

// The result of the call for the refusal of a tree with a dependency loop.
fn loop_end(refusal: &Refusal) -> CallEnd {
    match &refusal.cause {
        Cause::Loop(names) => {
            let is_named = names.as_slice() == b"A -> B -> A".as_slice();
            done(is_named && refusal.location.is_none())
        }
        _ => refused(is_memory(refusal)),
    }
}

/// `EvaluationOrder::of`.
pub(crate) enum Ordering {
    /// For a tree that has an order.
    Order,
    /// For a tree with a dependency loop.
    Loop,
}

impl TreeCall for Ordering {
    fn end(&self, alloc: Global, tree: &Tree) -> Result<CallEnd, AllocError> {
        let end = match (EvaluationOrder::of(alloc, &tree.laid()), self) {
            (Ok(order), Ordering::Order) => done(is_order(order.nodes())),
            (Ok(_order), Ordering::Loop) => CallEnd::Wrong,
            (Err(refusal), Ordering::Order) => refused(is_memory(&refusal)),
            (Err(refusal), Ordering::Loop) => loop_end(&refusal),
        };
        Ok(end)
    }
}
