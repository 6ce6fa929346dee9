//! A tree that was read, and an accepted tree.
ghost use Rattle.kc_read.specs.Files.{files_in};
ghost use Rattle.std.specs.Prelude.{◌≡◌, ℕ, Bool, List, IfOk};
ghost use Rattle.kc_language.specs.Expansion.{Files};
ghost use Rattle.kc_conf.specs.Accepted.{AreKept, IsOrderingOf, IsReadOf, IsReadingOf, IsReady};

use kc_build::{RootReading, read_listing, tree_of};
use kc_expr::names::Names;
use kc_read::file_map::FileMap;
use kc_read::refusal::Refusal;
use kc_solve::evaluation_order::EvaluationOrder;
use kc_tree::laid_tree::LaidTree;
use kc_tree::tree::Tree;
use std::alloc::Global;

/// A tree that was read, the names of the files that it opens, and the files of the run, if kept.
#[derive(Drop)]
pub(crate) struct TreeReading {
    pub tree: Tree,
    pub opened: Names,
    pub files: Option<FileMap>,
}

/// An accepted tree with an order of its symbols, the names of the files that it opens, and the files of the run, if kept.
#[derive(Drop)]
pub(crate) struct OrderedTree<'t> {
    pub laid: LaidTree<'t>,
    pub order: EvaluationOrder,
    pub opened: &'t Names,
    pub files: Option<&'t FileMap>,
}

/// The tree that a run accepted, with the order that the run used, and the files of the run, if kept (our own).
///
/// Freeing it takes time. A program that is about to exit can leak it instead.
#[derive(Drop)]
pub struct AcceptedTree {
    pub(crate) reading: TreeReading,
    pub(crate) order: EvaluationOrder,
}

impl AcceptedTree {
    /// The tree.
    pub fn tree(&self) -> &Tree
        ensures { result.now ≡ self.now.reading.tree }
    {
        &self.reading.tree
    }
}

impl TreeReading {
    /// Orders the symbols of the tree.
    ///
    /// # Errors
    ///
    /// E15 if symbols need one another in a loop, or E20 if there is not enough memory.
    pub fn ordered(&self, alloc: Global) -> Result<OrderedTree<'_>, Refusal>
        ensures ready { IfOk result IsReady }
        ensures ordered { (files : Files) (root : List ℕ) (keeps : Bool) → IsReadOf files root keeps self.now → IsOrderingOf files root keeps result }
    {
        let laid = self.tree.laid();
        match EvaluationOrder::of(alloc, &laid) {
            Ok(order) => Ok(OrderedTree {
                laid,
                order,
                opened: &self.opened,
                files: self.files.as_ref(),
            }),
            Err(refusal) => Err(refusal),
        }
    }
}

// These files, if they are kept; otherwise they are freed.
fn kept_if(files: FileMap, keeps: bool) -> Option<FileMap>
    ensures { AreKept (files_in files) keeps result }
{
    if keeps { Some(files) } else { None }
}

/// Reads the tree of these files. The files are freed before the tree is built, unless they are kept.
///
/// # Errors
///
/// The refusal of the tree, or E20 if there is not enough memory.
pub(crate) fn read_tree(
    alloc: Global,
    files: FileMap,
    root: &[u8],
    keeps: bool,
) -> Result<TreeReading, Refusal>
    ensures { IsReadingOf (files_in files) root.now keeps result }
{
    let RootReading { listing, opened } = match read_listing(alloc, &files, root) {
        Ok(reading) => reading,
        Err(refusal) => return Err(refusal),
    };
    let kept = kept_if(files, keeps);
    match tree_of(alloc, listing) {
        Ok(tree) => Ok(TreeReading {
            tree,
            opened,
            files: kept,
        }),
        Err(refusal) => Err(refusal),
    }
}
