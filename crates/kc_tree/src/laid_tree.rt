//! A tree with its layout.

ghost use Rattle.kc_tree.specs.Layouts.{IsLayoutOf};
ghost use Rattle.kc_tree.specs.LaidTrees.{layout-prop};

use crate::layout::Layout;
use crate::tree::Tree;

/// A tree and its layout, with the proof that the layout is that of the tree (our own).
#[derive(Clone, Copy)]
pub struct LaidTree<'t> {
    pub tree: &'t Tree,
    pub layout: &'t Layout,
    ghost laid: { IsLayoutOf tree.now layout.now } by { layout-prop tree.now layout.now },
}
