//! Laws of each tree. Each is the contract of a function that does nothing.

ghost use Rattle.kc_build.specs.Trees.{HasOneTree, OneTree, TreesAreWellFormed};

use kc_read::laws::{has_one_expansion, one_expansion};

/// The law of trees: a root file over a file map gives at most one tree or refusal. It does nothing, so it cannot fail.
/// The law is our own.
pub fn one_tree()
    ensures { OneTree }
{
    one_expansion();
}

/// The law of results: with any files a root file gives exactly one tree or refusal. It does nothing. The law is our own.
pub fn has_one_tree()
    ensures { HasOneTree }
{
    has_one_expansion();
}

/// The law of facts: the tree of any root file is well formed. It does nothing. The law is our own.
pub fn trees_are_well_formed()
    ensures { TreesAreWellFormed }
{}
