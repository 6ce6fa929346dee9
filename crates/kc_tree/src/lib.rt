#![tactic(auto)]
//! A Kconfig tree: its entries as they were read, and an index of them.
//!
//! - [`tree`]: the tree; [`laid_tree`]: a tree with its layout.
//! - [`layout`]: the entries, with the blocks around each, the chains of definitions, and for each symbol and choice the lines
//!   that name it.
//! - [`rows`]: the rows of the layout, and their numbers.
//! - [`attributes`]: the content of one line of an entry.
//! - [`maybe_choice`]: an optional choice in four bytes.

pub mod attributes;
pub mod laid_tree;
pub mod layout;
pub mod maybe_choice;
pub mod rows;
pub mod tree;
