#![tactic(auto)]
//! From the statements of a Kconfig tree to its symbols, choices, entries and warnings.
//!
//! - [`read_listing`] reads a root file: a [`RootReading`] holds its [`Listing`] and the names of the files that it opened.
//! - [`tree_of`] builds the tree of a listing, or returns the first error that only the whole list shows.
//! - [`laws`]: a root file has one tree or one error, and each tree is well formed.

mod blocks;
mod build;
mod diagnostics;
pub mod laws;
mod listing;
mod selectors;
mod symbols;
mod warning;

pub use build::tree_of;
pub use listing::{Listing, RootReading, read_listing};
