#![tactic(auto)]
//! The entries of a tree: what each line of the Kconfig files says, in the order of reading. They are the tree: all later crates read them.
//!
//! - [`statement`]: what one line says: the line that begins an entry, and its attributes.
//! - [`entries`]: the lines of all entries, each with its file and its line number.

pub mod entries;
pub mod statement;
