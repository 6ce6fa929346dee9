#![tactic(auto)]
//! User values: one for each symbol and one for each choice of a tree, if an input file sets it.
//!
//! - [`user`]: the user values of a tree.
//! - [`value`]: the values that can be set for one symbol.
//! - [`lists`]: lists by number.
//! - [`sparse`]: a list of optional values in which an absent value takes little memory.
//! - [`laws`]: laws of the user values of each tree.

pub mod laws;
pub mod lists;
pub mod sparse;
pub mod user;
pub mod value;
