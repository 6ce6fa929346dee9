#![tactic(auto)]
//! The writers of the output files whose text shows the values: the `.config`, the C header, the minimal file and the
//! list of new symbols.
//!
//! - [`config`]: the text of the `.config`.
//! - [`header`]: the texts of the C header, of the minimal file and of the list of new symbols.
//! - [`laws`]: laws of reading these texts again.

pub mod config;
pub mod header;
pub mod laws;
mod symbol_line;
mod text;
