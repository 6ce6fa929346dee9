#![tactic(auto)]
//! Reading Kconfig files: the statements of a file and of the files that it sources.
//!
//! - [`expand`] reads a root file. It returns an [`Expansion`] with the entries of all its files, or a [`Refusal`].
//! - [`FileMap`]: the bytes of each file, by name.
//! - [`sources_of`] finds the files that one file names in its `source` lines.
//! - [`statement`] and [`entries`]: the statement of a line, and the lines of all entries.
//! - [`refusal`]: an error of a tree: its [`Cause`], with file and line.
//! - [`MOST_LINES`]: the most lines that a tree may have.
//! - [`laws`]: a root file has one expansion.

mod constants;
pub mod expansion;
pub mod file_map;
mod files;
mod frame;
mod keywords;
pub mod laws;
mod line_parts;
mod placement;
mod progress;
mod reader;
pub mod refusal;
mod refuse;
mod sources;
mod step;

pub use expansion::{Expansion, expand};
pub use file_map::FileMap;
pub use files::MOST_LINES;
pub use kc_diagnostics::Cause;
pub use refusal::Refusal;
pub use sources::sources_of;
