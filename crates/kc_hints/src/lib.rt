#![tactic(auto)]
//! Hints with facts about the tree and the input files.
//!
//! - [`hinted`]: diagnostics with hints, some of which start with a fact. [`Facts`] are the known facts.
//! - [`waits`]: whether a diagnostic waits for such a fact. [`tells_range`] and [`refused_in`] say what must be read
//!   for it.

mod diagnostics;
mod facts;
mod form;
mod near;
mod place;
mod ranges;
mod value;

pub use diagnostics::{hinted, refused_in, tells_range, waits};
pub use facts::{Facts, Input, TreeLines};
