#![tactic(auto)]
//! Lines of input files that include other files.
//!
//! - [`included_name`]: the [`IncludedName`] of a line; [`parts_of`]: the parts of a text between such lines.
//! - [`Inputs`] reads input files and the files that they include, and splits them into pieces.
//! - [`PiecedDevice`] gives the pieces as files, so that a run reads them one after another.

mod device;
mod line;
mod parts;
mod pieces;
mod places;
mod texts;

pub use device::PiecedDevice;
pub use line::{IncludedName, included_name};
pub use parts::{Part, parts_of};
pub use pieces::{Piece, later_names};
pub use texts::Inputs;
