#![tactic(auto)]
//! Diagnostics: errors of a tree, errors of a run and warnings, each with its number and its text.
//!
//! - [`Cause`]: the errors of a tree, E1 to E16 and E20. [`cause_parts`] is their text, [`owned`] a copy.
//! - [`RunError`]: the errors of a run over an accepted tree, E17 to E24. [`run_error_parts`] is their text; [`run_error`] has the
//!   line of E20.
//! - [`Warning`]: the warnings. [`add_located`] appends the line of a warning about a line of a file, [`add_warning`]
//!   that of a warning about a value.

pub mod cause;
mod parts;
pub mod run_error;
pub mod warning;

pub use cause::{cause_parts, owned};
pub use kc_language::diagnostics::{Cause, RunError, Warning};
pub use run_error::run_error_parts;
pub use warning::{add_located, add_warning, borrowed};
