//! The options of a run, and its status.
//!
//! - [`Options`]: the files and the switches of a run. [`WantedOutput`]: an output, of a kind [`Output`]. [`Delivery`] is the way
//!   in which texts are written to their files.
//! - [`Status`]: how a run ended.
#![tactic(auto)]

mod options;

pub use kc_outcome::outcome::{Delivery, Output, Status, WantedOutput};
pub use options::{
    Options, file_for, holds_warnings, input_file, lead, may_be_missing, target, wants,
    wants_sources,
};
