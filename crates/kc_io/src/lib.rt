#![tactic(auto)]
//! Files and diagnostics: the calls of a device, and the delivery of texts to their files.
//!
//! - [`Device`]: reads and writes files, and takes diagnostics. An [`Action`] names a call, a [`Site`] which file is written, and
//!   a [`Fault`] why a call failed.
//! - [`deliver`] writes each [`Text`] to its file in a [`Manner`]: in place or by renames. A [`Failure`] says what failed.
//! - [`laws`]: what these contracts mean for the files.

mod delivery;
mod device;
pub mod laws;
mod steps;

pub use delivery::{Manner, Text, deliver};
pub use device::{Action, Device, Fault, Site};
pub use steps::Failure;
