//! The command line of `kconf`: what its arguments request.
//!
//! - [`request_of`] makes a [`Request`] from the arguments, or returns the reason as a [`UsageError`].
//! - [`Each`]: many configurations of one tree, named in [`list_of`] a list or as arguments.
#![tactic(auto)]

mod apart;
mod command;
mod each;
mod how;
mod list;
mod number;
mod options;
mod patterns;
mod usage;

pub use each::Each;
pub use how::{EachQuestion, HowQuestion};
pub use list::list_of;
pub use options::{DeadList, Request, request_of};
pub use usage::UsageError;
