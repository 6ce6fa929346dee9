#![tactic(auto)]
//! The run: from a map of files and a device to the delivered texts.
//!
//! - [`run`]: one run. [`run_each`]: many [`Configurations`] of one tree. [`run_in_folder`]: one run that loads its
//!   files.
//! - [`list_dead`] and [`list_dead_in_folder`]: the prompts that no input makes visible.
//! - [`how`] and [`how_in_folder`]: what must be set so that a symbol has a value. [`how_each`]: the same for many
//!   configurations of one tree.
//! - [`AcceptedTree`]: a tree without errors.
//! - [`Stop`]: why a run stopped early. [`say_load_fault`] reports why files could not be loaded.
//! - [`laws`]: laws of the outcomes of runs.
//!
//! From the crates below: [`Options`], [`Output`], [`WantedOutput`], [`Delivery`], [`Status`], [`FileMap`], [`Refusal`], [`Cause`].

mod accepted;
mod causes;
mod compute;
mod dead;
mod diagnostics;
mod explained;
mod folder_run;
mod how_many;
mod how_run;
pub mod laws;
mod lost;
mod lost_text;
mod many;
mod names;
mod new_symbols;
mod reading;
mod reply;
mod runs;
mod stop;

pub use accepted::AcceptedTree;
pub use dead::{list_dead, list_dead_in_folder};
pub use folder_run::{run_in_folder, say_load_fault};
pub use how_many::how_each;
pub use how_run::{how, how_in_folder};
pub use kc_options::{Delivery, Options, Output, Status, WantedOutput};
pub use kc_read::{Cause, FileMap, Refusal};
pub use many::{Configurations, run_each};
pub use reply::Asked;
pub use runs::run;
pub use stop::Stop;
