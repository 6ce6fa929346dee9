#![tactic(auto)]
//! `kconf` over the files of a disk: the system calls, and the program.
//!
//! - [`kconf`]: the program; [`exit_status`] is its exit status. [`kconf_with`]: the same over a device of the caller.
//! - [`kconf_over`]: the same over any folder and device. An [`Ended`] is how it ended.
//! - [`Arguments`]: the arguments of the process.
//! - [`SystemDevice`] and [`SystemFolder`]: the system calls for files, diagnostics and the files of a tree.
//! - [`laws`]: how runs for many configurations end.

mod answer;
mod arguments;
mod asking;
mod destination;
mod device;
mod diagnostics;
mod each;
mod ended;
mod folder;
mod held;
mod including;
pub mod laws;
mod open_file;
mod permissions;
mod program;
mod same_text;
mod showing;
mod temporary;
mod terminal;
mod told;
mod usage;

pub use arguments::Arguments;
pub use device::SystemDevice;
pub use ended::{Ended, kconf_over};
pub use folder::SystemFolder;
pub use program::{exit_status, kconf, kconf_with};
