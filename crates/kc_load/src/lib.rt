#![tactic(auto)]
//! The files of a tree: loading all files that the root file reaches, and the dependency file that lists them.
//!
//! - [`load`] reads the root file and all that it sources from a [`Folder`], which may fail with a [`FolderFault`]. A
//!   [`LoadFault`] is the reason why files could not be loaded.
//! - [`begins_with_slash`] returns whether a path is absolute.
//! - [`prerequisites_of`] lists the files that a run read, [`rule_text`] is the text of the dependency file, and
//!   [`unreadable_name`] finds a name that make cannot read.
//! - [`laws`]: laws of the order in which files are read, and of the loaded files.

mod fault;
mod folder;
pub mod laws;
mod loading;
mod path;
mod prerequisites;
mod readable;
mod rule;

pub use fault::LoadFault;
pub use folder::{Folder, FolderFault};
pub use kc_expr::hash_key::HashKey;
pub use loading::load;
pub use path::begins_with_slash;
pub use prerequisites::prerequisites_of;
pub use readable::unreadable_name;
pub use rule::rule_text;
