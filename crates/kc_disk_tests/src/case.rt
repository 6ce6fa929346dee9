//! A run of the program and its results.

use kc_conf::Status;
use kc_memory_device::{Plan, SMOOTH};

/// A command line, files, and the expected results.
#[derive(Clone, Copy)]
pub(crate) struct Case {
    /// What the case shows.
    pub name: &'static str,
    /// The arguments, between blanks.
    pub arguments: &'static str,
    /// The files of the tree, by path.
    pub tree: &'static [(&'static str, &'static [u8])],
    /// The path of the tree whose file cannot be read.
    pub failing: &'static str,
    /// The files of the device, by name.
    pub files: &'static [(&'static str, &'static [u8])],
    /// How the device behaves.
    pub plan: Plan,
    /// The status.
    pub status: Status,
    /// The files that were created and closed in place or moved, in order, and the removal of temporary files.
    pub log: &'static str,
    /// The diagnostics.
    pub diagnostics: &'static [u8],
    /// The content of files of the device at the end; None if there is no such file.
    pub left: &'static [(&'static str, Option<&'static [u8]>)],
}

/// The `.config` of a tree without symbols.
pub(crate) const CONFIG: &[u8] =
    b"#\n# Automatically generated file; DO NOT EDIT.\n# Main menu\n#\n";

/// The header of a tree without symbols.
pub(crate) const HEADER: &[u8] =
    b"/*\n * Automatically generated file; DO NOT EDIT.\n * Main menu\n */\n";

/// A device that reads seven bytes at a time.
pub(crate) const SEVEN: Plan = Plan {
    first_read: 7,
    later_reads: 7,
    ..SMOOTH
};

/// An empty tree and no `.config`, without header, minimal file and dependency file.
pub(crate) const DONE: Case = Case {
    name: "",
    arguments: "Kconfig",
    tree: &[("./Kconfig", b"")],
    failing: "-",
    files: &[],
    plan: SEVEN,
    status: Status::Done,
    log: "make .config\nclose .config\n",
    diagnostics: b"",
    left: &[(".config", Some(CONFIG))],
};

/// The same, but it ends after a fault and creates no file.
pub(crate) const FAULTED: Case = Case {
    status: Status::Faulted,
    log: "",
    left: &[],
    ..DONE
};

/// The same, but it is refused.
pub(crate) const REFUSED: Case = Case {
    status: Status::Refused,
    ..FAULTED
};
