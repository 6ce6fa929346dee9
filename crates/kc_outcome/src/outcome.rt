//! The options of a run, and how it ends.

/// How the texts of a run are delivered.
#[derive(Clone, Copy, Debug, PartialEq, Eq)]
pub enum Delivery {
    /// Each text is written to its file.
    Write,
    /// Each text that differs from its file replaces the file at the end of the run, in one step.
    Replace,
    /// Each text is compared with its file. No file is written.
    Check,
}

/// The kinds of texts that a run can write.
#[derive(Clone, Copy, Debug, PartialEq, Eq)]
pub enum Output {
    /// The full `.config`. A dependency file needs it, since it is the target of the rule.
    Config,
    /// The header.
    Header,
    /// The minimal `.config`.
    Minimal,
    /// The list of new symbols.
    NewSymbols,
    /// The list of the input lines that name no symbol.
    GoneLines,
    /// The dependency file.
    DependencyFile,
    /// The explanations of the requested symbols.
    Explanation,
}

/// A wanted output. The file name `/dev/stdout` means standard output.
#[derive(Drop)]
pub struct WantedOutput {
    /// Which text it is.
    pub kind: Output,
    /// The file that it is written to.
    pub file: String,
}

/// The options of a run. The names of files are as they were given. `P` is the type of the prefix.
#[derive(Drop)]
pub struct Options<P> {
    /// The folder of the Kconfig files, for names that do not begin with `/`.
    pub root: String,
    /// The `.config` to read.
    pub config: String,
    /// The outputs to write, in this order.
    pub outputs: Vec<WantedOutput>,
    /// The Kconfig file to begin with.
    pub kconfig: String,
    /// Whether that is a flat file: line markers give the locations of its lines, and a `$` in quotes is a plain byte.
    pub is_flat: bool,
    /// Whether the list of new symbols shows the definitions of each symbol, with prompt and help, as comments.
    pub with_help: bool,
    /// The names of the symbols to explain, with or without the prefix.
    pub explain: Vec<String>,
    /// The number of steps in which the symbols that hold an explained symbol down are explained too.
    pub explain_depth: usize,
    /// Whether each reported lost value (K14) is explained, with the symbols that hold it down in one step.
    pub explain_lost: bool,
    /// The files to read after the `.config`, in this order.
    pub fragments: Vec<String>,
    /// The folder of the files that `#include` lines of input files name. Without it such lines are comments.
    pub include: Option<String>,
    /// The prefix of the symbols' names.
    pub prefix: P,
    /// Whether the `.config` to read must exist. A fragment always must.
    pub must_exist: bool,
    /// Whether the run is refused if a line of the `.config` or of a fragment is not taken as written: it has a reported
    /// warning (a K10 counts only between different values), its value is outside the range (K12), or it is lost (K14).
    pub strict: bool,
    /// Whether the run is refused on any warning, also on warnings about the tree.
    pub strict_tree: bool,
    /// Whether lost values (K14), changed values (K15) and unset lines without effect (K16) are reported.
    pub warn_lost: bool,
    /// Whether the warnings about the tree are left out.
    pub quiet_tree: bool,
    /// Whether each warning and error is followed by a line that says what to do.
    pub hints: bool,
    /// How the texts are delivered.
    pub delivery: Delivery,
    /// With `Delivery::Check`, whether the difference of each file that is not up to date is printed.
    pub shows_difference: bool,
    /// Whether each diagnostic that is not about a line of the `.config` begins with the name of the `.config` (`--each`).
    pub names_config: bool,
}

/// How a run ends (our own).
#[derive(Clone, Copy, Debug, PartialEq, Eq)]
pub enum Status {
    /// The files are written, or up to date.
    Done,
    /// The tree, a name, an input line or a warning is refused, and no file was created; or a file is not up to date.
    Refused,
    /// The command line is wrong. `run` never returns this status.
    Usage,
    /// A device failed, or memory ran out.
    Faulted,
}
