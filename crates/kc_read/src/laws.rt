//! Laws of each expansion. Each is the contract of a function that does nothing.

ghost use Rattle.kc_read.specs.Existing.{HasOneExpansion};
ghost use Rattle.kc_read.specs.Expansion.{OneExpansion};
ghost use Rattle.kc_read.specs.Lines.{OneStatement};
ghost use Rattle.kc_read.specs.OpenedFiles.{OpenedAreOneList, SourcedFilesAreNamed, HasOneListOfNames};
ghost use Rattle.kc_read.specs.Replaced.{ExpandedIsListOf, OneListOf};

/// The law of statements: in each context the tokens of a line give exactly one result, a statement or a cause of
/// refusal. It does nothing.
pub fn one_statement()
    ensures { OneStatement }
{}

/// The law of expansions: a root file over a file map gives at most one list or refusal. It does nothing.
pub fn one_expansion()
    ensures { OneExpansion }
{}

/// The law of results: with any files a root file gives exactly one list or refusal. It does nothing.
pub fn has_one_expansion()
    ensures { HasOneExpansion }
{}

/// The law of opened files: with any files the expansion of a root file opens one list of files, each once and in the order
/// of their first opening. It does nothing.
pub fn opened_are_one_list()
    ensures { OpenedAreOneList }
{}

/// The law of the expanded list: it is the list of the root file. That list has the file's own statements in order, each
/// with its file and line, and the list of the named file in place of each `source` statement. It does nothing.
pub fn expanded_is_list_of_root()
    ensures { ExpandedIsListOf }
{}

/// The law of lists: with any files a file has at most one list. It does nothing.
pub fn one_list_of()
    ensures { OneListOf }
{}

/// The law of sources, for a tree that is not flat: each file that an expansion opens after the root, or tries to open, is
/// among the names of a file that was opened before it. The names of a file, which `sources_of` returns, are one list,
/// which exists for any bytes. It does nothing.
pub fn sourced_files_are_named()
    ensures named { SourcedFilesAreNamed }
    ensures one_list { HasOneListOfNames }
{}
