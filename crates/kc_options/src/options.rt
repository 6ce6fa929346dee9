//! The options of a run, and parts of them.

ghost use Rattle.std.specs.Prelude.{◌≡◌, [], not, option_map, slice_index_or};
ghost use Rattle.std.specs.List.{flat_map};
ghost use Rattle.kc_outcome.specs.Outcome.{file_for, input_files, lead, target, wants};
ghost use Rattle.kc_options.specs.PartsOfOutcome.{holds_warnings, wants_sources};
ghost use Rattle.kc_options.specs.Asked.{may_at};

use kc_input::prefix::Prefix;
use kc_outcome::outcome::{self, Output};

/// The options of a run.
pub type Options = outcome::Options<Prefix>;

/// The start of each diagnostic that is not about a line of the `.config`, in two parts (our own).
pub fn lead(options: &Options) -> [&[u8]; 2]
    ensures { flat_map (λ part. part.now) result ≡ lead options.now }
{
    if options.names_config {
        [options.config.as_bytes(), b": "]
    } else {
        [b"", b""]
    }
}

/// Returns the name of an input file: 0 is the `.config`, n the n-th fragment. It is empty if there is no such file
/// (our own).
pub fn input_file(options: &Options, i: usize) -> &str
    ensures { result.now ≡ slice_index_or (input_files options.now) i [] }
{
    match i {
        0 => options.config.as_str(),
        n => match options.fragments.get(n - 1) {
            Some(name) => name.as_str(),
            None => "",
        },
    }
}

/// Whether an input file may be missing: the `.config`, unless it must exist (our own).
pub fn may_be_missing(options: &Options, i: usize) -> bool
    ensures { result ≡ may_at (not options.now.must_exist) i }
{
    i == 0 && !options.must_exist
}

/// Whether the warnings of the input files are held back until all of them are read (our own).
pub fn holds_warnings(options: &Options) -> bool
    ensures { result ≡ holds_warnings options.now }
{
    options.strict || options.strict_tree
}

/// The file of the first output of this kind, if one is wanted (our own).
pub fn file_for(options: &Options, kind: Output) -> Option<&str>
    ensures { option_map (λ file. file.now) result ≡ file_for options.now kind }
{
    for wanted in &options.outputs {
        if kind == wanted.kind {
            return Some(wanted.file.as_str());
        }
    }
    None
}

/// Whether an output of this kind is wanted (our own).
pub fn wants(options: &Options, kind: Output) -> bool
    ensures { result ≡ wants options.now kind }
{
    file_for(options, kind).is_some()
}

/// Whether a text is made of the files of the tree, beside its lines (our own).
pub fn wants_sources(options: &Options) -> bool
    ensures { result ≡ wants_sources options.now }
{
    options.with_help && wants(options, Output::NewSymbols)
}

/// The target of the dependency file's rule; empty if no full `.config` is written (our own).
pub fn target(options: &Options) -> &str
    ensures { result.now ≡ target options.now }
{
    file_for(options, Output::Config).unwrap_or("")
}
