//! Why arguments give no options.

ghost use Rattle.std.specs.Prelude.{◌≡◌};
ghost use Rattle.kc_words.specs.Refusals.{IsBadFor, text_of};
ghost use Rattle.kc_words.specs.declared.usage.UsageError.TheVariants.{Memory};

use crate::command::VERSION;
use kc_diagnostics::run_error::out_of_memory;
use std::alloc::{AllocError, Global};

/// Why arguments give no options, or configurations cannot be run.
///
/// The help, and the text about arguments that the command does not accept, come from `clap`. Of these the contracts
/// say only that the second is not empty: tests check them. The other texts are our own and are specified.
#[derive(Debug, Drop)]
pub enum UsageError {
    /// `--help` or `-h` is set. Holds the help, for standard output.
    Help(String),
    /// `--version` or `-V` is set. The text is the program's name and version, for standard output.
    Version,
    /// The command does not accept the arguments, they exclude each other, the prefix is not valid, or the files of two
    /// configurations are not separate. Holds the error text, for standard error. It is never empty.
    Bad(String),
    /// E20: there was not enough memory.
    Memory,
}

impl From<AllocError> for UsageError {
    ghost from_gives = { λ _ e. e ≡ Memory };

    fn from(_e: AllocError) -> UsageError {
        UsageError::Memory
    }
}

impl UsageError {
    /// The text to print.
    pub fn text(&self) -> &str
        ensures { result.now ≡ text_of self.now }
    {
        match self {
            UsageError::Help(text) | UsageError::Bad(text) => text.as_str(),
            UsageError::Version => VERSION,
            UsageError::Memory => out_of_memory(),
        }
    }
}

// Returns the error with this text.
pub(crate) fn bad(alloc: Global, text: &str) -> UsageError
    ensures { IsBadFor text.now result }
{
    match String::from_str(alloc, text) {
        Ok(text) => UsageError::Bad(text),
        Err(_) => UsageError::Memory,
    }
}
