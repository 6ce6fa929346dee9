//! The arguments of the process.
ghost use Rattle.std.specs.Prelude.{◌≡◌, drop, string_bytes, true, IfOk, Some};
ghost use Rattle.kc_outcome.specs.Outcome.{file_for};
ghost use Rattle.std.specs.Vec.Iter.{into_iter_items};
ghost use Rattle.kc_disk.specs.Program.{AreArgumentsOf, AreChecked, IsNeedsOut, WritesWhereItReads};
ghost use Rattle.kc_disk.specs.PartsOfProgram.{AreUnread};

use crate::open_file::has_no_place;
use kc_options::{Options, Output, file_for};
use kc_words::{Request, UsageError, request_of};
use std::alloc::{AllocError, Global};
use std::env::Args;
use std::io::{self, Error, ErrorKind};

/// The arguments of a process after the program's name (our own).
#[derive(Drop)]
pub enum Arguments {
    /// They were read.
    Given(Vec<String>),
    /// One of them is not UTF-8, which is a usage error; or there was not enough memory for them.
    Unread(UsageError),
}

impl Arguments {
    /// Takes the arguments of a process, as `env::args` gives them. The first of them is the program's name.
    pub fn of(alloc: Global, words: io::Result<Args>) -> Arguments
        ensures { AreArgumentsOf words result }
    {
        match words {
            Ok(words) => match after_name(alloc, words) {
                Ok(arguments) => Arguments::Given(arguments),
                Err(_) => Arguments::Unread(UsageError::Memory),
            },
            Err(error) => Arguments::Unread(unread(alloc, &error)),
        }
    }

    /// Returns the arguments. If they request to write the full `.config` where it is read, and that is a pipe or a
    /// terminal, returns a usage error.
    pub fn checked(self, rt: &HostRuntime) -> Arguments
        ensures { AreChecked self result }
    {
        match self {
            Arguments::Given(given) => {
                if writes_where_it_reads(rt, &given) {
                    Arguments::Unread(needs_out(rt.alloc()))
                } else {
                    Arguments::Given(given)
                }
            }
            Arguments::Unread(usage) => Arguments::Unread(usage),
        }
    }
}

// The error if the `.config` is read from a pipe, and there is no other file to write it to.
const NEEDS_OUT: &str =
    "error: the argument '--config <FILE>' needs '--out <FILE>' where FILE is no regular file\n\nFor more information, try '--help'.\n";

// Returns the error that the `.config` is read from a pipe, and there is no other file to write it to.
fn needs_out(alloc: Global) -> UsageError
    ensures { IsNeedsOut result }
{
    match String::from_str(alloc, NEEDS_OUT) {
        Ok(text) => UsageError::Bad(text),
        Err(_) => UsageError::Memory,
    }
}

// Whether an argument may name a `.config` that is a pipe or a terminal: the one after `--config`, or the text after
// its `=`.
fn may_have_no_place(rt: &HostRuntime, arguments: &[String]) -> bool {
    let mut is_next = false;
    for argument in arguments {
        let word = argument.as_str();
        let named = if is_next {
            Some(word)
        } else {
            word.strip_prefix("--config=")
        };
        match named {
            Some(name) if has_no_place(rt, name) => return true,
            _ => {}
        }
        is_next = word == "--config";
    }
    false
}

// Whether the full `.config` is written to the file from which it is read.
fn is_written_in_place(options: &Options) -> bool
    ensures { result ≡ true → file_for options.now Output.Config ≡ Some (string_bytes options.now.config) }
{
    match file_for(options, Output::Config) {
        Some(file) => file == options.config.as_str(),
        None => false,
    }
}

// Whether the arguments request to write the full `.config` where it is read, and no text can be stored there.
fn writes_where_it_reads(rt: &HostRuntime, arguments: &[String]) -> bool
    ensures { result ≡ true → WritesWhereItReads arguments.now }
{
    if !may_have_no_place(rt, arguments) {
        return false;
    }
    match request_of(rt.alloc(), arguments) {
        Ok(Request::One(options)) => {
            if !is_written_in_place(&options) {
                return false;
            }
            has_no_place(rt, options.config.as_str())
        }
        Ok(Request::Each(_) | Request::Dead(_) | Request::How(_) | Request::HowEach(_)) | Err(_) =>
            { false }
    }
}

// The error if an argument is not UTF-8.
const NO_TEXT: &str =
    "error: invalid UTF-8 was detected in one or more arguments\n\nFor more information, try '--help'.\n";

// All arguments except for the first, the program's name.
fn after_name(alloc: Global, mut words: Args) -> Result<Vec<String>, AllocError>
    ensures { IfOk result (λ arguments. arguments.items ≡ drop 1 (into_iter_items words)) }
{
    let mut arguments = Vec::new(alloc);
    let _ = words.next();
    for word in words {
        arguments.push(word)?;
    }
    Ok(arguments)
}

// Why the arguments could not be read: one that is not UTF-8 is a usage error.
fn unread(alloc: Global, error: &Error) -> UsageError
    ensures { AreUnread error.now result }
{
    if error.kind() == ErrorKind::OutOfMemory {
        return UsageError::Memory;
    }
    match String::from_str(alloc, NO_TEXT) {
        Ok(text) => UsageError::Bad(text),
        Err(_) => UsageError::Memory,
    }
}
