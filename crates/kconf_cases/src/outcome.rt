//! The results of a case, compared with its folder `expect`.

use crate::compare::is_same;
use crate::folders::{Entry, entries_here, has_file};
use std::io::ErrorKind;
use std::{fs, io};

// The names of files that a run writes: each exists afterwards only if `expect` has it.
const OUTPUTS: [&str; 6] = [
    ".config",
    "autoconf.h",
    "defconfig",
    "new.config",
    "gone.config",
    "configured.d",
];

/// The status and diagnostics of a run.
#[derive(Drop)]
pub(crate) struct Answer {
    pub status: u8,
    pub diagnostics: Vec<u8>,
}

/// Returns the bytes of a file, or `None` if it does not exist. A folder is not a file.
pub(crate) fn bytes_of(rt: &HostRuntime, path: &str) -> io::Result<Option<Vec<u8>>> {
    match fs::read(rt, path) {
        Ok(bytes) => Ok(Some(bytes)),
        Err(error) if error.kind() == ErrorKind::NotFound => Ok(None),
        Err(error) if error.kind() == ErrorKind::IsADirectory => Ok(None),
        Err(error) => Err(error),
    }
}

// Returns whether this is the text of the file in `expect`, or the default if there is no such file.
fn is_text(
    rt: &HostRuntime,
    case: &str,
    name: &str,
    path: &str,
    usual: &[u8],
    found: &[u8],
) -> io::Result<bool> {
    match bytes_of(rt, path)? {
        Some(expected) => is_same(rt, case, name, Some(&expected), Some(found)),
        None => is_same(rt, case, name, Some(usual), Some(found)),
    }
}

fn is_status(rt: &HostRuntime, case: &str, status: u8) -> io::Result<bool> {
    let text: &[u8] = match status {
        0 => b"0\n",
        1 => b"1\n",
        2 => b"2\n",
        _ => b"3\n",
    };
    is_text(rt, case, "status", "expect/status", b"0\n", text)
}

// Returns whether the file has the same content as the one in `expect`, or both are missing.
fn is_file(rt: &HostRuntime, case: &str, name: &str, expected: Option<&[u8]>) -> io::Result<bool> {
    match bytes_of(rt, name)? {
        Some(found) => is_same(rt, case, name, expected, Some(&found)),
        None => is_same(rt, case, name, expected, None),
    }
}

// Returns whether the file that a file of `expect` stands for has the same content.
fn is_as_expected(rt: &HostRuntime, case: &str, name: &str, path: &str) -> io::Result<bool> {
    match bytes_of(rt, path)? {
        Some(expected) => is_file(rt, case, name, Some(&expected)),
        None => is_file(rt, case, name, None),
    }
}

// Returns whether the files of `expect` exist with the same bytes.
fn are_expected(rt: &HostRuntime, case: &str, entries: &[Entry]) -> io::Result<bool> {
    let mut holds = true;
    for entry in entries {
        match entry.path.as_str().strip_prefix("expect/") {
            Some("status" | "diagnostics" | "output" | "again") | None => {}
            Some(_) if entry.is_folder => {}
            Some(name) => holds &= is_as_expected(rt, case, name, entry.path.as_str())?,
        }
    }
    Ok(holds)
}

fn is_expected_in(entries: &[Entry], name: &str) -> bool {
    for entry in entries {
        if entry.path.as_str().strip_prefix("expect/") == Some(name) {
            return true;
        }
    }
    false
}

// Returns whether this file may exist: `expect` has it, or it existed before and is not an output.
fn may_stay(before: &[Entry], name: &str) -> bool {
    if is_expected_in(before, name) {
        return true;
    }
    has_file(before, name) && !OUTPUTS.iter().any(|output| *output == name)
}

// Returns whether there are no files other than those of the case and of `expect`.
fn is_nothing_else(rt: &HostRuntime, case: &str, before: &[Entry]) -> io::Result<bool> {
    let mut holds = true;
    let after = entries_here(rt)?;
    for entry in after.iter() {
        let name = entry.path.as_str();
        if !entry.is_folder && !may_stay(before, name) {
            println!(rt; "{case}: {name} must not be there")?;
            holds = false;
        }
    }
    Ok(holds)
}

/// Returns whether the status, the diagnostics and the files are those of the folder `expect`, and prints the
/// differences.
pub(crate) fn is_as_written(
    rt: &HostRuntime,
    case: &str,
    before: &[Entry],
    answer: &Answer,
) -> io::Result<bool> {
    let mut holds = is_status(rt, case, answer.status)?;
    holds &= is_text(
        rt,
        case,
        "diagnostics",
        "expect/diagnostics",
        b"",
        &answer.diagnostics,
    )?;
    holds &= are_expected(rt, case, before)?;
    holds &= is_nothing_else(rt, case, before)?;
    Ok(holds)
}
