//! The run of a case.
ghost use Rattle.std.specs.Prelude.{None};

use crate::case::Case;
use kc_conf::Status;
use kc_disk::{Arguments, kconf_over};
use kc_io::{Action, Site};
use kc_load::{Folder, FolderFault};
use kc_memory_device::{MemoryDevice, Record};
use std::alloc::{AllocError, Global};

// The files of a tree by path, one of which may fail. It records nothing.
#[derive(Drop)]
struct MemoryFolder<'a> {
    files: &'a [(&'a str, &'a [u8])],
    failing: &'a str,
    // The number of files that were read.
    asked: u64,
    alloc: Global,
}

impl<'a> Folder for MemoryFolder<'a> {
    ghost state = { λ _. None };

    fn read(&mut self, path: &str) -> Result<Option<Vec<u8>>, FolderFault> {
        self.asked = self.asked.saturating_add(1);
        if path == self.failing {
            return Err(FolderFault::Device);
        }
        for (name, bytes) in self.files {
            if path == *name {
                return Ok(Some(Vec::from_slice(self.alloc, bytes)?));
            }
        }
        Ok(None)
    }
}

/// How a run ended.
#[derive(Clone, Copy)]
pub(crate) struct Ended {
    /// The status.
    pub status: Status,
    /// The number of files of the tree that were read.
    pub asked: u64,
    /// Whether a tree was kept.
    pub is_kept: bool,
}

/// The words between blanks.
pub(crate) fn words_of(alloc: Global, line: &str) -> Result<Vec<String>, AllocError> {
    let mut words = Vec::new(alloc);
    for word in line.split(' ') {
        words.push(String::from_str(alloc, word)?)?;
    }
    Ok(words)
}

/// Runs with these arguments over the case's tree and this device.
pub(crate) fn run_words(
    rt: &HostRuntime,
    case: &Case,
    words: Vec<String>,
    device: &mut MemoryDevice<'_>,
) -> Ended {
    let mut folder = MemoryFolder {
        files: case.tree,
        failing: case.failing,
        asked: 0,
        alloc: rt.alloc(),
    };
    let mut kept = None;
    let arguments = Arguments::Given(words);
    let ended = kconf_over(rt, &arguments, &mut folder, device, &mut kept);
    Ended {
        status: ended.status(),
        asked: folder.asked,
        is_kept: kept.is_some(),
    }
}

/// Runs the case over this device.
pub(crate) fn run_case(
    rt: &HostRuntime,
    case: &Case,
    device: &mut MemoryDevice<'_>,
) -> Result<Ended, AllocError> {
    let words = words_of(rt.alloc(), case.arguments)?;
    Ok(run_words(rt, case, words, device))
}

// Adds the line of a call that succeeded, if it has one.
fn line_into(record: &Record, log: &mut String) -> Result<(), AllocError> {
    let word = match record.action {
        _ if record.fault.is_some() => return Ok(()),
        Action::Create(Site::Place) => "make ",
        Action::Close(Site::Place) => "close ",
        Action::Move => "move ",
        Action::Clear => "clear",
        _ => return Ok(()),
    };
    log.push_str(word)?;
    log.push_str(record.name.as_str())?;
    log.push_str("\n")
}

// The files that were created, closed, moved and removed, one in each line; None if the device records nothing.
fn log_of(alloc: Global, device: &MemoryDevice<'_>) -> Result<Option<String>, AllocError> {
    let Some(records) = device.records() else {
        return Ok(None);
    };
    let mut log = String::new(alloc);
    for record in records {
        line_into(record, &mut log)?;
    }
    Ok(Some(log))
}

// Whether the file of this name has this content.
fn is_left(device: &MemoryDevice<'_>, name: &str, bytes: Option<&[u8]>) -> bool {
    match (device.held(name), bytes) {
        (Ok(Some(held)), Some(bytes)) => held.as_slice() == bytes,
        (Ok(None), None) => true,
        _ => false,
    }
}

/// Whether the device was left as expected.
pub(crate) fn holds(
    alloc: Global,
    case: &Case,
    device: &MemoryDevice<'_>,
) -> Result<bool, AllocError> {
    let is_logged = match log_of(alloc, device)? {
        Some(log) => log.as_str() == case.log,
        None => false,
    };
    Ok(
        is_logged
            && device.diagnostics() == case.diagnostics
            && case
                .left
                .iter()
                .all(|(name, bytes)| is_left(device, name, *bytes)),
    )
}

/// Whether the case's run over a device with these files has the expected results.
pub(crate) fn gives_over(
    rt: &HostRuntime,
    case: &Case,
    files: &[(&str, &[u8])],
) -> Result<bool, AllocError> {
    let mut device = MemoryDevice::new(rt.alloc(), files, case.plan);
    let ended = run_case(rt, case, &mut device)?;
    Ok(ended.status == case.status && holds(rt.alloc(), case, &device)?)
}

/// Whether the case's run has the expected results.
pub(crate) fn gives(rt: &HostRuntime, case: &Case) -> Result<bool, AllocError> {
    gives_over(rt, case, case.files)
}
