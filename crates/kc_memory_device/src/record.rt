//! The record of a device's calls.
ghost use Rattle.std.specs.Prelude.{◌≡◌, ℕ, List, [], Option, IfOk};
ghost use Rattle.kc_io.specs.Log.{Leads};
ghost use Rattle.kc_memory_device.specs.Recorded.{asked, told};

use kc_io::{Action, Fault};
use std::alloc::{AllocError, Global};

/// A call, with the bytes that it read or wrote, and its fault, if it failed.
#[derive(Drop)]
pub struct Record {
    /// The kind of call.
    pub action: Action,
    /// The file's name; empty for the diagnostics, and when temporary files are removed.
    pub name: String,
    /// The bytes; empty at the end of a file.
    pub bytes: Vec<u8>,
    /// Why it failed.
    pub fault: Option<Fault>,
}

fn with_record(
    alloc: Global,
    records: Option<Vec<Record>>,
    action: Action,
    name: &str,
    bytes: &[u8],
    fault: Option<Fault>,
) -> Result<Option<Vec<Record>>, AllocError>
    ensures { IfOk result (λ new. (files : List ℕ → Option (List ℕ)) (said : List ℕ) → Leads (asked action name.now bytes.now fault) [] (told files records said) (told files new said)) }
{
    let Some(mut records) = records else {
        return Ok(None)
    };
    let name = String::from_str(alloc, name)?;
    let bytes = Vec::from_slice(alloc, bytes)?;
    records.push(Record {
        action,
        name,
        bytes,
        fault,
    })?;
    Ok(Some(records))
}

/// Adds a record. Returns None if there is not enough memory: then nothing is recorded any more.
pub(crate) fn recorded(
    alloc: Global,
    records: Option<Vec<Record>>,
    action: Action,
    name: &str,
    bytes: &[u8],
    fault: Option<Fault>,
) -> Option<Vec<Record>>
    ensures { (files : List ℕ → Option (List ℕ)) (said : List ℕ) → Leads (asked action name.now bytes.now fault) [] (told files records said) (told files result said) }
{
    match with_record(alloc, records, action, name, bytes, fault) {
        Ok(records) => records,
        Err(AllocError) => None,
    }
}
