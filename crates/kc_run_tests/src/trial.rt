//! A run over memory.
use kc_conf::{FileMap, Options, Status, run};
use kc_io::{Action, Device, Site};
use kc_memory_device::MemoryDevice;
use kc_words::{Request, request_of};
use std::alloc::{AllocError, Global};
use std::test::Fail;

/// Arguments that request all files.
pub(crate) const ALL: &str = "--header out.h --savedefconfig min.config --depfile out.d Kconfig";

/// The options of these arguments, which are separated by blanks.
pub(crate) fn options_of(alloc: Global, arguments: &str) -> Result<Options, Fail> {
    let mut words = Vec::new(alloc);
    for word in arguments.split(' ') {
        words.push(String::from_str(alloc, word)?)?;
    }
    match request_of(alloc, &words) {
        Ok(Request::One(options)) => Ok(options),
        _ => Err(Fail::from("these arguments ask for no run")),
    }
}

/// A tree of one file.
pub(crate) fn one_file(alloc: Global, kconfig: &[u8]) -> Result<FileMap, AllocError> {
    let mut files = FileMap::new(alloc, false);
    files.insert(
        Vec::from_slice(alloc, b"Kconfig")?,
        Vec::from_slice(alloc, kconfig)?,
    )?;
    Ok(files)
}

/// Runs over these files and this device, without keeping a tree.
pub(crate) fn run_over(
    alloc: Global,
    files: FileMap,
    options: &Options,
    device: &mut MemoryDevice<'_>,
) -> Status {
    let mut kept = None;
    run(alloc, files, options, device, &mut kept)
}

/// Whether the file of this name was created.
pub(crate) fn is_made(device: &MemoryDevice<'_>, name: &str) -> bool {
    match device.records() {
        Some(records) => records.iter().any(|record| {
            record.action == Action::Create(Site::Place) && record.name.as_str() == name
        }),
        None => false,
    }
}

/// Whether the file of this name was created and holds these bytes.
pub(crate) fn is_left(device: &MemoryDevice<'_>, name: &str, bytes: &[u8]) -> bool {
    is_made(device, name) && device.holds(name, bytes)
}
