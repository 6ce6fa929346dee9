//! The content of folders.

use std::fs::FileType;
use std::{fs, io};

// An entry of a folder.
#[derive(Drop)]
pub(crate) struct Entry {
    /// The path: that of the folder, `/` and the name; or the name alone, for the current folder.
    pub path: String,
    pub is_folder: bool,
}

fn entry_at(rt: &HostRuntime, folder: &str, name: &str, kind: FileType) -> io::Result<Entry> {
    let mut path = String::from_str(rt.alloc(), folder)?;
    if !folder.is_empty() {
        path.push('/')?;
    }
    path.push_str(name)?;
    Ok(Entry {
        path,
        is_folder: kind.is_dir(),
    })
}

// Adds the entries of the folder, which is the current one if its path is empty.
fn add_entries(rt: &HostRuntime, folder: &str, entries: &mut Vec<Entry>) -> io::Result<()> {
    let listed = fs::read_dir(rt, if folder.is_empty() { "." } else { folder })?;
    for entry in listed {
        let entry = entry?;
        let kind = entry.file_type()?;
        entries.push(entry_at(rt, folder, entry.file_name(), kind)?)?;
    }
    Ok(())
}

/// Returns the entries of the folder, in no order.
pub(crate) fn entries_of(rt: &HostRuntime, folder: &str) -> io::Result<Vec<Entry>> {
    let mut entries = Vec::new(rt.alloc());
    add_entries(rt, folder, &mut entries)?;
    Ok(entries)
}

// Adds the entries of the folders among the entries of this range.
fn add_below(rt: &HostRuntime, from: usize, to: usize, entries: &mut Vec<Entry>) -> io::Result<()> {
    for at in from..to {
        if at < entries.len() && entries[at].is_folder {
            let folder = String::from_str(rt.alloc(), entries[at].path.as_str())?;
            add_entries(rt, folder.as_str(), entries)?;
        }
    }
    Ok(())
}

/// Returns the entries of the current folder, of its folders and of theirs, in no order.
pub(crate) fn entries_here(rt: &HostRuntime) -> io::Result<Vec<Entry>> {
    let mut entries = entries_of(rt, "")?;
    let here = entries.len();
    add_below(rt, 0, here, &mut entries)?;
    let below = entries.len();
    add_below(rt, here, below, &mut entries)?;
    Ok(entries)
}

/// Returns whether one of the entries is a file at this path.
pub(crate) fn has_file(entries: &[Entry], path: &str) -> bool {
    entries
        .iter()
        .any(|entry| !entry.is_folder && entry.path.as_str() == path)
}
