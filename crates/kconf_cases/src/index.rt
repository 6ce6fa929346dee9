//! The index of the cases.

use crate::folders::{Entry, entries_of};
use std::io;

/// Returns the name of the case in a line of the index: the text before the first blank.
pub(crate) fn case_name(line: &str) -> &str {
    match line.split_once(' ') {
        Some((name, _)) => name,
        None => line,
    }
}

fn is_listed(index: &str, name: &str) -> bool {
    for line in index.lines() {
        if case_name(line) == name {
            return true;
        }
    }
    false
}

// Prints each of these entries that is not in the index, and returns their number.
fn report_among(rt: &HostRuntime, index: &str, entries: &[Entry]) -> io::Result<u64> {
    let mut count: u64 = 0;
    for entry in entries {
        let name = entry.path.as_str();
        if !is_listed(index, name) {
            println!(rt; "{name}: is not in the index")?;
            count = count.saturating_add(1);
        }
    }
    Ok(count)
}

/// Prints each case that has a folder and no line in the index, and returns their number.
pub(crate) fn report_unlisted(rt: &HostRuntime, index: &str) -> io::Result<u64> {
    let mut count: u64 = 0;
    let families = entries_of(rt, "")?;
    for family in families.iter() {
        if family.is_folder {
            let cases = entries_of(rt, family.path.as_str())?;
            count = count.saturating_add(report_among(rt, index, &cases)?);
        }
    }
    Ok(count)
}
