//! Reports what was held back, once the run is done.

use crate::device::SystemDevice;
use crate::folder::SystemFolder;
use crate::held::{Held, Report};
use kc_build::{Listing, read_listing};
use kc_conf::{AcceptedTree, Options};
use kc_hints::{Facts, TreeLines, refused_in, tells_range};
use kc_load::load;
use kc_read::file_map::FileMap;
use kc_tree::tree::Tree;
use std::alloc::Global;
use std::io;

// Whether one of the reports is about a value outside its range.
fn names_range(alloc: Global, reports: &[Report]) -> bool {
    for report in reports {
        if matches!(tells_range(alloc, &report.text), Ok(true)) {
            return true;
        }
    }
    false
}

// The file of the tree with the refused line, if a hint describes it.
fn refused_file(alloc: Global, reports: &[Report]) -> Option<Vec<u8>> {
    for report in reports {
        if let Ok(Some(file)) = refused_in(alloc, &report.text) {
            return Vec::from_slice(alloc, file).ok();
        }
    }
    None
}

// Reads the files of the tree again.
fn files_of(rt: &HostRuntime, options: &Options) -> Option<FileMap> {
    let mut folder = SystemFolder::new(rt);
    let root = options.root.as_str();
    load(
        rt.alloc(),
        &mut folder,
        root,
        options.kconfig.as_str(),
        options.is_flat,
    )
    .ok()
}

// Reads the lines of the tree again, if the ranges of a symbol are needed.
fn lines_of(rt: &HostRuntime, options: &Options, held: &Held) -> Option<Listing> {
    if !names_range(rt.alloc(), held.reports()) {
        return None;
    }
    let files = files_of(rt, options)?;
    match read_listing(rt.alloc(), &files, options.kconfig.as_bytes()) {
        Ok(reading) => Some(reading.listing),
        Err(_) => None,
    }
}

// Adds the file of the tree with the refused line.
fn add_refused(rt: &HostRuntime, options: &Options, held: &mut Held) -> Option<()> {
    let name = refused_file(rt.alloc(), held.reports())?;
    let files = files_of(rt, options)?;
    let bytes = files.get(&name)?;
    held.add_input(rt.alloc(), &name, bytes).ok()
}

// The lines of a listing.
fn lines_in(listing: &Listing) -> TreeLines<'_> {
    TreeLines {
        names: &listing.names,
        entries: &listing.entries,
    }
}

// The tree that a run accepted.
fn tree_in(kept: &Option<AcceptedTree>) -> Option<&Tree> {
    match kept {
        Some(accepted) => Some(accepted.tree()),
        None => None,
    }
}

// Reports what was held back.
fn tell(
    rt: &HostRuntime,
    options: &Options,
    kept: &Option<AcceptedTree>,
    mut held: Held,
    device: &mut SystemDevice<'_>,
) -> io::Result<()> {
    let _ = add_refused(rt, options, &mut held);
    let listing = lines_of(rt, options, &held);
    let facts = Facts {
        prefix: options.prefix.as_bytes(),
        tree: tree_in(kept),
        lines: listing.as_ref().map(|listing| lines_in(listing)),
        inputs: held.inputs(),
    };
    device.write_reports(held.reports(), &facts)
}

/// Reports what the device held back in a run with these options, with facts of the tree in `kept`. Returns whether
/// that was written.
pub(crate) fn tell_held(
    rt: &HostRuntime,
    options: &Options,
    kept: &Option<AcceptedTree>,
    device: &mut SystemDevice<'_>,
) -> bool {
    match device.take_held() {
        Some(held) => tell(rt, options, kept, held, device).is_ok(),
        None => true,
    }
}
