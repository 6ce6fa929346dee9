//! A run over a folder: it loads the files of the tree and runs over them.
ghost use Rattle.kc_conf.specs.Faults.{FolderRuns, load_line};
ghost use Rattle.kc_io.specs.Log.{TriesToSay};

use crate::accepted::AcceptedTree;
use crate::diagnostics::try_to_say_error;
use crate::runs::run;
use kc_diagnostics::RunError;
use kc_io::Device;
use kc_load::{Folder, LoadFault, load};
use kc_options::{Options, Status};
use std::alloc::Global;

/// Reports why the files of a tree could not be loaded. If that fails, nothing else changes.
pub fn say_load_fault<D: Device>(fault: &LoadFault, device: &mut D)
    ensures { TriesToSay (load_line fault.now) (D.log device.old) (D.log device.new) }
{
    match fault {
        LoadFault::CannotRead(name) => try_to_say_error(device, RunError::CannotRead(name)),
        LoadFault::Memory => try_to_say_error(device, RunError::Memory),
    }
}

/// Loads the files of a folder, and runs over them like [`run`](crate::run) (our own).
///
/// The file of a name is the one at the path `root/NAME`, or at the name itself if that begins with `/`. A name that is
/// not UTF-8 has no file. The bytes of the files are freed when the tree's lines are known. If a file of the tree
/// cannot be read (E18), or there is not enough memory for it (E20), that is reported, the status is `Faulted`, and
/// nothing else is done; `kept` is unchanged.
pub fn run_in_folder<F: Folder, D: Device>(
    alloc: Global,
    folder: &mut F,
    options: &Options,
    device: &mut D,
    kept: &mut Option<AcceptedTree>,
) -> Status
    ensures { FolderRuns options.now (F.state folder.old) (F.state folder.new) (D.log device.old) (D.log device.new) result }
{
    match load(
        alloc,
        folder,
        options.root.as_str(),
        options.kconfig.as_str(),
        options.is_flat,
    ) {
        Ok(files) => run(alloc, files, options, device, kept),
        Err(fault) => {
            say_load_fault(&fault, device);
            Status::Faulted
        }
    }
}
