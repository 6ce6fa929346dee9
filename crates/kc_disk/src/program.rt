//! The program over the files of a disk.
ghost use Rattle.std.specs.Prelude.{◌≡◌};
ghost use Rattle.kc_disk.specs.Program.{KconfEndsOnDisk, exit_status};

use crate::arguments::Arguments;
use crate::device::SystemDevice;
use crate::ended::{Ended, kconf_over};
use crate::folder::SystemFolder;
use crate::showing::{showing_of, shown_options};
use crate::told::tell_held;
use kc_conf::{AcceptedTree, Status};
use std::mem;

// The end of a run, by whether all its diagnostics were written. Nothing is held back if the arguments were not read.
fn ended_if<'a>(
    ended: Ended<'a, SystemFolder<'a>, SystemDevice<'a>>,
    is_told: bool,
) -> Ended<'a, SystemFolder<'a>, SystemDevice<'a>>
    requires { KconfEndsOnDisk ended.arguments.now ended.status }
    ensures of { result.arguments.now ≡ ended.entry.arguments.now }
    ensures ends { KconfEndsOnDisk result.arguments.now result.status }
{
    match ended.arguments() {
        Arguments::Given(_) if !is_told => ended.into_fault(),
        _ => ended,
    }
}

/// Runs `kconf` with these arguments over this device and the files of the disk, and prints its diagnostics as the
/// arguments request (our own). `kept` is the same as for `run_in_folder`.
///
/// With hints, diagnostics are held back from the first one whose hint may start with a fact about the tree, and are
/// written when the run is done. If they cannot be written then, the status is `Faulted`.
pub fn kconf_with<'a>(
    rt: &'a HostRuntime,
    arguments: &'a Arguments,
    device: &mut SystemDevice<'a>,
    kept: &mut Option<AcceptedTree>,
) -> Ended<'a, SystemFolder<'a>, SystemDevice<'a>>
    ensures of { result.arguments.now ≡ arguments.now }
    ensures ends { KconfEndsOnDisk arguments.now result.status }
{
    let options = shown_options(rt.alloc(), arguments);
    let showing = showing_of(&options);
    device.show(showing);
    if showing.hints {
        device.hold();
    }
    let mut folder = SystemFolder::new(rt);
    let ended = kconf_over(rt, arguments, &mut folder, device, kept);
    let is_told = match &options {
        Some(options) => tell_held(rt, options, kept, device),
        None => true,
    };
    ended_if(ended, is_told)
}

/// Runs `kconf` with these arguments: loads the tree, reads the `.config` and the fragments, and writes the files and
/// the diagnostics (our own).
///
/// It is `kconf_over` over the disk, which records nothing, with the same promises.
///
/// Use it in a program that is about to exit: it leaks the memory of the tree, in each call.
pub fn kconf<'a>(
    rt: &'a HostRuntime,
    arguments: &'a Arguments,
) -> Ended<'a, SystemFolder<'a>, SystemDevice<'a>>
    ensures of { result.arguments.now ≡ arguments.now }
    ensures ends { KconfEndsOnDisk arguments.now result.status }
{
    let mut device = SystemDevice::new(rt);
    let mut kept = None;
    let ended = kconf_with(rt, arguments, &mut device, &mut kept);
    // The program ends after this. The system frees the memory of the tree at once, which is cheaper than freeing each
    // part.
    mem::forget(kept);
    ended
}

/// Returns the exit status: 0 if all is done, 1 if the tree or the `.config` is refused or a file is stale, 2 for a
/// usage error, 3 after a fault.
pub fn exit_status(status: Status) -> u8
    ensures { result ≡ exit_status status }
{
    match status {
        Status::Done => 0,
        Status::Refused => 1,
        Status::Usage => 2,
        Status::Faulted => 3,
    }
}
