//! Runs of the program over any folder and device. Nothing else creates an `Ended`.
ghost use Rattle.std.specs.Prelude.{◌≡◌};
ghost use Rattle.kc_disk.specs.Program.{KconfEnds};
ghost use Rattle.kc_outcome.specs.declared.outcome.Status.TheVariants.{Faulted};

use crate::answer::answer;
use crate::arguments::Arguments;
use kc_conf::{AcceptedTree, Status};
use kc_io::Device;
use kc_load::Folder;
use std::marker::PhantomData;

/// A run that ended: with these arguments, over a folder and a device of these types (our own).
///
/// Only `kconf_over` creates one. So an `Ended` over the system's folder and device, which record nothing, comes from a
/// run that did what `kconf_over` promises for every folder and device: `Status::Done` comes only from a run that
/// succeeded.
#[derive(Drop)]
pub struct Ended<'a, F, D> {
    arguments: &'a Arguments,
    status: Status,
    over: PhantomData<(F, D)>,
}

impl<'a, F, D> Ended<'a, F, D> {
    /// How it ended.
    pub fn status(&self) -> Status
        ensures { result ≡ self.now.status }
    {
        self.status
    }

    /// The arguments of the run.
    pub(crate) fn arguments(&self) -> &'a Arguments
        ensures { result.now ≡ self.now.arguments.now }
    {
        self.arguments
    }

    /// The same run, with status `Faulted`, since not all of its diagnostics were written.
    pub(crate) fn into_fault(self) -> Self
        ensures of { result.arguments.now ≡ self.entry.arguments.now }
        ensures fault { result.status ≡ Faulted }
    {
        let Ended {
            arguments,
            status: _,
            over,
        } = self;
        Ended {
            arguments,
            status: Status::Faulted,
            over,
        }
    }
}

/// Runs `kconf` with these arguments over a folder and a device (our own).
///
/// Help and the version go to standard output; if that does not take all of it, the status is `Faulted`. A usage error
/// is reported, and so are arguments that could not be read. Then no file is read or written. `kept` is the same as for
/// `run_in_folder`.
pub fn kconf_over<'a, F: Folder, D: Device>(
    rt: &HostRuntime,
    arguments: &'a Arguments,
    folder: &mut F,
    device: &mut D,
    kept: &mut Option<AcceptedTree>,
) -> Ended<'a, F, D>
    ensures of { result.arguments.now ≡ arguments.now }
    ensures ends { KconfEnds arguments.now (F.state folder.old) (F.state folder.new) (D.log device.old) (D.log device.new) result.status }
{
    let status = answer(rt, arguments, folder, device, kept);
    Ended {
        arguments,
        status,
        over: PhantomData,
    }
}
