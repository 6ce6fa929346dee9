//! Runs and answers for many configurations over a folder.
ghost use Rattle.std.specs.Prelude.{◌≡◌, length, map, string_bytes, IfOk};
ghost use Rattle.kc_conf.specs.Many.{AreRootedAt};
ghost use Rattle.kc_disk.specs.Program.{FolderAsksEach, FolderRunsEach, GivesOptions, TakesTurns};
ghost use Rattle.kc_disk.specs.EachSteps.{FindsNames, IsUnreadable, ReadsList, ReadsListIf, RunsLoaded, RunsNamed};
ghost use Rattle.kc_read.specs.Files.{files_in};

use crate::including::take_turns_including;
use crate::usage::say_usage;
use kc_conf::{
    AcceptedTree, Asked, Configurations, Options, Status, how_each, run_each, say_load_fault,
};
use kc_io::Device;
use kc_load::{Folder, FolderFault, LoadFault, load};
use kc_options::wants_sources;
use kc_read::file_map::FileMap;
use kc_words::{Each, EachQuestion, list_of};
use std::alloc::{AllocError, Global};

/// The configurations of these names, and what is asked of each: nothing if each is run.
#[derive(Drop)]
pub(crate) struct Named<'e, 'n> {
    pub(crate) each: &'e Each,
    pub(crate) names: &'n [String],
    pub(crate) asked: Option<Asked<'e>>,
}

impl<'e, 'n> Configurations for Named<'e, 'n> {
    ghost options = { λ s. GivesOptions s.each.now (map string_bytes s.names.now) };

    ghost number = { λ s. length s.names.now };

    fn count(&self) -> usize {
        self.names.len()
    }

    fn options_of(&self, alloc: Global, i: usize) -> Result<Options, AllocError> {
        self.each.options_for(alloc, self.names[i].as_str())
    }

    #[tactic(auto, using(crate::proofs::KeptLemmas::keeps_for))]
    fn keeps_sources(&self) -> bool {
        wants_sources(&self.each.options)
    }
}

// The fault of a list that cannot be read.
fn unreadable(alloc: Global, list: &str) -> LoadFault
    ensures { IsUnreadable list.now result }
{
    match Vec::from_slice(alloc, list.as_bytes()) {
        Ok(name) => LoadFault::CannotRead(name),
        Err(_) => LoadFault::Memory,
    }
}

// The names on a list in the folder. Fails with a fault of this file if it does not exist or is not UTF-8.
fn read_list<F: Folder>(alloc: Global, folder: &mut F, list: &str) -> Result<Vec<String>, LoadFault>
    ensures { ReadsList list.now result (F.state folder.old) (F.state folder.new) }
{
    match folder.read(list) {
        Ok(Some(bytes)) => match list_of(alloc, &bytes)? {
            Some(names) => Ok(names),
            None => Err(unreadable(alloc, list)),
        },
        Ok(None) | Err(FolderFault::Device) => Err(unreadable(alloc, list)),
        Err(FolderFault::Memory) => Err(LoadFault::Memory),
    }
}

// The names on the list, if there is one.
fn listed<F: Folder>(alloc: Global, folder: &mut F, each: &Each) -> Result<Vec<String>, LoadFault>
    ensures { ReadsListIf each.now result (F.state folder.old) (F.state folder.new) }
{
    match &each.list {
        Some(list) => read_list(alloc, folder, list.as_str()),
        None => Ok(Vec::new(alloc)),
    }
}

// Copies of the names.
fn copies_of(alloc: Global, names: &[String]) -> Result<Vec<String>, AllocError>
    ensures { IfOk result (λ copies. map string_bytes copies.items ≡ map string_bytes names.now) }
{
    let mut copies = Vec::new(alloc);
    for name in names {
        copies.push(String::from_str(alloc, name.as_str())?)?;
    }
    Ok(copies)
}

// The names of all configurations: those in the arguments, then those in the list.
fn names_of<F: Folder>(alloc: Global, folder: &mut F, each: &Each) -> Result<Vec<String>, LoadFault>
    ensures { FindsNames each.now result (F.state folder.old) (F.state folder.new) }
{
    let mut names = copies_of(alloc, &each.configurations)?;
    let mut more = listed(alloc, folder, each)?;
    names.append(&mut more)?;
    Ok(names)
}

/// Runs for many configurations over the files of a folder: those in the arguments, then those in a list, which is a
/// path of the folder (our own).
///
/// If the list cannot be read (E18), the configurations would write what another one writes or reads (a usage error),
/// or the files of the tree cannot be loaded (E18, E20), that is reported, and nothing else is done. Otherwise it does
/// the same as `run_each` of kc_conf.
pub fn run_each_in_folder<F: Folder, D: Device>(
    alloc: Global,
    folder: &mut F,
    each: &Each,
    device: &mut D,
    kept: &mut Option<AcceptedTree>,
) -> Status
    ensures { FolderRunsEach each.now (F.state folder.old) (F.state folder.new) (D.log device.old) (D.log device.new) result }
{
    let names = match names_of(alloc, folder, each) {
        Ok(names) => names,
        Err(fault) => {
            say_load_fault(&fault, device);
            return Status::Faulted;
        }
    };
    match each.check_names(alloc, &names) {
        Ok(()) => {
            let named = Named {
                each,
                names: &names,
                asked: None,
            };
            take_named(alloc, folder, &named, device, kept)
        }
        Err(usage) => say_usage(device, &usage),
    }
}

/// Tells for each of many configurations what must be set so that the symbol of the question has the value (our own). The
/// configurations are found like those of [`run_each_in_folder`].
///
/// If the list cannot be read (E18), or the files of the tree cannot be loaded (E18, E20), that is reported, and nothing else
/// is done. Otherwise it does the same as `how_each` of kc_conf.
pub(crate) fn ask_each_in_folder<F: Folder, D: Device>(
    alloc: Global,
    folder: &mut F,
    how: &EachQuestion,
    device: &mut D,
    kept: &mut Option<AcceptedTree>,
) -> Status
    ensures { FolderAsksEach how.now (F.state folder.old) (F.state folder.new) (D.log device.old) (D.log device.new) result }
{
    let asked = Asked {
        value: how.value.as_str(),
        steps: how.steps,
    };
    match names_of(alloc, folder, &how.each) {
        Ok(names) => {
            let named = Named {
                each: &how.each,
                names: &names,
                asked: Some(asked),
            };
            take_named(alloc, folder, &named, device, kept)
        }
        Err(fault) => {
            say_load_fault(&fault, device);
            Status::Faulted
        }
    }
}

/// Lets the configurations take their turns: each runs, or answers what is asked.
pub(crate) fn take_turns<C: Configurations, D: Device>(
    alloc: Global,
    files: FileMap,
    root: &str,
    configurations: &C,
    asked: &Option<Asked<'_>>,
    device: &mut D,
    kept: &mut Option<AcceptedTree>,
) -> Status
    requires { AreRootedAt root.now (C.options configurations.now) }
    ensures { TakesTurns asked.now (files_in files) root.now (C.options configurations.now) (C.number configurations.now) (D.log device.old) (D.log device.new) result }
{
    match asked {
        Some(asked) => how_each(alloc, files, root, configurations, asked, device, kept),
        None => run_each(alloc, files, root, configurations, device, kept),
    }
}

// Lets these configurations take their turns over the loaded files.
fn take_loaded<D: Device>(
    alloc: Global,
    files: FileMap,
    named: &Named<'_, '_>,
    device: &mut D,
    kept: &mut Option<AcceptedTree>,
) -> Status
    ensures { RunsLoaded named.now.asked (files_in files) named.now.each.now (map string_bytes named.now.names.now) (D.log device.old) (D.log device.new) result }
{
    let options = &named.each.options;
    if options.include.is_some() {
        return take_turns_including(alloc, files, named, device, kept);
    }
    let root = options.kconfig.as_str();
    take_turns(alloc, files, root, named, &named.asked, device, kept)
}

// Lets these configurations take their turns.
fn take_named<F: Folder, D: Device>(
    alloc: Global,
    folder: &mut F,
    named: &Named<'_, '_>,
    device: &mut D,
    kept: &mut Option<AcceptedTree>,
) -> Status
    ensures { RunsNamed named.now.asked named.now.each.now (map string_bytes named.now.names.now) (F.state folder.old) (F.state folder.new) (D.log device.old) (D.log device.new) result }
{
    let options = &named.each.options;
    match load(
        alloc,
        folder,
        options.root.as_str(),
        options.kconfig.as_str(),
        options.is_flat,
    ) {
        Ok(files) => take_loaded(alloc, files, named, device, kept),
        Err(fault) => {
            say_load_fault(&fault, device);
            Status::Faulted
        }
    }
}
