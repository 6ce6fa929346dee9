//! Runs whose input files include other files.
ghost use Rattle.std.specs.Prelude.{◌≡◌, None, length, map, string_bytes, IfOk};
ghost use Rattle.kc_read.specs.Files.{files_in};
ghost use Rattle.kc_outcome.specs.declared.outcome.Status.TheVariants as status;
ghost use Rattle.kc_conf.specs.Faults.{FolderRuns};
ghost use Rattle.kc_disk.specs.Program.{AsksIncluding, FolderAsks, GivesPieced, IsPieced, RunsIncluding, TakesTurns, TurnsIncluding};

use crate::asking::ask;
use crate::each::{Named, take_turns};
use kc_conf::{AcceptedTree, Configurations, Options, Status, run_in_folder, say_load_fault};
use kc_include::{Inputs, Piece, PiecedDevice, later_names};
use kc_io::Device;
use kc_load::{Folder, LoadFault};
use kc_options::wants_sources;
use kc_read::file_map::FileMap;
use kc_words::HowQuestion;
use std::alloc::{AllocError, Global};
use std::cell::Cell;

// The folder of the included files.
fn folder_of(options: &Options) -> &str {
    match &options.include {
        Some(folder) => folder.as_str(),
        None => "",
    }
}

// Reads the input files of these options: the fragments, then the configurations of these names.
fn read_inputs<D: Device>(
    alloc: Global,
    options: &Options,
    configurations: &[&str],
    device: &mut D,
) -> Result<Inputs, AllocError> {
    let mut inputs = Inputs::new(alloc, folder_of(options))?;
    for fragment in &options.fragments {
        inputs.read(alloc, device, fragment.as_str(), false)?;
    }
    for name in configurations {
        inputs.read(alloc, device, name, !options.must_exist)?;
    }
    Ok(inputs)
}

// The numbers of the input files of a configuration: its own, and those of the fragments.
fn numbers_of(alloc: Global, own: usize, fragments: usize) -> Result<Vec<usize>, AllocError> {
    let mut numbers = Vec::new(alloc);
    numbers.push(own)?;
    for i in 0..fragments {
        numbers.push(i)?;
    }
    Ok(numbers)
}

// The pieces of this many configurations, which were read after this many fragments.
fn turns_of<'t>(
    alloc: Global,
    inputs: &'t Inputs,
    fragments: usize,
    configurations: usize,
) -> Result<Vec<Vec<Piece<'t>>>, AllocError> {
    let mut turns = Vec::new(alloc);
    for i in 0..configurations {
        let numbers = numbers_of(alloc, fragments.saturating_add(i), fragments)?;
        turns.push(inputs.pieces(alloc, &numbers)?)?;
    }
    Ok(turns)
}

// The options with the pieces of this turn, after the first, as fragments.
fn pieced(
    alloc: Global,
    mut options: Options,
    turns: &[Vec<Piece<'_>>],
    turn: usize,
) -> Result<Options, AllocError>
    ensures { IfOk result (IsPieced options) }
{
    options.fragments = match turns.get(turn) {
        Some(pieces) => later_names(alloc, pieces)?,
        None => Vec::new(alloc),
    };
    Ok(options)
}

// Reports that there is not enough memory.
fn say_no_memory<D: Device>(device: &mut D) -> Status
    ensures { result ≡ status.Faulted }
{
    say_load_fault(&LoadFault::Memory, device);
    Status::Faulted
}

// The options for these pieces, and the pieces.
fn turn_of<'t>(
    alloc: Global,
    options: Options,
    inputs: &'t Inputs,
) -> Result<(Options, Vec<Vec<Piece<'t>>>), AllocError>
    ensures { IfOk result (λ turn. IsPieced options turn.0) }
{
    let turns = turns_of(alloc, inputs, options.fragments.len(), 1)?;
    let options = pieced(alloc, options, &turns, 0)?;
    Ok((options, turns))
}

// Runs over pieces with these options.
fn run_pieces<F: Folder, D: Device>(
    alloc: Global,
    folder: &mut F,
    options: &Options,
    turns: &[Vec<Piece<'_>>],
    device: &mut D,
    kept: &mut Option<AcceptedTree>,
) -> Status
    ensures { FolderRuns options.now (F.state folder.old) (F.state folder.new) None None result }
{
    let turn = Cell::new(0);
    let mut pieces = PiecedDevice::new(device, turns, &turn);
    run_in_folder(alloc, folder, options, &mut pieces, kept)
}

// Runs over the input files that were read.
fn run_inputs<F: Folder, D: Device>(
    alloc: Global,
    folder: &mut F,
    options: Options,
    inputs: &Inputs,
    device: &mut D,
    kept: &mut Option<AcceptedTree>,
) -> Status
    ensures { RunsIncluding options (F.state folder.old) (F.state folder.new) result }
{
    match turn_of(alloc, options, inputs) {
        Ok((options, turns)) => run_pieces(alloc, folder, &options, &turns, device, kept),
        Err(_) => say_no_memory(device),
    }
}

/// Runs over the files of a folder, with the files that lines of the input files include (our own).
///
/// The input files and their included files are read at once, before the tree. Then it does the same as `run_in_folder`
/// of kc_conf for the pieces of these files.
pub(crate) fn run_including<F: Folder, D: Device>(
    alloc: Global,
    folder: &mut F,
    options: Options,
    device: &mut D,
    kept: &mut Option<AcceptedTree>,
) -> Status
    ensures { RunsIncluding options (F.state folder.old) (F.state folder.new) result }
{
    match read_inputs(alloc, &options, &[options.config.as_str()], device) {
        Ok(inputs) => run_inputs(alloc, folder, options, &inputs, device, kept),
        Err(_) => say_no_memory(device),
    }
}

// Asks over pieces.
fn ask_pieces<F: Folder, D: Device>(
    alloc: Global,
    folder: &mut F,
    how: &HowQuestion,
    turns: &[Vec<Piece<'_>>],
    device: &mut D,
    kept: &mut Option<AcceptedTree>,
) -> Status
    ensures { FolderAsks how.now (F.state folder.old) (F.state folder.new) None None result }
{
    let turn = Cell::new(0);
    let mut pieces = PiecedDevice::new(device, turns, &turn);
    ask(alloc, folder, how, &mut pieces, kept)
}

// Asks over the input files that were read.
fn ask_inputs<F: Folder, D: Device>(
    alloc: Global,
    folder: &mut F,
    how: HowQuestion,
    inputs: &Inputs,
    device: &mut D,
    kept: &mut Option<AcceptedTree>,
) -> Status
    ensures { AsksIncluding how (F.state folder.old) (F.state folder.new) result }
{
    let HowQuestion {
        options,
        value,
        steps,
    } = how;
    match turn_of(alloc, options, inputs) {
        Ok((options, turns)) => {
            let pieced = HowQuestion {
                options,
                value,
                steps,
            };
            ask_pieces(alloc, folder, &pieced, &turns, device, kept)
        }
        Err(_) => say_no_memory(device),
    }
}

/// Tells what must be set so that the symbol of the question has the value, with the files that lines of the input files
/// include (our own).
///
/// The input files and their included files are read at once, before the tree, as by [`run_including`].
pub(crate) fn ask_including<F: Folder, D: Device>(
    alloc: Global,
    folder: &mut F,
    how: HowQuestion,
    device: &mut D,
    kept: &mut Option<AcceptedTree>,
) -> Status
    ensures { AsksIncluding how (F.state folder.old) (F.state folder.new) result }
{
    match read_inputs(alloc, &how.options, &[how.options.config.as_str()], device) {
        Ok(inputs) => ask_inputs(alloc, folder, how, &inputs, device, kept),
        Err(_) => say_no_memory(device),
    }
}

// The options of each of these configurations, for its pieces.
#[derive(Drop)]
struct PiecedConfigurations<'e> {
    named: &'e Named<'e, 'e>,
    turns: &'e [Vec<Piece<'e>>],
    // The current turn.
    turn: &'e Cell<usize>,
}

impl<'e> Configurations for PiecedConfigurations<'e> {
    ghost options = { λ s. GivesPieced s.named.now.each.now (map string_bytes s.named.now.names.now) };

    ghost number = { λ s. length s.named.now.names.now };

    fn count(&self) -> usize {
        self.named.names.len()
    }

    fn options_of(&self, alloc: Global, i: usize) -> Result<Options, AllocError> {
        self.turn.set(i);
        let name = self.named.names[i].as_str();
        let options = self.named.each.options_for(alloc, name)?;
        pieced(alloc, options, self.turns, i)
    }

    fn keeps_sources(&self) -> bool {
        wants_sources(&self.named.each.options)
    }
}

// The names as texts.
fn texts_of<'e>(alloc: Global, names: &'e [String]) -> Result<Vec<&'e str>, AllocError> {
    let mut texts = Vec::new(alloc);
    for name in names {
        texts.push(name.as_str())?;
    }
    Ok(texts)
}

// Reads the input files of these configurations.
fn read_each<D: Device>(
    alloc: Global,
    named: &Named<'_, '_>,
    device: &mut D,
) -> Result<Inputs, AllocError> {
    let texts = texts_of(alloc, named.names)?;
    read_inputs(alloc, &named.each.options, &texts, device)
}

// Lets the configurations take their turns over these pieces.
fn take_pieces<D: Device>(
    alloc: Global,
    files: FileMap,
    named: &Named<'_, '_>,
    turns: &[Vec<Piece<'_>>],
    device: &mut D,
    kept: &mut Option<AcceptedTree>,
) -> Status
    ensures { let each = named.now.each.now in
        TakesTurns named.now.asked (files_in files) (string_bytes each.options.kconfig) (GivesPieced each (map string_bytes named.now.names.now)) (length named.now.names.now) None None result }
{
    let turn = Cell::new(0);
    let mut pieces = PiecedDevice::new(device, turns, &turn);
    let configurations = PiecedConfigurations {
        named,
        turns,
        turn: &turn,
    };
    let root = named.each.options.kconfig.as_str();
    take_turns(
        alloc,
        files,
        root,
        &configurations,
        &named.asked,
        &mut pieces,
        kept,
    )
}

// Lets these configurations take their turns over the input files that were read.
fn take_inputs<D: Device>(
    alloc: Global,
    files: FileMap,
    named: &Named<'_, '_>,
    inputs: &Inputs,
    device: &mut D,
    kept: &mut Option<AcceptedTree>,
) -> Status
    ensures { TurnsIncluding named.now.asked (files_in files) named.now.each.now (map string_bytes named.now.names.now) result }
{
    let fragments = named.each.options.fragments.len();
    match turns_of(alloc, inputs, fragments, named.names.len()) {
        Ok(turns) => take_pieces(alloc, files, named, &turns, device, kept),
        Err(_) => say_no_memory(device),
    }
}

/// Lets these configurations take their turns over a map of files, with the files that lines of the input files include
/// (our own).
///
/// All input files and their included files are read at once, before the first turn. Then it does the same as
/// `run_each` or `how_each` of kc_conf for the pieces of these files.
pub(crate) fn take_turns_including<D: Device>(
    alloc: Global,
    files: FileMap,
    named: &Named<'_, '_>,
    device: &mut D,
    kept: &mut Option<AcceptedTree>,
) -> Status
    ensures { TurnsIncluding named.now.asked (files_in files) named.now.each.now (map string_bytes named.now.names.now) result }
{
    match read_each(alloc, named, device) {
        Ok(inputs) => take_inputs(alloc, files, named, &inputs, device, kept),
        Err(_) => say_no_memory(device),
    }
}
