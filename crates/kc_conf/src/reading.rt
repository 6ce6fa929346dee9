//! Reads the input files, in chunks of any size.

ghost use Rattle.std.specs.Prelude.{◌≡◌, ◌≤◌, ◌++◌, [], false, true, length, map, None, IfErr, IfOk, OnOk, option_map};
ghost use Rattle.kc_io.specs.Log.{Leads, ReadsOn, reading};
ghost use Rattle.kc_language.specs.Lines.{is_whole_lines};
ghost use Rattle.kc_language.specs.ConfigFile.{ArePlacesOf};
ghost use Rattle.kc_input.specs.Feeding.{stream_start};
ghost use Rattle.kc_outcome.specs.Outcome.{lead, input_names};
ghost use Rattle.kc_options.specs.PartsOfOutcome.{holds_warnings};
ghost use Rattle.kc_outcome.specs.Outcome.{fresh_input};
ghost use Rattle.kc_conf.specs.Reads.{BreaksInputs, ReadsInputs, stop_of};
ghost use Rattle.kc_conf.specs.ReadSteps.{BreaksEnd, BreaksFile, BreaksOpened, BreaksPiece, EndsFile, FailsAt, IsReadyToRead, Opens, ReadsFile, ReadsOpened, SaysWaiting, TakesPiece, stand};

use crate::stop::Stop;
use kc_input::fault::InputFault;
use kc_input::laws::{lines_are_cut, reading_goes_line_by_line};
use kc_input::prefix::Prefix;
use kc_input::reader::InputReader;
use kc_input::user_input::UserInput;
use kc_io::{Action, Device, Failure};
use kc_options::{Options, input_file, lead, may_be_missing};
use kc_tree::tree::Tree;
use std::alloc::{AllocError, Global};

// The number of bytes requested at once.
const PIECE: usize = 16_384;

/// A line that is too long: the name of its input file and its number.
#[derive(Clone, Copy, Debug)]
pub(crate) struct LongLine<'a> {
    pub stream: &'a [u8],
    pub number: u64,
}

/// The diagnostics that wait, and whether they wait until all input files are read.
#[derive(Drop)]
pub(crate) struct Waiting {
    pub holds: bool,
    pub text: Vec<u8>,
}

// Opens an input file. Returns whether it exists.
fn open<'n, D: Device>(
    device: &mut D,
    name: &'n str,
    may_be_missing: bool,
) -> Result<bool, Stop<'n>>
    ensures ok { IfOk result (λ there. Opens name.now may_be_missing there (D.log device.old) (D.log device.new) (D.file device.new)) }
    ensures err { IfErr result (λ stop. FailsAt Action.Open name.now stop (D.log device.old) (D.log device.new)) }
{
    match device.open(name, may_be_missing) {
        Ok(there) => Ok(there),
        Err(fault) => Err(Stop::Failed(Failure {
            action: Action::Open,
            name,
            fault,
        })),
    }
}

// Reads the next bytes of the open file.
fn next<'n, D: Device>(device: &mut D, name: &'n str, buffer: &mut [u8]) -> Result<usize, Stop<'n>>
    ensures within { IfOk result (λ count. count ≤ length buffer.old) }
    ensures log { IfOk result (λ count. Leads (reading (Ok count) name.now buffer.new) [] (D.log device.old) (D.log device.new)) }
    ensures given { IfOk result (λ count. ReadsOn count buffer.new (D.file device.old) (D.file device.new)) }
    ensures err { IfErr result (λ stop. FailsAt Action.Read name.now stop (D.log device.old) (D.log device.new)) }
{
    match device.read(name, buffer) {
        Ok(count) => Ok(count),
        Err(fault) => Err(Stop::Failed(Failure {
            action: Action::Read,
            name,
            fault,
        })),
    }
}

// Reports the waiting diagnostics, unless they are held back.
fn say<D: Device>(device: &mut D, waiting: &mut Waiting) -> Result<(), Stop<'static>>
    requires { waiting.old.holds ≡ false → is_whole_lines waiting.old.text.items ≡ true }
    ensures says { SaysWaiting result waiting.old waiting.new (D.log device.old) (D.log device.new) }
    ensures file { D.file device.new ≡ D.file device.old }
{
    if waiting.holds || waiting.text.is_empty() {
        return Ok(());
    }
    match device.report(&[&waiting.text]) {
        Ok(()) => {
            waiting.text.clear();
            Ok(())
        }
        Err(fault) => Err(Stop::Failed(Failure {
            action: Action::Report,
            name: "",
            fault,
        })),
    }
}

// Reads the next chunk of an input file, and reports its warnings. Returns the number of a line that is too long.
fn take_piece<'a, D: Device>(
    reader: &mut InputReader<'a>,
    piece: &[u8],
    device: &mut D,
    user: &mut UserInput<'a>,
    waiting: &mut Waiting,
) -> Result<Option<u64>, Stop<'static>>
    requires { IsReadyToRead reader.old user.old waiting.old }
    ensures ok { IfOk result (λ long. TakesPiece reader.old piece.now long reader.new
        (stand D.file D.log user.old waiting.old device.old) (stand D.file D.log user.new waiting.new device.new)) }
    ensures err { IfErr result (λ stop. BreaksPiece reader.old piece.now stop
        (stand D.file D.log user.old waiting.old device.old) (stand D.file D.log user.new waiting.new device.new)) }
    ensures user { ArePlacesOf reader.old.tree user.new.places }
    ensures holds { waiting.new.holds ≡ waiting.old.holds }
{
    lines_are_cut();
    let fed = reader.feed(piece, user, &mut waiting.text);
    if let Err(stop) = say(device, waiting) {
        return Err(stop);
    }
    match fed {
        Ok(()) => Ok(None),
        Err(InputFault::InputLineTooLong(number)) => Ok(Some(number)),
        Err(InputFault::Memory) => Err(Stop::OutOfMemory),
    }
}

// Finishes the last line of a file that was read to its end, and reports its warning.
fn finish<'a, D: Device>(
    reader: &mut InputReader<'a>,
    device: &mut D,
    user: &mut UserInput<'a>,
    waiting: &mut Waiting,
) -> Result<(), Stop<'static>>
    requires { IsReadyToRead reader.old user.old waiting.old }
    ensures ok { OnOk result (EndsFile reader.old
        (stand D.file D.log user.old waiting.old device.old) (stand D.file D.log user.new waiting.new device.new)) }
    ensures err { IfErr result (λ stop. BreaksEnd reader.old stop
        (stand D.file D.log user.old waiting.old device.old) (stand D.file D.log user.new waiting.new device.new)) }
    ensures user { ArePlacesOf reader.old.tree user.new.places }
    ensures holds { waiting.new.holds ≡ waiting.old.holds }
{
    match reader.finish(user, &mut waiting.text) {
        Ok(()) => say(device, waiting),
        Err(_) => Err(Stop::OutOfMemory),
    }
}

// Reads the open file to its end, or to a line that is too long, and returns that line's number.
fn read_opened<'o, 'a, D: Device>(
    reader: &mut InputReader<'a>,
    name: &'o str,
    device: &mut D,
    user: &mut UserInput<'a>,
    waiting: &mut Waiting,
) -> Result<Option<u64>, Stop<'o>>
    requires ready { IsReadyToRead reader.old user.old waiting.old }
    requires begins { reader.old.position ≡ stream_start }
    ensures ok { IfOk result (λ long. ReadsOpened reader.old name.now long
        (stand D.file D.log user.old waiting.old device.old) (stand D.file D.log user.new waiting.new device.new)) }
    ensures err { IfErr result (λ stop. BreaksOpened reader.old name.now stop
        (stand D.file D.log user.old waiting.old device.old) (stand D.file D.log user.new waiting.new device.new)) }
    ensures user { ArePlacesOf reader.old.tree user.new.places }
    ensures holds { waiting.new.holds ≡ waiting.old.holds }
{
    let mut buffer = [0u8; PIECE];
    'pieces: loop {
        let _waiting = reader.pending();
        let count = match next(device, name, &mut buffer) {
            Ok(count) => count,
            Err(stop) => return Err(stop),
        };
        if count == 0 {
            return match finish(reader, device, user, waiting) {
                Ok(()) => Ok(None),
                Err(stop) => Err(stop),
            };
        }
        match take_piece(reader, &buffer[..count], device, user, waiting) {
            Ok(None) => {}
            Ok(Some(number)) => return Ok(Some(number)),
            Err(stop) => return Err(stop),
        }
    }
}

// Reads an input file to the end of its last line, or to a line that is too long, and returns that line's number.
fn read_file<'o, 'a, D: Device>(
    reader: &mut InputReader<'a>,
    name: &'o str,
    may_be_missing: bool,
    device: &mut D,
    user: &mut UserInput<'a>,
    waiting: &mut Waiting,
) -> Result<Option<u64>, Stop<'o>>
    requires ready { IsReadyToRead reader.old user.old waiting.old }
    requires begins { reader.old.position ≡ stream_start }
    ensures ok { IfOk result (λ long. ReadsFile reader.old name.now may_be_missing long
        (stand D.file D.log user.old waiting.old device.old) (stand D.file D.log user.new waiting.new device.new)) }
    ensures err { IfErr result (λ stop. BreaksFile reader.old name.now may_be_missing stop
        (stand D.file D.log user.old waiting.old device.old) (stand D.file D.log user.new waiting.new device.new)) }
    ensures user { ArePlacesOf reader.old.tree user.new.places }
    ensures holds { waiting.new.holds ≡ waiting.old.holds }
{
    match open(device, name, may_be_missing) {
        Ok(true) => read_opened(reader, name, device, user, waiting),
        Ok(false) => Ok(None),
        Err(stop) => Err(stop),
    }
}

// The name of a fragment in diagnostics.
fn fragment_name(alloc: Global, options: &Options, fragment: &str) -> Result<Vec<u8>, AllocError>
    ensures { IfOk result (λ name. name.items ≡ lead options.now ++ fragment.now) }
{
    let [config, colon] = lead(options);
    let mut name = Vec::from_slice(alloc, config)?;
    name.extend_from_slice(colon)?;
    name.extend_from_slice(fragment.as_bytes())?;
    Ok(name)
}

/// The names of the input files in diagnostics.
pub(crate) fn stream_names(alloc: Global, options: &Options) -> Result<Vec<Vec<u8>>, AllocError>
    ensures { IfOk result (λ names. map (λ name. name.items) names.items ≡ input_names options.now) }
{
    let mut names = Vec::new(alloc);
    names.push(Vec::from_slice(alloc, options.config.as_bytes())?)?;
    for fragment in &options.fragments {
        names.push(fragment_name(alloc, options, fragment)?)?;
    }
    Ok(names)
}

/// What input files are read by: their names in diagnostics, the tree, and the notation of names and strings.
#[derive(Clone, Copy)]
pub(crate) struct Streams<'a> {
    pub names: &'a [Vec<u8>],
    pub tree: &'a Tree,
    pub prefix: &'a Prefix,
}

/// Reads the input files one after another, each with a reader of its own, to the end of the last or to a line that is
/// too long. The caller passes the input before all of them.
pub(crate) fn read_inputs<'o, 'a, D: Device>(
    alloc: Global,
    options: &'o Options,
    streams: Streams<'a>,
    device: &mut D,
    user: &mut UserInput<'a>,
    waiting: &mut Waiting,
) -> Result<Option<LongLine<'a>>, Stop<'o>>
    requires prefix { streams.prefix.now ≡ options.now.prefix }
    requires names { map (λ name. name.items) streams.names.now ≡ input_names options.now }
    requires fresh { (user.old ≡ fresh_input options.now streams.tree.now) × (waiting.old.text.items ≡ []) × (waiting.old.holds ≡ holds_warnings options.now) }
    ensures ok { IfOk result (λ long. ReadsInputs options.now streams.entry.tree.now (option_map stop_of long) user.old user.new waiting.new (D.log device.old) (D.log device.new)) }
    ensures err { IfErr result (λ stop. BreaksInputs options.now streams.entry.tree.now stop user.old (D.log device.old) (D.log device.new)) }
    ensures kept { (waiting.new.holds ≡ waiting.old.holds) × ArePlacesOf streams.entry.tree.now user.new.places }
{
    reading_goes_line_by_line();
    let Streams {
        names,
        tree,
        prefix,
    } = streams;
    for i in 0..names.len() {
        let stream = names[i].as_slice();
        let mut reader = InputReader::new(alloc, tree, prefix, stream);
        match read_file(
            &mut reader,
            input_file(options, i),
            may_be_missing(options, i),
            device,
            user,
            waiting,
        ) {
            Ok(None) => {}
            Ok(Some(number)) => return Ok(Some(LongLine { stream, number })),
            Err(stop) => return Err(stop),
        }
    }
    Ok(None)
}
