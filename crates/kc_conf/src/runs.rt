//! One run: it accepts the tree, reads the input files, computes the texts and delivers them.
ghost use Rattle.kc_read.specs.Files.{files_in};
ghost use Rattle.std.specs.Prelude.{◌≡◌, ◌++◌, ℕ, List, [], map, option_map, None, IfOk};
ghost use Rattle.kc_language.specs.Expansion.{Files};
ghost use Rattle.kc_language.specs.Symbols.{TreeFacts};
ghost use Rattle.kc_io.specs.Delivered.{text_view};
ghost use Rattle.kc_io.specs.Log.{Leads, Log};
ghost use Rattle.kc_solve.specs.Again.{IsAgainOf};
ghost use Rattle.kc_conf.specs.Accepted.{IsReady};
ghost use Rattle.kc_outcome.specs.Outcome.{IsOutcome, Options, fresh_input, lead, lines_text};
ghost use Rattle.kc_conf.specs.PartsOfOutcome.{names_if, strict_line, too_long_line};
ghost use Rattle.kc_conf.specs.Faults.{AreLines, Runs, refused_name_of};
ghost use Rattle.kc_conf.specs.PartsOfFaults.{said_of_tree};
ghost use Rattle.kc_conf.specs.Many.{ends_all};
ghost use Rattle.kc_conf.specs.Endings.{Answers, Ends, Finishes, HandsBy, Refuses, RefusesTree, SaysAll, line_if, status_if, texts_or};
ghost use Rattle.kc_conf.specs.PartRuns.{IsLeft, Leaves, TellsRest};
ghost use Rattle.kc_conf.specs.Reads.{stop_of};

use crate::accepted::{AcceptedTree, OrderedTree, read_tree};
use crate::compute::{compute, names_if};
use crate::diagnostics::{report, say_error, say_lines, say_long_line, say_parts, say_refusal};
use crate::laws::{exactly_one_outcome, one_answer};
use crate::names::{refuse_name, refused_among};
use crate::reading::{LongLine, Streams, Waiting, read_inputs, stream_names};
use crate::stop::Stop;
use kc_diagnostics::{Cause, RunError};
use kc_expr::names::Names;
use kc_input::user_input::UserInput;
use kc_io::{Action, Device, Fault, Manner, Text, deliver};
use kc_options::{Delivery, Options, Output, Status, holds_warnings, lead, wants, wants_sources};
use kc_read::file_map::FileMap;
use kc_read::laws::opened_are_one_list;
use kc_read::refusal::Refusal;
use kc_solve::again::Again;
use kc_tree::tree::Tree;
use std::alloc::{AllocError, Global};

// ---- the texts

// Reports which files do not hold their texts.
fn check<D: Device>(
    options: &Options,
    texts: &[Text<'_>],
    device: &mut D,
) -> Result<Status, Stop<'static>>
    requires { options.now.delivery ≡ Delivery.Check }
    ensures { Ends options.now [] (map text_view texts.now) Status.Done result (D.log device.old) (D.log device.new) }
{
    let mut status = Status::Done;
    for text in texts {
        if !device.holds(text.name, &text.bytes) {
            if let Err(stop) = say_error(
                device,
                options,
                RunError::NotUpToDate(text.name.as_bytes()),
            ) {
                return Err(stop);
            }
            status = Status::Refused;
        }
    }
    Ok(status)
}

// Delivers the texts in this manner.
fn hand_out<'o, D: Device>(
    manner: Manner,
    texts: Vec<Text<'o>>,
    device: &mut D,
) -> Result<Status, Stop<'o>>
    ensures { HandsBy manner (map text_view texts.entry.items) (D.log device.old) (D.log device.new) result }
{
    match deliver(manner, texts, device) {
        Ok(()) => Ok(Status::Done),
        Err(failure) => Err(Stop::Failed(failure)),
    }
}

// Delivers the texts, or compares them with their files.
fn hand_out_by<'o, D: Device>(
    options: &Options,
    texts: Vec<Text<'o>>,
    device: &mut D,
) -> Result<Status, Stop<'o>>
    ensures { Ends options.now [] (map text_view texts.entry.items) Status.Done result (D.log device.old) (D.log device.new) }
{
    match options.delivery {
        Delivery::Write => hand_out(Manner::InPlace, texts, device),
        Delivery::Replace => hand_out(Manner::Replacing, texts, device),
        Delivery::Check => check(options, &texts, device),
    }
}

// ---- how a run ends

// Refuses warnings.
fn refuse_warnings<D: Device>(options: &Options, device: &mut D) -> Result<Status, Stop<'static>>
    ensures { Refuses (lead options.now ++ strict_line) result (D.log device.old) (D.log device.new) }
{
    match say_error(device, options, RunError::WarningsRefused) {
        Ok(()) => Ok(Status::Refused),
        Err(stop) => Err(stop),
    }
}

// Refuses a line that is too long.
fn refuse_line<D: Device>(long: LongLine<'_>, device: &mut D) -> Result<Status, Stop<'static>>
    ensures { Refuses (too_long_line (stop_of long.entry)) result (D.log device.old) (D.log device.new) }
{
    match say_long_line(device, &long) {
        Ok(()) => Ok(Status::Refused),
        Err(stop) => Err(stop),
    }
}

/// Reports why no tree is accepted.
pub(crate) fn refuse<D: Device>(refusal: &Refusal, device: &mut D) -> Result<Status, Stop<'static>>
    ensures { RefusesTree refusal.now result (D.log device.old) (D.log device.new) }
{
    if let Cause::Memory = refusal.cause {
        return Err(Stop::OutOfMemory);
    }
    match say_refusal(device, refusal) {
        Ok(()) => Ok(Status::Refused),
        Err(stop) => Err(stop),
    }
}

/// Reports the waiting diagnostics, if there are any.
pub(crate) fn say_waiting<D: Device>(waiting: &[u8], device: &mut D) -> Result<(), Stop<'static>>
    requires { AreLines waiting.now }
    ensures { SaysAll waiting.now result (D.log device.old) (D.log device.new) }
{
    if waiting.is_empty() {
        return Ok(());
    }
    say_parts(device, &[waiting])
}

// Delivers the texts, or refuses them.
fn hand_or_refuse<'o, D: Device>(
    options: &Options,
    texts: Option<Vec<Text<'o>>>,
    device: &mut D,
) -> Result<Status, Stop<'o>>
    ensures { let given = option_map (λ texts. map text_view texts.items) texts.entry in
        Ends options.now (line_if options.now given) (texts_or given) (status_if given) result (D.log device.old) (D.log device.new) }
{
    match texts {
        Some(texts) => hand_out_by(options, texts, device),
        None => refuse_warnings(options, device),
    }
}

/// Reports the waiting diagnostics, then delivers the texts or refuses them.
pub(crate) fn finish<'o, D: Device>(
    options: &Options,
    waiting: &[u8],
    texts: Option<Vec<Text<'o>>>,
    device: &mut D,
) -> Result<Status, Stop<'o>>
    requires { AreLines waiting.now }
    ensures { let given = option_map (λ texts. map text_view texts.items) texts.entry in
        Finishes options.now (waiting.now ++ line_if options.now given) (texts_or given) (status_if given) result (D.log device.old) (D.log device.new) }
{
    match say_waiting(waiting, device) {
        Ok(()) => hand_or_refuse(options, texts, device),
        Err(stop) => Err(stop),
    }
}

/// Reports the waiting diagnostics, then refuses a line that is too long.
pub(crate) fn finish_long<D: Device>(
    waiting: &[u8],
    long: LongLine<'_>,
    device: &mut D,
) -> Result<Status, Stop<'static>>
    requires { AreLines waiting.now }
    ensures { (options : Options) → Finishes options (waiting.now ++ too_long_line (stop_of long.entry)) [] Status.Refused result (D.log device.old) (D.log device.new) }
{
    match say_waiting(waiting, device) {
        Ok(()) => refuse_line(long, device),
        Err(stop) => Err(stop),
    }
}

// ---- the run

// The start of fragment names in diagnostics.
fn lead_text(alloc: Global, options: &Options) -> Result<Vec<u8>, AllocError>
    ensures { IfOk result (λ text. text.items ≡ lead options.now) }
{
    let [config, colon] = lead(options);
    let mut text = Vec::new(alloc);
    text.extend_from_slice(config)?;
    text.extend_from_slice(colon)?;
    Ok(text)
}

/// The user's input before the first input file: empty.
pub(crate) fn fresh_input<'a>(
    alloc: Global,
    options: &Options,
    tree: &Tree,
) -> Result<UserInput<'a>, AllocError>
    ensures { IfOk result (λ input. input ≡ fresh_input options.now tree.now) }
{
    let mut input = UserInput::new(
        alloc,
        tree,
        options.warn_lost || wants(options, Output::Explanation),
    )?;
    input.ask_unset(options.warn_lost);
    input.lead_with(lead_text(alloc, options)?);
    if wants(options, Output::GoneLines) {
        input.keep_gone(alloc);
    }
    Ok(input)
}

// Runs for one configuration of an accepted tree, after the tree's warnings.
fn run_inputs<'o, D: Device>(
    alloc: Global,
    options: &'o Options,
    accepted: &OrderedTree<'_>,
    names: &Option<Names>,
    device: &mut D,
    again: &mut Again,
) -> Result<Status, Stop<'o>>
    requires ready { IsReady accepted.now }
    requires again { IsAgainOf accepted.now.laid again.old }
    requires names { names.now ≡ names_if options.now accepted.now.opened.now }
    requires taken { refused_name_of options.now accepted.now.opened.now accepted.now.laid.tree.now ≡ None }
    ensures again { IsAgainOf accepted.now.laid again.new }
    ensures leaves { (files : Files) (before : TreeFacts → List ℕ) (told : List ℕ) (start : Log) → TellsRest files options.now accepted.now before told →
        Leads [] (before accepted.now.laid.tree.now) start (D.log device.old) →
        Leaves files options.now before (IsLeft files options.now accepted.now.laid.tree.now told) result start (D.log device.new) }
{
    one_answer();
    exactly_one_outcome();
    let tree = accepted.laid.tree;
    let names_told = stream_names(alloc, options)?;
    let mut user = fresh_input(alloc, options, tree)?;
    let mut waiting = Waiting {
        holds: holds_warnings(options),
        text: Vec::new(alloc),
    };
    let streams = Streams {
        names: &names_told,
        tree,
        prefix: &options.prefix,
    };
    let long = match read_inputs(alloc, options, streams, device, &mut user, &mut waiting) {
        Ok(long) => long,
        Err(stop) => return Err(stop),
    };
    if let Some(long) = long {
        return finish_long(&waiting.text, long, device);
    }
    let texts = compute(
        alloc,
        options,
        accepted,
        names,
        &user,
        &mut waiting.text,
        again,
    )?;
    finish(options, &waiting.text, texts, device)
}

/// Runs for one configuration of an accepted tree: refuses a name, or reports these of the tree's warnings and goes on to
/// the input files. A run alone reports all of them. Many configurations report them once, before all turns, so a turn
/// reports none.
pub(crate) fn run_accepted<'o, D: Device>(
    alloc: Global,
    options: &'o Options,
    accepted: &OrderedTree<'_>,
    warnings: &[Vec<u8>],
    device: &mut D,
    again: &mut Again,
) -> Result<Status, Stop<'o>>
    requires ready { IsReady accepted.now }
    requires again { IsAgainOf accepted.now.laid again.old }
    ensures again { IsAgainOf accepted.now.laid again.new }
    ensures leaves { (files : Files) (before : TreeFacts → List ℕ) (told : List ℕ) → TellsRest files options.now accepted.now before told →
        before accepted.now.laid.tree.now ≡ lines_text (map (λ line. line.items) warnings.now) →
        Leaves files options.now before (IsLeft files options.now accepted.now.laid.tree.now told) result (D.log device.old) (D.log device.new) }
{
    one_answer();
    exactly_one_outcome();
    let names = names_if(alloc, options, accepted.opened)?;
    let refused = refused_among(alloc, options, &names, accepted.laid.tree)?;
    if let Some(name) = refused {
        return refuse_name(options, &name, device);
    }
    match say_lines(alloc, device, warnings) {
        Ok(()) => run_inputs(alloc, options, accepted, &names, device, again),
        Err(stop) => Err(stop),
    }
}

// Runs over the files, without reporting why it stopped early.
fn run_over<'o, D: Device>(
    alloc: Global,
    files: FileMap,
    options: &'o Options,
    device: &mut D,
    kept: &mut Option<AcceptedTree>,
) -> Result<Status, Stop<'o>>
    ensures { Leaves (files_in files) options.now said_of_tree (IsOutcome (files_in files) options.now) result (D.log device.old) (D.log device.new) }
{
    exactly_one_outcome();
    opened_are_one_list();
    let reading = match read_tree(
        alloc,
        files,
        options.kconfig.as_bytes(),
        wants_sources(options),
    ) {
        Ok(reading) => reading,
        Err(refusal) => return refuse(&refusal, device),
    };
    let accepted = match reading.ordered(alloc) {
        Ok(accepted) => accepted,
        Err(refusal) => return refuse(&refusal, device),
    };
    let warnings = accepted.laid.tree.parse_warnings();
    let ended = run_accepted(
        alloc,
        options,
        &accepted,
        warnings,
        device,
        &mut Again::never(),
    );
    let order = accepted.order;
    *kept = Some(AcceptedTree { reading, order });
    ended
}

// ---- how a run is answered

/// How a run ended, and whether that ends the runs for all configurations.
#[derive(Clone, Copy)]
pub(crate) struct Turn {
    pub status: Status,
    pub is_over: bool,
}

// Whether a run that stopped early for this reason ends the runs for all configurations.
fn ends_all(stop: &Stop<'_>) -> bool
    ensures { result ≡ ends_all stop.now }
{
    let failure = match stop {
        Stop::OutOfMemory => return true,
        Stop::Failed(failure) => failure,
    };
    match failure.action {
        Action::Report => true,
        Action::Open
        | Action::Miss
        | Action::Read
        | Action::Create(_)
        | Action::Write(_)
        | Action::Close(_)
        | Action::Move
        | Action::Clear => match failure.fault {
            Fault::Memory => true,
            Fault::Refused => false,
        },
    }
}

/// Answers how a run ended. If it stopped early, this reports why, and the status is `Faulted`.
pub(crate) fn answer<D: Device>(
    options: &Options,
    ended: Result<Status, Stop<'_>>,
    device: &mut D,
) -> Turn
    ensures { Answers options.now ended.entry result.status result.is_over (D.log device.old) (D.log device.new) }
{
    match ended {
        Ok(status) => Turn {
            status,
            is_over: false,
        },
        Err(stop) => {
            let is_fatal = ends_all(&stop);
            let is_told = report(device, options, stop);
            Turn {
                status: Status::Faulted,
                is_over: is_fatal || !is_told,
            }
        }
    }
}

/// Runs over a map of files and a device: reads the input files, reports warnings, and writes, replaces or compares the
/// files that the options name (our own).
///
/// For these files, the options and the bytes from the device there is exactly one outcome: the refusal of the tree (E1
/// to E16), of a line (E17), of warnings (E21) or of a name (E23, E24), or the texts and diagnostics of the tree's one
/// solution. `Done` and `Refused` are returned only if the run is complete: it reports and does exactly what the
/// outcome specifies. With `Delivery::Check` a file that does not hold its text is reported (E22), and the status is
/// `Refused`. `Faulted` is returned if the run stopped early: a file could not be read (E18) or written (E19), there
/// was not enough memory (E20), or the diagnostics failed. Everything before that is complete: the diagnostics are
/// whole lines, and no file was created before all diagnostics.
///
/// It is [`run_each`](crate::run_each) of one configuration, except for two things. A refused name (E23, E24) is reported
/// in place of the tree's warnings, and E20 has the lead of the options wherever memory runs out.
///
/// The files are freed when they are read, unless the texts use them. An accepted tree is moved to `kept` and replaces
/// its content. Freeing it takes time. A program that is about to exit can leak it instead.
pub fn run<D: Device>(
    alloc: Global,
    files: FileMap,
    options: &Options,
    device: &mut D,
    kept: &mut Option<AcceptedTree>,
) -> Status
    ensures { Runs (files_in files) options.now (D.log device.old) (D.log device.new) result }
{
    let ended = run_over(alloc, files, options, device, kept);
    answer(options, ended, device).status
}
