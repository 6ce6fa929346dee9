//! A run that tells what must be set so that a symbol has a value.
ghost use Rattle.kc_read.specs.Files.{files_in};
ghost use Rattle.std.specs.Prelude.{◌≡◌, ◌++◌, [], IfOk, List, None, map, option_map, ℕ};
ghost use Rattle.kc_language.specs.Expansion.{Files};
ghost use Rattle.kc_language.specs.Symbols.{TreeFacts};
ghost use Rattle.kc_io.specs.Delivered.{text_view};
ghost use Rattle.kc_io.specs.Log.{Leads, Log};
ghost use Rattle.kc_outcome.specs.Outcome.{is_not_empty, lead, lines_text};
ghost use Rattle.kc_conf.specs.Accepted.{IsAcceptedOf, IsReady};
ghost use Rattle.kc_conf.specs.Endings.{Finishes, Refuses};
ghost use Rattle.kc_conf.specs.Faults.{AreLines, refused_name_of};
ghost use Rattle.kc_conf.specs.How.{FolderHowRuns, HowRuns, IsHowOutcome, heading};
ghost use Rattle.kc_conf.specs.HowParts.{IsInquiry, given_unless, named_with};
ghost use Rattle.kc_conf.specs.PartRuns.{IsHowLeft, Leaves, TellsRest};
ghost use Rattle.kc_conf.specs.PartsOfFaults.{said_of_tree};
ghost use Rattle.kc_conf.specs.Reads.{IsWholeEnd};

use crate::accepted::{AcceptedTree, OrderedTree, read_tree};
use crate::compute::{has_warnings, is_warned_by, names_if};
use crate::diagnostics::{first_line, say_lines, say_parts};
use crate::folder_run::say_load_fault;
use crate::laws::{exactly_one_outcome, one_answer};
use crate::names::{refuse_name, refused_among};
use crate::reading::{Streams, Waiting, read_inputs, stream_names};
use crate::reply::{Asked, Inquiry, Reply, reply_about};
use crate::runs::{answer, finish, finish_long, fresh_input, refuse, say_waiting};
use crate::stop::Stop;
use kc_io::{Device, Text};
use kc_load::{Folder, load};
use kc_options::{Options, Status, holds_warnings, lead, wants_sources};
use kc_possible::possible::Possible;
use kc_read::file_map::FileMap;
use kc_read::laws::opened_are_one_list;
use kc_tree::tree::Tree;
use std::alloc::{AllocError, Global};

// ---- how a run ends

// Refuses with these lines, after the lead.
fn refuse_with<D: Device>(
    options: &Options,
    lines: &[u8],
    device: &mut D,
) -> Result<Status, Stop<'static>>
    requires { IsWholeEnd lines.now }
    ensures { Refuses (lead options.now ++ lines.now) result (D.log device.old) (D.log device.new) }
{
    let [config, colon] = lead(options);
    match say_parts(device, &[config, colon, lines]) {
        Ok(()) => Ok(Status::Refused),
        Err(stop) => Err(stop),
    }
}

// Reports the waiting diagnostics, then refuses with these lines, after the lead.
fn finish_refused<D: Device>(
    options: &Options,
    waiting: &[u8],
    lines: &[u8],
    device: &mut D,
) -> Result<Status, Stop<'static>>
    requires waiting { AreLines waiting.now }
    requires lines { IsWholeEnd lines.now }
    ensures { Finishes options.now (waiting.now ++ (lead options.now ++ lines.now)) [] Status.Refused result (D.log device.old) (D.log device.new) }
{
    match say_waiting(waiting, device) {
        Ok(()) => refuse_with(options, lines, device),
        Err(stop) => Err(stop),
    }
}

// The text behind the line that names the configuration, if it is one of many.
fn headed(alloc: Global, options: &Options, text: &[u8]) -> Result<Vec<u8>, AllocError>
    ensures { IfOk result (λ made. made.items ≡ heading options.now ++ text.now) }
{
    let mut made = Vec::new(alloc);
    if options.names_config {
        made.extend_from_slice(b"# ")?;
        made.extend_from_slice(first_line(options.config.as_bytes()))?;
        made.extend_from_slice(b":\n")?;
    }
    made.extend_from_slice(text)?;
    Ok(made)
}

// The text for each output.
fn texts_by<'o>(
    alloc: Global,
    options: &'o Options,
    text: &[u8],
) -> Result<Vec<Text<'o>>, AllocError>
    ensures { IfOk result (λ texts. map text_view texts.items ≡ map (named_with (heading options.now ++ text.now)) options.now.outputs.items) }
{
    let mut texts = Vec::new(alloc);
    for wanted in &options.outputs {
        let bytes = headed(alloc, options, text)?;
        texts.push(Text {
            name: wanted.file.as_str(),
            bytes,
        })?;
    }
    Ok(texts)
}

// The same; none if --strict-tree refuses the warnings.
fn texts_unless<'o>(
    alloc: Global,
    options: &'o Options,
    tree: &Tree,
    waiting: &[u8],
    text: &[u8],
) -> Result<Option<Vec<Text<'o>>>, AllocError>
    ensures { IfOk result (λ texts. option_map (λ texts. map text_view texts.items) texts
        ≡ given_unless options.now (is_not_empty (lines_text tree.now.warnings)) waiting.now text.now) }
{
    if options.strict_tree && is_warned_by(has_warnings(tree), waiting) {
        return Ok(None);
    }
    let texts = texts_by(alloc, options, text)?;
    Ok(Some(texts))
}

// ---- the run

// Replies to the input files of an accepted tree, after the tree's warnings.
fn how_inputs<'o, D: Device>(
    alloc: Global,
    options: &'o Options,
    inquiry: &Inquiry<'_>,
    accepted: &OrderedTree<'_>,
    device: &mut D,
) -> Result<Status, Stop<'o>>
    requires inquiry { IsInquiry accepted.now inquiry.now }
    requires taken { refused_name_of options.now accepted.now.opened.now accepted.now.laid.tree.now ≡ None }
    ensures { (files : Files) (before : TreeFacts → List ℕ) (told : List ℕ) (start : Log) → TellsRest files options.now accepted.now before told →
        Leads [] (before accepted.now.laid.tree.now) start (D.log device.old) →
        Leaves files options.now before (IsHowLeft files options.now inquiry.now.asked.now accepted.now.laid.tree.now told) result start (D.log device.new) }
{
    one_answer();
    exactly_one_outcome();
    let tree = accepted.laid.tree;
    let names_told = stream_names(alloc, options)?;
    let mut user = fresh_input(alloc, options, tree)?;
    let mut waiting = Waiting {
        holds: holds_warnings(options),
        text: Vec::new(alloc),
    };
    let streams = Streams {
        names: &names_told,
        tree,
        prefix: &options.prefix,
    };
    let long = match read_inputs(alloc, options, streams, device, &mut user, &mut waiting) {
        Ok(long) => long,
        Err(stop) => return Err(stop),
    };
    if let Some(long) = long {
        return finish_long(&waiting.text, long, device);
    }
    let reply = reply_about(alloc, options, inquiry, accepted, &user)?;
    match reply {
        Reply::Text(text) => {
            let texts = texts_unless(alloc, options, tree, &waiting.text, &text)?;
            finish(options, &waiting.text, texts, device)
        }
        Reply::Refusal(lines) => finish_refused(options, &waiting.text, &lines, device),
    }
}

/// Replies for one configuration of an accepted tree: refuses a name, or reports these of the tree's warnings and goes on to
/// the input files.
pub(crate) fn how_accepted<'o, D: Device>(
    alloc: Global,
    options: &'o Options,
    inquiry: &Inquiry<'_>,
    accepted: &OrderedTree<'_>,
    warnings: &[Vec<u8>],
    device: &mut D,
) -> Result<Status, Stop<'o>>
    requires { IsInquiry accepted.now inquiry.now }
    ensures { (files : Files) (before : TreeFacts → List ℕ) (told : List ℕ) → TellsRest files options.now accepted.now before told →
        before accepted.now.laid.tree.now ≡ lines_text (map (λ line. line.items) warnings.now) →
        Leaves files options.now before (IsHowLeft files options.now inquiry.now.asked.now accepted.now.laid.tree.now told) result (D.log device.old) (D.log device.new) }
{
    one_answer();
    exactly_one_outcome();
    let names = names_if(alloc, options, accepted.opened)?;
    let refused = refused_among(alloc, options, &names, accepted.laid.tree)?;
    if let Some(name) = refused {
        return refuse_name(options, &name, device);
    }
    match say_lines(alloc, device, warnings) {
        Ok(()) => how_inputs(alloc, options, inquiry, accepted, device),
        Err(stop) => Err(stop),
    }
}

// Replies about an accepted tree.
fn how_alone<'o, D: Device>(
    alloc: Global,
    options: &'o Options,
    asked: &Asked<'_>,
    accepted: &OrderedTree<'_>,
    device: &mut D,
) -> Result<Status, Stop<'o>>
    requires { IsReady accepted.now }
    ensures { (files : Files) → IsAcceptedOf files options.now accepted.now →
        Leaves files options.now said_of_tree (IsHowOutcome files options.now asked.now) result (D.log device.old) (D.log device.new) }
{
    one_answer();
    exactly_one_outcome();
    let possible = Possible::of(alloc, &accepted.laid, accepted.order.nodes())?;
    let inquiry = Inquiry {
        asked,
        possible: &possible,
    };
    let warnings = accepted.laid.tree.parse_warnings();
    how_accepted(alloc, options, &inquiry, accepted, warnings, device)
}

// Replies about the tree of these files, without reporting why it stopped early.
fn how_over<'o, D: Device>(
    alloc: Global,
    files: FileMap,
    options: &'o Options,
    asked: &Asked<'_>,
    device: &mut D,
    kept: &mut Option<AcceptedTree>,
) -> Result<Status, Stop<'o>>
    ensures { Leaves (files_in files) options.now said_of_tree (IsHowOutcome (files_in files) options.now asked.now) result (D.log device.old) (D.log device.new) }
{
    exactly_one_outcome();
    opened_are_one_list();
    let reading = match read_tree(
        alloc,
        files,
        options.kconfig.as_bytes(),
        wants_sources(options),
    ) {
        Ok(reading) => reading,
        Err(refusal) => return refuse(&refusal, device),
    };
    let accepted = match reading.ordered(alloc) {
        Ok(accepted) => accepted,
        Err(refusal) => return refuse(&refusal, device),
    };
    let ended = how_alone(alloc, options, asked, &accepted, device);
    let order = accepted.order;
    *kept = Some(AcceptedTree { reading, order });
    ended
}

/// Reads the tree and the input files like [`run`](crate::run), and writes, replaces or compares a text for each output of the
/// options: what must be set so that the symbol of the first name to be explained has the asked value (our own). The text is
/// a fragment of which each line is needed, and its cost as comments. Under `strict` the fragment loses no value of the user but
/// those that it overrides.
///
/// A refused tree (E1 to E16), a line that is too long (E17), a name of no symbol (E24), and warnings under `strict_tree` (E21)
/// are reported as by [`run`](crate::run). So is that no input gives the symbol the value, or that it is none of its type (E25),
/// and that no fragment was found (E26). The status is `Refused` then, and `Faulted` if the run stopped early. An accepted tree
/// is moved to `kept`.
pub fn how<D: Device>(
    alloc: Global,
    files: FileMap,
    options: &Options,
    asked: &Asked<'_>,
    device: &mut D,
    kept: &mut Option<AcceptedTree>,
) -> Status
    ensures { HowRuns (files_in files) options.now asked.now (D.log device.old) (D.log device.new) result }
{
    let ended = how_over(alloc, files, options, asked, device, kept);
    answer(options, ended, device).status
}

/// Loads the files of a folder, and tells like [`how`] (our own). If a file of the tree cannot be read (E18), or there is not
/// enough memory for it (E20), that is reported, the status is `Faulted`, and nothing else is done.
pub fn how_in_folder<F: Folder, D: Device>(
    alloc: Global,
    folder: &mut F,
    options: &Options,
    asked: &Asked<'_>,
    device: &mut D,
    kept: &mut Option<AcceptedTree>,
) -> Status
    ensures { FolderHowRuns options.now asked.now (F.state folder.old) (F.state folder.new) (D.log device.old) (D.log device.new) result }
{
    match load(
        alloc,
        folder,
        options.root.as_str(),
        options.kconfig.as_str(),
        options.is_flat,
    ) {
        Ok(files) => how(alloc, files, options, asked, device, kept),
        Err(fault) => {
            say_load_fault(&fault, device);
            Status::Faulted
        }
    }
}
