//! A run that lists the prompts that no input makes visible, and why. It reads the tree and no input file.
ghost use Rattle.kc_read.specs.Files.{files_in};
ghost use Rattle.std.specs.Prelude.{◌≡◌, ◌++◌, IfOk, OnOk, map, option_map};
ghost use Rattle.kc_language.specs.Expansion.{Files};
ghost use Rattle.kc_io.specs.Delivered.{text_view};
ghost use Rattle.kc_outcome.specs.Outcome.{IsAcceptedTree, root_file};
ghost use Rattle.kc_conf.specs.Dead.{FolderListsDead, ListsDead, dead_line, reasons_text};
ghost use Rattle.kc_conf.specs.DeadParts.{IsDeadText, IsListOf, LeavesList, texts_unless};
ghost use Rattle.kc_possible.specs.Possible.{IsSound};

use crate::accepted::{AcceptedTree, OrderedTree, read_tree};
use crate::causes::add_more_names;
use crate::diagnostics::add_lines;
use crate::folder_run::say_load_fault;
use crate::laws::outcome_exists;
use crate::runs::{answer, finish, refuse};
use crate::stop::Stop;
use kc_expr::expression::SymId;
use kc_io::{Device, Text};
use kc_load::{Folder, load};
use kc_options::{Options, Status};
use kc_possible::dead::dead_prompts;
use kc_possible::possible::Possible;
use kc_possible::reason::shared_reasons;
use kc_possible::shared::SharedReasons;
use kc_read::file_map::FileMap;
use kc_tree::tree::Tree;
use kc_values::table::name;
use std::alloc::{AllocError, Global};

// Adds the names of the symbols that stand in the way, if there are any.
fn add_reasons(tree: &Tree, reasons: &[SymId], text: &mut Vec<u8>) -> Result<(), AllocError>
    ensures { OnOk result (text.new.items ≡ text.old.items ++ reasons_text tree.now reasons.now) }
{
    match reasons {
        [] => Ok(()),
        [first, more @ ..] => {
            text.extend_from_slice(b": ")?;
            text.extend_from_slice(name(tree, *first))?;
            add_more_names(tree, more, text)
        }
    }
}

// Adds the line of a symbol.
fn add_line(tree: &Tree, id: SymId, reasons: &[SymId], text: &mut Vec<u8>) -> Result<(), AllocError>
    ensures { OnOk result (text.new.items ≡ text.old.items ++ dead_line tree.now (record { symbol = id; reasons = reasons.now })) }
{
    text.extend_from_slice(name(tree, id))?;
    add_reasons(tree, reasons, text)?;
    text.push(b'\n')?;
    Ok(())
}

// The lines of these symbols, each with the symbols that stand in its way.
#[tactic(auto, using(crate::proofs::DeadLemmas::list_begins))]
fn list_of(alloc: Global, p: &Possible<'_>, dead: &[SymId]) -> Result<Vec<u8>, AllocError>
    requires { IsSound p.now }
    ensures { IfOk result (λ text. IsListOf p.now.laid.tree.now dead.now text.items) }
{
    let mut text = Vec::new(alloc);
    let mut shared = SharedReasons::new(alloc, p)?;
    for id in dead {
        let reasons = shared_reasons(p, *id, &mut shared)?;
        add_line(p.laid.tree, *id, &reasons, &mut text)?;
    }
    Ok(text)
}

// The list of a tree.
fn dead_list(alloc: Global, accepted: &OrderedTree<'_>) -> Result<Vec<u8>, AllocError>
    ensures { IfOk result (λ text. IsDeadText accepted.now.laid.tree.now text.items) }
{
    let possible = Possible::of(alloc, &accepted.laid, accepted.order.nodes())?;
    let dead = dead_prompts(alloc, &possible)?;
    list_of(alloc, &possible, &dead)
}

// The text for its file; none if --strict-tree refuses these warnings.
fn wanted<'o>(
    alloc: Global,
    options: &Options,
    file: &'o str,
    text: Vec<u8>,
    warnings: &[u8],
) -> Result<Option<Vec<Text<'o>>>, AllocError>
    ensures { IfOk result (λ texts. option_map (λ texts. map text_view texts.items) texts ≡ texts_unless options.now file.now text.items warnings.now) }
{
    if options.strict_tree && !warnings.is_empty() {
        return Ok(None);
    }
    let mut texts = Vec::new(alloc);
    texts.push(Text {
        name: file,
        bytes: text,
    })?;
    Ok(Some(texts))
}

// Lists the dead prompts of an accepted tree.
fn list_accepted<'o, D: Device>(
    alloc: Global,
    options: &Options,
    accepted: &OrderedTree<'_>,
    file: &'o str,
    device: &mut D,
) -> Result<Status, Stop<'o>>
    ensures { (files : Files) → IsAcceptedTree files (root_file options.now) accepted.now.laid.tree.now → LeavesList files options.now file.now result (D.log device.old) (D.log device.new) }
{
    let text = dead_list(alloc, accepted)?;
    let mut warnings = Vec::new(alloc);
    add_lines(accepted.laid.tree.parse_warnings(), &mut warnings)?;
    let texts = wanted(alloc, options, file, text, &warnings)?;
    finish(options, &warnings, texts, device)
}

// Lists the dead prompts of the tree of these files, without reporting why it stopped early.
fn list_over<'o, D: Device>(
    alloc: Global,
    files: FileMap,
    options: &Options,
    file: &'o str,
    device: &mut D,
    kept: &mut Option<AcceptedTree>,
) -> Result<Status, Stop<'o>>
    ensures { LeavesList (files_in files) options.now file.now result (D.log device.old) (D.log device.new) }
{
    outcome_exists();
    let reading = match read_tree(alloc, files, options.kconfig.as_bytes(), false) {
        Ok(reading) => reading,
        Err(refusal) => return refuse(&refusal, device),
    };
    let accepted = match reading.ordered(alloc) {
        Ok(accepted) => accepted,
        Err(refusal) => return refuse(&refusal, device),
    };
    let ended = list_accepted(alloc, options, &accepted, file, device);
    let order = accepted.order;
    *kept = Some(AcceptedTree { reading, order });
    ended
}

/// Lists the symbols whose prompts no input can make visible, as far as the bounds of kc_possible show it, and writes, replaces
/// or compares the file of this name (our own). The list has a line with the name of each, in the order of their first
/// definitions. After the name stand those of symbols that stand in the way and that are n whatever the user gives. No input file is read, and the outputs of the options are not written.
///
/// A refused tree (E1 to E16), and a warning about the tree under `strict_tree` (E21), are reported; no file is opened then, and
/// the status is `Refused`. So is a file that is not up to date (E22), where files are compared. If the file cannot be written
/// (E19), there is not enough memory (E20), or the diagnostics fail, the status is `Faulted`. An accepted tree is moved to `kept`.
pub fn list_dead<D: Device>(
    alloc: Global,
    files: FileMap,
    options: &Options,
    file: &str,
    device: &mut D,
    kept: &mut Option<AcceptedTree>,
) -> Status
    ensures { ListsDead (files_in files) options.now file.now (D.log device.old) (D.log device.new) result }
{
    let ended = list_over(alloc, files, options, file, device, kept);
    answer(options, ended, device).status
}

/// Loads the files of a folder, and lists like [`list_dead`] (our own). If a file of the tree cannot be read (E18), or there is
/// not enough memory for it (E20), that is reported, the status is `Faulted`, and nothing else is done.
pub fn list_dead_in_folder<F: Folder, D: Device>(
    alloc: Global,
    folder: &mut F,
    options: &Options,
    file: &str,
    device: &mut D,
    kept: &mut Option<AcceptedTree>,
) -> Status
    ensures { FolderListsDead options.now file.now (F.state folder.old) (F.state folder.new) (D.log device.old) (D.log device.new) result }
{
    match load(
        alloc,
        folder,
        options.root.as_str(),
        options.kconfig.as_str(),
        options.is_flat,
    ) {
        Ok(files) => list_dead(alloc, files, options, file, device, kept),
        Err(fault) => {
            say_load_fault(&fault, device);
            Status::Faulted
        }
    }
}
