//! Computes the result of a run in memory: its warnings and texts.
ghost use Rattle.std.specs.Prelude.{◌≡◌, ◌++◌, ◌||◌, ◌&&◌, ◌==◌, ℕ, List, [], ◌∷◌, length, map, IfOk, OnOk, option_map};
ghost use Rattle.std.specs.List.{flat_map, list_any};
ghost use Rattle.kc_diagnostics.specs.Warnings.{owned_warning};
ghost use Rattle.kc_language.specs.Symbols.{warning_line};
ghost use Rattle.kc_language.specs.ConfigFile.{ArePlacesOf};
ghost use Rattle.kc_language.specs.Texts.{IsSolutionFor};
ghost use Rattle.kc_solve.specs.Again.{IsAgainOf};
ghost use Rattle.kc_io.specs.Delivered.{text_view};
ghost use Rattle.kc_language.specs.Expansion.{Files};
ghost use Rattle.kc_conf.specs.Accepted.{AreSources, IsReady};
ghost use Rattle.kc_conf.specs.Faults.{AreLines};
ghost use Rattle.kc_outcome.specs.Outcome.{is_not_empty, lines_text, is_outside, lost_warnings, refuses_input};
ghost use Rattle.kc_conf.specs.PartsOfOutcome.{names_if};
ghost use Rattle.kc_conf.specs.Computed.{Computes, named_from, new_by, new_from, rule_by, text_from, value_lines};
ghost use Rattle.kc_conf.specs.Lost.{lost_values, lost_view};

use crate::accepted::OrderedTree;
use crate::explained::explained_text;
use crate::lost::{LostValue, lost_values};
use crate::lost_text::add_lost;
use crate::new_symbols::new_text_with_help;
use kc_config_file::config::config_text;
use kc_config_file::header::{header_text, list_of_new, minimal_text};
use kc_diagnostics::{Warning, add_warning, borrowed};
use kc_expr::names::Names;
use kc_input::text::add_parts;
use kc_input::user_input::UserInput;
use kc_io::Text;
use kc_load::{prerequisites_of, rule_text};
use kc_options::{Options, Output, lead, target, wants};
use kc_read::file_map::FileMap;
use kc_solve::again::Again;
use kc_solve::solved::Solved;
use kc_tree::tree::Tree;
use std::alloc::{AllocError, Global};

// ---- warnings

// Adds the line of a warning after these parts.
fn add_warning_line(
    lead: &[&[u8]],
    warning: &Warning<Vec<u8>>,
    text: &mut Vec<u8>,
) -> Result<(), AllocError>
    ensures { OnOk result (text.new.items ≡ text.old.items
        ++ lines_text ((flat_map (λ part. part.now) lead.now ++ warning_line (owned_warning warning.now)) ∷ [])) }
{
    add_parts(lead, text)?;
    add_warning(borrowed(warning), text)?;
    text.push(b'\n')?;
    Ok(())
}

// Adds the lines of these warnings, each after these parts.
fn add_warnings(
    lead: &[&[u8]],
    warnings: &[Warning<Vec<u8>>],
    text: &mut Vec<u8>,
) -> Result<(), AllocError>
    ensures { OnOk result (text.new.items ≡ text.old.items
        ++ lines_text (map (λ w. flat_map (λ part. part.now) lead.now ++ warning_line (owned_warning w)) warnings.now)) }
{
    for warning in warnings {
        add_warning_line(lead, warning, text)?;
    }
    Ok(())
}

// Adds the warnings about values, and the lines of lost values.
fn add_value_lines(
    alloc: Global,
    options: &Options,
    input: &UserInput<'_>,
    solved: &Solved<'_, '_>,
    lost: &[LostValue],
    text: &mut Vec<u8>,
) -> Result<(), AllocError>
    requires { map lost_view lost.now ≡ lost_values options.now input.now solved.now }
    ensures { OnOk result (text.new.items ≡ text.old.items ++ value_lines options.now input.now solved.now) }
{
    add_warnings(&lead(options), solved.value_warnings(), text)?;
    add_lost(alloc, options, input, solved, lost, text)?;
    Ok(())
}

// ---- whether the texts are refused

// Whether a warning is about a user value outside its range.
fn is_outside(warning: &Warning<Vec<u8>>) -> bool
    ensures { result ≡ is_outside (owned_warning warning.now) }
{
    matches!(warning, Warning::UserOutside { .. })
}

// Whether one of the warnings is.
fn is_any_outside(warnings: &[Warning<Vec<u8>>]) -> bool
    ensures { result ≡ list_any is_outside (map owned_warning warnings.now) }
{
    for warning in warnings {
        if is_outside(warning) {
            return true;
        }
    }
    false
}

// Whether no value is lost that is warned of.
fn is_none_lost(
    options: &Options,
    input: &UserInput<'_>,
    solved: &Solved<'_, '_>,
    lost: &[LostValue],
) -> bool
    requires { map lost_view lost.now ≡ lost_values options.now input.now solved.now }
    ensures { result ≡ (length (lost_warnings options.now input.now solved.now) == 0) }
{
    lost.is_empty()
}

// Whether --strict refuses the user's input, given the lost values.
fn refuses_input(
    options: &Options,
    input: &UserInput<'_>,
    solved: &Solved<'_, '_>,
    lost: &[LostValue],
) -> bool
    requires { map lost_view lost.now ≡ lost_values options.now input.now solved.now }
    ensures { result ≡ refuses_input options.now input.now solved.now }
{
    options.strict
        && !(input.all_taken()
            && !is_any_outside(solved.value_warnings())
            && is_none_lost(options, input, solved, lost))
}

/// Whether the tree has warnings.
pub(crate) fn has_warnings(tree: &Tree) -> bool
    ensures { result ≡ is_not_empty (lines_text tree.now.warnings) }
{
    !tree.parse_warnings().is_empty()
}

/// Whether there was an earlier warning, or this text is one.
#[tactic(auto, using(crate::proofs::OutcomeLemmas::text_some))]
pub(crate) fn is_warned_by(before: bool, text: &[u8]) -> bool
    ensures { result ≡ (before || is_not_empty text.now) }
{
    before || !text.is_empty()
}

// Whether the texts are refused: by --strict, or under --strict-tree because of any warning.
fn is_refused(
    options: &Options,
    input: &UserInput<'_>,
    solved: &Solved<'_, '_>,
    lost: &[LostValue],
    is_warned: bool,
) -> bool
    requires { map lost_view lost.now ≡ lost_values options.now input.now solved.now }
    ensures { result ≡ (refuses_input options.now input.now solved.now || (options.now.strict_tree && is_warned)) }
{
    refuses_input(options, input, solved, lost) || options.strict_tree && is_warned
}

// ---- the texts

/// The names in the dependency file, if it is wanted.
pub(crate) fn names_if(
    alloc: Global,
    options: &Options,
    opened: &Names,
) -> Result<Option<Names>, AllocError>
    ensures { IfOk result (λ names. names ≡ names_if options.now opened.now) }
{
    if !wants(options, Output::DependencyFile) {
        return Ok(None);
    }
    let names = prerequisites_of(
        alloc,
        opened,
        options.root.as_str(),
        target(options).as_bytes(),
        options.config.as_bytes(),
        options.fragments.as_slice(),
    )?;
    Ok(Some(names))
}

// The list of new symbols, with their definitions from these files, if there are any.
fn new_by(
    alloc: Global,
    options: &Options,
    files: Option<&FileMap>,
    solved: &Solved<'_, '_>,
) -> Result<Vec<u8>, AllocError>
    ensures { IfOk result (λ text. text.items ≡ new_by files.entry options.now.prefix solved.now) }
{
    match files {
        Some(files) => {
            let layout = solved.tree().layout();
            new_text_with_help(alloc, files, layout, solved, &options.prefix)
        }
        None => list_of_new(alloc, solved, &options.prefix),
    }
}

// The list of new symbols, with their definitions if help is wanted.
fn new_symbols(
    alloc: Global,
    options: &Options,
    files: Option<&FileMap>,
    solved: &Solved<'_, '_>,
) -> Result<Vec<u8>, AllocError>
    ensures { IfOk result (λ text. text.items ≡ new_from options.now files.entry solved.now) }
{
    if options.with_help {
        new_by(alloc, options, files, solved)
    } else {
        list_of_new(alloc, solved, &options.prefix)
    }
}

// The dependency file that lists these names.
fn rule_by(alloc: Global, options: &Options, names: &Option<Names>) -> Result<Vec<u8>, AllocError>
    ensures { IfOk result (λ text. text.items ≡ rule_by options.now names.now) }
{
    match names {
        Some(names) => rule_text(alloc, target(options).as_bytes(), names),
        None => Ok(Vec::new(alloc)),
    }
}

// What the results are made of: the files of the tree, if kept, the names in the dependency file, the user's input and its
// solution.
#[derive(Clone, Copy)]
struct Basis<'b, 'i, 't, 'u> {
    files: Option<&'b FileMap>,
    names: &'b Option<Names>,
    input: &'b UserInput<'i>,
    solved: &'b Solved<'t, 'u>,
}

// The text of an output of this kind.
fn text_of(
    alloc: Global,
    options: &Options,
    basis: &Basis<'_, '_, '_, '_>,
    kind: Output,
) -> Result<Vec<u8>, AllocError>
    ensures { IfOk result (λ text. text.items ≡ text_from options.now basis.now kind) }
{
    let solved = basis.solved;
    match kind {
        Output::Config => config_text(alloc, solved, &options.prefix),
        Output::Header => header_text(alloc, solved, &options.prefix),
        Output::Minimal => minimal_text(alloc, solved, &options.prefix),
        Output::NewSymbols => new_symbols(alloc, options, basis.files, solved),
        Output::GoneLines => basis.input.gone_text(alloc),
        Output::DependencyFile => rule_by(alloc, options, basis.names),
        Output::Explanation => explained_text(alloc, options, basis.input, solved),
    }
}

// The texts of the outputs, in their order.
fn texts_of<'o>(
    alloc: Global,
    options: &'o Options,
    basis: &Basis<'_, '_, '_, '_>,
) -> Result<Vec<Text<'o>>, AllocError>
    ensures { IfOk result (λ texts. map text_view texts.items
        ≡ map (named_from options.now basis.now) options.now.outputs.items) }
{
    let mut texts = Vec::new(alloc);
    for wanted in &options.outputs {
        let bytes = text_of(alloc, options, basis, wanted.kind)?;
        texts.push(Text {
            name: wanted.file.as_str(),
            bytes,
        })?;
    }
    Ok(texts)
}

// Computes the results: adds the warnings about values to `waiting`, and returns the texts, or None if they are refused. The
// caller must pass the solution for the input.
fn results_of<'o>(
    alloc: Global,
    options: &'o Options,
    basis: &Basis<'_, '_, '_, '_>,
    waiting: &mut Vec<u8>,
) -> Result<Option<Vec<Text<'o>>>, AllocError>
    requires { IsSolutionFor basis.now.solved.now.tree basis.now.input.now.places basis.now.solved.now }
    ensures computes { (files : Files) (opened : List (List ℕ)) → basis.now.names.now ≡ names_if options.now opened
        → AreSources files options.now basis.now.files
        → IfOk result (λ texts. Computes files options.now opened basis.now.solved.now.tree basis.now.input.now waiting.old.items waiting.new.items
        (option_map (λ texts. map text_view texts.items) texts)) }
    ensures lines { AreLines waiting.old.items → IfOk result (λ texts. AreLines waiting.new.items) }
{
    let Basis { input, solved, .. } = *basis;
    let lost = lost_values(alloc, options, input, solved)?;
    add_value_lines(alloc, options, input, solved, &lost, waiting)?;
    let is_warned = is_warned_by(has_warnings(solved.tree()), waiting);
    if is_refused(options, input, solved, &lost, is_warned) {
        return Ok(None);
    }
    let texts = texts_of(alloc, options, basis)?;
    Ok(Some(texts))
}

/// Computes the results for the user's input: adds the warnings about values to `waiting`, and returns the texts, or
/// None if they are refused. The caller must pass an order and user values of the tree, and what is kept of the last
/// solution.
pub(crate) fn compute<'o>(
    alloc: Global,
    options: &'o Options,
    accepted: &OrderedTree<'_>,
    names: &Option<Names>,
    input: &UserInput<'_>,
    waiting: &mut Vec<u8>,
    again: &mut Again,
) -> Result<Option<Vec<Text<'o>>>, AllocError>
    requires ready { IsReady accepted.now }
    requires places { ArePlacesOf accepted.now.laid.tree.now input.now.places }
    requires again { IsAgainOf accepted.now.laid again.old }
    ensures computes { (files : Files) (opened : List (List ℕ)) → names.now ≡ names_if options.now opened
        → AreSources files options.now accepted.now.files
        → IfOk result (λ texts. Computes files options.now opened accepted.now.laid.tree.now input.now waiting.old.items waiting.new.items
        (option_map (λ texts. map text_view texts.items) texts)) }
    ensures lines { AreLines waiting.old.items → IfOk result (λ texts. AreLines waiting.new.items) }
    ensures again { IsAgainOf accepted.now.laid again.new }
{
    let solved = again.solve(alloc, &accepted.laid, &accepted.order, input.user())?;
    let basis = Basis {
        files: accepted.files,
        names,
        input,
        solved: &solved,
    };
    let texts = results_of(alloc, options, &basis, waiting)?;
    again.keep(alloc, solved);
    Ok(texts)
}
