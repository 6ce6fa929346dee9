//! Refused names: names in the dependency file, and names to be explained.
ghost use Rattle.std.specs.Prelude.{◌≡◌, ◌++◌, ℕ, List, option_map, IfOk};
ghost use Rattle.kc_diagnostics.specs.RunErrors.{shown_run_error};
ghost use Rattle.kc_outcome.specs.Outcome.{lead, unknown_name, unreadable_name};
ghost use Rattle.kc_language.specs.Statements.{run_error_text};
ghost use Rattle.kc_language.specs.Statements.{error_line};
ghost use Rattle.kc_conf.specs.Endings.{Refuses};
ghost use Rattle.kc_conf.specs.PartsOfOutcome.{name_refusal, names_if, unknown_line};
ghost use Rattle.kc_conf.specs.RefusedNames.{refused_line};

use crate::diagnostics::{first_line, say_error};
use crate::stop::Stop;
use kc_diagnostics::RunError;
use kc_explain::{asked_symbol, near_text};
use kc_expr::names::Names;
use kc_io::Device;
use kc_load::unreadable_name;
use kc_options::{Options, Status, target};
use kc_tree::tree::Tree;
use std::alloc::{AllocError, Global};

/// A refused name.
#[derive(Drop)]
pub(crate) enum RefusedName<'n> {
    /// make cannot read it.
    Unreadable(&'n [u8]),
    /// No symbol has it. The second field is the text about similar names.
    Unknown(&'n [u8], Vec<u8>),
}

// The first name in the dependency file that make cannot read.
#[tactic(auto, using(crate::proofs::RefusedNames::unread_is))]
fn unreadable_among<'n>(options: &'n Options, names: &'n Option<Names>) -> Option<&'n [u8]>
    ensures { (opened : List (List ℕ)) → names.now ≡ names_if options.now opened → option_map (λ name. name.now) result ≡ unreadable_name options.now opened }
{
    match names {
        Some(names) => unreadable_name(target(options).as_bytes(), names),
        None => None,
    }
}

// The first name to be explained that no symbol has.
fn unknown_asked<'n>(options: &'n Options, tree: &Tree) -> Option<&'n [u8]>
    ensures { option_map (λ name. name.now) result ≡ unknown_name options.now tree.now }
{
    for asked in &options.explain {
        let name = asked.as_bytes();
        if asked_symbol(tree, &options.prefix, name).is_none() {
            return Some(name);
        }
    }
    None
}

// The same, with the text about similar names.
fn unknown_among<'n>(
    alloc: Global,
    options: &'n Options,
    tree: &Tree,
) -> Result<Option<RefusedName<'n>>, AllocError>
    ensures { IfOk result (λ refused. option_map refused_line refused ≡ option_map (unknown_line tree.now) (unknown_name options.now tree.now)) }
{
    let Some(name) = unknown_asked(options, tree) else {
        return Ok(None);
    };
    let near = near_text(alloc, tree, name)?;
    Ok(Some(RefusedName::Unknown(name, near)))
}

/// The first refused name, if there is one.
pub(crate) fn refused_among<'n>(
    alloc: Global,
    options: &'n Options,
    names: &'n Option<Names>,
    tree: &Tree,
) -> Result<Option<RefusedName<'n>>, AllocError>
    ensures { IfOk result (λ refused. (opened : List (List ℕ)) → names.now ≡ names_if options.now opened →
        option_map refused_line refused ≡ name_refusal options.now opened tree.now) }
{
    match unreadable_among(options, names) {
        Some(name) => Ok(Some(RefusedName::Unreadable(name))),
        None => unknown_among(alloc, options, tree),
    }
}

// The error of a refused name.
fn error_of<'a>(name: &'a RefusedName<'_>) -> RunError<&'a [u8]>
    ensures { error_line (run_error_text (shown_run_error result)) ≡ refused_line name.now }
{
    match name {
        RefusedName::Unreadable(name) => RunError::UnreadableName(first_line(name)),
        RefusedName::Unknown(name, near) => RunError::UnknownName(first_line(name), near),
    }
}

/// Refuses a name.
pub(crate) fn refuse_name<D: Device>(
    options: &Options,
    name: &RefusedName<'_>,
    device: &mut D,
) -> Result<Status, Stop<'static>>
    ensures { Refuses (lead options.now ++ refused_line name.now) result (D.log device.old) (D.log device.new) }
{
    match say_error(device, options, error_of(name)) {
        Ok(()) => Ok(Status::Refused),
        Err(stop) => Err(stop),
    }
}
