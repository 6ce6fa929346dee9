//! The lines of input files that name no symbol of the tree.
ghost use Rattle.std.specs.Prelude.{◌≡◌, ◌++◌, OnOk, OnErr, IfOk, option_map};
ghost use Rattle.kc_language.specs.ConfigFile.{is_on, said_line};
ghost use Rattle.kc_input.specs.ConfigFileLine.{meaning_view};
ghost use Rattle.kc_input.specs.InputView.{gone_of};
ghost use Rattle.kc_input.specs.LineSteps.{with_line};

use crate::line::ConfigFileLine;
use crate::prefix::Prefix;
use crate::text::add_parts;
use std::alloc::{AllocError, Global};

/// The texts of these lines, as they were read: those that are on, and the others.
#[derive(Drop)]
pub(crate) struct GoneLines {
    pub on: Vec<u8>,
    pub off: Vec<u8>,
}

// Whether the line gives a value other than n.
fn is_on(line: ConfigFileLine<'_>) -> bool
    ensures { result ≡ is_on (meaning_view line.entry) }
{
    match line {
        ConfigFileLine::Set(_, value) => value != b"n".as_slice(),
        ConfigFileLine::Nothing | ConfigFileLine::Unset(_) | ConfigFileLine::Malformed => false,
    }
}

// Adds the line as it is read.
fn add_said_line(
    prefix: &Prefix,
    line: ConfigFileLine<'_>,
    text: &mut Vec<u8>,
) -> Result<(), AllocError>
    ensures { OnOk result (text.new.items ≡ text.old.items ++ said_line prefix.now.prefix (meaning_view line.entry)) }
{
    let prefix = prefix.as_bytes();
    match line {
        ConfigFileLine::Unset(name) => { add_parts(&[b"# ", prefix, name, b" is not set\n"], text) }
        ConfigFileLine::Set(name, value) => add_parts(&[prefix, name, b"=", value, b"\n"], text),
        ConfigFileLine::Nothing | ConfigFileLine::Malformed => Ok(()),
    }
}

// Adds the line to the lines of its kind.
fn add_line(
    alloc: Global,
    prefix: &Prefix,
    line: ConfigFileLine<'_>,
    gone: &mut GoneLines,
) -> Result<(), AllocError>
    ensures whole { OnOk result (gone_of gone.new ≡ with_line prefix.now (meaning_view line.entry) (gone_of gone.old)) }
    ensures nothing { OnErr result (gone_of gone.new ≡ gone_of gone.old) }
{
    let mut text = Vec::new(alloc);
    add_said_line(prefix, line, &mut text)?;
    if is_on(line) {
        gone.on.extend_from_slice(&text)
    } else {
        gone.off.extend_from_slice(&text)
    }
}

/// Adds the line to the lines of its kind, if such lines are kept. Fails only if there is not enough memory; then it
/// adds nothing.
pub(crate) fn keep_line(
    alloc: Global,
    prefix: &Prefix,
    line: ConfigFileLine<'_>,
    gone: &mut Option<GoneLines>,
) -> Result<(), AllocError>
    ensures whole { OnOk result (option_map gone_of gone.new ≡ option_map (with_line prefix.now (meaning_view line.entry)) (option_map gone_of gone.old)) }
    ensures nothing { OnErr result (option_map gone_of gone.new ≡ option_map gone_of gone.old) }
{
    match gone {
        None => Ok(()),
        Some(gone) => add_line(alloc, prefix, line, gone),
    }
}

/// Returns both texts, joined. Fails only if there is not enough memory.
pub(crate) fn joined(alloc: Global, gone: &GoneLines) -> Result<Vec<u8>, AllocError>
    ensures { IfOk result (λ text. text.items ≡ gone.now.on.items ++ gone.now.off.items) }
{
    let mut text = Vec::from_slice(alloc, &gone.on)?;
    text.extend_from_slice(&gone.off)?;
    Ok(text)
}
