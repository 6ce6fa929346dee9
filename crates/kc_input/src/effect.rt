//! What a line does for a tree: nothing, a warning, or an assignment.
ghost use Rattle.std.specs.Prelude.{◌≡◌, ◌++◌, IfOk, OnOk, OnErr, Some};
ghost use Rattle.kc_diagnostics.specs.Warnings.{shown_warning};
ghost use Rattle.kc_input.specs.ConfigFileLine.{meaning_view};
ghost use Rattle.kc_language.specs.ConfigFile as spec;
ghost use Rattle.kc_input.specs.PartsOfConfigFile as spec_parts;
ghost use Rattle.kc_input.specs.EffectView.{AssignsDefined, effect_view};

use crate::line::ConfigFileLine;
use crate::value::line_value;
use kc_diagnostics::{Warning, add_located};
use kc_expr::expression::{SymId, SymbolType, Tri};
use kc_tree::tree::Tree;
use kc_user::value::UserValue;
use std::alloc::{AllocError, Global};

/// What a line does.
#[derive(Debug, Drop)]
pub enum Effect<'a> {
    Silent,
    Warns(Warning<&'a [u8]>),
    Assigns(SymId, UserValue),
}

/// Returns the effect of the line. An unset line gives n to a bool or tristate, and has no effect on another symbol
/// (K16). A set line gives the value in its text, if it is allowed. Fails only if there is not enough memory.
pub fn line_effect<'a>(
    alloc: Global,
    tree: &Tree,
    line: ConfigFileLine<'a>,
    is_raw: bool,
) -> Result<Effect<'a>, AllocError>
    ensures effect { IfOk result (λ effect. effect_view effect ≡ spec.effect_of is_raw tree.now (meaning_view line.entry)) }
    ensures defined { IfOk result (λ effect. AssignsDefined tree.now (effect_view effect)) }
{
    match line {
        ConfigFileLine::Nothing => Ok(Effect::Silent),
        ConfigFileLine::Unset(name) => Ok(unset_effect(tree, name)),
        ConfigFileLine::Set(name, text) => set_effect(alloc, tree, name, text, is_raw),
        ConfigFileLine::Malformed => Ok(Effect::Warns(Warning::MalformedLine)),
    }
}

// The type of a symbol; an undefined name has none.
pub(crate) fn type_of(tree: &Tree, id: SymId) -> SymbolType
    ensures { result ≡ spec_parts.type_of tree.now id }
{
    match tree.facts(id) {
        Some(symbol) => symbol.symbol_type,
        None => SymbolType::Undefined,
    }
}

fn unset_effect<'a>(tree: &Tree, name: &'a [u8]) -> Effect<'a>
    ensures { effect_view result ≡ spec_parts.unset_effect tree.now name.now (spec.symbol_named tree.now name.now) }
{
    match tree.find(name) {
        None => Effect::Warns(Warning::UnknownSymbol(name)),
        Some(id) => match type_of(tree, id) {
            SymbolType::Undefined => Effect::Warns(Warning::UnknownSymbol(name)),
            SymbolType::Bool | SymbolType::Tristate => Effect::Assigns(id, UserValue::Tri(Tri::N)),
            SymbolType::Str | SymbolType::Int | SymbolType::Hex => {
                Effect::Warns(Warning::TextUnset(name))
            }
        },
    }
}

fn set_effect<'a>(
    alloc: Global,
    tree: &Tree,
    name: &'a [u8],
    text: &[u8],
    is_raw: bool,
) -> Result<Effect<'a>, AllocError>
    ensures { IfOk result (λ effect. effect_view effect ≡ spec_parts.set_effect is_raw tree.now name.now text.now (spec.symbol_named tree.now name.now)) }
{
    match tree.find(name) {
        None => Ok(Effect::Warns(Warning::UnknownSymbol(name))),
        Some(id) => set_by_type(alloc, name, id, text, type_of(tree, id), is_raw),
    }
}

fn set_by_type<'a>(
    alloc: Global,
    name: &'a [u8],
    id: SymId,
    text: &[u8],
    symbol_type: SymbolType,
    is_raw: bool,
) -> Result<Effect<'a>, AllocError>
    ensures { IfOk result (λ effect. effect_view effect ≡ spec.set_by_type is_raw name.now id text.now symbol_type) }
{
    if symbol_type == SymbolType::Undefined {
        return Ok(Effect::Warns(Warning::UnknownSymbol(name)));
    }
    match line_value(alloc, symbol_type, text, is_raw)? {
        Some(value) => Ok(Effect::Assigns(id, value)),
        None => Ok(Effect::Warns(Warning::NotAllowed(name))),
    }
}

/// Adds the warning as a whole line: the name of the input file, the line number, the code and the text. Fails only if
/// there is not enough memory; then it adds nothing.
pub fn warn(
    stream: &[u8],
    number: u64,
    line_warning: Warning<&[u8]>,
    told: &mut Vec<u8>,
) -> Result<(), AllocError>
    ensures whole { OnOk result (told.new.items ≡ told.old.items ++ spec.located_warning_line stream.now number (shown_warning line_warning.entry)) }
    ensures nothing { OnErr result (told.new.items ≡ told.old.items) }
{
    let before = told.len();
    add_located(stream, number, line_warning, told)?;
    match told.extend_from_slice(b"\n") {
        Ok(()) => Ok(()),
        Err(fault) => {
            told.truncate(before);
            Err(fault)
        }
    }
}
