//! Explanations of the symbols to be explained.
ghost use Rattle.std.specs.Prelude.{◌≡◌, ◌++◌, [], codes, map, string_bytes, IfOk, OnOk};
ghost use Rattle.std.specs.List.{flat_map};
ghost use Rattle.kc_outcome.specs.Explanations.{asked_symbol, explanation_text};
ghost use Rattle.kc_language.specs.Symbols.{listed};
ghost use Rattle.kc_outcome.specs.Outcome as rules;

use kc_explain::{Teller, add_explanation, asked_symbol};
use kc_input::user_input::UserInput;
use kc_options::Options;
use kc_solve::solved::Solved;
use std::alloc::{AllocError, Global};

// Adds the explanation of the symbol of this name, if there is one.
fn add_asked(
    alloc: Global,
    options: &Options,
    t: &Teller<'_, '_, '_>,
    asked: &[u8],
    text: &mut Vec<u8>,
) -> Result<(), AllocError>
    ensures { OnOk result (text.new.items ≡ text.old.items
        ++ flat_map (explanation_text t.now.input.now t.now.solved.now t.now.is_raw options.now.explain_depth)
        (listed (asked_symbol t.now.solved.now.tree options.now.prefix.prefix asked.now))) }
{
    match asked_symbol(t.solved.tree(), &options.prefix, asked) {
        Some(id) => add_explanation(alloc, t, options.explain_depth, id, text),
        None => Ok(()),
    }
}

// The explanations of all symbols to be explained.
fn explanations(
    alloc: Global,
    options: &Options,
    input: &UserInput<'_>,
    solved: &Solved<'_, '_>,
) -> Result<Vec<u8>, AllocError>
    ensures { IfOk result (λ text. text.items ≡ rules.explanations options.now input.now solved.now) }
{
    let teller = Teller::new(solved, input, options.prefix.is_raw());
    let mut text = Vec::new(alloc);
    for asked in options.explain.iter() {
        add_asked(alloc, options, &teller, asked.as_bytes(), &mut text)?;
    }
    Ok(text)
}

/// Adds the question what must be set so that the symbol of this name has a value, after `front`. Fails only if there is not
/// enough memory.
pub(crate) fn add_question(
    front: &[u8],
    called: &[u8],
    text: &mut Vec<u8>,
) -> Result<(), AllocError>
    ensures { OnOk result (text.new.items ≡ text.old.items ++ front.now ++ codes "to see what to set: --how " ++ called.now ++ codes "=VALUE\n") }
{
    text.extend_from_slice(front)?;
    text.extend_from_slice(b"to see what to set: --how ")?;
    text.extend_from_slice(called)?;
    text.extend_from_slice(b"=VALUE\n")?;
    Ok(())
}

// Adds the question for the first of these names.
fn add_first_question(names: &[String], text: &mut Vec<u8>) -> Result<(), AllocError>
    ensures { OnOk result (text.new.items ≡ text.old.items ++ rules.question_text [] (map string_bytes names.now)) }
{
    match names {
        [] => Ok(()),
        [called, ..] => add_question(&[], called.as_bytes(), text),
    }
}

/// Returns the explanations of the symbols to be explained, one after another, and the question what must be set. Fails only
/// if there is not enough memory.
pub(crate) fn explained_text(
    alloc: Global,
    options: &Options,
    input: &UserInput<'_>,
    solved: &Solved<'_, '_>,
) -> Result<Vec<u8>, AllocError>
    ensures { IfOk result (λ text. text.items ≡ rules.explained_text options.now input.now solved.now) }
{
    let mut text = explanations(alloc, options, input, solved)?;
    add_first_question(&options.explain, &mut text)?;
    Ok(text)
}
