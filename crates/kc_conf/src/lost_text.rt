//! What is told of lost values: their lines and, with --explain-lost, the explanations of their symbols and the causes.
ghost use Rattle.std.specs.Prelude.{◌≡◌, ◌++◌, codes, map, IfOk, OnOk};
ghost use Rattle.std.specs.List.{flat_map};
ghost use Rattle.kc_language.specs.Values.{name as spec_name};
ghost use Rattle.kc_outcome.specs.Outcome as rules;
ghost use Rattle.kc_conf.specs.Lost.{lines_of, lost_values, lost_view, told_lost, with_explanation};

use crate::causes::add_causes;
use crate::explained::add_question;
use crate::lost::LostValue;
use kc_explain::{Teller, add_symbol_lines};
use kc_expr::expression::SymId;
use kc_input::user_input::UserInput;
use kc_options::{Options, lead};
use kc_solve::solved::Solved;
use kc_tree::tree::Tree;
use kc_values::table::name;
use std::alloc::{AllocError, Global};

// Adds the lines of lost values.
fn add_lines(lost: &[LostValue], text: &mut Vec<u8>) -> Result<(), AllocError>
    ensures { OnOk result (text.new.items ≡ text.old.items ++ lines_of (map lost_view lost.now)) }
{
    for value in lost {
        text.extend_from_slice(&value.line)?;
        text.extend_from_slice(b"\n")?;
    }
    Ok(())
}

// The start of each line of the explanation of a lost value: the name of the configuration, if it is reported, and two blanks.
fn explanation_lead(alloc: Global, options: &Options) -> Result<Vec<u8>, AllocError>
    ensures { IfOk result (λ front. front.items ≡ rules.lead options.now ++ codes "  ") }
{
    let [config, colon] = lead(options);
    let mut front = Vec::from_slice(alloc, config)?;
    front.extend_from_slice(colon)?;
    front.extend_from_slice(b"  ")?;
    Ok(front)
}

// Adds the line of a lost value, and the explanation of its symbol.
fn add_explained(
    alloc: Global,
    t: &Teller<'_, '_, '_>,
    front: &[u8],
    lost: &LostValue,
    text: &mut Vec<u8>,
) -> Result<(), AllocError>
    ensures { OnOk result (text.new.items ≡ text.old.items ++ with_explanation t.now front.now (lost_view lost.now)) }
{
    text.extend_from_slice(&lost.line)?;
    text.extend_from_slice(b"\n")?;
    add_symbol_lines(alloc, t, front, lost.symbol, text)
}

// Adds those of all lost values.
fn add_all_explained(
    alloc: Global,
    t: &Teller<'_, '_, '_>,
    front: &[u8],
    lost: &[LostValue],
    text: &mut Vec<u8>,
) -> Result<(), AllocError>
    ensures { OnOk result (text.new.items ≡ text.old.items ++ flat_map (with_explanation t.now front.now) (map lost_view lost.now)) }
{
    for value in lost {
        add_explained(alloc, t, front, value, text)?;
    }
    Ok(())
}

// The symbols of lost values.
fn symbols_of(alloc: Global, lost: &[LostValue]) -> Result<Vec<SymId>, AllocError>
    ensures { IfOk result (λ symbols. symbols.items ≡ map (λ v. v.symbol) lost.now) }
{
    let mut symbols = Vec::new(alloc);
    for value in lost {
        symbols.push(value.symbol)?;
    }
    Ok(symbols)
}

// Adds the question for the first of these lost symbols.
fn add_first_question(
    tree: &Tree,
    front: &[u8],
    lost: &[SymId],
    text: &mut Vec<u8>,
) -> Result<(), AllocError>
    ensures { OnOk result (text.new.items ≡ text.old.items ++ rules.question_text front.now (map (spec_name tree.now) lost.now)) }
{
    match lost {
        [] => Ok(()),
        [first, ..] => add_question(front, name(tree, *first), text),
    }
}

// Adds the lines of lost values, each with the explanation of its symbol, then the causes, and the question for the first.
fn add_told(
    alloc: Global,
    t: &Teller<'_, '_, '_>,
    front: &[u8],
    lost: &[LostValue],
    text: &mut Vec<u8>,
) -> Result<(), AllocError>
    ensures { OnOk result (text.new.items ≡ text.old.items ++ told_lost t.now front.now (map lost_view lost.now)) }
{
    let symbols = symbols_of(alloc, lost)?;
    add_all_explained(alloc, t, front, lost, text)?;
    add_causes(alloc, t, front, &symbols, text)?;
    add_first_question(t.solved.tree(), front, &symbols, text)
}

/// Adds the lines of lost values, with explanations and causes if they are wanted. Fails only if there is not enough memory.
pub(crate) fn add_lost(
    alloc: Global,
    options: &Options,
    input: &UserInput<'_>,
    solved: &Solved<'_, '_>,
    lost: &[LostValue],
    text: &mut Vec<u8>,
) -> Result<(), AllocError>
    requires { map lost_view lost.now ≡ lost_values options.now input.now solved.now }
    ensures { OnOk result (text.new.items ≡ text.old.items ++ rules.lost_text options.now input.now solved.now) }
{
    if options.explain_lost && options.warn_lost {
        let front = explanation_lead(alloc, options)?;
        let teller = Teller::new(solved, input, options.prefix.is_raw());
        add_told(alloc, &teller, &front, lost, text)
    } else {
        add_lines(lost, text)
    }
}
