//! The lines that explain a symbol.

ghost use Rattle.std.specs.Prelude.{◌≡◌, ◌<◌, ◌++◌, [], ◌∷◌, OnOk, drop, map};
ghost use Rattle.std.specs.List.{flat_map};
ghost use Rattle.kc_language.specs.Values as values;
ghost use Rattle.kc_language.specs.Values.{facts, name_count, type_in};
ghost use Rattle.kc_outcome.specs.Explanations as rules;
ghost use Rattle.kc_outcome.specs.Explanations.{text_of_lines};
ghost use Rattle.kc_explain.specs.FactTexts as told;
ghost use Rattle.kc_explain.specs.FactViews.{fact_view};
ghost use Rattle.kc_explain.specs.SymbolTexts as spec;

use crate::fact::Fact;
use crate::fact_text::{add_fact, add_name, add_shown, type_text};
use crate::facts::facts_of;
use crate::holders::reached;
use crate::lines::definitions_of;
use crate::menus::add_menu_path;
use crate::teller::Teller;
use kc_expr::expression::{SymId, SymbolType};
use kc_expr::values::Values;
use kc_language::sources::Source;
use kc_tree::rows::EntryId;
use std::alloc::{AllocError, Global};

// ---- the first line

/// Appends a symbol with its value. Fails only if memory runs out. Then a part may have been added.
pub fn add_value_words(
    t: &Teller<'_, '_, '_>,
    id: SymId,
    text: &mut Vec<u8>,
) -> Result<(), AllocError>
    ensures { OnOk result (text.new.items ≡ text.old.items ++ rules.value_words t.now.input.now t.now.solved.now t.now.is_raw id) }
{
    add_shown(t, id, text)
}

// The text of a source.
fn source_text(from: Source) -> &'static [u8]
    ensures { result.now ≡ rules.source_text from }
{
    match from {
        Source::Untyped => b"no type",
        Source::Selected => b"selected",
        Source::User => b"user value",
        Source::Implied => b"implied",
        Source::Default => b"default",
        Source::MovedDefault => b"default, moved into its range",
        Source::NoDefault => b"no default",
        Source::ChoiceOff => b"its choice is n",
        Source::UserMember => b"choice of the user",
        Source::DefaultMember => b"choice by default",
    }
}

// The text about a name without a type that these entries define.
fn untyped_text(entries: &[EntryId]) -> &'static [u8]
    ensures { result.now ≡ spec.untyped_text entries.now }
{
    if entries.is_empty() {
        b": not a symbol, only mentioned"
    } else {
        b": a symbol without a type"
    }
}

// Appends a name without a type that these entries define.
fn add_untyped_head(
    t: &Teller<'_, '_, '_>,
    entries: &[EntryId],
    id: SymId,
    text: &mut Vec<u8>,
) -> Result<(), AllocError>
    ensures { OnOk result (text.new.items ≡ text.old.items ++ (values.name t.now.solved.now.tree id ++ spec.untyped_text entries.now)) }
{
    add_name(t, id, text)?;
    text.extend_from_slice(untyped_text(entries))
}

// Appends a symbol of this type, with its value and its source.
fn add_typed_head(
    t: &Teller<'_, '_, '_>,
    id: SymId,
    symbol_type: SymbolType,
    text: &mut Vec<u8>,
) -> Result<(), AllocError>
    requires { id.0 < name_count t.now.solved.now.tree }
    ensures { OnOk result (text.new.items ≡ text.old.items ++ spec.typed_head t.now id symbol_type) }
{
    add_value_words(t, id, text)?;
    text.extend_from_slice(b" (")?;
    text.extend_from_slice(type_text(symbol_type))?;
    text.extend_from_slice(b"): ")?;
    text.extend_from_slice(source_text(t.solved.source(id)))
}

// Appends a symbol that has this type and that these entries define.
#[tactic(auto, using(crate::proofs::SymbolLemmas::typed_within))]
fn add_head_of(
    t: &Teller<'_, '_, '_>,
    entries: &[EntryId],
    id: SymId,
    symbol_type: SymbolType,
    text: &mut Vec<u8>,
) -> Result<(), AllocError>
    requires { symbol_type ≡ type_in (facts t.now.solved.now.tree id) }
    ensures { OnOk result (text.new.items ≡ text.old.items ++ spec.head_of t.now entries.now id symbol_type) }
{
    match symbol_type {
        SymbolType::Undefined => add_untyped_head(t, entries, id, text),
        _ => add_typed_head(t, id, symbol_type, text),
    }
}

// Appends the first line of a symbol that these entries define.
fn add_head(
    t: &Teller<'_, '_, '_>,
    lead: &[u8],
    entries: &[EntryId],
    id: SymId,
    text: &mut Vec<u8>,
) -> Result<(), AllocError>
    ensures { OnOk result (text.new.items ≡ text.old.items
        ++ text_of_lines lead.now (spec.head_of t.now entries.now id (type_in (facts t.now.solved.now.tree id)) ∷ [])) }
{
    text.extend_from_slice(lead)?;
    add_head_of(t, entries, id, t.solved.symbol_type(id), text)?;
    text.extend_from_slice(b"\n")
}

// ---- the menus and the facts

// Appends the menus around the first of these entries.
fn add_menus(
    alloc: Global,
    t: &Teller<'_, '_, '_>,
    lead: &[u8],
    entries: &[EntryId],
    text: &mut Vec<u8>,
) -> Result<(), AllocError>
    ensures { OnOk result (text.new.items ≡ text.old.items ++ spec.menus_text t.now lead.now entries.now) }
{
    match entries {
        [] => Ok(()),
        [first, ..] => {
            let mut indented = Vec::from_slice(alloc, lead)?;
            indented.extend_from_slice(b"  ")?;
            add_menu_path(alloc, t.layout, &indented, *first, text)
        }
    }
}

// Appends the lines of these facts.
fn add_facts(
    t: &Teller<'_, '_, '_>,
    lead: &[u8],
    facts: &[Fact<'_>],
    text: &mut Vec<u8>,
) -> Result<(), AllocError>
    ensures { OnOk result (text.new.items ≡ text.old.items
        ++ told.facts_text t.now.is_raw t.now.solved.now.tree lead.now (map (fact_view t.now.solved.now) facts.now)) }
{
    for fact in facts {
        add_fact(t, lead, fact, text)?;
    }
    Ok(())
}

// ---- the whole

// Appends the lines of a symbol that these entries define and that has these facts.
fn add_symbol_of(
    alloc: Global,
    t: &Teller<'_, '_, '_>,
    lead: &[u8],
    entries: &[EntryId],
    facts: &[Fact<'_>],
    id: SymId,
    text: &mut Vec<u8>,
) -> Result<(), AllocError>
    ensures { OnOk result (text.new.items ≡ text.old.items
        ++ spec.symbol_text t.now lead.now entries.now id (map (fact_view t.now.solved.now) facts.now)) }
{
    add_head(t, lead, entries, id, text)?;
    add_menus(alloc, t, lead, entries, text)?;
    add_facts(t, lead, facts, text)
}

/// Appends the lines of a symbol, each after the lead: its value, the menus around it, and its facts. Fails only if memory runs
/// out. Then a part may have been added.
pub fn add_symbol_lines(
    alloc: Global,
    t: &Teller<'_, '_, '_>,
    lead: &[u8],
    id: SymId,
    text: &mut Vec<u8>,
) -> Result<(), AllocError>
    ensures { OnOk result (text.new.items ≡ text.old.items
        ++ text_of_lines lead.now (rules.symbol_lines t.now.input.now t.now.solved.now t.now.is_raw id)) }
{
    let entries = definitions_of(alloc, t.layout, id)?;
    let facts = facts_of(alloc, t, id)?;
    add_symbol_of(alloc, t, lead, &entries, &facts, id, text)
}

// Appends the lines of these symbols.
fn add_all_symbol_lines(
    alloc: Global,
    t: &Teller<'_, '_, '_>,
    lead: &[u8],
    symbols: &[SymId],
    text: &mut Vec<u8>,
) -> Result<(), AllocError>
    ensures { OnOk result (text.new.items ≡ text.old.items
        ++ flat_map (λ s. text_of_lines lead.now (rules.symbol_lines t.now.input.now t.now.solved.now t.now.is_raw s)) symbols.now) }
{
    for symbol in symbols {
        add_symbol_lines(alloc, t, lead, *symbol, text)?;
    }
    Ok(())
}

// All symbols except the first.
fn behind_first(symbols: &[SymId]) -> &[SymId]
    ensures { result.now ≡ drop 1 symbols.now }
{
    if symbols.is_empty() {
        symbols
    } else {
        &symbols[1..]
    }
}

/// Appends the lines that explain a symbol and, indented by two spaces, those of the symbols that hold it down in `depth`
/// steps. Fails only if memory runs out. Then a part may have been added.
pub fn add_explanation(
    alloc: Global,
    t: &Teller<'_, '_, '_>,
    depth: usize,
    id: SymId,
    text: &mut Vec<u8>,
) -> Result<(), AllocError>
    ensures { OnOk result (text.new.items ≡ text.old.items ++ rules.explanation_text t.now.input.now t.now.solved.now t.now.is_raw depth id) }
{
    let all = reached(alloc, t, depth, id)?;
    add_symbol_lines(alloc, t, b"", id, text)?;
    add_all_symbol_lines(alloc, t, b"  ", behind_first(all.symbols()), text)
}
