//! The facts about a symbol.

ghost use Rattle.std.specs.Prelude.{◌≡◌, ◌||◌, is_some, map, option_copied, IfOk, OnOk};
ghost use Rattle.std.specs.List.{flat_map};
ghost use Rattle.kc_outcome.specs.Explanations as rules;
ghost use Rattle.kc_language.specs.ConfigFile.{place_at};
ghost use Rattle.kc_language.specs.Texts.{known};
ghost use Rattle.kc_language.specs.Values as values;
ghost use Rattle.kc_language.specs.Values.{SymbolPlace};
ghost use Rattle.kc_values.specs.User.{given_in};
ghost use Rattle.kc_explain.specs.FactLists as told;
ghost use Rattle.kc_explain.specs.FactLists.{Adds, IsRow, facts_by};
ghost use Rattle.kc_explain.specs.FactViews.{fact_in, fact_view};
ghost use Rattle.kc_explain.specs.LineViews.{at_entry};
ghost use Rattle.kc_explain.specs.PartViews.{part_view, prompt_said};

use crate::choice_facts::add_choice;
use crate::fact::Fact;
use crate::lines::{definitions_of, first_line};
use crate::parts::{
    ConditionPart, PromptLine, dependency_parts, is_n, part_value, parts_value, prompt_at,
    shown_parts,
};
use crate::raises::{add_raises, symbol_value};
use crate::stated::{add_defaults, add_ranges};
use crate::teller::Teller;
use kc_expr::expression::{SymId, SymbolType, Tri};
use kc_expr::values::{Values, lesser};
use kc_input::user_input::UserInput;
use kc_language::symbols::SelectOrImply;
use kc_tree::rows::{EntryId, Symbol};
use kc_user::value::UserValue;
use kc_values::numbers::if_within_range;
use kc_values::truths::selected_to as selected_in;
use std::alloc::{AllocError, Global};

// ---- What it depends on, and its prompts

/// Appends these parts of a condition. The only error is that memory runs out.
pub(crate) fn add_parts<'t>(
    t: &Teller<'t, '_, '_>,
    parts: &[ConditionPart<'t>],
    facts: &mut Vec<Fact<'t>>,
) -> Result<(), AllocError>
    ensures { OnOk result (Adds t.now facts.old.items facts.new.items (told.parts_told t.now.solved.now (map part_view parts.now))) }
{
    for part in parts {
        let value = part_value(t.solved, part);
        facts.push(Fact::Part { part: *part, value })?;
    }
    Ok(())
}

// Appends what an entry depends on, and its parts.
fn add_dependency<'t>(
    alloc: Global,
    t: &Teller<'t, '_, '_>,
    entry: EntryId,
    facts: &mut Vec<Fact<'t>>,
) -> Result<(), AllocError>
    ensures { OnOk result (Adds t.now facts.old.items facts.new.items (at_entry t.now.layout.now (told.dependency_at t.now) entry)) }
{
    match first_line(t.layout, entry) {
        Some(line) => {
            let parts = dependency_parts(alloc, t.layout, entry)?;
            let value = parts_value(t.solved, &parts);
            facts.push(Fact::Dependency { line, value })?;
            add_parts(t, &parts, facts)
        }
        None => Ok(()),
    }
}

// The same for these entries.
fn add_dependencies<'t>(
    alloc: Global,
    t: &Teller<'t, '_, '_>,
    entries: &[EntryId],
    facts: &mut Vec<Fact<'t>>,
) -> Result<(), AllocError>
    ensures { OnOk result (Adds t.now facts.old.items facts.new.items (flat_map (at_entry t.now.layout.now (told.dependency_at t.now)) entries.now)) }
{
    for entry in entries {
        add_dependency(alloc, t, *entry, facts)?;
    }
    Ok(())
}

// Appends a prompt of an entry, and the parts of its condition besides what its entry depends on.
fn add_prompt<'t>(
    alloc: Global,
    t: &Teller<'t, '_, '_>,
    entry: EntryId,
    prompt: &PromptLine<'t>,
    facts: &mut Vec<Fact<'t>>,
) -> Result<(), AllocError>
    ensures { OnOk result (Adds t.now facts.old.items facts.new.items (told.prompt_told t.now entry (prompt_said prompt.now))) }
{
    let parts = dependency_parts(alloc, t.layout, entry)?;
    let shown = shown_parts(alloc, t.layout, entry, prompt)?;
    facts.push(Fact::Prompt {
        line: prompt.line,
        value: lesser(parts_value(t.solved, &parts), parts_value(t.solved, &shown)),
    })?;
    add_parts(t, &shown, facts)
}

/// Appends the prompt that counts for an entry. The only error is that memory runs out.
pub(crate) fn add_prompt_at<'t>(
    alloc: Global,
    t: &Teller<'t, '_, '_>,
    entry: EntryId,
    facts: &mut Vec<Fact<'t>>,
) -> Result<(), AllocError>
    ensures { OnOk result (Adds t.now facts.old.items facts.new.items (at_entry t.now.layout.now (told.prompts_at t.now) entry)) }
{
    match prompt_at(t.layout, entry) {
        Some(prompt) => add_prompt(alloc, t, entry, &prompt, facts),
        None => Ok(()),
    }
}

// The same for these entries.
fn add_prompts<'t>(
    alloc: Global,
    t: &Teller<'t, '_, '_>,
    entries: &[EntryId],
    facts: &mut Vec<Fact<'t>>,
) -> Result<(), AllocError>
    ensures { OnOk result (Adds t.now facts.old.items facts.new.items (flat_map (at_entry t.now.layout.now (told.prompts_at t.now)) entries.now)) }
{
    for entry in entries {
        add_prompt_at(alloc, t, *entry, facts)?;
    }
    Ok(())
}

// ---- What the user gave

/// The user value of a symbol, if there is one.
pub(crate) fn given_at<'t>(input: &'t UserInput<'_>, id: SymId) -> Option<&'t UserValue>
    ensures { given_in result ≡ place_at input.now.places (SymbolPlace id.0) }
{
    input.user().symbols().get(id.0)
}

// Whether a symbol is visible.
fn is_visible(t: &Teller<'_, '_, '_>, id: SymId, symbol: &Symbol) -> bool
    requires { IsRow t.now id symbol.now }
    ensures { result ≡ values.is_visible t.now.solved.now.tree (known t.now.solved.now) (facts_by t.now id symbol.now) }
{
    !is_n(t.solved.visibility(id))
}

// Whether the user value of a symbol could count: it is visible and no member of a choice.
fn could_count(t: &Teller<'_, '_, '_>, id: SymId, symbol: &Symbol) -> bool
    requires { IsRow t.now id symbol.now }
    ensures { result ≡ told.could_count t.now (facts_by t.now id symbol.now) }
{
    !symbol.choice.is_some() && is_visible(t, id, symbol)
}

// Whether it is a fact what the user gave a symbol: a value, or none where one could count.
fn is_told(t: &Teller<'_, '_, '_>, id: SymId, symbol: &Symbol, given: Option<&UserValue>) -> bool
    requires { IsRow t.now id symbol.now }
    ensures { result ≡ (is_some (given_in given.entry) || told.could_count t.now (facts_by t.now id symbol.now)) }
{
    given.is_some() || could_count(t, id, symbol)
}

// Appends the user value of a symbol, if that is a fact.
fn add_given<'t>(
    t: &Teller<'t, '_, '_>,
    id: SymId,
    symbol: &Symbol,
    facts: &mut Vec<Fact<'t>>,
) -> Result<(), AllocError>
    requires { IsRow t.now id symbol.now }
    ensures { OnOk result (Adds t.now facts.old.items facts.new.items (told.given_told t.now id (facts_by t.now id symbol.now))) }
{
    let given = given_at(t.input, id);
    if is_told(t, id, symbol, given) {
        facts.push(Fact::UserGave {
            at: t.input.plain_line(id),
            symbol: id,
            given,
        })?;
        Ok(())
    } else {
        Ok(())
    }
}

// Appends the value of a symbol that was not allowed, if there is one.
fn add_refused<'t>(
    t: &Teller<'t, '_, '_>,
    id: SymId,
    facts: &mut Vec<Fact<'t>>,
) -> Result<(), AllocError>
    ensures { OnOk result (Adds t.now facts.old.items facts.new.items (told.refused_told t.now id)) }
{
    match t.input.plain_refused_line(id) {
        Some(refused) => {
            facts.push(Fact::NotAllowed {
                symbol: id,
                refused,
            })?;
            Ok(())
        }
        None => Ok(()),
    }
}

// Whether a user value is a truth value.
fn is_truth(given: Option<&UserValue>) -> bool
    ensures { result ≡ told.is_truth (given_in given.entry) }
{
    match given {
        Some(UserValue::Tri(_)) => true,
        _ => false,
    }
}

// Whether the user value counts for a bool or tristate.
fn is_users(t: &Teller<'_, '_, '_>, id: SymId, symbol: &Symbol) -> bool
    requires { IsRow t.now id symbol.now }
    ensures { result ≡ rules.is_users t.now.solved.now.tree (known t.now.solved.now) (facts_by t.now id symbol.now)
        (place_at t.now.input.now.places (SymbolPlace id.0)) }
{
    is_visible(t, id, symbol) && is_truth(given_at(t.input, id))
}

// The text that the user gave, if a symbol with this visibility is visible.
fn visible_text(given: Option<&UserValue>, visibility: Tri) -> Option<&[u8]>
    ensures { option_copied result ≡ values.visible_text (given_in given.entry) visibility }
{
    match given {
        Some(UserValue::Text(text)) => { if is_n(visibility) { None } else { Some(text) } }
        _ => None,
    }
}

// ---- Symbols outside choices

// What a symbol is selected to.
fn selected_to(t: &Teller<'_, '_, '_>, id: SymId, symbol: &Symbol) -> Tri
    requires { IsRow t.now id symbol.now }
    ensures { result ≡ values.selected_to t.now.solved.now.tree (known t.now.solved.now) (facts_by t.now id symbol.now) }
{
    let table = t.solved.table();
    match table.layout.symbol(id) {
        Some(row) => selected_in(table, id, row),
        None => Tri::N,
    }
}

// Whether it is y.
fn is_y(t: Tri) -> bool
    ensures { result ≡ rules.is_y t }
{
    match t {
        Tri::Y => true,
        Tri::N => false,
        Tri::M => false,
    }
}

// Whether the defaults of a bool or tristate, and the lines that imply it, have no effect.
fn is_settled(t: &Teller<'_, '_, '_>, id: SymId, symbol: &Symbol) -> bool
    requires { IsRow t.now id symbol.now }
    ensures { result ≡ told.is_settled t.now id (facts_by t.now id symbol.now) }
{
    is_users(t, id, symbol) || is_y(selected_to(t, id, symbol))
}

// Appends what gives a bool or tristate its value.
fn add_truth<'t>(
    alloc: Global,
    t: &Teller<'t, '_, '_>,
    id: SymId,
    symbol: &Symbol,
    facts: &mut Vec<Fact<'t>>,
) -> Result<(), AllocError>
    requires { IsRow t.now id symbol.now }
    ensures { OnOk result (Adds t.now facts.old.items facts.new.items (told.truth_told t.now id (facts_by t.now id symbol.now))) }
{
    add_raises(alloc, t, SelectOrImply::Select, id, facts)?;
    if is_settled(t, id, symbol) {
        Ok(())
    } else {
        add_defaults(alloc, t, id, symbol.symbol_type, facts)?;
        add_raises(alloc, t, SelectOrImply::Imply, id, facts)
    }
}

// Appends the value of the modules symbol, if there is one.
fn add_modules<'t>(t: &Teller<'t, '_, '_>, facts: &mut Vec<Fact<'t>>) -> Result<(), AllocError>
    ensures { OnOk result (Adds t.now facts.old.items facts.new.items (told.modules_told t.now)) }
{
    match t.solved.modules() {
        Some(symbol) => {
            let value = symbol_value(t.solved, symbol);
            facts.push(Fact::Modules { symbol, value })?;
            Ok(())
        }
        None => Ok(()),
    }
}

// Appends the defaults of a symbol of this type, unless this text counts.
fn add_text<'t>(
    alloc: Global,
    t: &Teller<'t, '_, '_>,
    id: SymId,
    symbol_type: SymbolType,
    used: Option<&[u8]>,
    facts: &mut Vec<Fact<'t>>,
) -> Result<(), AllocError>
    ensures { OnOk result (Adds t.now facts.old.items facts.new.items (told.text_told t.now id symbol_type (option_copied used.entry))) }
{
    match used {
        Some(_) => Ok(()),
        None => add_defaults(alloc, t, id, symbol_type, facts),
    }
}

// Appends what gives an int or hex its value.
fn add_number<'t>(
    alloc: Global,
    t: &Teller<'t, '_, '_>,
    id: SymId,
    symbol: &Symbol,
    shown: Option<&[u8]>,
    facts: &mut Vec<Fact<'t>>,
) -> Result<(), AllocError>
    requires { IsRow t.now id symbol.now }
    ensures { OnOk result (Adds t.now facts.old.items facts.new.items (told.number_told t.now id (facts_by t.now id symbol.now) (option_copied shown.entry))) }
{
    let range = t.solved.active_range(id);
    let used = if_within_range(symbol.symbol_type, range, shown);
    add_ranges(alloc, t, id, symbol.symbol_type, facts)?;
    add_text(alloc, t, id, symbol.symbol_type, used, facts)
}

// Appends what gives a symbol outside a choice its value.
fn add_value<'t>(
    alloc: Global,
    t: &Teller<'t, '_, '_>,
    id: SymId,
    symbol: &Symbol,
    facts: &mut Vec<Fact<'t>>,
) -> Result<(), AllocError>
    requires { IsRow t.now id symbol.now }
    ensures { OnOk result (Adds t.now facts.old.items facts.new.items (told.value_told t.now id (facts_by t.now id symbol.now))) }
{
    let shown = visible_text(given_at(t.input, id), t.solved.visibility(id));
    match symbol.symbol_type {
        SymbolType::Undefined => Ok(()),
        SymbolType::Bool => add_truth(alloc, t, id, symbol, facts),
        SymbolType::Tristate => {
            add_modules(t, facts)?;
            add_truth(alloc, t, id, symbol, facts)
        }
        SymbolType::Str => add_text(alloc, t, id, symbol.symbol_type, shown, facts),
        SymbolType::Int => add_number(alloc, t, id, symbol, shown, facts),
        SymbolType::Hex => add_number(alloc, t, id, symbol, shown, facts),
    }
}

// ---- The whole

// Appends what gives a symbol its value.
fn add_cause<'t>(
    alloc: Global,
    t: &Teller<'t, '_, '_>,
    id: SymId,
    symbol: &Symbol,
    facts: &mut Vec<Fact<'t>>,
) -> Result<(), AllocError>
    requires { IsRow t.now id symbol.now }
    ensures { OnOk result (Adds t.now facts.old.items facts.new.items (told.cause_told t.now id (facts_by t.now id symbol.now))) }
{
    match symbol.choice.get() {
        Some(choice) => add_choice(alloc, t, choice, facts),
        None => add_value(alloc, t, id, symbol, facts),
    }
}

// Appends the facts about a symbol with this row.
fn add_facts<'t>(
    alloc: Global,
    t: &Teller<'t, '_, '_>,
    id: SymId,
    symbol: &Symbol,
    facts: &mut Vec<Fact<'t>>,
) -> Result<(), AllocError>
    requires { IsRow t.now id symbol.now }
    ensures { OnOk result (Adds t.now facts.old.items facts.new.items (told.symbol_told t.now id (facts_by t.now id symbol.now))) }
{
    let entries = definitions_of(alloc, t.layout, id)?;
    add_given(t, id, symbol, facts)?;
    add_refused(t, id, facts)?;
    add_dependencies(alloc, t, &entries, facts)?;
    add_prompts(alloc, t, &entries, facts)?;
    add_cause(alloc, t, id, symbol, facts)
}

// Whether a symbol has no facts: it has no type and is no member of a choice.
fn is_without_facts(symbol: &Symbol) -> bool
    ensures { result ≡ told.is_without_facts symbol.now }
{
    matches!(symbol.symbol_type, SymbolType::Undefined) && !symbol.choice.is_some()
}

// The facts about a symbol with this row.
fn facts_at<'t>(
    alloc: Global,
    t: &Teller<'t, '_, '_>,
    id: SymId,
    symbol: &Symbol,
) -> Result<Vec<Fact<'t>>, AllocError>
    requires { IsRow t.now id symbol.now }
    ensures { IfOk result (λ facts. told.shown t.now facts.items ≡ told.facts_told t.now id) }
{
    let mut facts = Vec::new(alloc);
    if is_without_facts(symbol) {
        return Ok(facts);
    }
    add_facts(alloc, t, id, symbol, &mut facts)?;
    Ok(facts)
}

/// Returns the facts about a symbol. The only error is that memory runs out.
pub(crate) fn facts_of<'t>(
    alloc: Global,
    t: &Teller<'t, '_, '_>,
    id: SymId,
) -> Result<Vec<Fact<'t>>, AllocError>
    ensures { IfOk result (λ facts. map (fact_view t.now.solved.now) facts.items
        ≡ map (fact_in t.now.solved.now.tree.lines) (rules.facts_in t.now.input.now t.now.solved.now id)) }
{
    match t.layout.symbol(id) {
        Some(symbol) => facts_at(alloc, t, id, symbol),
        None => Ok(Vec::new(alloc)),
    }
}
