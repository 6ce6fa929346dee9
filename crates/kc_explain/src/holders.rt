//! The symbols that hold a symbol down.

ghost use Rattle.std.specs.Prelude.{◌≡◌, ◌++◌, [], ◌∷◌, List, IfOk, OnOk, filter, if◌then◌else◌, is_some, map, not, option_map};
ghost use Rattle.std.specs.List.{flat_map};
ghost use Rattle.kc_expr.specs.Form.{form_of};
ghost use Rattle.kc_expr.specs.PartsOfSymbols.{added};
ghost use Rattle.kc_language.specs.Expressions.{number_of_text, symbols};
ghost use Rattle.kc_language.specs.Statements.{statements};
ghost use Rattle.kc_language.specs.Symbols.{all_added, same_type};
ghost use Rattle.kc_language.specs.Texts.{known};
ghost use Rattle.kc_language.specs.declared.expressions.SymbolType.{SymbolType as AnyType};
ghost use Rattle.kc_outcome.specs.Explanations as rules;
ghost use Rattle.kc_tree.specs.LineParts as written;
ghost use Rattle.kc_explain.specs.FactViews.{bounds_by, fact_view, given_by_default};
ghost use Rattle.kc_explain.specs.Holding as told;
ghost use Rattle.kc_explain.specs.LineViews.{at_entry, lines_of};
ghost use Rattle.kc_explain.specs.PartViews.{asked_view, part_view, prompt_said};
ghost use Rattle.kc_explain.specs.PartsOfExplanations as named;

use crate::fact::Fact;
use crate::facts::facts_of;
use crate::lines::choice_entry;
use crate::parts::{
    Asked, ConditionPart, PromptLine, dependency_parts, expression_value, prompt_at, shown_parts,
};
use crate::seen::Seen;
use crate::teller::Teller;
use kc_entries::statement::{SymbolDefault, SymbolRange};
use kc_expr::expression::{Expr, SymId, SymbolType, Tri};
use kc_expr::values::{Values, symbol_into, symbols_into};
use kc_solve::solved::Solved;
use kc_text::{has_hex_prefix, read_hex, read_int};
use kc_tree::attributes::condition;
use kc_tree::layout::Layout;
use kc_tree::rows::EntryId;
use kc_values::table::name;
use std::alloc::{AllocError, Global};

// ---- conditions

// Whether a value is y.
fn is_y(value: Tri) -> bool
    ensures { result ≡ rules.is_y value }
{
    matches!(value, Tri::Y)
}

// Appends the symbols of an expression.
fn add_form_names(solved: &Solved<'_, '_>, e: &Expr, all: &mut Vec<SymId>) -> Result<(), AllocError>
    ensures { OnOk result (all.new.items ≡ all.old.items ++ symbols solved.now.tree.modules (form_of e.now)) }
{
    symbols_into(e, solved.modules(), all)
}

// Appends the symbols of an expression below y.
fn add_low_names(solved: &Solved<'_, '_>, e: &Expr, all: &mut Vec<SymId>) -> Result<(), AllocError>
    ensures { OnOk result (all.new.items ≡ all.old.items ++ told.low_names solved.now (form_of e.now)) }
{
    if is_y(expression_value(solved, e)) {
        Ok(())
    } else {
        add_form_names(solved, e, all)
    }
}

// Appends the symbols of a line's own condition, if it is below y.
fn add_own_names(
    solved: &Solved<'_, '_>,
    when: Option<&Expr>,
    all: &mut Vec<SymId>,
) -> Result<(), AllocError>
    ensures { OnOk result (all.new.items ≡ all.old.items ++ told.own_names solved.now (option_map (λ e. form_of e.now) when.entry)) }
{
    match when {
        Some(e) => add_low_names(solved, e, all),
        None => Ok(()),
    }
}

// Appends the symbols of a part that is an expression below y.
fn add_worth_names(
    solved: &Solved<'_, '_>,
    part: &ConditionPart<'_>,
    all: &mut Vec<SymId>,
) -> Result<(), AllocError>
    ensures { OnOk result (all.new.items ≡ all.old.items ++ told.worth_names solved.now (asked_view part.now.asks)) }
{
    match part.asks {
        Asked::Worth(e) => add_low_names(solved, e, all),
        Asked::ModeOf(_) => Ok(()),
    }
}

// Appends the symbols of all parts that are expressions below y.
fn add_all_worth_names(
    solved: &Solved<'_, '_>,
    parts: &[ConditionPart<'_>],
    all: &mut Vec<SymId>,
) -> Result<(), AllocError>
    ensures { OnOk result (all.new.items ≡ all.old.items ++ told.all_worth_names solved.now (map part_view parts.now)) }
{
    for part in parts {
        add_worth_names(solved, part, all)?;
    }
    Ok(())
}

// ---- choices

// Appends what holds down the mode of the choice that begins with an entry, which has this prompt.
fn add_shown_worth(
    alloc: Global,
    layout: &Layout,
    solved: &Solved<'_, '_>,
    entry: EntryId,
    prompt: &PromptLine<'_>,
    all: &mut Vec<SymId>,
) -> Result<(), AllocError>
    ensures { OnOk result (all.new.items ≡ all.old.items
        ++ told.all_worth_names solved.now (named.shown_parts layout.now entry (prompt_said prompt.now))) }
{
    let shown = shown_parts(alloc, layout, entry, prompt)?;
    add_all_worth_names(solved, &shown, all)
}

// Appends what holds down the mode of the choice that begins with an entry.
fn add_choice_names(
    alloc: Global,
    layout: &Layout,
    solved: &Solved<'_, '_>,
    entry: EntryId,
    all: &mut Vec<SymId>,
) -> Result<(), AllocError>
    ensures { OnOk result (all.new.items ≡ all.old.items ++ at_entry layout.now (told.choice_names (lines_of layout.now) solved.now) entry) }
{
    let parts = dependency_parts(alloc, layout, entry)?;
    add_all_worth_names(solved, &parts, all)?;
    match prompt_at(layout, entry) {
        Some(prompt) => add_shown_worth(alloc, layout, solved, entry, &prompt, all),
        None => Ok(()),
    }
}

// Appends what holds down the mode of the choice with this number.
fn add_mode_names(
    alloc: Global,
    layout: &Layout,
    solved: &Solved<'_, '_>,
    choice: usize,
    all: &mut Vec<SymId>,
) -> Result<(), AllocError>
    ensures { OnOk result (all.new.items ≡ all.old.items
        ++ rules.mode_names (statements (lines_of layout.now)) solved.now.tree (known solved.now) choice) }
{
    match choice_entry(layout, choice) {
        Some(entry) => add_choice_names(alloc, layout, solved, entry, all),
        None => Ok(()),
    }
}

// ---- facts

// Appends what holds down a part of a condition with this value.
fn add_part_names(
    alloc: Global,
    t: &Teller<'_, '_, '_>,
    part: &ConditionPart<'_>,
    value: Tri,
    all: &mut Vec<SymId>,
) -> Result<(), AllocError>
    ensures { OnOk result (all.new.items ≡ all.old.items
        ++ told.part_names (lines_of t.now.layout.now) t.now.solved.now (asked_view part.now.asks) value) }
{
    if is_y(value) {
        return Ok(());
    }
    match part.asks {
        Asked::Worth(e) => add_form_names(t.solved, e, all),
        Asked::ModeOf(choice) => add_mode_names(alloc, t.layout, t.solved, choice, all),
    }
}

// Appends what holds down a default, and the symbols of its value if it counts.
fn add_default_names(
    solved: &Solved<'_, '_>,
    what: &SymbolDefault,
    counts: bool,
    all: &mut Vec<SymId>,
) -> Result<(), AllocError>
    ensures { (kind : AnyType) → OnOk result (all.new.items ≡ all.old.items
        ++ told.default_names solved.now (written.default_said what.now) (given_by_default solved.now counts kind (written.default_said what.now))) }
{
    add_own_names(solved, condition(&what.when), all)?;
    if counts {
        add_form_names(solved, &what.value, all)
    } else {
        Ok(())
    }
}

// Appends what holds down a range, and the symbols of its bounds if it counts.
fn add_range_names(
    solved: &Solved<'_, '_>,
    what: &SymbolRange,
    counts: bool,
    all: &mut Vec<SymId>,
) -> Result<(), AllocError>
    ensures { (kind : AnyType) → OnOk result (all.new.items ≡ all.old.items
        ++ told.range_names solved.now (written.range_said what.now) (bounds_by solved.now counts kind (written.range_said what.now).0)) }
{
    add_own_names(solved, condition(&what.when), all)?;
    if counts {
        symbol_into(&what.low, all)?;
        symbol_into(&what.high, all)
    } else {
        Ok(())
    }
}

// Appends the symbols that a fact names as holding the symbol down.
fn add_names(
    alloc: Global,
    t: &Teller<'_, '_, '_>,
    fact: &Fact<'_>,
    all: &mut Vec<SymId>,
) -> Result<(), AllocError>
    ensures { OnOk result (all.new.items ≡ all.old.items ++ told.names (lines_of t.now.layout.now) t.now.solved.now (fact_view t.now.solved.now fact.now)) }
{
    match *fact {
        Fact::Part { part, value } => add_part_names(alloc, t, &part, value, all),
        Fact::Default { what, counts, .. } => add_default_names(t.solved, what, counts, all),
        Fact::Range { what, counts, .. } => add_range_names(t.solved, what, counts, all),
        Fact::MemberDefault { when, .. } => add_own_names(t.solved, condition(when), all),
        _ => Ok(()),
    }
}

// Appends those of these facts.
fn add_all_names(
    alloc: Global,
    t: &Teller<'_, '_, '_>,
    facts: &[Fact<'_>],
    all: &mut Vec<SymId>,
) -> Result<(), AllocError>
    ensures { OnOk result (all.new.items ≡ all.old.items
        ++ flat_map (told.names (lines_of t.now.layout.now) t.now.solved.now) (map (fact_view t.now.solved.now) facts.now)) }
{
    for fact in facts {
        add_names(alloc, t, fact, all)?;
    }
    Ok(())
}

// ---- a symbol

// Whether a text is a number.
fn is_number(text: &[u8]) -> bool
    ensures { result ≡ is_some (number_of_text text.now) }
{
    if has_hex_prefix(text) {
        read_hex(text).is_some()
    } else {
        read_int(text).is_some()
    }
}

// Whether a symbol of this type has no type.
fn is_untyped(symbol_type: SymbolType) -> bool
    ensures { result ≡ same_type symbol_type SymbolType.Undefined }
{
    matches!(symbol_type, SymbolType::Undefined)
}

// Whether the name of a symbol without a type is a number.
fn is_number_word(t: &Teller<'_, '_, '_>, id: SymId) -> bool
    ensures { result ≡ rules.is_number_word t.now.input.now t.now.solved.now id }
{
    is_untyped(t.solved.symbol_type(id)) && is_number(name(t.solved.tree(), id))
}

// These symbols without those whose names are numbers.
fn without_numbers(
    alloc: Global,
    t: &Teller<'_, '_, '_>,
    found: &[SymId],
) -> Result<Vec<SymId>, AllocError>
    ensures { IfOk result (λ all. all.items ≡ filter (λ s. not (rules.is_number_word t.now.input.now t.now.solved.now s)) found.now) }
{
    let mut all = Vec::new(alloc);
    for id in found {
        if !is_number_word(t, *id) {
            all.push(*id)?;
        }
    }
    Ok(all)
}

// The symbols that the facts about a symbol name.
fn names_of(alloc: Global, t: &Teller<'_, '_, '_>, id: SymId) -> Result<Vec<SymId>, AllocError>
    ensures { IfOk result (λ all. all.items
        ≡ rules.holders (statements t.now.solved.now.tree.lines) t.now.solved.now.tree t.now.input.now (known t.now.solved.now) id) }
{
    let facts = facts_of(alloc, t, id)?;
    let mut all = Vec::new(alloc);
    add_all_names(alloc, t, &facts, &mut all)?;
    Ok(all)
}

/// Returns the symbols that hold a symbol down. The only error is that memory runs out.
pub fn held(alloc: Global, t: &Teller<'_, '_, '_>, id: SymId) -> Result<Vec<SymId>, AllocError>
    ensures { IfOk result (λ all. all.items ≡ rules.held t.now.input.now t.now.solved.now id) }
{
    let found = names_of(alloc, t, id)?;
    without_numbers(alloc, t, &found)
}

// ---- the symbols that are reached

// Appends the symbols that hold these symbols down.
fn add_all_held(
    alloc: Global,
    t: &Teller<'_, '_, '_>,
    front: &[SymId],
    all: &mut Vec<SymId>,
) -> Result<(), AllocError>
    ensures { OnOk result (all.new.items ≡ all.old.items ++ flat_map (rules.held t.now.input.now t.now.solved.now) front.now) }
{
    for id in front {
        let found = held(alloc, t, *id)?;
        all.extend_from_slice(&found)?;
    }
    Ok(())
}

// Adds a symbol to those reached, and to the next ones if it is new.
fn add_new(id: SymId, seen: &mut Seen, next: &mut Vec<SymId>) -> Result<(), AllocError>
    ensures seen { OnOk result (seen.new ≡ added seen.old id) }
    ensures next { (before : List SymId) → seen.old ≡ before ++ next.old.items → OnOk result (seen.new ≡ before ++ next.new.items) }
{
    if seen.add(id)? {
        next.push(id)?;
    }
    Ok(())
}

// Adds these symbols to those reached, and the new ones to the next ones.
fn add_all(found: &[SymId], seen: &mut Seen, next: &mut Vec<SymId>) -> Result<(), AllocError>
    ensures seen { OnOk result (seen.new ≡ all_added seen.old found.now) }
    ensures next { (before : List SymId) → seen.old ≡ before ++ next.old.items → OnOk result (seen.new ≡ before ++ next.new.items) }
{
    for id in found {
        add_new(*id, seen, next)?;
    }
    Ok(())
}

// Returns the symbols that one more step reaches.
fn step(
    alloc: Global,
    t: &Teller<'_, '_, '_>,
    front: &[SymId],
    seen: &mut Seen,
) -> Result<Vec<SymId>, AllocError>
    ensures seen { OnOk result (seen.new ≡ told.wider t.now.input.now t.now.solved.now seen.old front.now) }
    ensures next { IfOk result (λ next. seen.new ≡ seen.old ++ next.items) }
{
    let mut found = Vec::new(alloc);
    add_all_held(alloc, t, front, &mut found)?;
    let mut next = Vec::new(alloc);
    add_all(&found, seen, &mut next)?;
    Ok(next)
}

// Adds the symbols that `depth` more steps reach.
#[tactic(auto, using(crate::proofs::HoldingLemmas::reached_next, crate::proofs::HoldingLemmas::reached_stops))]
fn reach(
    alloc: Global,
    t: &Teller<'_, '_, '_>,
    depth: usize,
    first: Vec<SymId>,
    seen: &mut Seen,
) -> Result<(), AllocError>
    ensures { OnOk result (seen.new ≡ rules.reached t.now.input.now t.now.solved.now depth seen.old first.items) }
{
    let mut front = first;
    let mut left = depth;
    'steps: while left > 0 {
        if front.is_empty() {
            return Ok(());
        }
        front = step(alloc, t, &front, seen)?;
        left -= 1;
    }
    Ok(())
}

/// Returns the symbol, and then those that hold it down in `depth` steps, each once, the nearer ones first. The only error is
/// that memory runs out.
pub(crate) fn reached(
    alloc: Global,
    t: &Teller<'_, '_, '_>,
    depth: usize,
    id: SymId,
) -> Result<Seen, AllocError>
    ensures { IfOk result (λ all. all ≡ rules.reached t.now.input.now t.now.solved.now depth (id ∷ []) (id ∷ [])) }
{
    let mut seen = Seen::new(alloc);
    seen.add(id)?;
    let mut front = Vec::new(alloc);
    front.push(id)?;
    reach(alloc, t, depth, front, &mut seen)?;
    Ok(seen)
}
