//! The facts about a symbol that no line can change.

ghost use Rattle.std.specs.Prelude.{◌≡◌, ◌++◌, ◌∷◌, [], List, OnOk, map, true};
ghost use Rattle.kc_language.specs.Texts.{Solution, known};
ghost use Rattle.kc_language.specs.declared.expressions.Tri.{Tri};
ghost use Rattle.kc_outcome.specs.Explanations as rules;
ghost use Rattle.kc_possible.specs.Bounds.{IsWithin};
ghost use Rattle.kc_possible.specs.PartsOfPossible.{Covers};
ghost use Rattle.kc_possible.specs.Possible.{Allows, IsSound};
ghost use Rattle.kc_tree.specs.LineParts.{default_said};
ghost use Rattle.kc_explain.specs.FactViews.{fact_view, given_by_default};
ghost use Rattle.kc_explain.specs.Fixed.{AreFixedOf, fixed_lines};
ghost use Rattle.kc_explain.specs.FixedViews as told;
ghost use Rattle.kc_explain.specs.PartViews.{asked_view};

use crate::always::{gives_the_same, has_value, is_exactly, is_unraised, raises_to};
use crate::fact::Fact;
use crate::fact_text::add_fixed_fact;
use crate::facts::facts_of;
use crate::lines::Line;
use crate::parts::{Asked, ConditionPart};
use crate::teller::Teller;
use kc_entries::statement::SymbolDefault;
use kc_expr::expression::{SymId, SymbolType, Tri};
use kc_possible::bounds::Bounds;
use kc_possible::expression::{expression, symbol};
use kc_possible::possible::Possible;
use std::alloc::{AllocError, Global};

// What the mode of a choice may be.
fn mode(p: &Possible<'_>, choice: usize) -> Bounds
    ensures { Covers p.now result (told.asked_under p.now.laid.tree.now (rules.ModeOf choice)) }
{
    match p.modes.get(choice) {
        Some(bounds) => *bounds,
        None => Bounds::any(),
    }
}

// What a part of a condition may be.
fn part_bounds(p: &Possible<'_>, part: &ConditionPart<'_>) -> Bounds
    ensures { Covers p.now result (told.asked_under p.now.laid.tree.now (asked_view part.now.asks)) }
{
    match part.asks {
        Asked::Worth(e) => expression(p, e),
        Asked::ModeOf(choice) => mode(p, choice),
    }
}

// Whether there is only this value between the bounds, and it is not y.
fn is_only(bounds: Bounds, value: Tri) -> bool
    ensures { result ≡ true → (t : Tri) → IsWithin bounds t → t ≡ value }
{
    value != Tri::Y && is_exactly(bounds, value)
}

/// A symbol, and what the symbols may be whatever the user gives (our own).
#[derive(Clone, Copy)]
struct Subject<'p, 't> {
    id: SymId,
    possible: &'p Possible<'t>,
}

// Whether a default of the symbol has this condition under every input, and gives the same if it counts.
fn is_fixed_default(
    of: &Subject<'_, '_>,
    symbol_type: SymbolType,
    what: &SymbolDefault,
    value: Tri,
    counts: bool,
) -> bool
    requires { IsSound of.now.possible.now }
    ensures { (solution : Solution) → Allows of.now.possible.now (known solution) → of.now.possible.now.laid.tree.now ≡ solution.tree → result ≡ true →
        told.IsFixedDefault of.now.possible.now.laid.tree.now of.now.id symbol_type (default_said what.now) value (given_by_default solution counts symbol_type (default_said what.now)) }
{
    if !gives_the_same(of.possible, symbol_type, &what.value, counts) {
        return false;
    }
    has_value(of.possible, of.id, &what.when, value)
}

// Whether the bounds show that a fact about the symbol holds under every input. A condition that is y is of no interest, nor is a
// line that raises to m. A range is told by its line.
fn is_fixed(t: &Teller<'_, '_, '_>, of: &Subject<'_, '_>, fact: &Fact<'_>) -> bool
    requires sound { IsSound of.now.possible.now }
    requires tree { of.now.possible.now.laid.tree.now ≡ t.now.solved.now.tree }
    ensures { result ≡ true → told.IsFixed of.now.possible.now.laid.tree.now of.now.id (fact_view t.now.solved.now fact.now) }
{
    t.solved.is_solution();
    let p = of.possible;
    match *fact {
        Fact::Part { part, value } => is_only(part_bounds(p, &part), value),
        Fact::Modules { symbol: id, value } => is_only(symbol(p, id), value),
        Fact::Default {
            symbol_type,
            what,
            value,
            counts,
            ..
        } => is_fixed_default(of, symbol_type, what, value, counts),
        Fact::NotRaised { word, .. } => is_unraised(p, word, of.id),
        Fact::Raised {
            by,
            by_value,
            when,
            value,
            ..
        } => raises_to(p, by, by_value, when, value),
        _ => false,
    }
}

// Among how many of the last lines one is looked for.
const MOST_LINES: usize = 64;

// Whether this line is among the last of these.
fn is_among(lines: &[Line<'_>], line: Line<'_>) -> bool {
    for other in &lines[lines.len().saturating_sub(MOST_LINES)..] {
        if other.number == line.number && other.file == line.file {
            return true;
        }
    }
    false
}

// Notes the line of a part of a condition. Returns whether it is new: a choice depends on what its members depend on. Any other
// fact is new.
fn is_new<'t>(fact: &Fact<'t>, said: &mut Vec<Line<'t>>) -> Result<bool, AllocError> {
    match fact {
        Fact::Part { part, .. } => {
            if is_among(said, part.line) {
                return Ok(false);
            }
            said.push(part.line)?;
            Ok(true)
        }
        _ => Ok(true),
    }
}

// Appends the line of a fact that no line can change, if it is new. `said`: the lines of a tree that were told before.
#[tactic(auto, using(crate::proofs::FixedLemmas::adds_one, crate::proofs::FixedLemmas::adds_none))]
fn add_once<'t>(
    t: &Teller<'t, '_, '_>,
    of: &Subject<'_, '_>,
    lead: &[u8],
    fact: &Fact<'t>,
    said: &mut Vec<Line<'t>>,
    text: &mut Vec<u8>,
) -> Result<(), AllocError>
    requires { told.IsFixed of.now.possible.now.laid.tree.now of.now.id (fact_view t.now.solved.now fact.now) }
    ensures { OnOk result (told.AddsFixed t.now of.now.possible.now.laid.tree.now of.now.id lead.now (fact_view t.now.solved.now fact.now ∷ []) text.old.items text.new.items) }
{
    let is_first = is_new(fact, said)?;
    if is_first {
        add_fixed_fact(t, lead, fact, text)?;
        Ok(())
    } else {
        Ok(())
    }
}

// Appends the line of a fact, if no line can change it and it is new.
#[tactic(auto, using(crate::proofs::FixedLemmas::adds_none))]
fn add_if_fixed<'t>(
    t: &Teller<'t, '_, '_>,
    of: &Subject<'_, '_>,
    lead: &[u8],
    fact: &Fact<'t>,
    said: &mut Vec<Line<'t>>,
    text: &mut Vec<u8>,
) -> Result<(), AllocError>
    requires sound { IsSound of.now.possible.now }
    requires tree { of.now.possible.now.laid.tree.now ≡ t.now.solved.now.tree }
    ensures { OnOk result (told.AddsFixed t.now of.now.possible.now.laid.tree.now of.now.id lead.now (fact_view t.now.solved.now fact.now ∷ []) text.old.items text.new.items) }
{
    if is_fixed(t, of, fact) {
        add_once(t, of, lead, fact, said, text)
    } else {
        Ok(())
    }
}

// The same for all of these facts.
fn add_all_fixed<'t>(
    alloc: Global,
    t: &Teller<'t, '_, '_>,
    of: &Subject<'_, '_>,
    lead: &[u8],
    facts: &[Fact<'t>],
    text: &mut Vec<u8>,
) -> Result<(), AllocError>
    requires sound { IsSound of.now.possible.now }
    requires tree { of.now.possible.now.laid.tree.now ≡ t.now.solved.now.tree }
    ensures { OnOk result (told.AddsFixed t.now of.now.possible.now.laid.tree.now of.now.id lead.now (map (fact_view t.now.solved.now) facts.now) text.old.items text.new.items) }
{
    let mut said = Vec::new(alloc);
    for fact in facts {
        add_if_fixed(t, of, lead, fact, &mut said, text)?;
    }
    Ok(())
}

/// Appends facts about a symbol that hold whatever the user gives, each after the lead (our own): what is not y of that on which it
/// depends, its defaults, and whether lines raise it, as far as the bounds of the symbols show it. The only error is that memory runs
/// out.
pub fn add_fixed(
    alloc: Global,
    t: &Teller<'_, '_, '_>,
    p: &Possible<'_>,
    lead: &[u8],
    id: SymId,
    text: &mut Vec<u8>,
) -> Result<(), AllocError>
    requires sound { IsSound p.now }
    requires tree { p.now.laid.tree.now ≡ t.now.solved.now.tree }
    ensures { OnOk result ((facts : List rules.Fact) × AreFixedOf t.now.input.now t.now.solved.now id facts
        × (text.new.items ≡ text.old.items ++ fixed_lines t.now.is_raw t.now.solved.now.tree lead.now facts)) }
{
    let facts = facts_of(alloc, t, id)?;
    let of = Subject { id, possible: p };
    add_all_fixed(alloc, t, &of, lead, &facts, text)
}
