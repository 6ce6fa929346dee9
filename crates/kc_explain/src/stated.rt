//! The facts about defaults and ranges, up to the first that counts.

ghost use Rattle.std.specs.Prelude.{◌≡◌, option_map, IfOk, OnOk};
ghost use Rattle.std.specs.List.{filter_map, flat_map, list_any};
ghost use Rattle.kc_outcome.specs.Explanations.{through};
ghost use Rattle.kc_language.specs.Symbols.{listed};
ghost use Rattle.kc_language.specs.Values.{is_n};
ghost use Rattle.kc_entries.specs.Entries.{attribute_line as line_of, own_lines};
ghost use Rattle.kc_explain.specs.FactViews.{fact_view};
ghost use Rattle.kc_explain.specs.FactLists as told;
ghost use Rattle.kc_explain.specs.FactLists.{Adds};
ghost use Rattle.kc_explain.specs.StatedFacts as spec;

use crate::fact::Fact;
use crate::lines::{attribute_line, definitions_of};
use crate::parts::{dependency_value, is_n, value_under};
use crate::teller::Teller;
use kc_entries::entries::{AttributeLine, Entry, EntryLines};
use kc_expr::expression::{SymId, SymbolType, Tri};
use kc_tree::attributes::{condition, range_of, stated_default};
use kc_tree::rows::{ChoiceId, EntryId};
use std::alloc::{AllocError, Global};

/// Which lines of an entry: the defaults or ranges of a symbol of this type, or the defaults of a choice that name a member of it.
#[derive(Clone, Copy)]
pub(crate) enum Stated {
    Defaults(SymbolType),
    Ranges(SymbolType),
    Members(ChoiceId),
}

// ---- One line

// The fact about a line, if it states a default, given the value of what its entry depends on.
fn default_fact<'t>(
    t: &Teller<'t, '_, '_>,
    symbol_type: SymbolType,
    first: &'t Entry,
    own: &'t AttributeLine,
    dependency: Tri,
) -> Option<Fact<'t>>
    ensures { option_map (fact_view t.now.solved.now) result
        ≡ spec.default_told t.now.solved.now symbol_type dependency (line_of first.now.file.value.items own.now.line own.now.attribute) }
{
    match stated_default(&own.attribute) {
        Some(what) => {
            let value = value_under(t.solved, dependency, condition(&what.when));
            Some(Fact::Default {
                symbol_type,
                line: attribute_line(first, own),
                what,
                value,
                counts: !is_n(value),
            })
        }
        None => None,
    }
}

// The same for a line that states a range.
fn range_fact<'t>(
    t: &Teller<'t, '_, '_>,
    symbol_type: SymbolType,
    first: &'t Entry,
    own: &'t AttributeLine,
    dependency: Tri,
) -> Option<Fact<'t>>
    ensures { option_map (fact_view t.now.solved.now) result
        ≡ spec.range_told t.now.solved.now symbol_type dependency (line_of first.now.file.value.items own.now.line own.now.attribute) }
{
    match range_of(&own.attribute) {
        Some(what) => {
            let value = value_under(t.solved, dependency, condition(&what.when));
            Some(Fact::Range {
                symbol_type,
                line: attribute_line(first, own),
                what,
                value,
                counts: !is_n(value),
            })
        }
        None => None,
    }
}

// The same for a line that states a default of this choice with this member.
fn member_fact<'t>(
    t: &Teller<'t, '_, '_>,
    member: SymId,
    first: &'t Entry,
    own: &'t AttributeLine,
    dependency: Tri,
) -> Option<Fact<'t>>
    ensures { option_map (fact_view t.now.solved.now) result
        ≡ spec.member_told t.now.solved.now member dependency (line_of first.now.file.value.items own.now.line own.now.attribute) }
{
    match stated_default(&own.attribute) {
        Some(what) => Some(Fact::MemberDefault {
            line: attribute_line(first, own),
            member,
            when: &what.when,
            value: value_under(t.solved, dependency, condition(&what.when)),
            prompt: t.solved.prompts_condition(member),
        }),
        None => None,
    }
}

// The same for a line that states a default of this choice.
fn choice_fact<'t>(
    t: &Teller<'t, '_, '_>,
    choice: ChoiceId,
    first: &'t Entry,
    own: &'t AttributeLine,
    dependency: Tri,
) -> Option<Fact<'t>>
    ensures { option_map (fact_view t.now.solved.now) result ≡ spec.choice_told t.now.layout.now t.now.solved.now choice.0 dependency
        (line_of first.now.file.value.items own.now.line own.now.attribute) }
{
    match t.layout.default_member(choice, &own.attribute) {
        Some(member) => member_fact(t, member, first, own, dependency),
        None => None,
    }
}

// The same for such a line.
fn line_fact<'t>(
    t: &Teller<'t, '_, '_>,
    stated: Stated,
    first: &'t Entry,
    own: &'t AttributeLine,
    dependency: Tri,
) -> Option<Fact<'t>>
    ensures { option_map (fact_view t.now.solved.now) result
        ≡ spec.line_told t.now.layout.now t.now.solved.now stated dependency (line_of first.now.file.value.items own.now.line own.now.attribute) }
{
    match stated {
        Stated::Defaults(symbol_type) => default_fact(t, symbol_type, first, own, dependency),
        Stated::Ranges(symbol_type) => range_fact(t, symbol_type, first, own, dependency),
        Stated::Members(choice) => choice_fact(t, choice, first, own, dependency),
    }
}

// Whether it is the fact about a default, range or member that counts: the facts after it have no effect.
fn counts(t: &Teller<'_, '_, '_>, fact: &Fact<'_>) -> bool
    ensures { result ≡ spec.counts (fact_view t.now.solved.now fact.now) }
{
    match fact {
        Fact::Default { counts, .. } => *counts,
        Fact::Range { counts, .. } => *counts,
        Fact::Member { value, .. } => !is_n(*value),
        Fact::MemberDefault { value, prompt, .. } => !is_n(*value) && !is_n(*prompt),
        _ => false,
    }
}

// ---- Entries

/// Appends a fact, if there is one. Returns whether it counts. The only error is that memory runs out.
pub(crate) fn add_one<'t>(
    t: &Teller<'t, '_, '_>,
    fact: Option<Fact<'t>>,
    facts: &mut Vec<Fact<'t>>,
) -> Result<bool, AllocError>
    ensures facts { OnOk result (Adds t.now facts.old.items facts.new.items (listed (option_map (fact_view t.now.solved.now) fact.entry))) }
    ensures met { IfOk result (λ met. met ≡ list_any spec.counts (listed (option_map (fact_view t.now.solved.now) fact.entry))) }
{
    match fact {
        Some(fact) => {
            let is_met = counts(t, &fact);
            facts.push(fact)?;
            Ok(is_met)
        }
        None => Ok(false),
    }
}

// Appends the facts about such lines of an entry, up to the first that counts, given the value of what the entry depends on.
// Returns whether one counts.
fn add_own<'t>(
    t: &Teller<'t, '_, '_>,
    stated: Stated,
    own: EntryLines<'t>,
    dependency: Tri,
    facts: &mut Vec<Fact<'t>>,
) -> Result<bool, AllocError>
    ensures facts { OnOk result (Adds t.now facts.old.items facts.new.items (through spec.counts
        (filter_map (spec.line_told t.now.layout.now t.now.solved.now stated dependency) (own_lines own.entry.first.now own.entry.attributes.now)))) }
    ensures met { IfOk result (λ met. met ≡ list_any spec.counts
        (filter_map (spec.line_told t.now.layout.now t.now.solved.now stated dependency) (own_lines own.entry.first.now own.entry.attributes.now))) }
{
    for line in own.attributes {
        if add_one(t, line_fact(t, stated, own.first, line, dependency), facts)? {
            return Ok(true);
        }
    }
    Ok(false)
}

/// Appends the facts about such lines of an entry, up to the first that counts. Returns whether one counts. The only error is that
/// memory runs out.
pub(crate) fn add_stated_at<'t>(
    t: &Teller<'t, '_, '_>,
    stated: Stated,
    entry: EntryId,
    facts: &mut Vec<Fact<'t>>,
) -> Result<bool, AllocError>
    ensures facts { OnOk result (Adds t.now facts.old.items facts.new.items
        (through spec.counts (spec.entry_told t.now.layout.now t.now.solved.now stated entry))) }
    ensures met { IfOk result (λ met. met ≡ list_any spec.counts (spec.entry_told t.now.layout.now t.now.solved.now stated entry)) }
{
    match t.layout.entry(entry) {
        Some(own) => {
            let dependency = dependency_value(t, entry);
            add_own(t, stated, own, dependency, facts)
        }
        None => Ok(false),
    }
}

// Appends the facts about such lines of these entries, up to the first that counts.
fn add_stated<'t>(
    t: &Teller<'t, '_, '_>,
    stated: Stated,
    entries: &[EntryId],
    facts: &mut Vec<Fact<'t>>,
) -> Result<(), AllocError>
    ensures { OnOk result (Adds t.now facts.old.items facts.new.items
        (through spec.counts (flat_map (spec.entry_told t.now.layout.now t.now.solved.now stated) entries.now))) }
{
    for entry in entries {
        if add_stated_at(t, stated, *entry, facts)? {
            return Ok(());
        }
    }
    Ok(())
}

/// Appends the facts about the defaults of a symbol of this type. The only error is that memory runs out.
pub(crate) fn add_defaults<'t>(
    alloc: Global,
    t: &Teller<'t, '_, '_>,
    id: SymId,
    symbol_type: SymbolType,
    facts: &mut Vec<Fact<'t>>,
) -> Result<(), AllocError>
    ensures { OnOk result (Adds t.now facts.old.items facts.new.items (told.defaults_of t.now id symbol_type)) }
{
    let entries = definitions_of(alloc, t.layout, id)?;
    add_stated(t, Stated::Defaults(symbol_type), &entries, facts)
}

/// Appends the facts about the ranges of a symbol of this type. The only error is that memory runs out.
pub(crate) fn add_ranges<'t>(
    alloc: Global,
    t: &Teller<'t, '_, '_>,
    id: SymId,
    symbol_type: SymbolType,
    facts: &mut Vec<Fact<'t>>,
) -> Result<(), AllocError>
    ensures { OnOk result (Adds t.now facts.old.items facts.new.items (told.ranges_of t.now id symbol_type)) }
{
    let entries = definitions_of(alloc, t.layout, id)?;
    add_stated(t, Stated::Ranges(symbol_type), &entries, facts)
}
