//! The lines that select and imply each symbol.

ghost use Rattle.std.specs.Prelude.{◌≡◌, ◌<◌, ◌+◌, ◌^◌, length, IfOk, OnOk};
ghost use Rattle.kc_tree.specs.EntryViews.{entry_count, statements_in, statements_of};
ghost use Rattle.kc_tree.specs.Places.{ArePlaces};
ghost use Rattle.kc_build.specs.SymbolRows.{AreKnownRows, can_be_target};
ghost use Rattle.kc_build.specs.Limits.{IsFew};
ghost use Rattle.kc_build.specs.SelectorRows.{Adds, AreSelectors, AreTargetsBelow, IsAdded, last_in, with_last};

use crate::symbols::has_text;
use kc_entries::entries::{Entries, EntryLines};
use kc_entries::statement::Head;
use kc_language::symbols::SelectOrImply;
use kc_tree::attributes::{Target, target_of};
use kc_tree::rows::{AttributeId, EntryId, EntryPlace, Selector, SelectorId, Symbol};
use std::alloc::{AllocError, Global};

// Whether selecting or implying a symbol has an effect: it is no member of a choice, and no string, int or hex symbol.
fn is_target(symbol: &Symbol) -> bool
    ensures { result ≡ can_be_target symbol.now }
{
    !symbol.choice.is_some() && !has_text(symbol.symbol_type)
}

// Makes a line the last one of its kind that names a symbol. Returns the one before it.
fn set_last(symbol: &mut Symbol, word: SelectOrImply, id: SelectorId) -> SelectorId
    ensures before { result ≡ last_in word symbol.old }
    ensures now { symbol.new ≡ with_last word id symbol.old }
{
    match word {
        SelectOrImply::Select => {
            let before = symbol.last_select;
            symbol.last_select = id;
            before
        }
        SelectOrImply::Imply => {
            let before = symbol.last_imply;
            symbol.last_imply = id;
            before
        }
    }
}

// Appends a line that selects or implies a symbol, if it has an effect.
fn add_selector(
    entry: EntryId,
    attribute: AttributeId,
    target: Target<'_>,
    symbols: &mut Vec<Symbol>,
    lines: &mut Vec<Selector>,
) -> Result<(), AllocError>
    requires there { target.symbol.0 < length symbols.old.items }
    requires few { length lines.old.items + 1 < 2 ^ 32 }
    ensures { OnOk result (IsAdded entry attribute target.entry.word target.entry.symbol.0 symbols.old.items lines.old.items symbols.new.items lines.new.items) }
{
    let symbol = &mut symbols[target.symbol.0];
    if !is_target(symbol) {
        return Ok(());
    }
    let next = set_last(symbol, target.word, SelectorId::of(lines.len()));
    lines.push(Selector {
        entry,
        attribute,
        next,
    })?;
    Ok(())
}

// Appends the lines of an entry that select or imply.
fn add_selectors(
    entry: EntryId,
    own: EntryLines<'_>,
    symbols: &mut Vec<Symbol>,
    lines: &mut Vec<Selector>,
) -> Result<(), AllocError>
    requires there { AreTargetsBelow (length symbols.old.items) (statements_of own.attributes.now) }
    requires attributes { own.first.now.start + length own.attributes.now + 1 < 2 ^ 32 }
    requires few { length lines.old.items + length own.attributes.now + 1 < 2 ^ 32 }
    ensures { OnOk result (Adds entry own.entry symbols.old.items lines.old.items symbols.new.items lines.new.items) }
{
    let start = own.first.start as usize;
    for (j, line) in own.attributes.iter().enumerate() {
        if let Some(target) = target_of(&line.attribute) {
            let attribute = AttributeId::of(start + j);
            add_selector(entry, attribute, target, symbols, lines)?;
        }
    }
    Ok(())
}

/// Returns the lines that select or imply a symbol and have an effect. Each is chained to the previous one of its kind for the
/// same symbol. The symbols get the ends of the chains.
pub(crate) fn selectors_of(
    alloc: Global,
    entries: &Entries,
    places: &[EntryPlace],
    symbols: &mut Vec<Symbol>,
) -> Result<Vec<Selector>, AllocError>
    requires places { ArePlaces entries.now places.now }
    requires count { length places.now ≡ entry_count entries.now }
    requires known { AreKnownRows entries.now symbols.old.items }
    requires there { AreTargetsBelow (length symbols.old.items) (statements_in entries.now) }
    requires few { IsFew entries.now }
    ensures { IfOk result (λ lines. AreSelectors entries.now (length symbols.old.items) symbols.new.items lines.items) }
{
    let mut lines = Vec::new(alloc);
    for (i, place) in places.iter().enumerate() {
        if place.has_target {
            if let Some(own) = entries.entry(i) {
                if let Head::Config(_) = &own.first.head {
                    add_selectors(EntryId::of(i), own, symbols, &mut lines)?;
                }
            }
        }
    }
    Ok(lines)
}
