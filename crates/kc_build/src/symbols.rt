//! The rows of the symbols (the type, the choice and the first definition of each), and the chain of definitions.

ghost use Rattle.std.specs.Prelude.{◌≡◌, ◌<◌, ◌≤◌, ◌^◌, Some, length, option_map, replicate, IfOk, OnOk};
ghost use Rattle.std.specs.List.{filter_map};
ghost use Rattle.kc_language.specs.Symbols as facts;
ghost use Rattle.kc_entries.specs.ListFacts.{AreBelow};
ghost use Rattle.kc_entries.specs.PartsOfSymbols.{first_of};
ghost use Rattle.kc_tree.specs.EntryViews.{entry_count, statements_in, statements_of};
ghost use Rattle.kc_build.specs.Limits.{IsFew};
ghost use Rattle.kc_build.specs.SymbolRows as symbol_rows;
ghost use Rattle.kc_build.specs.SymbolsFound as see;

use kc_entries::entries::{AttributeLine, Entries};
use kc_entries::statement::Head;
use kc_expr::expression::{SymId, SymbolType};
use kc_tree::attributes::first_type;
use kc_tree::maybe_choice::MaybeChoice;
use kc_tree::rows::{Choice, ChoiceId, EntryId, EntryPlace, SelectorId, Symbol};
use std::alloc::{AllocError, Global};

// Rows of symbols about which nothing is known yet.
fn unknown_symbols(alloc: Global, count: usize) -> Result<Vec<Symbol>, AllocError>
    ensures { IfOk result (λ v. v.items ≡ replicate count see.unknown) }
{
    let mut symbols = Vec::with_capacity(alloc, count)?;
    for _ in 0..count {
        symbols.push(Symbol {
            symbol_type: SymbolType::Undefined,
            choice: MaybeChoice::empty(),
            first: EntryId::top(),
            last_select: SelectorId::none(),
            last_imply: SelectorId::none(),
        })?;
    }
    Ok(symbols)
}

// Adds a definition to its symbol, before the known ones: its type counts if it gives one. Returns the definition that
// follows it.
fn add_definition(symbol: &mut Symbol, at: EntryId, attributes: &[AttributeLine]) -> EntryId
    ensures added { symbol.new ≡ see.with_definition at (first_of (filter_map facts.stated_type (statements_of attributes.now))) symbol.old }
    ensures next { result ≡ symbol.old.first }
{
    let next = symbol.first;
    symbol.first = at;
    if let Some(symbol_type) = first_type(attributes) {
        symbol.symbol_type = symbol_type;
    }
    next
}

/// Returns the rows of `count` symbols from their definitions; the places get the chains. It goes from the last entry to the
/// first. So the chain of a symbol always begins with the first definition so far, and its type is the first that they give.
pub(crate) fn definitions_of(
    alloc: Global,
    entries: &Entries,
    places: &mut Vec<EntryPlace>,
    count: usize,
) -> Result<Vec<Symbol>, AllocError>
    requires few { IsFew entries.now }
    requires places { length places.old.items ≡ entry_count entries.now }
    requires below { AreBelow count (statements_in entries.now) }
    ensures rows { IfOk result (λ symbols. see.AreRowsFrom entries.now 0 count symbols.items) }
    ensures same { OnOk result (see.AreSamePlaces places.old.items places.new.items) }
    ensures linked { OnOk result (see.AreLinkedFrom entries.now 0 places.new.items) }
{
    let mut symbols = unknown_symbols(alloc, count)?;
    let mut left = entries.first_lines.len();
    'entries: while left > 0 {
        left -= 1;
        if let Some(lines) = entries.entry(left) {
            if let Head::Config(symbol) = &lines.first.head {
                let row = &mut symbols[symbol.0];
                places[left].next = add_definition(row, EntryId::of(left), lines.attributes);
            }
        }
    }
    Ok(symbols)
}

// Makes a symbol a member of a choice, unless it is a member of an earlier one. It becomes a bool if it has no type.
fn make_member(symbol: &mut Symbol, choice: ChoiceId) -> Result<(), AllocError>
    ensures { OnOk result (symbol.new ≡ see.as_member (Some choice) symbol.old) }
{
    if !symbol.choice.is_some() {
        symbol.choice = MaybeChoice::of(Some(choice))?;
    }
    if let SymbolType::Undefined = symbol.symbol_type {
        symbol.symbol_type = SymbolType::Bool;
    }
    Ok(())
}

/// Gives each member its first choice, and the type bool if it has no type.
pub(crate) fn give_choices(symbols: &mut Vec<Symbol>, choices: &[Choice]) -> Result<(), AllocError>
    requires few { length choices.now < 2 ^ 32 }
    requires there { see.AreMembersThere (length symbols.old.items) choices.now }
    ensures { OnOk result (see.AreMembersOf choices.now symbols.old.items symbols.new.items) }
{
    for (k, choice) in choices.iter().enumerate() {
        for member in &choice.members {
            make_member(&mut symbols[member.0], ChoiceId(k as u32))?;
        }
    }
    Ok(())
}

/// The type of a symbol. A name that is not defined has none.
pub(crate) fn type_of(symbols: &[Symbol], symbol: SymId) -> SymbolType
    ensures { result ≡ symbol_rows.type_by symbols.now symbol }
{
    match symbols.get(symbol.0) {
        Some(found) => found.symbol_type,
        None => SymbolType::Undefined,
    }
}

/// The choice that a symbol is a member of.
pub(crate) fn choice_of(symbols: &[Symbol], symbol: SymId) -> Option<ChoiceId>
    ensures { option_map (λ k. k.0) result ≡ symbol_rows.choice_by symbols.now symbol }
{
    match symbols.get(symbol.0) {
        Some(found) => found.choice.get(),
        None => None,
    }
}

/// Whether the symbol is a member of the choice.
pub(crate) fn is_member(symbols: &[Symbol], choice: ChoiceId, symbol: SymId) -> bool
    ensures { result ≡ symbol_rows.member_by symbols.now choice.0 symbol }
{
    match choice_of(symbols, symbol) {
        Some(own) => own.0 == choice.0,
        None => false,
    }
}

/// Whether a symbol of this type is a string, int or hex symbol.
pub(crate) fn has_text(symbol_type: SymbolType) -> bool
    ensures { result ≡ facts.holds_text symbol_type }
{
    matches!(
        symbol_type,
        SymbolType::Str | SymbolType::Int | SymbolType::Hex
    )
}
