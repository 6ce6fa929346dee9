//! What one line of an input file does to the user's input.
ghost use Rattle.std.specs.Prelude.{◌≡◌, ◌++◌, ◌<◌, true, [], ◌∷◌, length, map, slice_set, Some, None, OnOk, OnErr, IfOk, IfSome, option_map};
ghost use Rattle.kc_user.specs.ValueView.{given_of_value};
ghost use Rattle.kc_language.specs.ConfigFile.{change_text, is_change, meaning_of, Assigns, Warns, effect_of, is_gone, is_reported, not_allowed, located_warning_line, set_text, ArePlacesOf, place_at, places_given};
ghost use Rattle.kc_input.specs.PartsOfConfigFile.{change_line};
ghost use Rattle.kc_input.specs.PartsOfConfigFile.{effect_text, choice_of};
ghost use Rattle.kc_language.specs.declared.diagnostics.Warning.TheVariants.{Changed, SetAgain};
ghost use Rattle.kc_input.specs.LineSteps.{input_by, input_left, input_with, refused_by, with_member};
ghost use Rattle.kc_input.specs.Refusals.{with_refusal};
ghost use Rattle.kc_input.specs.ConfigFileLine.{meaning_view};
ghost use Rattle.kc_diagnostics.specs.Warnings.{shown_warning};
ghost use Rattle.kc_input.specs.ShownView.{given_by, location_of};
ghost use Rattle.kc_language.specs.Values.{SymbolPlace, is_yes};

use crate::effect::{Effect, line_effect, type_of, warn};
use crate::line::{ConfigFileLine, parse_config_file_line};
use crate::prefix::Prefix;
use crate::refused::{KeptLine, keep_refused, kept_line};
use crate::shown::{InputLine, ShownValue, add_value, is_same, shown_given};
use crate::user_input::UserInput;
use kc_diagnostics::Warning;
use kc_expr::expression::{SymId, SymbolType, Tri};
use kc_tree::rows::ChoiceId;
use kc_tree::tree::Tree;
use kc_user::user::User;
use kc_user::value::UserValue;
use std::alloc::{AllocError, Global};

/// The name of an input file, the tree and prefix that it is read for, and the allocator of what is kept of it.
#[derive(Clone, Copy)]
pub(crate) struct NamedStream<'a> {
    pub alloc: Global,
    pub tree: &'a Tree,
    pub prefix: &'a Prefix,
    pub name: &'a [u8],
}

// The choice that the symbol is a member of.
fn choice_of(tree: &Tree, id: SymId) -> Option<ChoiceId>
    ensures choice { option_map (λ choice. choice.0) result ≡ choice_of tree.now id }
    ensures there { IfSome result (λ choice. choice.0 < length tree.now.choices) }
{
    // The choice of a member exists: this follows from `name_count`.
    let _ = tree.name_count();
    match tree.facts(id) {
        Some(symbol) => symbol.choice.get(),
        None => None,
    }
}

// Whether the value is y.
fn is_yes(value: &UserValue) -> bool
    ensures { result ≡ is_yes (given_of_value value.now) }
{
    match value {
        UserValue::Tri(Tri::Y) => true,
        UserValue::Tri(Tri::N | Tri::M) | UserValue::Text(_) => false,
    }
}

// Makes the symbol the user's member of its choice.
fn choose(tree: &Tree, id: SymId, user: &mut User)
    requires { ArePlacesOf tree.now user.old }
    ensures { user.new ≡ record user.old { choices = with_member true (choice_of tree.now id) id user.old.choices } }
{
    match choice_of(tree, id) {
        Some(choice) => user.select(choice, id),
        None => {}
    }
}

// Gives the symbol the value. A member that is set to y becomes the user's member of its choice.
fn assign(tree: &Tree, id: SymId, value: UserValue, user: &mut User) -> Result<(), AllocError>
    requires mentioned { id.0 < length tree.now.symbols }
    requires user { ArePlacesOf tree.now user.old }
    ensures done { OnOk result (user.new ≡ places_given tree.now user.old (record { symbol = id; given = given_of_value value } ∷ [])) }
    ensures failed { OnErr result (user.new ≡ user.old) }
{
    let is_selected = is_yes(&value);
    user.set(id, value)?;
    if is_selected {
        choose(tree, id, user);
    }
    Ok(())
}

// Whether a different value replaces an earlier one.
fn is_change(user: &User, id: SymId, value: &UserValue) -> bool
    requires { id.0 < length user.now.symbols }
    ensures { result ≡ is_change (place_at user.now (SymbolPlace id.0)) (given_of_value value.now) }
{
    match user.get(id) {
        Some(old) => !is_same(shown_given(old), shown_given(value)),
        None => false,
    }
}

// Stores the line in the symbol's place, if there is one.
fn set_line<'a>(lines: &mut Vec<Option<InputLine<'a>>>, id: SymId, at: InputLine<'a>)
    ensures { map (option_map location_of) lines.new.items ≡ slice_set (map (option_map location_of) lines.old.items) id.0 (Some (location_of at.entry)) }
{
    if id.0 < lines.len() {
        lines[id.0] = Some(at);
    }
}

// Gives the symbol the value of this line.
fn give<'a>(
    tree: &Tree,
    at: InputLine<'a>,
    id: SymId,
    value: UserValue,
    input: &mut UserInput<'a>,
) -> Result<(), AllocError>
    requires mentioned { id.0 < length tree.now.symbols }
    requires user { ArePlacesOf tree.now input.old.places }
    ensures done { OnOk result (input.new ≡ input_by tree.now input.old (location_of at.entry) (Assigns id (given_of_value value))) }
    ensures failed { OnErr result (input.new ≡ input.old) }
{
    let is_kept = !is_change(&input.user, id, &value);
    assign(tree, id, value, &mut input.user)?;
    set_line(&mut input.lines, id, at);
    input.all_taken = input.all_taken && is_kept;
    Ok(())
}

// A value, and the line that gave it.
#[derive(Clone, Copy)]
struct Given<'a> {
    value: ShownValue<'a>,
    at: InputLine<'a>,
}

// Adds the old and the new value of the symbol, given as texts.
fn tell_values<'a>(
    name: &'a [u8],
    from: InputLine<'a>,
    before: &'a [u8],
    at: InputLine<'a>,
    now: &'a [u8],
    told: &mut Vec<u8>,
) -> Result<(), AllocError>
    ensures { OnOk result (told.new.items ≡ told.old.items
        ++ located_warning_line at.entry.file.now at.entry.number (Changed name.now before.now from.entry.file.now from.entry.number now.now)) }
{
    let warning = Warning::Changed {
        name,
        old: before,
        file: from.file,
        line: from.number,
        new: now,
    };
    warn(at.file, at.number, warning, told)
}

// What a line about a symbol's values says of the symbol, and how it writes them.
#[derive(Clone, Copy)]
struct ToldSymbol<'a> {
    is_raw: bool,
    name: &'a [u8],
    symbol_type: SymbolType,
}

// Adds the line with the old and the new value of the symbol.
fn add_change<'a>(
    alloc: Global,
    symbol: &ToldSymbol<'a>,
    old: Given<'a>,
    new: Given<'a>,
    text: &mut Vec<u8>,
) -> Result<(), AllocError>
    ensures { OnOk result (text.new.items ≡ text.old.items
        ++ change_line symbol.now.is_raw (location_of new.entry.at) symbol.now.name.now symbol.now.symbol_type (given_by old.entry.value) (location_of old.entry.at)
        (given_by new.entry.value)) }
{
    let mut before = Vec::new(alloc);
    add_value(symbol.is_raw, symbol.symbol_type, old.value, &mut before)?;
    let mut now = Vec::new(alloc);
    add_value(symbol.is_raw, symbol.symbol_type, new.value, &mut now)?;
    tell_values(symbol.name, old.at, &before, new.at, &now, text)
}

// Adds the warning that the symbol is set again.
fn tell_again(at: InputLine<'_>, name: &[u8], told: &mut Vec<u8>) -> Result<(), AllocError>
    ensures whole { OnOk result (told.new.items ≡ told.old.items ++ located_warning_line at.entry.file.now at.entry.number (SetAgain name.now)) }
    ensures nothing { OnErr result (told.new.items ≡ told.old.items) }
{
    warn(at.file, at.number, Warning::SetAgain(name), told)
}

// Adds the warning that the symbol is set again, with its old and new value.
fn tell_change<'a>(
    alloc: Global,
    symbol: &ToldSymbol<'a>,
    old: Given<'a>,
    new: Given<'a>,
    told: &mut Vec<u8>,
) -> Result<(), AllocError>
    ensures whole { OnOk result (told.new.items ≡ told.old.items ++ (located_warning_line new.entry.at.file.now new.entry.at.number (SetAgain symbol.now.name.now)
        ++ change_line symbol.now.is_raw (location_of new.entry.at) symbol.now.name.now symbol.now.symbol_type (given_by old.entry.value) (location_of old.entry.at)
        (given_by new.entry.value))) }
    ensures nothing { OnErr result (told.new.items ≡ told.old.items) }
{
    let mut text = Vec::new(alloc);
    tell_again(new.at, symbol.name, &mut text)?;
    add_change(alloc, symbol, old, new, &mut text)?;
    told.extend_from_slice(&text)
}

// Adds the warning that the symbol is set again, and the change if there is one and its line is known.
fn tell_both(
    alloc: Global,
    symbol: &ToldSymbol<'_>,
    old: ShownValue<'_>,
    from: Option<InputLine<'_>>,
    new: Given<'_>,
    told: &mut Vec<u8>,
) -> Result<(), AllocError>
    ensures whole { OnOk result (told.new.items ≡ told.old.items ++ (located_warning_line new.entry.at.file.now new.entry.at.number (SetAgain symbol.now.name.now)
        ++ change_text symbol.now.is_raw (location_of new.entry.at) symbol.now.name.now symbol.now.symbol_type (Some (given_by old.entry)) (option_map location_of from.entry)
        (given_by new.entry.value))) }
    ensures nothing { OnErr result (told.new.items ≡ told.old.items) }
{
    match from {
        None => tell_again(new.at, symbol.name, told),
        Some(from) => {
            if is_same(old, new.value) {
                tell_again(new.at, symbol.name, told)
            } else {
                let old = Given {
                    value: old,
                    at: from,
                };
                tell_change(alloc, symbol, old, new, told)
            }
        }
    }
}

// Warns if the symbol already has a value.
fn warn_again(
    stream: &NamedStream<'_>,
    at: InputLine<'_>,
    id: SymId,
    value: &UserValue,
    input: &UserInput<'_>,
    told: &mut Vec<u8>,
) -> Result<(), AllocError>
    requires mentioned { id.0 < length stream.now.tree.now.symbols }
    requires user { ArePlacesOf stream.now.tree.now input.now.places }
    ensures whole { OnOk result (told.new.items ≡ told.old.items
        ++ effect_text stream.now.prefix.now.is_raw stream.now.tree.now input.now (location_of at.entry) (Assigns id (given_of_value value.now))) }
    ensures nothing { OnErr result (told.new.items ≡ told.old.items) }
{
    let tree = stream.tree;
    if id.0 >= tree.name_count() {
        return Ok(());
    }
    match input.user().get(id) {
        None => Ok(()),
        Some(old) => {
            let new = Given {
                value: shown_given(value),
                at,
            };
            let from = input.plain_line(id);
            let symbol = ToldSymbol {
                is_raw: stream.prefix.is_raw(),
                name: tree.name(id),
                symbol_type: type_of(tree, id),
            };
            tell_both(stream.alloc, &symbol, shown_given(old), from, new, told)
        }
    }
}

// Whether the warning is about a line that names no symbol.
fn is_gone(line_warning: &Warning<&[u8]>) -> bool
    ensures { result ≡ is_gone (Warns (shown_warning line_warning.now)) }
{
    matches!(line_warning, Warning::UnknownSymbol(_))
}

// The symbol whose value in the line is not allowed, if the warning is about that.
fn not_allowed(tree: &Tree, line_warning: &Warning<&[u8]>) -> Option<SymId>
    ensures { result ≡ not_allowed tree.now (Warns (shown_warning line_warning.now)) }
{
    match line_warning {
        Warning::NotAllowed(name) => tree.find(name),
        _ => None,
    }
}

// A line to keep for the symbol whose value in it is not allowed.
#[derive(Drop)]
struct Refusal<'a> {
    id: SymId,
    line: KeptLine<'a>,
}

// The line to keep for the symbol, if such lines are kept.
fn refusal_of<'a>(
    alloc: Global,
    at: InputLine<'a>,
    line: ConfigFileLine<'_>,
    id: SymId,
    input: &UserInput<'a>,
) -> Result<Option<Refusal<'a>>, AllocError>
    ensures { IfOk result (λ refusal. with_refusal refusal input.now.refused
        ≡ slice_set input.now.refused id.0 (Some (record { at = location_of at.entry; value = set_text (meaning_view line.entry) }))) }
{
    if id.0 >= input.refused.len() {
        return Ok(None);
    }
    let line = kept_line(alloc, at, line)?;
    Ok(Some(Refusal { id, line }))
}

// The line to keep, if its value is not allowed and such lines are kept.
fn refusal_in<'a>(
    stream: &NamedStream<'a>,
    at: InputLine<'a>,
    line: ConfigFileLine<'_>,
    line_warning: &Warning<&[u8]>,
    input: &UserInput<'a>,
) -> Result<Option<Refusal<'a>>, AllocError>
    ensures { IfOk result (λ refusal. with_refusal refusal input.now.refused
        ≡ refused_by (record { at = location_of at.entry; value = set_text (meaning_view line.entry) })
        (not_allowed stream.now.tree.now (Warns (shown_warning line_warning.now))) input.now.refused) }
{
    match not_allowed(stream.tree, line_warning) {
        Some(id) => refusal_of(stream.alloc, at, line, id, input),
        None => Ok(None),
    }
}

// Stores the line in its symbol's place, if there is a line.
fn refuse<'a>(refusal: Option<Refusal<'a>>, input: &mut UserInput<'a>)
    ensures { input.new ≡ record input.old { refused = with_refusal refusal.entry input.old.refused } }
{
    match refusal {
        Some(refusal) => keep_refused(&mut input.refused, refusal.id, refusal.line),
        None => {}
    }
}

// Warns about a line that is not taken as written.
fn leave_out<'a>(
    stream: &NamedStream<'a>,
    at: InputLine<'a>,
    line: ConfigFileLine<'_>,
    line_warning: Warning<&[u8]>,
    user: &mut UserInput<'a>,
    told: &mut Vec<u8>,
) -> Result<(), AllocError>
    requires { is_reported user.old.asks_unset (shown_warning line_warning) ≡ true }
    ensures left { OnOk result (user.new ≡ input_left stream.now.tree.now stream.now.prefix.now user.old (location_of at.entry)
        (meaning_view line.entry) (Warns (shown_warning line_warning.entry))) }
    ensures warned { OnOk result (told.new.items ≡ told.old.items
        ++ effect_text stream.now.prefix.now.is_raw stream.now.tree.now user.old (location_of at.entry) (Warns (shown_warning line_warning.entry))) }
    ensures unchanged { OnErr result ((user.new ≡ user.old) × (told.new.items ≡ told.old.items)) }
{
    let untold = told.len();
    let is_gone = is_gone(&line_warning);
    let refusal = refusal_in(stream, at, line, &line_warning, user)?;
    warn(at.file, at.number, line_warning, told)?;
    let noted = user.leave_out(stream.alloc, stream.prefix, line, is_gone);
    if noted.is_ok() {
        refuse(refusal, user);
    } else {
        told.truncate(untold);
    }
    noted
}

/// Reads one line, given without its line end: adds its warning, and then changes the input. Fails only if there is not
/// enough memory; then it changes neither the input nor `told`.
#[tactic(auto, using(crate::proofs::StepLemmas::unreported, crate::proofs::StepLemmas::untold))]
pub(crate) fn read_line<'a>(
    stream: &NamedStream<'a>,
    number: u64,
    text: &[u8],
    user: &mut UserInput<'a>,
    told: &mut Vec<u8>,
) -> Result<(), AllocError>
    requires { ArePlacesOf stream.now.tree.now user.old.places }
    ensures places { OnOk result (user.new ≡ input_with stream.now.tree.now stream.now.prefix.now user.old (record { stream = stream.now.name.now; number = number })
        (meaning_of stream.now.prefix.now.prefix text.now)) }
    ensures warned { OnOk result (told.new.items ≡ told.old.items
        ++ effect_text stream.now.prefix.now.is_raw stream.now.tree.now user.old (record { stream = stream.now.name.now; number = number })
        (effect_of stream.now.prefix.now.is_raw stream.now.tree.now (meaning_of stream.now.prefix.now.prefix text.now))) }
    ensures unchanged { OnErr result ((user.new ≡ user.old) × (told.new.items ≡ told.old.items)) }
{
    let at = InputLine {
        file: stream.name,
        number,
    };
    let line = parse_config_file_line(stream.prefix.as_bytes(), text);
    let is_raw = stream.prefix.is_raw();
    match line_effect(stream.alloc, stream.tree, line, is_raw)? {
        Effect::Silent => Ok(()),
        Effect::Warns(line_warning) => {
            if user.reports(&line_warning) {
                leave_out(stream, at, line, line_warning, user, told)
            } else {
                Ok(())
            }
        }
        Effect::Assigns(id, value) => {
            let before = told.len();
            warn_again(stream, at, id, &value, user, told)?;
            let given = give(stream.tree, at, id, value, user);
            if given.is_err() {
                told.truncate(before);
            }
            given
        }
    }
}
