//! Lost values: user values that are not the values of their symbols.
ghost use Rattle.std.specs.Prelude.{◌≡◌, ◌++◌, ◌<◌, if◌then◌else◌, length, map, flat_map, slice_get, Some, IfOk, OnOk, option_map};
ghost use Rattle.kc_language.specs.Symbols.{listed, located_warning};
ghost use Rattle.kc_language.specs.declared.diagnostics.Warning.TheVariants.{Lost, LostWithoutPrompt};
ghost use Rattle.kc_diagnostics.specs.Warnings.{shown_warning};
ghost use Rattle.kc_expr.specs.Value.{value_by_type};
ghost use Rattle.kc_language.specs.Texts.{known};
ghost use Rattle.std.specs.Option.{option_and_then};
ghost use Rattle.kc_tree.specs.Layouts.{facts_of};
ghost use Rattle.kc_language.specs.Values.{SymbolPlace, given_of, name_count};
ghost use Rattle.kc_language.specs.ConfigFile.{place_at};
ghost use Rattle.kc_user.specs.ValueView.{given_of_value};
ghost use Rattle.kc_values.specs.User.{given_in};
ghost use Rattle.kc_input.specs.ShownView.{given_by, location_of};
ghost use Rattle.kc_language.specs.Texts as spec;
ghost use Rattle.kc_conf.specs.PartsOfTexts as spec_parts;
ghost use Rattle.kc_conf.specs.Lost.{lost_pairs, lost_values, lost_view};

use kc_diagnostics::{Warning, add_located};
use kc_expr::expression::{SymId, SymbolType, Tri};
use kc_expr::values::Values;
use kc_input::shown::{InputLine, ShownValue, add_value, is_same, shown_given};
use kc_input::user_input::UserInput;
use kc_options::Options;
use kc_solve::solved::Solved;
use kc_tree::layout::Layout;
use kc_tree::rows::Symbol;
use kc_user::user::User;
use kc_user::value::UserValue;
use kc_values::laws::rows_tell_facts;
use kc_values::table::name;
use std::alloc::{AllocError, Global};

// The value of a symbol of this type.
fn shown_by<'a>(symbol_type: SymbolType, tri: Tri, text: &'a [u8]) -> ShownValue<'a>
    ensures { given_by result ≡ given_of (value_by_type symbol_type tri text.now) }
{
    match symbol_type {
        SymbolType::Bool | SymbolType::Tristate => ShownValue::Truth(tri),
        SymbolType::Undefined | SymbolType::Str | SymbolType::Int | SymbolType::Hex =>
            ShownValue::Text(text),
    }
}

// A symbol's value.
fn shown_value<'a>(solved: &'a Solved<'_, '_>, id: SymId) -> ShownValue<'a>
    ensures { given_by result ≡ given_of (known solved.now id) }
{
    solved.tells_known();
    shown_by(solved.symbol_type(id), solved.tri(id), solved.text(id))
}

// The warning about a lost value, given both values as texts.
fn lost_warning<'a>(
    is_prompted: bool,
    name: &'a [u8],
    given: &'a [u8],
    value: &'a [u8],
) -> Warning<&'a [u8]>
    ensures { shown_warning result ≡ (if is_prompted then Lost name.now given.now value.now else LostWithoutPrompt name.now given.now value.now) }
{
    if is_prompted {
        Warning::Lost { name, given, value }
    } else {
        Warning::LostWithoutPrompt { name, given, value }
    }
}

// The line of a warning.
fn line_of(alloc: Global, at: InputLine<'_>, warning: Warning<&[u8]>) -> Result<Vec<u8>, AllocError>
    ensures { IfOk result (λ line. line.items ≡ located_warning at.entry.file.now at.entry.number (shown_warning warning.entry)) }
{
    let mut line = Vec::new(alloc);
    add_located(at.file, at.number, warning, &mut line)?;
    Ok(line)
}

// A symbol whose value is told: its name, its type, whether it has a prompt, and whether strings have no escapes.
#[derive(Clone, Copy)]
struct ToldSymbol<'n> {
    name: &'n [u8],
    symbol_type: SymbolType,
    is_prompted: bool,
    is_raw: bool,
}

// The line of a lost value.
fn lost_line(
    alloc: Global,
    symbol: &ToldSymbol<'_>,
    at: InputLine<'_>,
    given: ShownValue<'_>,
    value: ShownValue<'_>,
) -> Result<Vec<u8>, AllocError>
    ensures { let s = symbol.now in
        IfOk result (λ line. line.items ≡ spec_parts.lost_line s.is_raw s.is_prompted (location_of at.entry) s.name.now s.symbol_type (given_by given.entry) (given_by value.entry)) }
{
    let mut given_text = Vec::new(alloc);
    add_value(symbol.is_raw, symbol.symbol_type, given, &mut given_text)?;
    let mut value_text = Vec::new(alloc);
    add_value(symbol.is_raw, symbol.symbol_type, value, &mut value_text)?;
    let warning = lost_warning(symbol.is_prompted, symbol.name, &given_text, &value_text);
    line_of(alloc, at, warning)
}

// The line of a symbol's lost value, if it was lost.
fn lost_by(
    alloc: Global,
    symbol: &ToldSymbol<'_>,
    at: Option<InputLine<'_>>,
    given: &UserValue,
    value: ShownValue<'_>,
) -> Result<Option<Vec<u8>>, AllocError>
    ensures { let s = symbol.now in IfOk result (λ line. map (λ l. l.items) (listed line)
        ≡ spec.lost_by s.is_raw s.is_prompted s.name.now s.symbol_type (option_map location_of at.entry) (Some (given_of_value given.now)) (given_by value.entry)) }
{
    let Some(at) = at else {
        return Ok(None);
    };
    let given = shown_given(given);
    if is_same(given, value) {
        return Ok(None);
    }
    let line = lost_line(alloc, symbol, at, given, value)?;
    Ok(Some(line))
}

/// Whether a symbol has a prompt.
pub(crate) fn has_prompt(layout: &Layout, id: SymId, symbol: &Symbol) -> bool
    requires { slice_get layout.now.symbols.items id.0 ≡ Some symbol.now }
    ensures { result ≡ spec.has_prompt (facts_of layout.now id.0 symbol.now).prompts }
{
    let mut at = symbol.first;
    'definitions: while at.is_some() {
        let place = layout.place(at);
        if place.prompt.is_some() {
            return true;
        }
        at = place.next;
    }
    false
}

// The user value of the symbol.
fn given_at<'a>(user: &'a User, id: SymId) -> Option<&'a UserValue>
    requires { id.0 < length user.now.symbols }
    ensures { given_in result ≡ place_at user.now (SymbolPlace id.0) }
{
    user.get(id)
}

// The line of the lost value of this symbol, if it was lost. With `is_raw` strings have no escapes. Most symbols have no user value,
// so that is looked at first.
fn lost_at(
    alloc: Global,
    is_raw: bool,
    input: &UserInput<'_>,
    solved: &Solved<'_, '_>,
    id: SymId,
) -> Result<Option<Vec<u8>>, AllocError>
    requires { id.0 < name_count solved.now.tree }
    ensures { IfOk result (λ line. map (λ l. l.items) (listed line) ≡ spec.lost_at is_raw input.now.lines solved.now id) }
{
    solved.is_solution();
    rows_tell_facts();
    let Some(given) = given_at(solved.user(), id) else {
        return Ok(None);
    };
    let tree = solved.tree();
    let layout = tree.layout();
    let Some(symbol) = layout.symbol(id) else {
        return Ok(None);
    };
    let told = ToldSymbol {
        name: name(tree, id),
        symbol_type: symbol.symbol_type,
        is_prompted: has_prompt(layout, id, symbol),
        is_raw,
    };
    let at = input.line(id);
    let value = shown_value(solved, id);
    lost_by(alloc, &told, at, given, value)
}

/// A lost value: its symbol, and the line that warns of it, without its line end.
#[derive(Drop)]
pub(crate) struct LostValue {
    pub symbol: SymId,
    pub line: Vec<u8>,
}

// Adds the lost value of this symbol, if it was lost.
fn add_lost_at(
    alloc: Global,
    is_raw: bool,
    input: &UserInput<'_>,
    solved: &Solved<'_, '_>,
    id: SymId,
    lost: &mut Vec<LostValue>,
) -> Result<(), AllocError>
    requires { id.0 < name_count solved.now.tree }
    ensures { OnOk result (map lost_view lost.new.items ≡ map lost_view lost.old.items ++ lost_pairs is_raw input.now.lines solved.now id) }
{
    match lost_at(alloc, is_raw, input, solved, id)? {
        None => Ok(()),
        Some(line) => {
            lost.push(LostValue { symbol: id, line })?;
            Ok(())
        }
    }
}

// The lost values of all defined symbols.
fn all_lost(
    alloc: Global,
    is_raw: bool,
    input: &UserInput<'_>,
    solved: &Solved<'_, '_>,
) -> Result<Vec<LostValue>, AllocError>
    ensures { IfOk result (λ lost. map lost_view lost.items ≡ flat_map (lost_pairs is_raw input.now.lines solved.now) solved.now.tree.defined) }
{
    let mut lost = Vec::new(alloc);
    let tree = solved.tree();
    for i in 0..tree.symbol_count() {
        add_lost_at(alloc, is_raw, input, solved, tree.symbol(i), &mut lost)?;
    }
    Ok(lost)
}

/// Returns the lost values, if they are wanted, in the order of first definitions. Each line has the location of the line that
/// gave the value. Fails only if there is not enough memory.
pub(crate) fn lost_values(
    alloc: Global,
    options: &Options,
    input: &UserInput<'_>,
    solved: &Solved<'_, '_>,
) -> Result<Vec<LostValue>, AllocError>
    ensures { IfOk result (λ lost. map lost_view lost.items ≡ lost_values options.now input.now solved.now) }
{
    if options.warn_lost {
        all_lost(alloc, options.prefix.is_raw(), input, solved)
    } else {
        Ok(Vec::new(alloc))
    }
}
