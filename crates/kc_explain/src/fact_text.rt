//! The line of each fact.

ghost use Rattle.std.specs.Prelude.{◌≡◌, ◌++◌, OnOk, Some, codes, decimal, is_some, option_map};
ghost use Rattle.kc_entries.specs.declared.statement.{SymbolDefault.{SymbolDefault}, SymbolRange.{SymbolRange}};
ghost use Rattle.kc_expr.specs.Form.{form_of, leaf_of};
ghost use Rattle.kc_expr.specs.Value.{value_by_type};
ghost use Rattle.kc_expr.specs.When.{when_view};
ghost use Rattle.kc_input.specs.ShownView.{given_by, location_of};
ghost use Rattle.kc_language.specs.ExpressionTexts.{operand_text};
ghost use Rattle.kc_language.specs.Expressions as expressions;
ghost use Rattle.kc_language.specs.Symbols.{holds_text, is_selectable};
ghost use Rattle.kc_language.specs.Texts.{Solution, known};
ghost use Rattle.kc_language.specs.Values as values;
ghost use Rattle.kc_language.specs.Values.{GivenTruth, SymbolPlace, facts, given_of, number_as};
ghost use Rattle.kc_outcome.specs.Explanations as rules;
ghost use Rattle.kc_tree.specs.LineParts as written;
ghost use Rattle.kc_values.specs.User.{given_in};
ghost use Rattle.kc_explain.specs.FactTexts as told;
ghost use Rattle.kc_explain.specs.FactViews.{bounds_by, fact_view, given_by_default};
ghost use Rattle.kc_explain.specs.LineViews.{line_view, said_by};
ghost use Rattle.kc_explain.specs.PartViews.{asked_view, part_view};

use crate::fact::Fact;
use crate::lines::{Line, LineStatement};
use crate::parts::{Asked, ConditionPart};
use crate::teller::Teller;
use itoa::Buffer;
use kc_entries::statement::{Attribute, SymbolDefault, SymbolRange};
use kc_expr::expression::{Expr, Operand, SymId, SymbolType, Tri};
use kc_expr::text::{add_expression, add_operand};
use kc_expr::values::{Values, eval, text as operand_value, tri_text};
use kc_input::shown::{InputLine, ShownValue, add_value, shown_given};
use kc_language::symbols::SelectOrImply;
use kc_solve::solved::Solved;
use kc_text::{read_hex, read_int};
use kc_user::value::UserValue;
use kc_values::table::name;
use kc_values::texts::single_text;
use std::alloc::AllocError;
use std::rc::Rc;

// ---- places

// Appends a number.
fn add_number(number: u64, text: &mut Vec<u8>) -> Result<(), AllocError>
    ensures { OnOk result (text.new.items ≡ text.old.items ++ decimal number) }
{
    let mut buffer = Buffer::new();
    text.extend_from_slice(buffer.format(number).as_bytes())
}

// Appends the name of a file or input file, and a line number.
fn add_place(file: &[u8], number: u64, text: &mut Vec<u8>) -> Result<(), AllocError>
    ensures { OnOk result (text.new.items ≡ text.old.items ++ (file.now ++ codes ":" ++ decimal number ++ codes ": ")) }
{
    text.extend_from_slice(file)?;
    text.extend_from_slice(b":")?;
    add_number(number, text)?;
    text.extend_from_slice(b": ")
}

// Appends the location of a line.
fn add_location(line: Line<'_>, text: &mut Vec<u8>) -> Result<(), AllocError>
    ensures { OnOk result (text.new.items ≡ text.old.items ++ told.location_text (Some (line_view line.entry))) }
{
    add_place(line.file, line.number as u64, text)
}

// Appends the location of a line of an input file, if there is one.
fn add_input_location(at: Option<InputLine<'_>>, text: &mut Vec<u8>) -> Result<(), AllocError>
    ensures { OnOk result (text.new.items ≡ text.old.items ++ rules.input_location (option_map location_of at.entry)) }
{
    match at {
        None => Ok(()),
        Some(at) => add_place(at.file, at.number, text),
    }
}

// ---- values

// The value of a symbol of this type.
fn shown_by<'a>(symbol_type: SymbolType, tri: Tri, text: &'a [u8]) -> ShownValue<'a>
    ensures { given_by result ≡ given_of (value_by_type symbol_type tri text.now) }
{
    match symbol_type {
        SymbolType::Bool | SymbolType::Tristate => ShownValue::Truth(tri),
        SymbolType::Undefined | SymbolType::Str | SymbolType::Int | SymbolType::Hex => {
            ShownValue::Text(text)
        }
    }
}

// A symbol's value.
fn shown_value<'a>(solved: &'a Solved<'_, '_>, id: SymId) -> ShownValue<'a>
    ensures { given_by result ≡ given_of (known solved.now id) }
{
    solved.tells_known();
    shown_by(solved.symbol_type(id), solved.tri(id), solved.text(id))
}

/// Appends a symbol's name.
pub(crate) fn add_name(
    t: &Teller<'_, '_, '_>,
    id: SymId,
    text: &mut Vec<u8>,
) -> Result<(), AllocError>
    ensures { OnOk result (text.new.items ≡ text.old.items ++ values.name t.now.solved.now.tree id) }
{
    text.extend_from_slice(name(t.solved.tree(), id))
}

// Appends a symbol with this value.
fn add_worth(
    t: &Teller<'_, '_, '_>,
    id: SymId,
    shown: ShownValue<'_>,
    text: &mut Vec<u8>,
) -> Result<(), AllocError>
    ensures { OnOk result (text.new.items ≡ text.old.items ++ rules.worth_text t.now.is_raw t.now.solved.now.tree id (given_by shown.entry)) }
{
    add_name(t, id, text)?;
    text.extend_from_slice(b"=")?;
    add_value(t.is_raw, t.solved.symbol_type(id), shown, text)
}

/// Appends a symbol with its value.
pub(crate) fn add_shown(
    t: &Teller<'_, '_, '_>,
    id: SymId,
    text: &mut Vec<u8>,
) -> Result<(), AllocError>
    ensures { OnOk result (text.new.items ≡ text.old.items ++ rules.value_words t.now.input.now t.now.solved.now t.now.is_raw id) }
{
    add_worth(t, id, shown_value(t.solved, id), text)
}

// Appends the truth value at the end of a line.
fn add_ending(value: Tri, text: &mut Vec<u8>) -> Result<(), AllocError>
    ensures { OnOk result (text.new.items ≡ text.old.items ++ rules.ending value) }
{
    text.extend_from_slice(b": ")?;
    text.extend_from_slice(tri_text(value))
}

// ---- expressions

// Appends the text of an expression.
fn add_form(t: &Teller<'_, '_, '_>, e: &Expr, text: &mut Vec<u8>) -> Result<(), AllocError>
    ensures { OnOk result (text.new.items ≡ text.old.items ++ told.form_text t.now.is_raw t.now.solved.now.tree (form_of e.now)) }
{
    add_expression(e, t.solved.tree().names(), text)
}

// Appends the condition of a line, if it has one.
fn add_if(
    t: &Teller<'_, '_, '_>,
    when: &Option<Rc<Expr>>,
    text: &mut Vec<u8>,
) -> Result<(), AllocError>
    ensures { OnOk result (text.new.items ≡ text.old.items ++ told.if_text t.now.is_raw t.now.solved.now.tree (when_view when.now)) }
{
    match when {
        None => Ok(()),
        Some(e) => {
            text.extend_from_slice(b" if ")?;
            add_form(t, e, text)
        }
    }
}

// ---- what the user gave

// The value of the user that counts for a symbol of this type.
fn counting(symbol_type: SymbolType, given: Option<&UserValue>) -> Option<&UserValue>
    ensures { given_in result ≡ rules.counting symbol_type (given_in given.entry) }
{
    match given {
        Some(UserValue::Tri(_)) if is_selectable(symbol_type) => given,
        Some(UserValue::Text(_)) if holds_text(symbol_type) => given,
        _ => None,
    }
}

// Appends the value of the user for a symbol of this type, if there is one.
fn add_counting(
    t: &Teller<'_, '_, '_>,
    symbol_type: SymbolType,
    given: Option<&UserValue>,
    text: &mut Vec<u8>,
) -> Result<(), AllocError>
    ensures { OnOk result (text.new.items ≡ text.old.items ++ told.user_words t.now.is_raw t.now.solved.now.tree symbol_type (given_in given.entry)) }
{
    match given {
        None => text.extend_from_slice(b"no user value"),
        Some(given) => {
            text.extend_from_slice(b"user value ")?;
            add_value(t.is_raw, symbol_type, shown_given(given), text)
        }
    }
}

// Appends what the user gave for a symbol.
fn add_given(
    t: &Teller<'_, '_, '_>,
    symbol: SymId,
    given: Option<&UserValue>,
    text: &mut Vec<u8>,
) -> Result<(), AllocError>
    ensures { OnOk result (text.new.items ≡ text.old.items ++ rules.given_text t.now.is_raw t.now.solved.now.tree (SymbolPlace symbol.0) (given_in given.entry)) }
{
    let symbol_type = t.solved.symbol_type(symbol);
    add_counting(t, symbol_type, counting(symbol_type, given), text)
}

// Appends what the user chose for a choice.
fn add_chosen(
    t: &Teller<'_, '_, '_>,
    member: Option<SymId>,
    text: &mut Vec<u8>,
) -> Result<(), AllocError>
    ensures { OnOk result (text.new.items ≡ text.old.items ++ told.chosen_words t.now.is_raw t.now.solved.now.tree member) }
{
    match member {
        None => text.extend_from_slice(b"no chosen member"),
        Some(member) => {
            text.extend_from_slice(b"chosen member ")?;
            add_name(t, member, text)
        }
    }
}

// The article before the text of a type.
fn article(symbol_type: SymbolType) -> &'static [u8]
    ensures { result.now ≡ rules.article symbol_type }
{
    match symbol_type {
        SymbolType::Int => b"an ",
        SymbolType::Undefined
        | SymbolType::Bool
        | SymbolType::Tristate
        | SymbolType::Str
        | SymbolType::Hex => b"a ",
    }
}

/// The text of a type.
pub(crate) fn type_text(symbol_type: SymbolType) -> &'static [u8]
    ensures { result.now ≡ rules.type_text symbol_type }
{
    match symbol_type {
        SymbolType::Undefined => b"no type",
        SymbolType::Bool => b"bool",
        SymbolType::Tristate => b"tristate",
        SymbolType::Str => b"string",
        SymbolType::Int => b"int",
        SymbolType::Hex => b"hex",
    }
}

// Appends for what type a value is not allowed.
fn add_not_allowed(symbol_type: SymbolType, text: &mut Vec<u8>) -> Result<(), AllocError>
    ensures { OnOk result (text.new.items ≡ text.old.items ++ codes ": not allowed for " ++ rules.article symbol_type ++ rules.type_text symbol_type) }
{
    text.extend_from_slice(b": not allowed for ")?;
    text.extend_from_slice(article(symbol_type))?;
    text.extend_from_slice(type_text(symbol_type))
}

// Appends a value that is not allowed for a symbol of this type.
fn add_refused_value(
    symbol_type: SymbolType,
    value: &[u8],
    text: &mut Vec<u8>,
) -> Result<(), AllocError>
    ensures { OnOk result (text.new.items ≡ text.old.items ++ told.refused_text symbol_type value.now) }
{
    text.extend_from_slice(b"user value ")?;
    text.extend_from_slice(value)?;
    add_not_allowed(symbol_type, text)
}

// Appends a value that is not allowed for a symbol.
fn add_refused(
    t: &Teller<'_, '_, '_>,
    symbol: SymId,
    value: &[u8],
    text: &mut Vec<u8>,
) -> Result<(), AllocError>
    ensures { OnOk result (text.new.items ≡ text.old.items ++ told.refused_words t.now.is_raw t.now.solved.now.tree symbol value.now) }
{
    add_refused_value(t.solved.symbol_type(symbol), value, text)
}

// ---- conditions

// The keyword before the expression of a line.
fn word_of(statement: LineStatement<'_>) -> &'static [u8]
    ensures { result.now ≡ told.word_of (said_by statement.entry) }
{
    match statement {
        LineStatement::Attribute(Attribute::Depends(_)) => b"depends on ",
        LineStatement::Attribute(Attribute::Visible(_)) => b"visible if ",
        _ => b"if ",
    }
}

// Appends the content of a part of a condition.
fn add_asked(
    t: &Teller<'_, '_, '_>,
    part: &ConditionPart<'_>,
    text: &mut Vec<u8>,
) -> Result<(), AllocError>
    ensures { OnOk result (text.new.items ≡ text.old.items
        ++ told.asked_text t.now.is_raw t.now.solved.now.tree (Some (line_view part.now.line)) (asked_view part.now.asks)) }
{
    match part.asks {
        Asked::Worth(e) => {
            text.extend_from_slice(word_of(part.line.statement))?;
            add_form(t, e, text)
        }
        Asked::ModeOf(_) => text.extend_from_slice(b"choice"),
    }
}

// Appends a part of a condition.
fn add_part(
    t: &Teller<'_, '_, '_>,
    part: &ConditionPart<'_>,
    value: Tri,
    text: &mut Vec<u8>,
) -> Result<(), AllocError>
    ensures { OnOk result (text.new.items ≡ text.old.items ++ told.part_words t.now.is_raw t.now.solved.now.tree (part_view part.now) value) }
{
    text.extend_from_slice(b"  ")?;
    add_own_part(t, part, value, text)
}

// Appends a part of a condition without the blanks.
fn add_own_part(
    t: &Teller<'_, '_, '_>,
    part: &ConditionPart<'_>,
    value: Tri,
    text: &mut Vec<u8>,
) -> Result<(), AllocError>
    ensures { OnOk result (text.new.items ≡ text.old.items ++ told.own_part_words t.now.is_raw t.now.solved.now.tree (part_view part.now) value) }
{
    add_location(part.line, text)?;
    add_asked(t, part, text)?;
    add_ending(value, text)
}

// Appends what a line is, and its value.
fn add_line(line: Line<'_>, word: &[u8], value: Tri, text: &mut Vec<u8>) -> Result<(), AllocError>
    ensures { OnOk result (text.new.items ≡ text.old.items ++ told.line_words (Some (line_view line.entry)) word.now value) }
{
    add_location(line, text)?;
    text.extend_from_slice(word)?;
    add_ending(value, text)
}

// Ends a line with its condition and a value.
fn end_line(
    t: &Teller<'_, '_, '_>,
    when: &Option<Rc<Expr>>,
    value: Tri,
    text: &mut Vec<u8>,
) -> Result<(), AllocError>
    ensures { OnOk result (text.new.items ≡ text.old.items
        ++ (told.if_text t.now.is_raw t.now.solved.now.tree (when_view when.now) ++ rules.ending value)) }
{
    add_if(t, when, text)?;
    add_ending(value, text)
}

// ---- defaults

// Appends a default.
fn add_default(
    t: &Teller<'_, '_, '_>,
    line: Line<'_>,
    what: &SymbolDefault,
    value: Tri,
    text: &mut Vec<u8>,
) -> Result<(), AllocError>
    ensures { OnOk result (text.new.items ≡ text.old.items ++ told.default_words t.now.is_raw t.now.solved.now.tree
        (record { line = Some (line_view line.entry); what = written.default_said what.now }) value) }
{
    add_location(line, text)?;
    text.extend_from_slice(b"default ")?;
    add_form(t, &what.value, text)?;
    end_line(t, &what.when, value, text)
}

// Whether a symbol of this type can be selected.
fn is_selectable(symbol_type: SymbolType) -> bool
    ensures { result ≡ is_selectable symbol_type }
{
    matches!(
        symbol_type,
        SymbolType::Undefined | SymbolType::Bool | SymbolType::Tristate
    )
}

// Whether the value of a symbol of this type is a text.
fn holds_text(symbol_type: SymbolType) -> bool
    ensures { result ≡ holds_text symbol_type }
{
    matches!(
        symbol_type,
        SymbolType::Str | SymbolType::Int | SymbolType::Hex
    )
}

// The text of a default that is one operand.
fn text_of<'a>(solved: &'a Solved<'_, '_>, e: &'a Expr) -> &'a [u8]
    ensures { result.now ≡ values.single_text (known solved.now) (form_of e.now) }
{
    solved.tells_known();
    single_text(e, solved)
}

// The truth value of a default.
fn truth_of_form(solved: &Solved<'_, '_>, e: &Expr) -> Tri
    ensures { result ≡ expressions.value (known solved.now) solved.now.tree.modules (form_of e.now) }
{
    solved.tells_known();
    eval(e, solved)
}

// What a default gives a symbol of this type.
fn default_given<'a>(
    solved: &'a Solved<'_, '_>,
    symbol_type: SymbolType,
    e: &'a Expr,
) -> ShownValue<'a>
    ensures { given_by result ≡ rules.default_given solved.now.tree (known solved.now) symbol_type (form_of e.now) }
{
    if holds_text(symbol_type) {
        ShownValue::Text(text_of(solved, e))
    } else {
        ShownValue::Truth(truth_of_form(solved, e))
    }
}

// Appends the value of a default, if it counts.
fn add_default_value(
    t: &Teller<'_, '_, '_>,
    symbol_type: SymbolType,
    what: &SymbolDefault,
    counts: bool,
    text: &mut Vec<u8>,
) -> Result<(), AllocError>
    ensures { OnOk result (text.new.items ≡ text.old.items ++ told.value_words t.now.is_raw t.now.solved.now.tree symbol_type
        (given_by_default t.now.solved.now counts symbol_type (written.default_said what.now))) }
{
    if counts {
        text.extend_from_slice(b", value ")?;
        let given = default_given(t.solved, symbol_type, &what.value);
        add_value(t.is_raw, symbol_type, given, text)
    } else {
        Ok(())
    }
}

// ---- ranges

// Appends a bound as it is written.
fn add_bound(t: &Teller<'_, '_, '_>, o: &Operand, text: &mut Vec<u8>) -> Result<(), AllocError>
    ensures { OnOk result (text.new.items ≡ text.old.items ++ operand_text t.now.solved.now.tree.names (leaf_of o.now)) }
{
    add_operand(o, t.solved.tree().names(), text)
}

/// Appends a range with its location and its own condition. The only error is that memory runs out.
pub(crate) fn add_range_words(
    t: &Teller<'_, '_, '_>,
    line: Line<'_>,
    what: &SymbolRange,
    text: &mut Vec<u8>,
) -> Result<(), AllocError>
    ensures { OnOk result (text.new.items ≡ text.old.items ++ told.plain_range_words t.now.is_raw t.now.solved.now.tree
        (record { line = Some (line_view line.entry); what = written.range_said what.now })) }
{
    add_location(line, text)?;
    text.extend_from_slice(b"range ")?;
    add_bound(t, &what.low, text)?;
    text.extend_from_slice(b" ")?;
    add_bound(t, &what.high, text)?;
    add_if(t, &what.when, text)
}

// Appends a range and the value of its condition.
fn add_range(
    t: &Teller<'_, '_, '_>,
    line: Line<'_>,
    what: &SymbolRange,
    value: Tri,
    text: &mut Vec<u8>,
) -> Result<(), AllocError>
    ensures { OnOk result (text.new.items ≡ text.old.items ++ told.range_words t.now.is_raw t.now.solved.now.tree
        (record { line = Some (line_view line.entry); what = written.range_said what.now }) value) }
{
    add_range_words(t, line, what, text)?;
    add_ending(value, text)
}

// The value of a bound.
fn bound_value<'a>(solved: &'a Solved<'_, '_>, o: &'a Operand) -> &'a [u8]
    ensures { result.now ≡ expressions.text (known solved.now) (leaf_of o.now) }
{
    solved.tells_known();
    operand_value(o, solved)
}

// Whether a text is a number for this type.
fn is_number(symbol_type: SymbolType, text: &[u8]) -> bool
    ensures { result ≡ is_some (number_as symbol_type text.now) }
{
    match symbol_type {
        SymbolType::Int => read_int(text).is_some(),
        SymbolType::Hex => read_hex(text).is_some(),
        _ => false,
    }
}

// The number of a bound as it is written, for a symbol of this type.
fn bound_text(symbol_type: SymbolType, value: &[u8]) -> &[u8]
    ensures { result.now ≡ rules.bound_text symbol_type value.now }
{
    if is_number(symbol_type, value) {
        value
    } else {
        b"0"
    }
}

// Appends the bounds of a range of a symbol of this type, if it counts.
fn add_bounds(
    t: &Teller<'_, '_, '_>,
    symbol_type: SymbolType,
    what: &SymbolRange,
    counts: bool,
    text: &mut Vec<u8>,
) -> Result<(), AllocError>
    ensures { OnOk result (text.new.items ≡ text.old.items ++ told.bounds_words t.now.is_raw t.now.solved.now.tree
        (bounds_by t.now.solved.now counts symbol_type (written.range_said what.now).0)) }
{
    if counts {
        text.extend_from_slice(b", ")?;
        text.extend_from_slice(bound_text(symbol_type, bound_value(t.solved, &what.low)))?;
        text.extend_from_slice(b" to ")?;
        text.extend_from_slice(bound_text(symbol_type, bound_value(t.solved, &what.high)))
    } else {
        Ok(())
    }
}

// ---- lines that select and imply

// What a line that selects or implies does.
fn raised_word(word: SelectOrImply) -> &'static [u8]
    ensures { result.now ≡ rules.raised_word word }
{
    match word {
        SelectOrImply::Select => b"selected",
        SelectOrImply::Imply => b"implied",
    }
}

// Begins the text of a line that selects or implies, in a definition of a symbol with this value.
fn begin_raised(
    t: &Teller<'_, '_, '_>,
    word: SelectOrImply,
    by: SymId,
    by_value: Tri,
    text: &mut Vec<u8>,
) -> Result<(), AllocError>
    ensures { OnOk result (text.new.items ≡ text.old.items
        ++ (rules.raised_word word ++ codes " by " ++ rules.worth_text t.now.is_raw t.now.solved.now.tree by (GivenTruth by_value))) }
{
    text.extend_from_slice(raised_word(word))?;
    text.extend_from_slice(b" by ")?;
    add_worth(t, by, ShownValue::Truth(by_value), text)
}

// Appends how many lines there are, all with the value n.
fn add_count(count: usize, text: &mut Vec<u8>) -> Result<(), AllocError>
    ensures { OnOk result (text.new.items ≡ text.old.items ++ told.count_text count) }
{
    if count == 1 {
        text.extend_from_slice(b": 1 line, n")
    } else {
        text.extend_from_slice(b": ")?;
        add_number(count as u64, text)?;
        text.extend_from_slice(b" lines, all n")
    }
}

// Appends how many lines select or imply up to n.
fn add_not_raised(word: SelectOrImply, count: usize, text: &mut Vec<u8>) -> Result<(), AllocError>
    ensures { OnOk result (text.new.items ≡ text.old.items ++ (codes "not " ++ rules.raised_word word ++ told.count_text count)) }
{
    text.extend_from_slice(b"not ")?;
    text.extend_from_slice(raised_word(word))?;
    add_count(count, text)
}

// Appends the modules symbol with its value.
fn add_modules(
    t: &Teller<'_, '_, '_>,
    modules: SymId,
    value: Tri,
    text: &mut Vec<u8>,
) -> Result<(), AllocError>
    ensures { OnOk result (text.new.items ≡ text.old.items
        ++ (codes "modules " ++ rules.worth_text t.now.is_raw t.now.solved.now.tree modules (GivenTruth value))) }
{
    text.extend_from_slice(b"modules ")?;
    add_worth(t, modules, ShownValue::Truth(value), text)
}

// ---- choices

// Appends a member of a choice with the value of its prompts.
fn add_member(
    t: &Teller<'_, '_, '_>,
    member: SymId,
    value: Tri,
    text: &mut Vec<u8>,
) -> Result<(), AllocError>
    ensures { OnOk result (text.new.items ≡ text.old.items ++ told.member_words t.now.is_raw t.now.solved.now.tree member value) }
{
    text.extend_from_slice(b"member ")?;
    add_name(t, member, text)?;
    add_ending(value, text)
}

// Begins the text of a default of a choice.
fn begin_member_default(
    t: &Teller<'_, '_, '_>,
    line: Line<'_>,
    member: SymId,
    text: &mut Vec<u8>,
) -> Result<(), AllocError>
    ensures { OnOk result (text.new.items ≡ text.old.items
        ++ (told.location_text (Some (line_view line.entry)) ++ codes "default " ++ values.name t.now.solved.now.tree member)) }
{
    add_location(line, text)?;
    text.extend_from_slice(b"default ")?;
    add_name(t, member, text)
}

// Ends it with the value of the member's prompts.
fn end_member_default(prompt: Tri, text: &mut Vec<u8>) -> Result<(), AllocError>
    ensures { OnOk result (text.new.items ≡ text.old.items ++ (codes ", its prompt" ++ rules.ending prompt)) }
{
    text.extend_from_slice(b", its prompt")?;
    add_ending(prompt, text)
}

// ---- facts

// Appends the words of a line that raises, or of a default of a choice.
fn add_raising_words(
    t: &Teller<'_, '_, '_>,
    fact: &Fact<'_>,
    text: &mut Vec<u8>,
) -> Result<(), AllocError>
    ensures { OnOk result (text.new.items ≡ text.old.items
        ++ told.raising_words t.now.is_raw t.now.solved.now.tree (fact_view t.now.solved.now fact.now)) }
{
    match *fact {
        Fact::Raised {
            word,
            by,
            by_value,
            line,
            when,
            value,
        } => {
            add_location(line, text)?;
            begin_raised(t, word, by, by_value, text)?;
            end_line(t, when, value, text)
        }
        Fact::MemberDefault {
            line,
            member,
            when,
            value,
            prompt,
        } => {
            begin_member_default(t, line, member, text)?;
            end_line(t, when, value, text)?;
            end_member_default(prompt, text)
        }
        _ => Ok(()),
    }
}

// Appends the words of a default or range, or of one of those.
fn add_stated_words(
    t: &Teller<'_, '_, '_>,
    fact: &Fact<'_>,
    text: &mut Vec<u8>,
) -> Result<(), AllocError>
    ensures { OnOk result (text.new.items ≡ text.old.items
        ++ told.stated_words t.now.is_raw t.now.solved.now.tree (fact_view t.now.solved.now fact.now)) }
{
    match *fact {
        Fact::Default {
            symbol_type,
            line,
            what,
            value,
            counts,
        } => {
            add_default(t, line, what, value, text)?;
            add_default_value(t, symbol_type, what, counts, text)
        }
        Fact::Range {
            symbol_type,
            line,
            what,
            value,
            counts,
        } => {
            add_range(t, line, what, value, text)?;
            add_bounds(t, symbol_type, what, counts, text)
        }
        _ => add_raising_words(t, fact, text),
    }
}

// Appends the words of a fact.
fn add_words(t: &Teller<'_, '_, '_>, fact: &Fact<'_>, text: &mut Vec<u8>) -> Result<(), AllocError>
    ensures { OnOk result (text.new.items ≡ text.old.items ++ told.words t.now.is_raw t.now.solved.now.tree (fact_view t.now.solved.now fact.now)) }
{
    match *fact {
        Fact::UserGave { symbol, given, .. } => add_given(t, symbol, given, text),
        Fact::Chosen { member, .. } => add_chosen(t, member, text),
        Fact::NotAllowed { symbol, refused } => add_refused(t, symbol, refused.value, text),
        Fact::Part { part, value } => add_part(t, &part, value, text),
        Fact::Dependency { line, value } => add_line(line, b"dependencies", value, text),
        Fact::Prompt { line, value } => add_line(line, b"prompt", value, text),
        Fact::NotRaised { word, count } => add_not_raised(word, count, text),
        Fact::Modules { symbol, value } => add_modules(t, symbol, value, text),
        Fact::Mode { line, value } => add_line(line, b"choice", value, text),
        Fact::Member { symbol, value } => add_member(t, symbol, value, text),
        _ => add_stated_words(t, fact, text),
    }
}

// Appends the location of the line of an input file that a fact has, if it has one.
fn add_input_place(fact: &Fact<'_>, text: &mut Vec<u8>) -> Result<(), AllocError>
    ensures { (solution : Solution) → OnOk result (text.new.items ≡ text.old.items ++ rules.input_location (told.input_place (fact_view solution fact.now))) }
{
    match *fact {
        Fact::UserGave { at, .. } | Fact::Chosen { at, .. } => add_input_location(at, text),
        Fact::NotAllowed { refused, .. } => add_input_location(Some(refused.at), text),
        _ => Ok(()),
    }
}

/// Appends the line of a fact after the lead.
pub(crate) fn add_fact(
    t: &Teller<'_, '_, '_>,
    lead: &[u8],
    fact: &Fact<'_>,
    text: &mut Vec<u8>,
) -> Result<(), AllocError>
    ensures { OnOk result (text.new.items ≡ text.old.items
        ++ told.fact_text t.now.is_raw t.now.solved.now.tree lead.now (fact_view t.now.solved.now fact.now)) }
{
    text.extend_from_slice(lead)?;
    text.extend_from_slice(b"  ")?;
    add_input_place(fact, text)?;
    add_words(t, fact, text)?;
    text.extend_from_slice(b"\n")
}

// Appends the words of a fact; those of a part of a condition without the blanks.
fn add_fixed_words(
    t: &Teller<'_, '_, '_>,
    fact: &Fact<'_>,
    text: &mut Vec<u8>,
) -> Result<(), AllocError>
    ensures { OnOk result (text.new.items ≡ text.old.items ++ told.fixed_words t.now.is_raw t.now.solved.now.tree (fact_view t.now.solved.now fact.now)) }
{
    match *fact {
        Fact::Part { part, value } => add_own_part(t, &part, value, text),
        _ => add_words(t, fact, text),
    }
}

/// Appends the line of a fact that no line can change after the lead.
pub(crate) fn add_fixed_fact(
    t: &Teller<'_, '_, '_>,
    lead: &[u8],
    fact: &Fact<'_>,
    text: &mut Vec<u8>,
) -> Result<(), AllocError>
    ensures { OnOk result (text.new.items ≡ text.old.items
        ++ told.fixed_text t.now.is_raw t.now.solved.now.tree lead.now (fact_view t.now.solved.now fact.now)) }
{
    text.extend_from_slice(lead)?;
    add_fixed_words(t, fact, text)?;
    text.extend_from_slice(b"\n")
}
