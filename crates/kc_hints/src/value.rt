//! The value of a line of an input file.
ghost use Rattle.std.specs.List.{starts_with};
ghost use Rattle.std.specs.Prelude.{◌≡◌, ◌≤◌, ◌++◌, IfOk, OnOk, find, length, nat_eq, option_map, take};
ghost use Rattle.std.specs.Str.Lines.{strip_carriage_return};
ghost use Rattle.kc_language.specs.ConfigFile.{meaning_of};
ghost use Rattle.kc_hints.specs.FormView.{form_view};
ghost use Rattle.kc_hints.specs.Facts.{input_at, is_marked, line_at, line_form, mark, names_file, part_at, shown_value, type_word, value_at, value_of, value_text};

use crate::facts::Input;
use crate::form::{Form, form_of};
use crate::place::{names_file, place_in};
use kc_expr::expression::SymbolType;
use kc_input::line::{ConfigFileLine, parse_config_file_line};
use kc_user::value::LONGEST_VALUE;
use std::alloc::{AllocError, Global};

/// The maximum number of bytes of a value in a hint.
const MOST_SHOWN: usize = 40;

/// The UTF-8 byte order mark.
const MARK: &[u8] = b"\xEF\xBB\xBF";

// The first file that a location names.
fn input_named<'i>(inputs: &'i [Input], file: &[u8]) -> Option<&'i Input>
    ensures { option_map (λ input. input.now) result ≡ find (λ input. names_file file.now input.name.items) inputs.now }
{
    inputs.iter().find(|input| names_file(file, &input.name))
}

/// Returns the file at the location before a diagnostic, with the number of the line.
pub(crate) fn input_at<'i>(inputs: &'i [Input], before: &[u8]) -> Option<(&'i Input, usize)>
    ensures { option_map (λ found. (found.0.now, found.1)) result ≡ input_at inputs.now before.now }
{
    let (file, number) = place_in(before)?;
    match input_named(inputs, file) {
        Some(input) => Some((input, number)),
        None => None,
    }
}

// A line without its trailing carriage return.
fn without_return(line: &[u8]) -> &[u8]
    ensures { result.now ≡ strip_carriage_return line.now }
{
    match line.strip_suffix(b"\r") {
        Some(text) => text,
        None => line,
    }
}

/// The n-th part of a text that is separated by these bytes, counted from 0.
pub(crate) fn part_at(text: &[u8], separator: u8, n: usize) -> Option<&[u8]>
    ensures { option_map (λ part. part.now) result ≡ part_at text.now separator n }
{
    text.split(|b| *b == separator).nth(n)
}

// The line of this number in a text, counted from 1.
fn line_at(bytes: &[u8], number: usize) -> Option<&[u8]>
    ensures { option_map (λ line. line.now) result ≡ line_at bytes.now number }
{
    part_at(bytes, b'\n', number.saturating_sub(1))
}

// The value that a line gives.
fn value_in<'l>(prefix: &[u8], line: &'l [u8]) -> Option<&'l [u8]>
    ensures { option_map (λ value. value.now) result ≡ value_of (meaning_of prefix.now (strip_carriage_return line.now)) }
{
    match parse_config_file_line(prefix, without_return(line)) {
        ConfigFileLine::Set(_, value) => Some(value),
        ConfigFileLine::Nothing | ConfigFileLine::Unset(_) | ConfigFileLine::Malformed => None,
    }
}

/// Returns the value of the line at the location before a diagnostic.
pub(crate) fn value_at<'i>(prefix: &[u8], inputs: &'i [Input], before: &[u8]) -> Option<&'i [u8]>
    ensures { option_map (λ value. value.now) result ≡ value_at prefix.now inputs.now before.now }
{
    let (input, number) = input_at(inputs, before)?;
    value_in(prefix, line_at(&input.bytes, number)?)
}

/// Returns the form of the line at the location before a diagnostic.
pub(crate) fn line_form(inputs: &[Input], before: &[u8]) -> Option<Form>
    ensures { option_map form_view result ≡ line_form inputs.now before.now }
{
    let (input, number) = input_at(inputs, before)?;
    form_of(line_at(&input.bytes, number)?)
}

// Whether the bytes start with the mark.
fn begins_with_mark(bytes: &[u8]) -> bool
    ensures { result ≡ starts_with nat_eq bytes.now mark }
{
    bytes.starts_with(MARK)
}

/// Whether the location before a diagnostic is the first line of a file that starts with a byte order mark.
pub(crate) fn is_marked(inputs: &[Input], before: &[u8]) -> bool
    ensures { result ≡ is_marked inputs.now before.now }
{
    match input_at(inputs, before) {
        Some((input, number)) => number == 1 && begins_with_mark(&input.bytes),
        None => false,
    }
}

// The word of a type.
fn type_word(symbol_type: SymbolType) -> &'static [u8]
    ensures { result.now ≡ type_word symbol_type }
{
    match symbol_type {
        SymbolType::Undefined => b"symbol",
        SymbolType::Bool => b"bool",
        SymbolType::Tristate => b"tristate",
        SymbolType::Str => b"string",
        SymbolType::Int => b"int",
        SymbolType::Hex => b"hex",
    }
}

// The first bytes.
fn start_of(value: &[u8], count: usize) -> &[u8]
    requires { count ≤ length value.now }
    ensures { result.now ≡ take count value.now }
{
    &value[..count]
}

// Adds a value as hints show it.
fn add_value(value: &[u8], text: &mut Vec<u8>) -> Result<(), AllocError>
    ensures { OnOk result (text.new.items ≡ text.old.items ++ shown_value value.now) }
{
    if value.is_empty() {
        return text.extend_from_slice(b"an empty value");
    }
    if value.len() <= MOST_SHOWN {
        return text.extend_from_slice(value);
    }
    text.extend_from_slice(start_of(value, MOST_SHOWN))?;
    text.extend_from_slice(b"..")
}

/// Returns the text about a value that a symbol of this type and name does not accept.
pub(crate) fn value_text(
    alloc: Global,
    symbol_type: SymbolType,
    name: &[u8],
    value: &[u8],
) -> Result<Vec<u8>, AllocError>
    ensures { IfOk result (λ text. text.items ≡ value_text symbol_type name.now value.now) }
{
    let mut text = Vec::new(alloc);
    if value.len() > LONGEST_VALUE {
        text.extend_from_slice(b"the value has more than 65000 bytes; ")?;
        return Ok(text);
    }
    add_value(value, &mut text)?;
    text.extend_from_slice(b" is not a value of the ")?;
    text.extend_from_slice(type_word(symbol_type))?;
    text.extend_from_slice(b" ")?;
    text.extend_from_slice(name)?;
    text.extend_from_slice(b"; ")?;
    Ok(text)
}
