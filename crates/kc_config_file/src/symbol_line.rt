//! A symbol's value, and the line that shows it.
ghost use Rattle.std.specs.Prelude.{◌≡◌, ◌<◌, ◌++◌, length, OnOk, OnErr, codes, flat_map};
ghost use Rattle.kc_language.specs.Texts.{config_file_line, has_value, header_line, new_line, solution_view};
ghost use Rattle.kc_input.specs.PartsOfConfigFile.{between_quotes};
ghost use Rattle.kc_config_file.specs.PartsOfTexts.{hex_text};
ghost use Rattle.kc_config_file.specs.KnownValue.{value_view};

use kc_expr::expression::{SymId, SymbolType, Tri};
use kc_expr::values::Values;
use kc_input::prefix::Prefix;
use kc_input::text::{add_between_quotes, add_parts};
use kc_solve::solved::Solved;
use kc_text::{has_hex_prefix, read_hex, read_int};
use std::alloc::AllocError;

/// The value of a symbol: a truth value for a bool or tristate, otherwise a text with its type.
#[derive(Clone, Copy, Debug, PartialEq, Eq)]
pub(crate) enum WrittenValue<'a> {
    Truth(Tri),
    TextValue(SymbolType, &'a [u8]),
}

/// The value of a symbol in the solution; for an undefined name, its own text. Reads only what the type has.
#[inline(always)]
pub(crate) fn symbol_value<'a>(solved: &'a Solved<'_, '_>, id: SymId) -> WrittenValue<'a>
    ensures { value_view result ≡ (solution_view solved.now).value id }
{
    solved.tells_known();
    match solved.symbol_type(id) {
        SymbolType::Bool => WrittenValue::Truth(solved.tri(id)),
        SymbolType::Tristate => WrittenValue::Truth(solved.tri(id)),
        SymbolType::Undefined => WrittenValue::TextValue(SymbolType::Undefined, solved.text(id)),
        SymbolType::Str => WrittenValue::TextValue(SymbolType::Str, solved.text(id)),
        SymbolType::Int => WrittenValue::TextValue(SymbolType::Int, solved.text(id)),
        SymbolType::Hex => WrittenValue::TextValue(SymbolType::Hex, solved.text(id)),
    }
}

// Adds the parts before a string, with its first quote, then the string and its line end.
fn add_string_line(
    before: &[&[u8]],
    is_raw: bool,
    text: &[u8],
    file: &mut Vec<u8>,
) -> Result<(), AllocError>
    ensures { OnOk result (file.new.items ≡ file.old.items ++ flat_map (λ part. part.now) before.now ++ between_quotes is_raw text.now ++ codes "\"\n") }
{
    add_parts(before, file)?;
    add_between_quotes(is_raw, text, file)?;
    file.extend_from_slice(b"\"\n")
}

// What a header adds before a hex number.
fn before_hex<'a>(text: &'a [u8]) -> &'a [u8]
    ensures { result.now ++ text.now ≡ hex_text text.now }
{
    if has_hex_prefix(text) { b"" } else { b"0x" }
}

/// Adds the symbol's line of a `.config`. Fails only if there is not enough memory, and never for an empty line.
pub(crate) fn add_config_file_line<'a>(
    prefix: &'a Prefix,
    name: &'a [u8],
    value: WrittenValue<'a>,
    file: &mut Vec<u8>,
) -> Result<(), AllocError>
    ensures line { OnOk result (file.new.items ≡ file.old.items ++ config_file_line prefix.now.is_raw (prefix.now.prefix ++ name.now) (value_view value.entry)) }
    ensures some { OnErr result (0 < length (config_file_line prefix.now.is_raw (prefix.now.prefix ++ name.now) (value_view value.entry))) }
{
    let is_raw = prefix.is_raw();
    let prefix = prefix.as_bytes();
    match value {
        WrittenValue::Truth(Tri::N) => add_parts(&[b"# ", prefix, name, b" is not set\n"], file),
        WrittenValue::Truth(Tri::M) => add_parts(&[prefix, name, b"=m\n"], file),
        WrittenValue::Truth(Tri::Y) => add_parts(&[prefix, name, b"=y\n"], file),
        WrittenValue::TextValue(SymbolType::Str, text) => add_string_line(
            &[prefix, name, b"=\""],
            is_raw,
            text,
            file,
        ),
        WrittenValue::TextValue(SymbolType::Int, text) => add_parts(
            &[prefix, name, b"=", text, b"\n"],
            file,
        ),
        WrittenValue::TextValue(SymbolType::Hex, text) => add_parts(
            &[prefix, name, b"=", text, b"\n"],
            file,
        ),
        WrittenValue::TextValue(
            SymbolType::Undefined | SymbolType::Bool | SymbolType::Tristate,
            _,
        ) => Ok(()),
    }
}

// Whether a line can give this value: an int or hex must be a number.
fn has_value(value: WrittenValue<'_>) -> bool
    ensures { result ≡ has_value (value_view value.entry) }
{
    match value {
        WrittenValue::TextValue(SymbolType::Int, text) => read_int(text).is_some(),
        WrittenValue::TextValue(SymbolType::Hex, text) => read_hex(text).is_some(),
        _ => true,
    }
}

/// Adds the symbol's line of the list of new symbols: its `.config` line, or a comment if a line cannot give its value.
pub(crate) fn add_line_of_new<'a>(
    prefix: &'a Prefix,
    name: &'a [u8],
    value: WrittenValue<'a>,
    file: &mut Vec<u8>,
) -> Result<(), AllocError>
    ensures { OnOk result (file.new.items ≡ file.old.items ++ new_line prefix.now.is_raw (prefix.now.prefix ++ name.now) (value_view value.entry)) }
{
    if has_value(value) {
        add_config_file_line(prefix, name, value, file)
    } else {
        add_parts(&[b"# ", prefix.as_bytes(), name, b" has no value\n"], file)
    }
}

/// Adds the symbol's line of a header, if it has one.
pub(crate) fn add_header_line<'a>(
    prefix: &'a Prefix,
    name: &'a [u8],
    value: WrittenValue<'a>,
    file: &mut Vec<u8>,
) -> Result<(), AllocError>
    ensures { OnOk result (file.new.items ≡ file.old.items ++ header_line prefix.now.is_raw (prefix.now.prefix ++ name.now) (value_view value.entry)) }
{
    let is_raw = prefix.is_raw();
    let prefix = prefix.as_bytes();
    match value {
        WrittenValue::Truth(Tri::N) => Ok(()),
        WrittenValue::Truth(Tri::M) => add_parts(
            &[b"#define ", prefix, name, b"_MODULE 1\n"],
            file,
        ),
        WrittenValue::Truth(Tri::Y) => add_parts(&[b"#define ", prefix, name, b" 1\n"], file),
        WrittenValue::TextValue(SymbolType::Str, text) => {
            add_string_line(&[b"#define ", prefix, name, b" \""], is_raw, text, file)
        }
        WrittenValue::TextValue(SymbolType::Int, text) => {
            add_parts(&[b"#define ", prefix, name, b" ", text, b"\n"], file)
        }
        WrittenValue::TextValue(SymbolType::Hex, text) => add_parts(
            &[
                b"#define ",
                prefix,
                name,
                b" ",
                before_hex(text),
                text,
                b"\n",
            ],
            file,
        ),
        WrittenValue::TextValue(
            SymbolType::Undefined | SymbolType::Bool | SymbolType::Tristate,
            _,
        ) => Ok(()),
    }
}
