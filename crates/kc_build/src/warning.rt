//! A warning about a tree, and its line.

ghost use Rattle.std.specs.Prelude.{◌≡◌, IfOk};
ghost use Rattle.kc_diagnostics.specs.Warnings.{shown_warning};
ghost use Rattle.kc_language.specs.Symbols.{name_by};
ghost use Rattle.kc_language.specs.Symbols as spec;
ghost use Rattle.kc_entries.specs.PartsOfSymbols as spec_parts;

use kc_diagnostics::{Warning, add_located};
use kc_expr::expression::SymId;
use kc_expr::names::Names;
pub(crate) use kc_language::symbols::LineWarning;
use kc_language::symbols::SelectOrImply;
use std::alloc::{AllocError, Global};

/// The location of a line: its file and its number.
#[derive(Clone, Copy, Debug)]
pub(crate) struct Place<'a> {
    pub file: &'a [u8],
    pub line: u32,
}

// The name of a symbol.
fn name_of(names: &Names, symbol: SymId) -> &[u8]
    ensures { result.now ≡ name_by names.now symbol }
{
    match names.get(symbol) {
        Some(name) => name,
        None => b"",
    }
}

/// The name of the symbol of an entry, or `choice`.
pub(crate) fn entry_name(names: &Names, symbol: Option<SymId>) -> &[u8]
    ensures { result.now ≡ spec.entry_name names.now symbol }
{
    match symbol {
        Some(s) => name_of(names, s),
        None => b"choice",
    }
}

// The keyword of the line.
fn keyword_text<'a>(word: SelectOrImply) -> &'a [u8]
    ensures { result.now ≡ spec.keyword_text word }
{
    match word {
        SelectOrImply::Select => b"select",
        SelectOrImply::Imply => b"imply",
    }
}

// The warning, with the names of its symbols.
fn named<'n>(names: &'n Names, warning: LineWarning) -> Warning<&'n [u8]>
    ensures { shown_warning result ≡ spec.named names.now warning }
{
    match warning {
        LineWarning::TypeRedefined(s) => Warning::TypeRedefined(name_of(names, s)),
        LineWarning::PromptRedefined(s) => Warning::PromptRedefined(entry_name(names, s)),
        LineWarning::WithoutType(s) => Warning::WithoutType(name_of(names, s)),
        LineWarning::TextTarget(s, word) => Warning::TextTarget {
            name: name_of(names, s),
            word: keyword_text(word),
        },
        LineWarning::DefaultNotMember(s) => Warning::DefaultNotMember(name_of(names, s)),
        LineWarning::MemberTarget(s, word) => Warning::MemberTarget {
            name: name_of(names, s),
            word: keyword_text(word),
        },
    }
}

/// The whole line of a warning about a line at this location.
pub(crate) fn line_of(
    alloc: Global,
    names: &Names,
    place: Place<'_>,
    warning: LineWarning,
) -> Result<Vec<u8>, AllocError>
    ensures { IfOk result (λ v. v.items ≡ spec_parts.line_of names.now place.entry.file.now place.entry.line warning) }
{
    let mut line = Vec::new(alloc);
    add_located(
        place.file,
        u64::from(place.line),
        named(names, warning),
        &mut line,
    )?;
    Ok(line)
}
