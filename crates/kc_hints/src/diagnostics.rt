//! Diagnostics with hints that start with facts.
ghost use Rattle.std.specs.List.{list_any};
ghost use Rattle.std.specs.Prelude.{◌≡◌, ◌∷◌, ◌++◌, [], IfOk, None, OnOk, option_map};
ghost use Rattle.kc_display.specs.Difference.{lines};
ghost use Rattle.kc_hints.specs.Facts.{fact_of, file_needed, hinted_line, hinted_text, is_first, is_outside, is_outside_code, may_have_fact, may_wait, needs_line, place_in, refused_file, without_end};

use crate::facts::Facts;
use crate::place::place_in;
use kc_display::{Code, Showing, add_shown, find_code, lines_of};
use std::alloc::{AllocError, Global};

// A line without its line feed.
fn without_end(line: &[u8]) -> &[u8]
    ensures { result.now ≡ without_end line.now }
{
    match line.strip_suffix(b"\n") {
        Some(text) => text,
        None => line,
    }
}

// The fact at the start of a line's hint.
fn fact_of(alloc: Global, facts: &Facts<'_>, line: &[u8]) -> Result<Vec<u8>, AllocError>
    ensures { IfOk result (λ fact. fact.items ≡ fact_of facts.now line.now) }
{
    match find_code(line) {
        Some((place, code)) => facts.of(alloc, code, &line[..place], without_end(&line[place..])),
        None => Ok(Vec::new(alloc)),
    }
}

// Adds a line in its printed form.
fn add_hinted(
    alloc: Global,
    showing: Showing,
    reason: &str,
    facts: &Facts<'_>,
    line: &[u8],
    text: &mut Vec<u8>,
) -> Result<(), AllocError>
    ensures { OnOk result (text.new.items ≡ text.old.items ++ hinted_line showing reason.now facts.now line.now) }
{
    let fact = fact_of(alloc, facts, line)?;
    add_shown(showing, reason, &fact, line, text)
}

/// Returns diagnostics in their printed form, with hints that start with facts (our own). `reason` is that of `shown`
/// of kc_display.
///
/// Takes time linear in the text, and for each name that it searches also linear in the tree. Fails only if there is
/// not enough memory.
pub fn hinted(
    alloc: Global,
    showing: Showing,
    reason: &str,
    facts: &Facts<'_>,
    text: &[u8],
) -> Result<Vec<u8>, AllocError>
    ensures { IfOk result (λ shown. shown.items ≡ hinted_text showing reason.now facts.now text.now) }
{
    let found = lines_of(alloc, text)?;
    let mut shown = Vec::new(alloc);
    for line in &found {
        add_hinted(alloc, showing, reason, facts, line, &mut shown)?;
    }
    Ok(shown)
}

// Whether the text before a diagnostic is the first line of a file.
fn is_first(before: &[u8]) -> bool
    ensures { result ≡ is_first before.now }
{
    match place_in(before) {
        Some((_, number)) => number == 1,
        None => false,
    }
}

// Whether the hint of a code may start with a fact.
fn may_wait(code: Code, before: &[u8]) -> bool
    ensures { result ≡ may_wait code before.now }
{
    match code {
        Code::UnknownSymbol
        | Code::BadValue
        | Code::OutsideRange
        | Code::UnknownName
        | Code::Syntax
        | Code::Misplaced => true,
        Code::BadLine | Code::BadToken => is_first(before),
        _ => false,
    }
}

// Whether the hint of a line may start with a fact.
fn may_have_fact(line: &[u8]) -> bool
    ensures { result ≡ may_have_fact line.now }
{
    match find_code(line) {
        Some((place, code)) => may_wait(code, &line[..place]),
        None => false,
    }
}

// Whether the hint of one of these lines may start with a fact.
fn may_some_have_fact(lines: &[&[u8]]) -> bool
    ensures { result ≡ list_any (λ line. may_have_fact line.now) lines.now }
{
    lines.iter().any(|line| may_have_fact(line))
}

/// Returns whether a hint of these diagnostics may start with a fact (our own). Fails only if there is not enough
/// memory.
pub fn waits(alloc: Global, text: &[u8]) -> Result<bool, AllocError>
    ensures { IfOk result (λ waits. waits ≡ list_any may_have_fact (lines text.now)) }
{
    let found = lines_of(alloc, text)?;
    Ok(may_some_have_fact(&found))
}

// Whether this is the code for a value outside its range.
fn is_outside_code(code: Code) -> bool
    ensures { result ≡ is_outside_code code }
{
    matches!(code, Code::OutsideRange)
}

// Whether a line reports a value outside its range.
fn is_outside(line: &[u8]) -> bool
    ensures { result ≡ is_outside line.now }
{
    match find_code(line) {
        Some((_, code)) => is_outside_code(code),
        None => false,
    }
}

// Whether one of these lines does.
fn is_some_outside(lines: &[&[u8]]) -> bool
    ensures { result ≡ list_any (λ line. is_outside line.now) lines.now }
{
    lines.iter().any(|line| is_outside(line))
}

/// Returns whether one of these diagnostics reports a value outside its range, K12 (our own). Fails only if there is
/// not enough memory.
pub fn tells_range(alloc: Global, text: &[u8]) -> Result<bool, AllocError>
    ensures { IfOk result (λ tells. tells ≡ list_any is_outside (lines text.now)) }
{
    let found = lines_of(alloc, text)?;
    Ok(is_some_outside(&found))
}

// Whether a hint of this code describes the line of this number in a file of the tree.
fn needs_line(code: Code, number: usize) -> bool
    ensures { result ≡ needs_line code number }
{
    match code {
        Code::Syntax | Code::Misplaced => true,
        Code::BadToken => number == 1,
        _ => false,
    }
}

// The file of a location, if a hint of this code describes its line.
fn file_needed(code: Code, before: &[u8]) -> Option<&[u8]>
    ensures { option_map (λ file. file.now) result ≡ file_needed code (place_in before.now) }
{
    match place_in(before) {
        Some((file, number)) if needs_line(code, number) => Some(file),
        _ => None,
    }
}

// The file of the tree in a line, if a hint describes the refused line.
fn refused_file(line: &[u8]) -> Option<&[u8]>
    ensures { option_map (λ file. file.now) result ≡ refused_file line.now }
{
    match find_code(line) {
        Some((place, code)) => file_needed(code, &line[..place]),
        None => None,
    }
}

/// Returns the file of the tree with the refused line, if these diagnostics start with its error and a hint describes
/// the line: its required form (E8), where it may be (E10), or that the file starts with a byte order mark (E5 in its
/// first line). (Our own.) Fails only if there is not enough memory.
pub fn refused_in(alloc: Global, text: &[u8]) -> Result<Option<&[u8]>, AllocError>
    ensures { IfOk result (λ file. option_map (λ file. file.now) file ≡ elim (lines text.now) [ [] ↦ None | line ∷ more ↦ refused_file line ]) }
{
    let found = lines_of(alloc, text)?;
    match found.first() {
        Some(line) => Ok(refused_file(line)),
        None => Ok(None),
    }
}
