//! Diagnostics as they are printed: with hints, and without warnings about the tree.

ghost use Rattle.std.specs.Prelude.{◌≡◌, ◌≤◌, ◌++◌, IfOk, IfSome, OnOk, drop, length};
ghost use Rattle.kc_display.specs.Hints.{all_codes, code_among, coded_line, first_code, hint_line, shown_line, shown_text};

use crate::code::{CODES, Code};
use crate::edits::lines_of;
use std::alloc::{AllocError, Global};

/// How diagnostics are printed.
#[derive(Clone, Copy, Debug, PartialEq, Eq)]
pub struct Showing {
    /// Whether the warnings about the tree are left out.
    pub quiet_tree: bool,
    /// Whether a hint follows each warning and error.
    pub hints: bool,
    /// Whether the difference of each stale file follows its error.
    pub differences: bool,
}

impl Showing {
    /// Diagnostics are printed unchanged.
    pub const PLAIN: Showing = Showing {
        quiet_tree: false,
        hints: false,
        differences: false,
    };
}

// The first of these codes with which the text starts.
fn code_among(codes: &[Code], text: &[u8]) -> Option<Code>
    ensures { result ≡ code_among codes.now text.now }
{
    for code in codes {
        if text.starts_with(code.text().as_bytes()) {
            return Some(*code);
        }
    }
    None
}

// The code with which a text starts.
fn code_at(text: &[u8]) -> Option<Code>
    ensures { result ≡ code_among all_codes text.now }
{
    code_among(&CODES, text)
}

// The rest of the line after the first bytes.
#[tactic(auto, using(std::proofs::lemmas::List::take_rest))]
fn after(line: &[u8], count: usize) -> &[u8]
    requires { count ≤ length line.now }
    ensures { result.now ≡ drop count line.now }
{
    &line[count..]
}

/// Returns the first code of a line, and its position (our own). A line of an explanation has none: it starts with a
/// blank, or two more blanks follow its configuration, a colon and a blank.
pub fn find_code(line: &[u8]) -> Option<(usize, Code)>
    ensures is { result ≡ first_code line.now }
    ensures within { IfSome result (λ found. found.0 ≤ length line.now) }
{
    if line.starts_with(b" ") {
        return None;
    }
    for i in 0..line.len() {
        let rest = after(line, i);
        if rest.starts_with(b":   ") {
            return None;
        }
        if let Some(code) = code_at(rest) {
            return Some((i, code));
        }
    }
    None
}

// Adds the hint of a code.
fn add_hint(
    before: &[u8],
    reason: &str,
    fact: &[u8],
    code: Code,
    text: &mut Vec<u8>,
) -> Result<(), AllocError>
    ensures { OnOk result (text.new.items ≡ text.old.items ++ hint_line before.now (reason.now ++ fact.now) code) }
{
    text.extend_from_slice(b"  ")?;
    text.extend_from_slice(before)?;
    text.extend_from_slice(b"hint: ")?;
    text.extend_from_slice(reason.as_bytes())?;
    text.extend_from_slice(fact)?;
    text.extend_from_slice(code.hint().as_bytes())?;
    text.push(b'\n')?;
    Ok(())
}

// Adds a line unchanged.
fn add_plain(line: &[u8], text: &mut Vec<u8>) -> Result<(), AllocError>
    ensures { OnOk result (text.new.items ≡ text.old.items ++ line.now) }
{
    text.extend_from_slice(line)?;
    Ok(())
}

// Adds a line that has this code at this position.
fn add_coded(
    showing: Showing,
    reason: &str,
    fact: &[u8],
    line: &[u8],
    place: usize,
    code: Code,
    text: &mut Vec<u8>,
) -> Result<(), AllocError>
    requires { place ≤ length line.now }
    ensures { OnOk result (text.new.items ≡ text.old.items ++ coded_line showing reason.now fact.now line.now place code) }
{
    if showing.quiet_tree && code.is_about_tree() {
        return Ok(());
    }
    add_plain(line, text)?;
    if showing.hints {
        let reason = if code.names_reason() { reason } else { "" };
        add_hint(&line[..place], reason, fact, code, text)?;
    }
    Ok(())
}

/// Adds a line as it is printed (our own). `reason` is that of [`shown`]. `fact` is the fact about the tree or the
/// input files in its hint, with its separator, or is empty.
///
/// Fails only if there is not enough memory.
pub fn add_shown(
    showing: Showing,
    reason: &str,
    fact: &[u8],
    line: &[u8],
    text: &mut Vec<u8>,
) -> Result<(), AllocError>
    ensures { OnOk result (text.new.items ≡ text.old.items ++ shown_line showing reason.now fact.now line.now) }
{
    match find_code(line) {
        Some((place, code)) => add_coded(showing, reason, fact, line, place, code, text),
        None => add_plain(line, text),
    }
}

/// Returns diagnostics as they are printed (our own). `reason` is the system's reason for the last failure, followed by
/// a semicolon and a blank, or is empty.
///
/// Takes time and memory linear in the text. Fails only if there is not enough memory.
pub fn shown(
    alloc: Global,
    showing: Showing,
    reason: &str,
    text: &[u8],
) -> Result<Vec<u8>, AllocError>
    ensures { IfOk result (λ shown. shown.items ≡ shown_text showing reason.now text.now) }
{
    let found = lines_of(alloc, text)?;
    let mut shown = Vec::new(alloc);
    for line in &found {
        add_shown(showing, reason, b"", line, &mut shown)?;
    }
    Ok(shown)
}
