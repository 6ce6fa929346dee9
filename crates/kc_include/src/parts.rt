//! The parts of a text between the lines that include files.
ghost use Rattle.std.specs.Prelude.{◌≡◌, ◌<◌, ◌≤◌, ◌+◌, ◌-◌, ◌++◌, ◌∷◌, [], drop, length, map, IfOk, OnOk};
ghost use Rattle.kc_include.specs.Included as spec;
ghost use Rattle.kc_include.specs.NameView.{name_of};
ghost use Rattle.kc_include.specs.PartView.{part_of, BeginsWithLine, IsCut};

use crate::line::{IncludedName, included_name};
use bstr::ByteSlice;
use std::alloc::{AllocError, Global};

/// A part of a text.
#[derive(Clone, Copy, Debug, PartialEq, Eq)]
pub enum Part<'t> {
    /// Lines in a row: the number of lines before them, and their bytes.
    Lines(usize, &'t [u8]),
    /// The name of an included file.
    Include(IncludedName<'t>),
}

// The first line without its line end, and its number of bytes with it.
fn first_line(rest: &[u8]) -> (&[u8], usize)
    requires { 0 < length rest.now }
    ensures line { BeginsWithLine rest.now result.0.now result.1 }
    ensures some { 0 < result.1 }
    ensures within { result.1 ≤ length rest.now }
{
    match rest.find_byte(b'\n') {
        Some(count) => (&rest[..count], count + 1),
        None => (rest, rest.len()),
    }
}

// The parts so far, the start of the current lines, and the number of lines before these.
#[derive(Drop)]
struct Cut<'t> {
    parts: Vec<Part<'t>>,
    start: usize,
    first: usize,
}

// Adds the current lines, and then the name of an included file.
fn add_include<'t>(
    first: usize,
    lines: &'t [u8],
    name: IncludedName<'t>,
    parts: &mut Vec<Part<'t>>,
) -> Result<(), AllocError>
    ensures { OnOk result (map part_of parts.new.items ≡ map part_of parts.old.items ++ spec.Lines first lines.now ∷ spec.Includes (name_of name.entry) ∷ []) }
{
    parts.push(Part::Lines(first, lines))?;
    parts.push(Part::Include(name))?;
    Ok(())
}

// Processes the line between these two positions, after this many lines.
fn cut_line<'t>(
    text: &'t [u8],
    line: &'t [u8],
    at: usize,
    after: usize,
    number: usize,
    cut: &mut Cut<'t>,
) -> Result<(), AllocError>
    requires from { at ≤ after }
    requires to { after ≤ length text.now }
    requires line { BeginsWithLine (drop at text.now) line.now (after - at) }
    requires counted { number ≤ at }
    requires so_far { IsCut text.now (map part_of cut.old.parts.items) cut.old.start cut.old.first at number }
    ensures { OnOk result (IsCut text.now (map part_of cut.new.parts.items) cut.new.start cut.new.first after (number + 1)) }
{
    match included_name(line) {
        None => Ok(()),
        Some(name) => {
            add_include(cut.first, &text[cut.start..at], name, &mut cut.parts)?;
            cut.start = after;
            cut.first = number + 1;
            Ok(())
        }
    }
}

/// Returns the parts of a text: its lines between the lines that include files, which belong to no part, and the names
/// of these files. Before and after each such name there is a part of lines, which may be empty. (Our own.)
///
/// # Errors
///
/// Fails if there is not enough memory.
pub fn parts_of<'t>(alloc: Global, text: &'t [u8]) -> Result<Vec<Part<'t>>, AllocError>
    ensures { IfOk result (λ parts. map part_of parts.items ≡ spec.parts_of text.now) }
{
    let mut cut = Cut {
        parts: Vec::new(alloc),
        start: 0,
        first: 0,
    };
    let mut at = 0;
    let mut number = 0;
    'lines: while at < text.len() {
        let (line, whole) = first_line(&text[at..]);
        let after = at + whole;
        cut_line(text, line, at, after, number, &mut cut)?;
        at = after;
        number += 1;
    }
    let last = Part::Lines(cut.first, &text[cut.start..]);
    cut.parts.push(last)?;
    Ok(cut.parts)
}
