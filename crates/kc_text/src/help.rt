//! The lines of a help text.
ghost use Rattle.std.specs.Prelude.{◌≡◌, ◌<◌, ◌≤◌, ◌∷◌, ℕ, List, ◌++◌, ◌||◌, Some, length, nat_le};
ghost use Rattle.kc_language.specs.Lines.{column, is_help_line, from_other, after_help, physical_lines, unread_lines};
ghost use Rattle.kc_text.specs.PartsOfLines.{is_blank_line};
ghost use Rattle.kc_text.specs.Help.{Drops};
ghost use Rattle.kc_text.specs.LongLines.{AreLong, IsEndOf, IsLineStart, KnowsStart};

use crate::bytes::same_few;
use crate::long_lines::{LongLine, known_line};
use crate::physical::{PhysicalLine, Unread, first_physical, line_until};

/// How a line begins: the number of its blanks, the column after them, and whether the line is nothing else.
#[derive(Drop, Copy, Clone)]
pub(crate) struct LineStart {
    pub(crate) blanks: usize,
    pub(crate) column: u128,
    pub(crate) is_blank: bool,
}

/// Looks once at the blanks at the start of a line.
pub(crate) fn indentation(text: &[u8]) -> LineStart
    ensures { IsLineStart text.now result }
{
    let mut at: u128 = 0;
    let mut blanks = 0;
    'blanks: while blanks < text.len() {
        match text[blanks] {
            b' ' => at += 1,
            b'\t' => at += 8 - at % 8,
            _ => {
                return LineStart {
                    blanks,
                    column: at,
                    is_blank: false,
                };
            }
        }
        blanks += 1;
    }
    LineStart {
        blanks,
        column: at,
        is_blank: true,
    }
}

// Whether a line belongs to a help text of this indentation.
fn is_help_line(text: &[u8], indent: u128) -> bool
    ensures { result ≡ (is_blank_line text.now || nat_le indent (column 0 text.now)) }
{
    let line = indentation(text);
    line.is_blank || indent <= line.column
}

// The same, if the text's first line begins with these blanks. Most lines begin like it, and then no column is counted.
#[inline(always)]
fn goes_on(text: &[u8], blanks: &[u8], indent: u128) -> bool
    requires { (more : List ℕ) → indent ≤ column 0 (blanks.now ++ more) }
    ensures { result ≡ (is_blank_line text.now || nat_le indent (column 0 text.now)) }
{
    if blanks.len() <= text.len() && same_few(blanks, &text[..blanks.len()]) {
        return true;
    }
    is_help_line(text, indent)
}

// The first unread line, and how it begins, if that is known.
#[derive(Drop)]
struct SeenLine<'a> {
    line: PhysicalLine<'a>,
    start: Option<LineStart>,
}

impl<'a> SeenLine<'a> {
    // How the line begins.
    fn line_start(&self) -> LineStart
        requires { KnowsStart self.now.line.text.now self.now.start }
        ensures { IsLineStart self.now.line.text.now result }
    {
        match self.start {
            Some(start) => start,
            None => indentation(self.line.text),
        }
    }

    // Whether the line belongs to a help text of this indentation. The text's first line begins with these blanks.
    #[inline(always)]
    fn belongs(&self, blanks: &[u8], indent: u128) -> bool
        requires known { KnowsStart self.now.line.text.now self.now.start }
        requires blanks { (more : List ℕ) → indent ≤ column 0 (blanks.now ++ more) }
        ensures { result ≡ (is_blank_line self.now.line.text.now || nat_le indent (column 0 self.now.line.text.now)) }
    {
        match self.start {
            Some(start) => start.is_blank || indent <= start.column,
            None => goes_on(self.line.text, blanks, indent),
        }
    }
}

// The first unread line of a file with these long lines. It reads no byte of a long line.
#[inline(always)]
fn first_seen<'a>(rest: &'a [u8], long: &[LongLine]) -> SeenLine<'a>
    requires some { 0 < length rest.now }
    requires long { AreLong rest.now long.now }
    ensures first { physical_lines rest.now
        ≡ record { text = result.line.text.now; ended = result.line.ended } ∷ physical_lines result.line.after.now }
    ensures less { length result.line.after.now < length rest.now }
    ensures end { IsEndOf rest.now result.line.after.now }
    ensures known { KnowsStart result.line.text.now result.start }
{
    match known_line(long, rest) {
        Some(known) => SeenLine {
            line: line_until(rest, known.feed),
            start: Some(known.start),
        },
        None => SeenLine {
            line: first_physical(rest),
            start: None,
        },
    }
}

// Drops lines up to the first that does not belong to a help text of this indentation. The text's first line begins
// with these blanks.
fn drop_text<'a>(
    rest: &'a [u8],
    number: u32,
    long: &[LongLine],
    blanks: &[u8],
    indent: u128,
) -> Unread<'a>
    requires long { AreLong rest.now long.now }
    requires blanks { (more : List ℕ) → indent ≤ column 0 (blanks.now ++ more) }
    ensures drops { Drops (unread_lines rest.now number) (unread_lines result.rest.now result.number)
        (from_other (is_help_line (Some indent)) (physical_lines rest.now)) }
    ensures end { IsEndOf rest.now result.rest.now }
{
    let mut after = rest;
    let mut next = number;
    'dropped: while !after.is_empty() {
        let seen = first_seen(after, long);
        if !seen.belongs(blanks, indent) {
            return Unread {
                rest: after,
                number: next,
            };
        }
        after = seen.line.after;
        next = next.saturating_add(1);
    }
    Unread {
        rest: after,
        number: next,
    }
}

/// Drops the lines of a help text of a file with these long lines.
pub(crate) fn drop_help<'a>(rest: &'a [u8], number: u32, long: &[LongLine]) -> Unread<'a>
    requires { AreLong rest.now long.now }
    ensures drops { Drops (unread_lines rest.now number) (unread_lines result.rest.now result.number)
        (after_help (physical_lines rest.now)) }
    ensures end { IsEndOf rest.now result.rest.now }
{
    let mut after = rest;
    let mut next = number;
    'blank: while !after.is_empty() {
        let seen = first_seen(after, long);
        let line = &seen.line;
        let start = seen.line_start();
        if !start.is_blank {
            // The first line that is not blank belongs to the text, which has its indentation.
            if start.column == 0 {
                break;
            }
            let blanks = &line.text[..start.blanks];
            return drop_text(
                line.after,
                next.saturating_add(1),
                long,
                blanks,
                start.column,
            );
        }
        after = line.after;
        next = next.saturating_add(1);
    }
    Unread {
        rest: after,
        number: next,
    }
}
