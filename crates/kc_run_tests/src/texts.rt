//! Texts that may be long.
use std::alloc::{AllocError, Global};
use std::fmt::Write;

/// A text: its start, lines that are numbered from 0, and its end.
#[derive(Clone, Copy)]
pub(crate) struct Text {
    /// The text before the lines.
    pub before: &'static str,
    /// The number of lines.
    pub count: u32,
    /// The parts of each line.
    pub line: &'static [Part],
    /// The text after the lines.
    pub after: &'static str,
}

/// A part of a numbered line.
#[derive(Clone, Copy)]
pub(crate) enum Part {
    /// These bytes.
    Plain(&'static str),
    /// The line's number.
    Number,
    /// The next line's number.
    Next,
}

/// The empty text.
pub(crate) const EMPTY: Text = Text {
    before: "",
    count: 0,
    line: &[],
    after: "",
};

fn line_into(line: &[Part], number: u32, all: &mut String) -> Result<(), AllocError> {
    for part in line {
        match part {
            Part::Plain(text) => all.push_str(text)?,
            Part::Number => write!(all, "{number}")?,
            Part::Next => write!(all, "{}", number.saturating_add(1))?,
        }
    }
    Ok(())
}

/// The text.
pub(crate) fn text_of(alloc: Global, text: &Text) -> Result<String, AllocError> {
    let mut all = String::from_str(alloc, text.before)?;
    for number in 0..text.count {
        line_into(text.line, number, &mut all)?;
    }
    all.push_str(text.after)?;
    Ok(all)
}
