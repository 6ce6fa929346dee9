//! Comparison of two texts.

use std::io;

// Returns the first position at which the texts differ, or the end of the shorter one.
fn first_difference(left: &[u8], right: &[u8]) -> usize {
    let end = left.len().min(right.len());
    for i in 0..end {
        if left[i] != right[i] {
            return i;
        }
    }
    end
}

// Returns the bytes from this position to the end of the line.
fn rest_of_line(text: &[u8], from: usize) -> &[u8] {
    if from > text.len() {
        return b"";
    }
    let rest = &text[from..];
    for i in 0..rest.len() {
        if rest[i] == b'\n' {
            return &rest[..i];
        }
    }
    rest
}

// Returns the start of the line at this position, and its number.
fn line_of(text: &[u8], at: usize) -> (usize, u64) {
    let mut start = 0;
    let mut number: u64 = 1;
    for i in 0..at.min(text.len()) {
        if text[i] == b'\n' {
            start = i + 1;
            number = number.saturating_add(1);
        }
    }
    (start, number)
}

fn print_line(rt: &HostRuntime, sign: &str, line: &[u8]) -> io::Result<()> {
    match str::from_utf8(line) {
        Ok(text) => println!(rt; "    {sign} {text}"),
        Err(_) => println!(rt; "    {sign} {line:?}"),
    }
}

// Prints the first line at which the texts differ.
fn print_difference(
    rt: &HostRuntime,
    case: &str,
    name: &str,
    expected: &[u8],
    found: &[u8],
) -> io::Result<()> {
    let (start, number) = line_of(expected, first_difference(expected, found));
    println!(rt; "{case}: {name} differs at line {number}")?;
    print_line(rt, "-", rest_of_line(expected, start))?;
    print_line(rt, "+", rest_of_line(found, start))
}

/// Returns whether the texts are the same, where `None` is no file, and prints the first difference.
pub(crate) fn is_same(
    rt: &HostRuntime,
    case: &str,
    name: &str,
    expected: Option<&[u8]>,
    found: Option<&[u8]>,
) -> io::Result<bool> {
    match (expected, found) {
        (Some(expected), Some(found)) if expected != found => print_difference(
            rt, case, name, expected, found,
        )?,
        (Some(_), None) => println!(rt; "{case}: {name} is missing")?,
        (None, Some(_)) => println!(rt; "{case}: {name} must not be there")?,
        _ => return Ok(true),
    }
    Ok(false)
}
