//! The long lines of a file, found once.
ghost use Rattle.std.specs.Prelude.{◌≡◌, ◌<◌, ◌≤◌, length, IfSome};
ghost use Rattle.std.specs.List.{Contains};
ghost use Rattle.kc_text.specs.LongLines.{AreLong, IsLong, IsLongIn};

use crate::help::{LineStart, indentation};
use crate::physical::{line_feed_at, line_until};
use bstr::ByteSlice;
use std::alloc::Global;

// A line with more bytes than this is long.
const SHORT: usize = 1024;

/// A long line: how many bytes are left at its start, the position of its line feed, and how it begins.
#[derive(Drop)]
pub(crate) struct LongLine {
    pub(crate) before: usize,
    pub(crate) feed: Option<usize>,
    pub(crate) start: LineStart,
}

// The line that begins here, as a long line.
fn long_line(rest: &[u8]) -> LongLine
    requires { 0 < length rest.now }
    ensures before { result.before ≡ length rest.now }
    ensures long { IsLong rest.now result }
{
    let feed = line_feed_at(rest);
    let line = line_until(rest, feed);
    LongLine {
        before: rest.len(),
        feed,
        start: indentation(line.text),
    }
}

// The start of the line after the last line feed in the first bytes, if there is one.
fn behind_last_feed(rest: &[u8]) -> Option<usize>
    requires { 1024 ≤ length rest.now }
    ensures { IfSome result (λ n. (0 < n) × (n ≤ length rest.now)) }
{
    let (front, _) = rest.split_at(SHORT);
    let last = front.rfind_byte(b'\n')?;
    Some(last + 1)
}

/// The long lines of a file in order; only the first of them if memory runs out.
pub(crate) fn long_lines(alloc: Global, file: &[u8]) -> Vec<LongLine>
    ensures { AreLong file.now result.items }
{
    let mut lines = Vec::new(alloc);
    let mut rest = file;
    'along: while rest.len() > SHORT {
        if let Some(place) = behind_last_feed(rest) {
            rest = &rest[place..];
            continue;
        }
        let line = long_line(rest);
        let after = line_until(rest, line.feed).after;
        match lines.push(line) {
            Ok(()) => rest = after,
            Err(_) => return lines,
        }
    }
    lines
}

/// The long line at whose start `left` bytes are left.
#[inline(never)]
fn line_among(lines: &[LongLine], left: usize) -> Option<&LongLine>
    ensures { IfSome result (λ l. Contains lines.now l.now × (l.now.before ≡ left)) }
{
    let mut low = 0;
    let mut high = lines.len();
    'halves: while low < high {
        let middle = low + (high - low) / 2;
        let line = &lines[middle];
        if line.before == left {
            return Some(line);
        }
        if line.before > left {
            low = middle + 1;
        } else {
            high = middle;
        }
    }
    None
}

/// What is known of the line that begins here, if it is one of the long lines. `rest` is the end of their file.
#[inline(always)]
pub(crate) fn known_line<'a>(lines: &'a [LongLine], rest: &[u8]) -> Option<&'a LongLine>
    requires { AreLong rest.now lines.now }
    ensures { IfSome result (λ l. IsLong rest.now l.now) }
{
    if lines.is_empty() {
        return None;
    }
    line_among(lines, rest.len())
}
