//! The physical lines of a file.
ghost use Rattle.std.specs.Prelude.{◌≡◌, ◌<◌, ◌≤◌, ◌∷◌, length, count_by};
ghost use Rattle.bstr.specs.Find.{IsFirstByte};
ghost use Rattle.kc_language.specs.Lines.{physical_lines, continues, is_line_feed};
ghost use Rattle.kc_text.specs.PartsOfLines.{without_continuation};
ghost use Rattle.kc_text.specs.LongLines.{IsEndOf};

use crate::bytes::without_carriage_return;
use bstr::ByteSlice;
use std::simd::prelude::*;

/// A physical line without its line feed, whether it has one, and the bytes after it.
#[derive(Drop)]
pub(crate) struct PhysicalLine<'a> {
    pub(crate) text: &'a [u8],
    pub(crate) ended: bool,
    pub(crate) after: &'a [u8],
}

impl<'a> PhysicalLine<'a> {
    /// Whether the line is joined with the next one.
    pub(crate) fn continues(&self) -> bool
        ensures { result ≡ continues (record { text = self.now.text.now; ended = self.now.ended }) }
    {
        self.ended && self.text.last_byte() == Some(b'\\')
    }

    /// What the line adds to its logical line: its text without the `\` that joins it.
    pub(crate) fn without_continuation(&self) -> &'a [u8]
        ensures { result.now ≡ without_continuation (record { text = self.now.text.now; ended = self.now.ended }) }
    {
        if self.continues() {
            &self.text[..self.text.len() - 1]
        } else {
            self.text
        }
    }
}

/// The unread bytes of a file, and the number of the physical line that they begin with.
#[derive(Drop)]
pub(crate) struct Unread<'a> {
    pub(crate) rest: &'a [u8],
    pub(crate) number: u32,
}

// How many bytes are compared with a line feed at once. Most lines end within two or three times as many.
const LANES: usize = 16;

/// The position of the first line feed.
#[inline(always)]
pub(crate) fn line_feed_at(rest: &[u8]) -> Option<usize>
    ensures { IsFirstByte is_line_feed rest.now result }
{
    let mut at = 0;
    'lanes: while rest.len() - at >= LANES {
        let found = u8x16::from_slice(&rest[at..])
            .simd_eq(u8x16::splat(b'\n'))
            .to_bitmask();
        if found != 0 {
            return Some(at + found.trailing_zeros() as usize);
        }
        at += LANES;
    }
    match (&rest[at..]).find_byte(b'\n') {
        Some(n) => Some(at + n),
        None => None,
    }
}

/// The first unread physical line of a file, given the position of the first line feed.
#[inline(always)]
pub(crate) fn line_until(rest: &[u8], feed: Option<usize>) -> PhysicalLine<'_>
    requires some { 0 < length rest.now }
    requires feed { IsFirstByte is_line_feed rest.now feed }
    ensures first { physical_lines rest.now
        ≡ record { text = result.text.now; ended = result.ended } ∷ physical_lines result.after.now }
    ensures less { length result.after.now < length rest.now }
    ensures end { IsEndOf rest.now result.after.now }
{
    match feed {
        Some(n) => PhysicalLine {
            text: without_carriage_return(&rest[..n]),
            ended: true,
            after: &rest[n + 1..],
        },
        None => PhysicalLine {
            text: rest,
            ended: false,
            after: &rest[rest.len()..],
        },
    }
}

/// The first unread physical line of a file.
#[inline(always)]
pub(crate) fn first_physical(rest: &[u8]) -> PhysicalLine<'_>
    requires { 0 < length rest.now }
    ensures first { physical_lines rest.now
        ≡ record { text = result.text.now; ended = result.ended } ∷ physical_lines result.after.now }
    ensures less { length result.after.now < length rest.now }
    ensures end { IsEndOf rest.now result.after.now }
{
    line_until(rest, line_feed_at(rest))
}

// How many bytes are counted in a byte (at most 255). The compiler does many at a time.
const BLOCK: usize = 224;

// How many of a few bytes are line feeds (at most 255 bytes).
fn few_line_feeds(bytes: &[u8]) -> u8
    requires { length bytes.now ≤ 255 }
    ensures { result ≡ count_by is_line_feed bytes.now }
{
    let mut count = 0;
    for b in bytes {
        if *b == b'\n' {
            count += 1;
        }
    }
    count
}

// How many of the bytes are line feeds.
fn line_feeds(bytes: &[u8]) -> usize
    ensures count { result ≡ count_by is_line_feed bytes.now }
    ensures within { result ≤ length bytes.now }
{
    let mut count = 0;
    let mut rest = bytes;
    'along: while rest.len() >= BLOCK {
        let (block, after) = rest.split_at(BLOCK);
        count += few_line_feeds(block) as usize;
        rest = after;
    }
    count + few_line_feeds(rest) as usize
}

/// The number of a file's physical lines: one for each line feed, and one more if bytes follow the
/// last line feed. It allocates nothing, has no limit and reads the file once.
///
/// That a last part without a line feed is a line only if it is not empty is our own.
pub fn line_count(file: &[u8]) -> usize
    ensures { result ≡ length (physical_lines file.now) }
{
    let ended = line_feeds(file);
    if file.is_empty() || file[file.len() - 1] == b'\n' {
        ended
    } else {
        ended + 1
    }
}
