//! The lines of files, and lines as comments.

ghost use Rattle.kc_read.specs.Files.{files_in};
ghost use Rattle.std.specs.Prelude.{◌≡◌, ◌∷◌, ◌-◌, ◌++◌, length, map, drop, slice_get, take, IfOk, OnOk, flat_map};
ghost use Rattle.std.specs.Option.{option_copied};
ghost use Rattle.std.specs.List.{slice_split, suffix_len};
ghost use Rattle.kc_outcome.specs.Explanations as whole;
ghost use Rattle.kc_language.specs.Lines.{is_line_feed};
ghost use Rattle.kc_explain.specs.SourceLines.{StandAtLines, comment, lines_left, lines_of, with_text};

use bstr::ByteSlice;
use indexmap::IndexMap;
use kc_expr::hash_key::HashKey;
use kc_read::file_map::FileMap;
use kc_text::is_blank;
use std::alloc::{AllocError, Global};
use std::marker::Model;

/// Reads lines of files. The first question about a file finds the starts of all its lines.
#[derive(Drop)]
pub(crate) struct LineReader<'f, 'n> {
    alloc: Global,
    files: &'f FileMap,
    rests: IndexMap<&'n [u8], Vec<&'f [u8]>, HashKey>,
}

impl<'f, 'n> Model for LineReader<'f, 'n> {
    ghost use Rattle.std.specs.Prelude.{All};
    ghost use Rattle.kc_read.specs.Files.{FileTable, files_in};
    ghost use Rattle.kc_explain.specs.SourceLines.{StandAtLines, lines_of};

    ghost Value = { FileTable };

    ghost view = { λ r. r.files.now };

    ghost invariant = { λ r. All (λ e. StandAtLines (lines_of (files_in r.files.now) e.0.now) e.1.items) r.rests.entries };
}

impl<'f, 'n> LineReader<'f, 'n> {
    /// Returns a reader of these files.
    pub(crate) fn new(alloc: Global, files: &'f FileMap) -> Self
        ensures { result ≡ files.now }
    {
        LineReader {
            alloc,
            files,
            rests: IndexMap::with_hasher(alloc, files.key()),
        }
    }

    /// The rest of the file after `count` lines, if it has more lines.
    pub(crate) fn behind(
        &mut self,
        file: &'n [u8],
        count: usize,
    ) -> Result<Option<&'f [u8]>, AllocError>
        ensures files { self.new ≡ self.old }
        ensures rest { IfOk result (λ r. lines_left (option_copied r) ≡ drop count (lines_of (files_in self.old) file.now)) }
    {
        if let Some(rests) = self.rests.get(&file) {
            return Ok(rest_behind(rests, count));
        }
        let rests = rests_of(self.alloc, self.files.get(file))?;
        let rest = rest_behind(&rests, count);
        self.rests.insert(file, rests)?;
        Ok(rest)
    }
}

// The rest of a file from each line on.
fn rests_of(alloc: Global, text: Option<&[u8]>) -> Result<Vec<&[u8]>, AllocError>
    ensures { IfOk result (λ rests. StandAtLines (lines_left (option_copied text.entry)) rests.items) }
{
    let mut rests = Vec::new(alloc);
    let mut next = text;
    'lines: while let Some(rest) = next {
        rests.push(rest)?;
        let (_, behind) = next_line(rest);
        next = behind;
    }
    Ok(rests)
}

// The rest after `count` lines, if there are more.
fn rest_behind<'f>(rests: &[&'f [u8]], count: usize) -> Option<&'f [u8]>
    ensures { result ≡ slice_get rests.now count }
{
    rests.get(count).copied()
}

// The first line, and the rest after its line feed.
fn next_line(rest: &[u8]) -> (&[u8], Option<&[u8]>)
    ensures { slice_split is_line_feed rest.now ≡ result.0.now ∷ lines_left (option_copied result.1) }
{
    match rest.find_byte(b'\n') {
        Some(at) => (&rest[..at], Some(&rest[at + 1..])),
        None => (rest, None),
    }
}

/// Appends the first `count` lines.
pub(crate) fn push_lines<'a>(
    from: Option<&'a [u8]>,
    count: usize,
    all: &mut Vec<&'a [u8]>,
) -> Result<(), AllocError>
    ensures { OnOk result (map (λ l. l.now) all.new.items ≡ map (λ l. l.now) all.old.items ++ take count (lines_left (option_copied from.entry))) }
{
    let mut rest = from;
    for _i in 0..count {
        match rest {
            None => return Ok(()),
            Some(text) => {
                let (line, behind) = next_line(text);
                all.push(line)?;
                rest = behind;
            }
        }
    }
    Ok(())
}

// Whether the line has only blanks.
fn is_without_text(line: &[u8]) -> bool
    ensures { result ≡ whole.without_text line.now }
{
    line.iter().all(|b| is_blank(*b) || *b == b'\r')
}

// The number of lines without those at the end that have no text.
fn lines_with_text(lines: &[&[u8]]) -> usize
    ensures { let own = map (λ l. l.now) lines.now in result ≡ length own - suffix_len whole.without_text own }
{
    let mut end = lines.len();
    while end > 0 && is_without_text(lines[end - 1]) {
        end -= 1;
    }
    end
}

// Appends the line as a comment.
fn add_comment(line: &[u8], text: &mut Vec<u8>) -> Result<(), AllocError>
    ensures { OnOk result (text.new.items ≡ text.old.items ++ comment line.now) }
{
    text.extend_from_slice(b"# ")?;
    text.extend_from_slice(line)?;
    text.extend_from_slice(b"\n")
}

// Appends the lines as comments.
fn add_comments(lines: &[&[u8]], text: &mut Vec<u8>) -> Result<(), AllocError>
    ensures { OnOk result (text.new.items ≡ text.old.items ++ flat_map (λ l. comment l.now) lines.now) }
{
    for line in lines {
        add_comment(line, text)?;
    }
    Ok(())
}

/// Appends the lines of a definition as comments, except lines without text at the end (our own). The only error is that memory
/// runs out.
pub(crate) fn add_excerpt(lines: &[&[u8]], text: &mut Vec<u8>) -> Result<(), AllocError>
    ensures { OnOk result (text.new.items ≡ text.old.items ++ flat_map comment (with_text (map (λ l. l.now) lines.now))) }
{
    add_comments(&lines[..lines_with_text(lines)], text)
}
