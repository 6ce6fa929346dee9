//! How many lines of its file a statement has: those that `\` joins, and those of its help text.

ghost use Rattle.std.specs.Prelude.{◌≡◌, ◌≤◌, ◌<◌, ◌∷◌, ◌+◌, drop, length};
ghost use Rattle.std.specs.List.{list_all};
ghost use Rattle.std.specs.Option.{option_copied};
ghost use Rattle.kc_language.specs.Lines.{column, continues, from_other, is_help_line, physical_lines};
ghost use Rattle.kc_language.specs.Tokens.{is_blank as blank};
ghost use Rattle.kc_outcome.specs.Explanations as whole;
ghost use Rattle.kc_explain.specs.SourceLines.{read_left, read_view};

use bstr::ByteSlice;
use kc_text::{is_blank, without_carriage_return};

// A line as it is read: without its line feed and one carriage return before that; whether it has a line feed; what follows it.
#[derive(Drop)]
struct ReadLine<'a> {
    text: &'a [u8],
    ended: bool,
    behind: &'a [u8],
}

// The first line.
fn first_read(rest: &[u8]) -> ReadLine<'_>
    requires { 0 < length rest.now }
    ensures first { physical_lines rest.now ≡ read_view result ∷ physical_lines result.behind.now }
    ensures less { length result.behind.now < length rest.now }
{
    match rest.find_byte(b'\n') {
        Some(at) => ReadLine {
            text: without_carriage_return(&rest[..at]),
            ended: true,
            behind: &rest[at + 1..],
        },
        None => ReadLine {
            text: rest,
            ended: false,
            behind: &rest[rest.len()..],
        },
    }
}

// Some lines at the start of a file: how many they are, and what follows them.
#[derive(Drop)]
struct Run<'a> {
    count: usize,
    rest: &'a [u8],
}

// ---- the lines that a `\` joins

// Whether the line is joined with the next one.
fn is_joined(line: &ReadLine<'_>) -> bool
    ensures { result ≡ continues (read_view line.now) }
{
    line.ended && line.text.last_byte() == Some(b'\\')
}

// The first line, and those that are joined with it.
fn joined_lines(from: &[u8]) -> Run<'_>
    ensures count { result.count ≡ whole.joined_count (physical_lines from.now) }
    ensures rest { physical_lines result.rest.now ≡ drop result.count (physical_lines from.now) }
    ensures within { result.count + length result.rest.now ≤ length from.now }
{
    let mut rest = from;
    let mut count = 0;
    'joined: while !rest.is_empty() {
        let line = first_read(rest);
        count += 1;
        rest = line.behind;
        if !is_joined(&line) {
            return Run { count, rest };
        }
    }
    Run { count, rest }
}

// ---- the lines of a help text

// The column of the first byte that is not a blank.
fn column(line: &[u8]) -> u128
    ensures { result ≡ column 0 line.now }
{
    let mut at: u128 = 0;
    for b in line {
        match *b {
            b' ' => at += 1,
            b'\t' => at += 8 - at % 8,
            _ => return at,
        }
    }
    at
}

// Whether the line has only blanks.
fn is_blank_line(line: &[u8]) -> bool
    ensures { result ≡ list_all blank line.now }
{
    line.iter().all(|b| is_blank(*b))
}

// Whether the line belongs to a help text of this indentation; before its first line there is none.
fn is_help_line(line: &ReadLine<'_>, indent: Option<u128>) -> bool
    ensures { result ≡ is_help_line indent (read_view line.now) }
{
    is_blank_line(line.text)
        || match indent {
            Some(indent) => indent <= column(line.text),
            None => false,
        }
}

// The lines that belong to a help text of this indentation.
fn lines_within(from: &[u8], indent: Option<u128>) -> Run<'_>
    ensures rest { physical_lines result.rest.now ≡ from_other (is_help_line indent) (physical_lines from.now) }
    ensures count { result.count + length (physical_lines result.rest.now) ≡ length (physical_lines from.now) }
    ensures within { result.count + length result.rest.now ≤ length from.now }
{
    let mut rest = from;
    let mut count = 0;
    'text: while !rest.is_empty() {
        let line = first_read(rest);
        if !is_help_line(&line, indent) {
            return Run { count, rest };
        }
        count += 1;
        rest = line.behind;
    }
    Run { count, rest }
}

// How many lines a help text has that begins here.
fn help_count(from: &[u8]) -> usize
    ensures count { result ≡ whole.help_count (physical_lines from.now) }
    ensures within { result ≤ length from.now }
{
    let blank = lines_within(from, None);
    if blank.rest.is_empty() {
        return blank.count;
    }
    let indent = column(first_read(blank.rest).text);
    if indent == 0 {
        return blank.count;
    }
    blank.count + lines_within(blank.rest, Some(indent)).count
}

/// How many lines the statement has that begins here. `has_text`: whether a help text follows it. Nothing is allocated.
pub(crate) fn statement_count(from: Option<&[u8]>, has_text: bool) -> usize
    ensures { result ≡ whole.statement_count has_text (read_left (option_copied from.entry)) }
{
    match from {
        None => 0,
        Some(text) => {
            let joined = joined_lines(text);
            if has_text {
                joined.count + help_count(joined.rest)
            } else {
                joined.count
            }
        }
    }
}
