//! The files that a file names in its `source` lines.

ghost use Rattle.std.specs.Prelude.{◌≡◌, ◌≢◌, ◌<◌, ◌≤◌, IfOk, OnErr, length, map, None, false, true};
ghost use Rattle.kc_language.specs.Lines.{UnreadLines, TakesLine, unread_lines};
ghost use Rattle.kc_language.specs.declared.tokens.TextFault.TheVariants.{Memory};
ghost use Rattle.kc_read.specs.declared.sources.NextSource.TheVariants.{Nothing};
ghost use Rattle.kc_read.specs.QuietFiles.{BeginsLine, EndsLine, HasNoJoin, HasNoSource, IsQuiet};
ghost use Rattle.kc_language.specs.Expansion as spec;
ghost use Rattle.kc_read.specs.SourceSteps.{HasMoreLines, IsFound};

use crate::line_parts::begins_with;
use crate::reader::source_name;
use crate::step::{begins_help, token_list};
use bstr::ByteSlice;
use kc_diagnostics::Cause;
use kc_text::{LogicalLines, TextFault, Token, lex};
use std::alloc::{AllocError, Global};

/// The name in the next line: no name is left, this line has none, or this name.
#[derive(Debug, Drop)]
pub(crate) enum NextSource {
    Nothing,
    Other,
    Name(Vec<u8>),
}

// After a line that is too long or cannot be cut, no name is left.
fn ended(fault: TextFault) -> Result<NextSource, AllocError>
    ensures { IfOk result (λ f. (f ≡ Nothing) × (fault ≢ Memory)) }
{
    match fault {
        TextFault::Memory => Err(AllocError),
        TextFault::LineTooLong(_) | TextFault::BadToken | TextFault::Macro => Ok(
            NextSource::Nothing,
        ),
    }
}

// The name in a line that was taken. `tokens` is a buffer, whose old content is dropped.
#[inline(always)]
fn source_of_line<'l>(
    alloc: Global,
    line: &'l [u8],
    tokens: &mut Vec<Token<'l>>,
    lines: &mut LogicalLines,
) -> Result<NextSource, AllocError>
    requires { lines.old.refusal ≡ None }
    // This holds for any lines before.
    ensures { IfOk result (λ f. (before : UnreadLines) → TakesLine before lines.old line.now → IsFound before lines.new f) }
{
    match lex(line, false, tokens) {
        Ok(()) => {}
        Err(fault) => return ended(fault),
    }
    if begins_help(tokens) {
        lines.skip_help();
    }
    if !begins_with(tokens, 0, b"source") {
        return Ok(NextSource::Other);
    }
    match source_name(alloc, tokens) {
        Ok(name) => Ok(NextSource::Name(name)),
        Err(fault) => match fault {
            Cause::Memory => Err(AllocError),
            _ => Ok(NextSource::Nothing),
        },
    }
}

// The name in the next line of a file. `tokens` is a buffer for the tokens of a line that is borrowed from the file, and
// `text` one for the bytes of a joined line. Their old contents are dropped.
fn next_source<'a>(
    alloc: Global,
    lines: &mut LogicalLines<'a>,
    text: &mut Vec<u8>,
    tokens: &mut Vec<Token<'a>>,
) -> Result<NextSource, AllocError>
    requires { lines.old.refusal ≡ None }
    ensures found { IfOk result (IsFound lines.old lines.new) }
    ensures clear { IfOk result (λ f. HasMoreLines f → lines.new.refusal ≡ None) }
    ensures less { IfOk result (λ f. HasMoreLines f → length lines.new.lines < length lines.old.lines) }
{
    if let Some((_, line)) = lines.next_single() {
        return source_of_line(alloc, line, tokens, lines);
    }
    match lines.next_into(text) {
        Ok(Some(_)) => {}
        Ok(None) => return Ok(NextSource::Nothing),
        Err(fault) => return ended(fault),
    }
    let mut own = token_list(alloc, text)?;
    source_of_line(alloc, text, &mut own, lines)
}

// Whether there are only blanks between the start of a line and a position; `before` is all bytes before that position.
fn begins_line(before: &[u8]) -> bool
    ensures begun { result ≡ true → BeginsLine before.now }
    ensures not_begun { result ≡ false → BeginsLine before.now → ⊥ }
{
    match before.rfind_not_byteset(b" \t") {
        Some(last) => before[last] == b'\n',
        None => true,
    }
}

// Whether these bytes begin with the end of their line.
fn ends_line(after: &[u8]) -> bool
    ensures ended { result ≡ true → EndsLine after.now }
    ensures not_ended { result ≡ false → EndsLine after.now → ⊥ }
{
    matches!(after, [b'\n', ..] | [b'\r', b'\n', ..])
}

// Whether a line begins with `source`.
fn has_source(file: &[u8]) -> bool
    ensures silent { result ≡ false → HasNoSource file.now }
    ensures heard { result ≡ true → HasNoSource file.now → ⊥ }
{
    let mut at = 0;
    'words: loop {
        let Some(found) = (&file[at..]).find(b"source") else {
            return false;
        };
        let place = at + found;
        if begins_line(&file[..place]) {
            return true;
        }
        at = place + 1;
    }
}

// Whether a line ends with a `\`, which joins it to the next one.
fn has_join(file: &[u8]) -> bool
    ensures silent { result ≡ false → HasNoJoin file.now }
    ensures heard { result ≡ true → HasNoJoin file.now → ⊥ }
{
    let mut at = 0;
    'backslashes: loop {
        let Some(found) = (&file[at..]).find_byte(b'\\') else {
            return false;
        };
        at += found + 1;
        if ends_line(&file[at..]) {
            return true;
        }
    }
}

// Whether a file may have a `source` line, without cutting it into tokens. A `\` may join the parts of the word.
fn may_source(file: &[u8]) -> bool
    ensures silent { result ≡ false → IsQuiet file.now }
    ensures heard { result ≡ true → IsQuiet file.now → ⊥ }
{
    has_source(file) || has_join(file)
}

/// Returns the names of the file's `source` lines in order, up to the first line that is too long or cannot be cut into
/// tokens, or the first `source` line that is refused, whichever comes first. Help lines are skipped.
///
/// The only error is that memory runs out. That never happens for a file in which no line begins with the text `source` and
/// none ends with a `\`.
pub fn sources_of(alloc: Global, file: &[u8]) -> Result<Vec<Vec<u8>>, AllocError>
    ensures names { IfOk result (λ names. spec.SourceNames (unread_lines file.now 1) (map (λ n. n.items) names.items)) }
    ensures heard { OnErr result (IsQuiet file.now → ⊥) }
{
    let mut names = Vec::new(alloc);
    if !may_source(file) {
        return Ok(names);
    }
    let mut lines = LogicalLines::new(file);
    let mut text = Vec::new(alloc);
    let mut tokens = token_list(alloc, file)?;
    'along: loop {
        match next_source(alloc, &mut lines, &mut text, &mut tokens)? {
            NextSource::Nothing => return Ok(names),
            NextSource::Other => {}
            NextSource::Name(name) => names.push(name)?,
        }
    }
}
