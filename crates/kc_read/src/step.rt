//! The next line of a file.

ghost use Rattle.std.specs.Prelude.{◌≡◌, ◌≤◌, [], length, IfOk, IfErr, None};
ghost use Rattle.kc_expr.specs.Names.{Extends};
ghost use Rattle.kc_language.specs.Lines.{UnreadLines, TakesLine};
ghost use Rattle.kc_text.specs.Lexemes.{lexemes};
ghost use Rattle.kc_language.specs.Expansion.{text_cause};
ghost use Rattle.kc_entries.specs.PartsOfExpansion.{is_help};
ghost use Rattle.kc_read.specs.LineReads.{cause_of};
ghost use Rattle.kc_read.specs.RefusalView.{IsMemory, out_of_memory, refusal_view};
ghost use Rattle.kc_read.specs.NextStep.{IsMarked, IsStepAt, IsStepRefusalAt, long_line};

use crate::line_parts::begins_with;
use crate::reader::{Position, read_line};
use crate::refusal::Refusal;
use crate::refuse::refuse;
use kc_diagnostics::Cause;
use kc_entries::statement::{LineFault, Statement};
use kc_expr::names::Names;
use kc_text::{LogicalLines, TextFault, Token, lex, marker_of};
use std::alloc::{AllocError, Global};

/// The result of reading the next line of a file.
#[derive(Debug, Drop)]
pub(crate) enum Step {
    End,
    Blank,
    /// The next line has this number.
    Renumbered(u32),
    /// The next line has this number in this other file.
    Moved(u32, Vec<u8>),
    Next(u32, Statement),
}

fn text_fault(fault: TextFault) -> LineFault<'static>
    ensures { cause_of result ≡ text_cause fault }
{
    match fault {
        TextFault::LineTooLong(_) => Cause::LineTooLong,
        TextFault::BadToken => Cause::BadToken,
        TextFault::Macro => Cause::Macro,
        TextFault::Memory => Cause::Memory,
    }
}

// The number of the line that is too long.
fn long_line(fault: TextFault) -> u32
    ensures { result ≡ long_line fault }
{
    match fault {
        TextFault::LineTooLong(line) => line,
        TextFault::BadToken | TextFault::Macro | TextFault::Memory => 0,
    }
}

// The number of tokens that get room at once: nearly no line has more.
const TOKENS: usize = 8;

/// Returns an empty list of tokens, with room for those of the line unless the line is empty.
pub(crate) fn token_list<'a>(alloc: Global, line: &[u8]) -> Result<Vec<Token<'a>>, AllocError>
    ensures { IfOk result (λ v. v.items ≡ []) }
{
    if line.is_empty() {
        return Ok(Vec::new(alloc));
    }
    Vec::with_capacity(alloc, TOKENS)
}

/// Whether a help text follows.
pub(crate) fn begins_help(tokens: &[Token]) -> bool
    ensures { result ≡ is_help (lexemes tokens.now) }
{
    begins_with(tokens, 0, b"help") || begins_with(tokens, 0, b"---help---")
}

// The meaning of a line without tokens.
fn marked(position: &Position<'_>, line: &[u8]) -> Result<Step, Refusal>
    ensures marked { IfOk result (IsMarked position.now.is_flat position.now.frame.now.file.value.items line.now) }
    ensures memory { IfErr result (λ r. refusal_view r ≡ out_of_memory) }
{
    if !position.is_flat {
        return Ok(Step::Blank);
    }
    let Some(marker) = marker_of(line) else {
        return Ok(Step::Blank);
    };
    if marker.file == position.frame.file.as_slice() {
        return Ok(Step::Renumbered(marker.number));
    }
    match Vec::from_slice(position.alloc, marker.file) {
        Ok(name) => Ok(Step::Moved(marker.number, name)),
        Err(_) => Err(Refusal::out_of_memory()),
    }
}

// The meaning of a line that was taken. `tokens` is a buffer, whose old content is dropped.
#[inline(always)]
fn step_of_line<'l>(
    position: &Position<'_>,
    number: u32,
    line: &'l [u8],
    tokens: &mut Vec<Token<'l>>,
    lines: &mut LogicalLines,
    names: &mut Names,
) -> Result<Step, Refusal>
    requires { lines.old.refusal ≡ None }
    // This holds for any lines before.
    ensures step { IfOk result (λ s. (before : UnreadLines) → number ≡ before.number → TakesLine before lines.old line.now
        → IsStepAt position.now names.old names.new before lines.new s) }
    ensures refused { IfErr result (λ r. (before : UnreadLines) → number ≡ before.number → TakesLine before lines.old line.now
        → IsStepRefusalAt position.now before r) }
    ensures memory { IfErr result IsMemory }
    ensures names { Extends names.old names.new }
{
    match lex(line, position.is_flat, tokens) {
        Ok(()) => {}
        Err(fault) => return Err(refuse(
            position.alloc,
            text_fault(fault),
            &position.frame.file,
            number,
        )),
    }
    if begins_help(tokens) {
        lines.skip_help();
    }
    if tokens.is_empty() {
        return marked(position, line);
    }
    match read_line(position, tokens, names) {
        Ok(statement) => Ok(Step::Next(number, statement)),
        Err(fault) => Err(refuse(position.alloc, fault, &position.frame.file, number)),
    }
}

// The next step in a file if no line can be borrowed from it: a joined line, a line that is too long, or the end. `text` is a
// buffer for the bytes of the joined line, whose old content is dropped.
fn next_joined(
    position: &Position<'_>,
    lines: &mut LogicalLines,
    text: &mut Vec<u8>,
    names: &mut Names,
) -> Result<Step, Refusal>
    requires { lines.old.refusal ≡ None }
    ensures step { IfOk result (IsStepAt position.now names.old names.new lines.old lines.new) }
    ensures refused { IfErr result (IsStepRefusalAt position.now lines.old) }
    ensures memory { IfErr result IsMemory }
    ensures names { Extends names.old names.new }
{
    let number = match lines.next_into(text) {
        Ok(Some(number)) => number,
        Ok(None) => return Ok(Step::End),
        Err(fault) => {
            let cause = text_fault(fault);
            return Err(refuse(
                position.alloc,
                cause,
                &position.frame.file,
                long_line(fault),
            ));
        }
    };
    let Ok(mut own) = token_list(position.alloc, text) else {
        return Err(Refusal::out_of_memory());
    };
    step_of_line(position, number, text, &mut own, lines, names)
}

/// Reads the next line of a file. `tokens` is a buffer for the tokens of a line that is borrowed from the file, and `text` one
/// for the bytes of a joined line. Their old contents are dropped.
pub(crate) fn next_step<'a>(
    position: &Position<'_>,
    lines: &mut LogicalLines<'a>,
    text: &mut Vec<u8>,
    tokens: &mut Vec<Token<'a>>,
    names: &mut Names,
) -> Result<Step, Refusal>
    requires { lines.old.refusal ≡ None }
    ensures step { IfOk result (IsStepAt position.now names.old names.new lines.old lines.new) }
    ensures refused { IfErr result (IsStepRefusalAt position.now lines.old) }
    ensures memory { IfErr result IsMemory }
    ensures names { Extends names.old names.new }
{
    match lines.next_single() {
        Some((number, line)) => step_of_line(position, number, line, tokens, lines, names),
        None => next_joined(position, lines, text, names),
    }
}
