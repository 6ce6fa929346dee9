//! The lines of a file and their tokens.

use crate::end::{CallEnd, done, refused};
use kc_text::{LogicalLines, Op, TextFault, Token, lex};
use std::alloc::Global;

const FILE: &[u8] = b"config A_NAME_OF_SEVERAL\\\n_LINES\n\tbool\n";

// After running out of memory the line is empty, and each later call fails in the same way.
fn stays_refused(lines: &mut LogicalLines<'_>, line: &mut Vec<u8>) -> bool {
    let was_empty = line.is_empty();
    let again = lines.next_into(line);
    was_empty && line.is_empty() && again == Err(TextFault::Memory) && lines.next_single().is_none()
}

/// `next_into`, for a line that is joined from two lines.
pub(crate) fn call_next_into(alloc: Global) -> CallEnd {
    let mut lines = LogicalLines::new(FILE);
    let mut line = Vec::new(alloc);
    match lines.next_into(&mut line) {
        Ok(number) => {
            let is_joined = line.as_slice() == b"config A_NAME_OF_SEVERAL_LINES".as_slice();
            let next = lines.next_single();
            done(number == Some(1) && is_joined && next == Some((3, b"\tbool".as_slice())))
        }
        Err(fault) => refused(fault == TextFault::Memory && stays_refused(&mut lines, &mut line)),
    }
}

/// `lex`, for a line of eleven tokens and a comment.
pub(crate) fn call_lex(alloc: Global) -> CallEnd {
    let mut tokens = Vec::new(alloc);
    match lex(b"default \"x\" if A && !(B || C) # why", false, &mut tokens) {
        Ok(()) => {
            let is_last = matches!(tokens.last(), Some(Token::Op(Op::RParen)));
            done(tokens.len() == 11 && is_last)
        }
        Err(fault) => refused(fault == TextFault::Memory && tokens.is_empty()),
    }
}
