//! Names and expressions.

use crate::end::{CallEnd, done, refused};
use kc_expr::expression::{Expr, SymId};
use kc_expr::names::Names;
use kc_expr::parse::{ExprFault, parse};
use kc_expr::values::symbols_into;
use kc_text::{Token, lex};
use std::alloc::{AllocError, Global};

const NAMES: &[&[u8]] = &[
    b"A",
    b"B",
    b"A_NAME_THAT_IS_TOO_LONG_TO_STAND_IN_PLACE",
    b"C",
    b"D",
    b"E",
    b"ANOTHER_NAME_THAT_IS_TOO_LONG_TO_STAND_IN_PLACE",
    b"F",
    b"G",
    b"H",
];

// The first `count` of `NAMES` have their numbers.
fn are_numbered(names: &Names, count: usize) -> bool {
    let mut number = 0usize;
    for name in NAMES.iter().take(count) {
        if names.find(name) != Some(SymId(number)) {
            return false;
        }
        number = number.saturating_add(1);
    }
    true
}

// After running out of memory the names are unchanged: a known name needs no memory, and this name can get the next
// number.
fn is_unnumbered(names: &mut Names, count: usize, name: &[u8]) -> bool {
    let was_kept = names.count() == count
        && are_numbered(names, count)
        && names.find(name).is_none();
    let is_known = count == 0 || names.id(b"A") == Ok(SymId(0));
    match names.id(name) {
        Ok(id) => was_kept && is_known && id == SymId(count),
        Err(_) => was_kept && is_known && names.count() == count,
    }
}

// The result of `id`, for each of `NAMES` in turn.
fn id_end(names: &mut Names) -> CallEnd {
    let mut count = 0usize;
    for name in NAMES {
        match names.id(name) {
            Ok(id) if id == SymId(count) => count = count.saturating_add(1),
            Ok(_) => return CallEnd::Wrong,
            Err(_) => return refused(is_unnumbered(names, count, name)),
        }
    }
    done(names.count() == NAMES.len() && are_numbered(names, NAMES.len()))
}

/// `id`, for each of `NAMES`.
pub(crate) fn call_id(alloc: Global) -> CallEnd {
    let mut names = Names::new(alloc);
    id_end(&mut names)
}

const EXPRESSION: &[u8] =
    b"A && (B || !A_NAME_THAT_IS_TOO_LONG_TO_STAND_IN_PLACE) && C = \"x\" && D && E > \"1\"";

// Adds the tokens of `EXPRESSION`. Returns whether there was enough memory.
fn cut_into(tokens: &mut Vec<Token<'static>>) -> bool {
    EXPRESSION.len() <= 8191 && lex(EXPRESSION, false, tokens).is_ok()
}

// Numbers the first two of `NAMES`. Returns whether there was enough memory.
fn number_two(names: &mut Names) -> bool {
    names.id(NAMES[0]).is_ok() && names.id(NAMES[1]).is_ok()
}

// The number of parts of a chain of `&&`.
fn part_count(expression: &Expr) -> usize {
    match expression {
        Expr::All(parts) => parts.rest.len().saturating_add(2),
        _ => 0,
    }
}

// The result of `parse`, for an expression of six names, two of which are known.
fn parse_end(alloc: Global, tokens: &[Token], names: &mut Names) -> CallEnd {
    match parse(alloc, tokens, 0, false, names) {
        Ok((expression, after)) => {
            let is_whole = part_count(&expression) == 5 && after == tokens.len();
            done(is_whole && names.count() == 6 && are_numbered(names, 6))
        }
        // Further names of the expression may have been added, each with the next number; no other name was added.
        Err(fault) => {
            let count = names.count();
            let is_some_of_six = count >= 2 && count <= 6 && are_numbered(names, count);
            refused(fault == ExprFault::Memory && is_some_of_six)
        }
    }
}

// An earlier symbol, and the symbols after it.
const LISTED: &[SymId] = &[
    SymId(9),
    SymId(0),
    SymId(1),
    SymId(2),
    SymId(3),
    SymId(4),
    SymId(5),
];

// The result of `symbols_into`, after an earlier symbol.
fn symbols_end(alloc: Global, expression: &Expr) -> Result<CallEnd, AllocError> {
    let mut listed = vec![in alloc; SymId(9)]?;
    match symbols_into(expression, None, &mut listed) {
        Ok(()) => Ok(done(listed.as_slice() == LISTED)),
        Err(_) => Ok(refused(!listed.is_empty() && LISTED.starts_with(&listed))),
    }
}

// The same for the expression of these tokens.
fn listed_end(alloc: Global, tokens: &[Token], names: &mut Names) -> Result<CallEnd, AllocError> {
    match parse(alloc, tokens, 0, false, names) {
        Ok((expression, _)) => symbols_end(alloc, &expression),
        Err(_) => Err(AllocError),
    }
}

/// The call on the tokens of an expression.
#[derive(Clone, Copy)]
pub(crate) enum Reading {
    /// `parse`.
    Parse,
    /// `symbols_into`, for the parsed expression.
    SymbolsInto,
}

/// `parse`, and `symbols_into` for its result.
pub(crate) fn call_on_tokens(alloc: Global, reading: Reading) -> Result<CallEnd, AllocError> {
    let mut tokens = Vec::new(alloc);
    let mut names = Names::new(alloc);
    if !cut_into(&mut tokens) || !number_two(&mut names) {
        return Err(AllocError);
    }
    match reading {
        Reading::Parse => Ok(parse_end(alloc, &tokens, &mut names)),
        Reading::SymbolsInto => listed_end(alloc, &tokens, &mut names),
    }
}
