//! Expressions from tokens: the grammar of the kernel's kconfig-language, "Menu dependencies".

ghost use Rattle.std.specs.Prelude.{◌≡◌, ℕ, ◌≤◌, true, false, List, length, map, IfOk, IfErr};
ghost use Rattle.kc_expr.specs.declared.parse.ExprFault.TheVariants.{Memory};
ghost use Rattle.kc_text.specs.PartsOfText.{most_levels};
ghost use Rattle.kc_language.specs.declared.expressions.Connective.TheVariants.{Or};
ghost use Rattle.kc_expr.specs.Form.{form_of, leaf_of, parts_of};
ghost use Rattle.kc_language.specs.Expressions.{forms, Negated, Terminal};
ghost use Rattle.kc_expr.specs.PartsOfExpressions.{lone_form};
ghost use Rattle.kc_expr.specs.PartsOfExpressions.{is_m_leaf};
ghost use Rattle.kc_expr.specs.PartsOfExpressions as named;
ghost use Rattle.kc_expr.specs.Grammar.{terminals_from, IsUnambiguous, HasOneLongestFront};
ghost use Rattle.kc_expr.specs.Parsing.{IsParsed, IsDetermined, IsRefused, OneAnswer};
ghost use Rattle.kc_expr.specs.Reading.{ParsedNot, ParsedPart, ParsedChain, FailsNot, FailsPart, FailsChain, IsLone, IsNext, ReadsOperand, ReadsRelation, IsMemoryAt, IsOp, IsJoined, StartsNoOp, StartsNoOperand};
ghost use Rattle.kc_expr.specs.Names.{Extends};

use crate::expression::{Expr, Operand, Operands, Parts, Tri};
use crate::names::Names;
use crate::values::tristate_constant;
use kc_language::expressions::Connective;
use kc_text::{Op, Token, unescape_into};
use std::alloc::{AllocError, AllocFailed, Global};
use std::rc::Rc;
use thiserror::Error;

/// Why the tokens are no expression.
#[derive(Clone, Copy, Debug, PartialEq, Eq, Error)]
pub enum ExprFault {
    /// The longest prefix of the tokens that begins some expression is not one itself (E8).
    #[error("syntax")]
    Syntax,
    /// More than 64 `(` and `!` are open at once (E12).
    #[error("too deep")]
    TooDeep,
    /// Memory ran out (E20).
    #[error("out of memory")]
    Memory,
}

impl From<AllocError> for ExprFault {
    ghost from_gives = { λ _ e. e ≡ Memory };

    fn from(_e: AllocError) -> ExprFault {
        ExprFault::Memory
    }
}

impl<T: Drop> From<AllocFailed<T>> for ExprFault {
    ghost from_gives = { λ _ e. e ≡ Memory };

    fn from(_e: AllocFailed<T>) -> ExprFault {
        ExprFault::Memory
    }
}

// How many `(` and `!` may be open at once.
const MOST_LEVELS: usize = 64;

/// Parses the longest prefix of the tokens from `at` on that begins some expression. Returns that expression and the
/// position of the first token after it:
///
/// ```text
/// or      = and { "||" and }
/// and     = not { "&&" not }
/// not     = "!" not | "(" or ")" | operand [ ("=" | "!=" | "<" | ">" | "<=" | ">=") operand ]
/// operand = a word other than if | a quoted text
/// ```
///
/// Two parts or more are one `All` or `Any`, a single part is itself, and parentheses add nothing. In a condition,
/// an operand `m`, quoted or not, that is not a side of a relation is [`Expr::Module`].
///
/// [`ExprFault::TooDeep`]: a 65th `(` or `!` is opened at once. Otherwise [`ExprFault::Syntax`]: that prefix is not an
/// expression itself. [`ExprFault::Memory`]: memory ran out, which needs an operand. On `Ok` the new names of the
/// prefix follow the old names, in the order of their first mention. After an `Err` some new names may have been
/// added to the old ones.
pub fn parse(
    alloc: Global,
    tokens: &[Token],
    at: usize,
    condition: bool,
    names: &mut Names,
) -> Result<(Expr, usize), ExprFault>
    requires { at ≤ length tokens.now }
    ensures parsed { IfOk result (λ r. IsParsed condition (terminals_from tokens.now at) (terminals_from tokens.now r.1) names.old names.new (form_of r.0)) }
    ensures within { IfOk result (λ r. (at ≤ r.1) × (r.1 ≤ length tokens.now)) }
    ensures refused { IfErr result (λ f. IsRefused f (terminals_from tokens.now at)) }
    ensures names { Extends names.old names.new }
{
    if is_lone(tokens, at) {
        return lone(alloc, tokens, at, condition, names);
    }
    chain(
        alloc,
        tokens,
        at,
        MOST_LEVELS,
        Connective::Or,
        condition,
        names,
    )
}

/// A law: no two derivations of the grammar have the same tokens.
pub fn grammar_is_unambiguous()
    ensures { IsUnambiguous }
{}

/// A law: tokens have at most one longest prefix that begins some expression.
pub fn longest_front_is_unique()
    ensures { HasOneLongestFront }
{}

/// A law: the tokens determine the result of [`parse`]: at most one expression with its end and names, or one of the
/// two errors.
pub fn parsing_is_determined()
    ensures { (ts : List Terminal) → IsDetermined ts }
{}

/// A law: the grammar has exactly one result for tokens. The longest prefix that begins some expression is an expression of at
/// most 64 levels, or it is not an expression, or a 65th level is opened.
pub fn one_answer()
    ensures { OneAnswer }
{}

/// Whether there is a word or a quoted text at a position, and no operator after it.
fn is_lone(tokens: &[Token], at: usize) -> bool
    ensures { IsLone tokens.now at result }
{
    match next(tokens, at) {
        Some(Token::Word(_) | Token::Quoted(_)) => !stands_op(tokens, at + 1),
        _ => false,
    }
}

// Whether there is an operator or a parenthesis at a position.
fn stands_op(tokens: &[Token], at: usize) -> bool
    ensures { result ≡ false → StartsNoOp (terminals_from tokens.now at) }
{
    matches!(next(tokens, at), Some(Token::Op(_)))
}

// Reads an operand that is a whole expression, the most common case, without going down the grammar.
fn lone(
    alloc: Global,
    tokens: &[Token],
    at: usize,
    condition: bool,
    names: &mut Names,
) -> Result<(Expr, usize), ExprFault>
    requires { IsLone tokens.now at true }
    ensures parsed { IfOk result (λ r. ParsedChain Or condition most_levels (terminals_from tokens.now at) (terminals_from tokens.now r.1) names.old names.new (form_of r.0)) }
    ensures within { IfOk result (λ r. (at ≤ r.1) × (r.1 ≤ length tokens.now)) }
    ensures fails { IfErr result (λ f. FailsChain Or f most_levels (terminals_from tokens.now at)) }
    ensures names { Extends names.old names.new }
{
    let Some(found) = operand(alloc, tokens, at, names)? else {
        return Err(ExprFault::Syntax);
    };
    Ok((lone_expression(found, condition), at + 1))
}

// One part or more, joined by the connective.
#[cycle(parse)]
fn chain(
    alloc: Global,
    tokens: &[Token],
    at: usize,
    levels: usize,
    connective: Connective,
    condition: bool,
    names: &mut Names,
) -> Result<(Expr, usize), ExprFault>
    requires { at ≤ length tokens.now }
    ensures parsed { IfOk result (λ r. ParsedChain connective condition levels (terminals_from tokens.now at) (terminals_from tokens.now r.1) names.old names.new (form_of r.0)) }
    ensures within { IfOk result (λ r. (at ≤ r.1) × (r.1 ≤ length tokens.now)) }
    ensures fails { IfErr result (λ f. FailsChain connective f levels (terminals_from tokens.now at)) }
    ensures names { Extends names.old names.new }
{
    let (first, end) = part(alloc, tokens, at, levels, connective, condition, names)?;
    if !is_joined(tokens, end, connective) {
        return Ok((first, end));
    }
    let (second, mut place) = part(alloc, tokens, end + 1, levels, connective, condition, names)?;
    let mut parts = Parts {
        first,
        second,
        rest: Vec::new(alloc),
    };
    'rest: while is_joined(tokens, place, connective) {
        let (next, end) = part(
            alloc,
            tokens,
            place + 1,
            levels,
            connective,
            condition,
            names,
        )?;
        parts.rest.push(next)?;
        place = end;
    }
    Ok((connected(connective, Box::new(alloc, parts)?), place))
}

// One part of a chain: conjunctions are joined by `||`, negations by `&&`.
#[cycle(parse)]
#[inline(always)]
fn part(
    alloc: Global,
    tokens: &[Token],
    at: usize,
    levels: usize,
    connective: Connective,
    condition: bool,
    names: &mut Names,
) -> Result<(Expr, usize), ExprFault>
    requires { at ≤ length tokens.now }
    ensures parsed { IfOk result (λ r. ParsedPart connective condition levels (terminals_from tokens.now at) (terminals_from tokens.now r.1) names.old names.new (form_of r.0)) }
    ensures within { IfOk result (λ r. (at ≤ r.1) × (r.1 ≤ length tokens.now)) }
    ensures fails { IfErr result (λ f. FailsPart connective f levels (terminals_from tokens.now at)) }
    ensures names { Extends names.old names.new }
{
    match connective {
        Connective::And => negation(alloc, tokens, at, levels, condition, names),
        Connective::Or => chain(alloc, tokens, at, levels, Connective::And, condition, names),
    }
}

// Reads one part of a conjunction.
#[cycle(parse)]
fn negation(
    alloc: Global,
    tokens: &[Token],
    at: usize,
    levels: usize,
    condition: bool,
    names: &mut Names,
) -> Result<(Expr, usize), ExprFault>
    requires { at ≤ length tokens.now }
    ensures parsed { IfOk result (λ r. ParsedNot condition levels (terminals_from tokens.now at) (terminals_from tokens.now r.1) names.old names.new (form_of r.0)) }
    ensures within { IfOk result (λ r. (at ≤ r.1) × (r.1 ≤ length tokens.now)) }
    ensures fails { IfErr result (λ f. FailsNot f levels (terminals_from tokens.now at)) }
    ensures names { Extends names.old names.new }
{
    if is_op(tokens, at, Op::Not) {
        if levels == 0 {
            return Err(ExprFault::TooDeep);
        }
        let (operand, end) = negation(alloc, tokens, at + 1, levels - 1, condition, names)?;
        return Ok((negated(alloc, operand)?, end));
    }
    if is_op(tokens, at, Op::LParen) {
        if levels == 0 {
            return Err(ExprFault::TooDeep);
        }
        let (inner, end) = chain(
            alloc,
            tokens,
            at + 1,
            levels - 1,
            Connective::Or,
            condition,
            names,
        )?;
        if !is_op(tokens, end, Op::RParen) {
            return Err(ExprFault::Syntax);
        }
        return Ok((inner, end + 1));
    }
    relation(alloc, tokens, at, condition, names)
}

// `!` before an expression.
fn negated(alloc: Global, inner: Expr) -> Result<Expr, AllocError>
    ensures { IfOk result (λ e. form_of e ≡ Negated (form_of inner)) }
{
    match inner {
        Expr::One(operand) => Ok(Expr::NotOne(operand)),
        other => Ok(Expr::Not(Box::new(alloc, other)?)),
    }
}

// Reads an operand, or a relation of two operands.
#[inline(always)]
fn relation(
    alloc: Global,
    tokens: &[Token],
    at: usize,
    condition: bool,
    names: &mut Names,
) -> Result<(Expr, usize), ExprFault>
    requires no_op { StartsNoOperand (terminals_from tokens.now at) }
    ensures parsed { IfOk result (λ r. (k : ℕ) → ParsedNot condition k (terminals_from tokens.now at) (terminals_from tokens.now r.1) names.old names.new (form_of r.0)) }
    ensures within { IfOk result (λ r. (at ≤ r.1) × (r.1 ≤ length tokens.now)) }
    ensures fails { IfErr result (λ f. (k : ℕ) → FailsNot f k (terminals_from tokens.now at)) }
    ensures names { Extends names.old names.new }
{
    let Some(left) = operand(alloc, tokens, at, names)? else {
        return Err(ExprFault::Syntax);
    };
    let Some(op) = relation_op(tokens, at + 1) else {
        return Ok((lone_expression(left, condition), at + 1));
    };
    let Some(right) = operand(alloc, tokens, at + 2, names)? else {
        return Err(ExprFault::Syntax);
    };
    let operands = Box::new(alloc, Operands { left, right })?;
    Ok((Expr::Rel(op, operands), at + 3))
}

// An operand that is alone. In a condition, m alone also depends on the modules symbol.
fn lone_expression(operand: Operand, condition: bool) -> Expr
    ensures { form_of result ≡ lone_form condition (leaf_of operand) }
{
    if condition && is_m(&operand) {
        Expr::Module
    } else {
        Expr::One(operand)
    }
}

// The constant m.
fn is_m(operand: &Operand) -> bool
    ensures { result ≡ is_m_leaf (leaf_of operand.now) }
{
    match operand {
        Operand::Const(text) => text.as_slice() == b"m".as_slice(),
        Operand::TristateConstant(Tri::M) => true,
        Operand::TristateConstant(_) | Operand::Sym(_) => false,
    }
}

// Reads the operand at a position, if there is one.
#[inline(always)]
#[tactic(auto, using(crate::proofs::ConstantLemmas::constant_text))]
fn operand(
    alloc: Global,
    tokens: &[Token],
    at: usize,
    names: &mut Names,
) -> Result<Option<Operand>, ExprFault>
    ensures reads { IfOk result (λ o. ReadsOperand o tokens.now at names.old names.new) }
    ensures memory { IfErr result (IsMemoryAt (terminals_from tokens.now at)) }
    ensures names { Extends names.old names.new }
{
    match next(tokens, at) {
        Some(Token::Word(word)) => {
            if word == b"if".as_slice() {
                return Ok(None);
            }
            if let Some(constant) = tristate_constant(word) {
                return Ok(Some(Operand::TristateConstant(constant)));
            }
            Ok(Some(Operand::Sym(names.id(word)?)))
        }
        Some(Token::Quoted(text)) => {
            let mut bytes = Vec::new(alloc);
            unescape_into(text, &mut bytes)?;
            Ok(Some(Operand::Const(Rc::new(alloc, bytes)?)))
        }
        _ => Ok(None),
    }
}

// The operator of a relation at a position, if there is one.
fn relation_op(tokens: &[Token], at: usize) -> Option<Op>
    ensures { ReadsRelation result tokens.now at }
{
    match next(tokens, at) {
        Some(Token::Op(op @ (Op::Eq | Op::Ne | Op::Lt | Op::Gt | Op::Le | Op::Ge))) => Some(op),
        _ => None,
    }
}

// Whether the connective is at a position.
fn is_joined(tokens: &[Token], at: usize, connective: Connective) -> bool
    ensures { IsJoined connective tokens.now at result }
{
    match connective {
        Connective::And => is_op(tokens, at, Op::And),
        Connective::Or => is_op(tokens, at, Op::Or),
    }
}

// The chain of two parts or more.
#[tactic(auto, using(crate::proofs::FormLemmas::chain_forms))]
fn connected(connective: Connective, parts: Box<Parts>) -> Expr
    ensures { form_of result ≡ named.connected connective (forms (map form_of (parts_of parts.value))) }
{
    match connective {
        Connective::And => Expr::All(parts),
        Connective::Or => Expr::Any(parts),
    }
}

// Whether this operator or parenthesis is at a position.
fn is_op(tokens: &[Token], at: usize, op: Op) -> bool
    ensures { IsOp op tokens.now at result }
{
    match next(tokens, at) {
        Some(Token::Op(found)) => found == op,
        _ => false,
    }
}

// The token at a position, if there is one.
fn next<'a>(tokens: &[Token<'a>], at: usize) -> Option<Token<'a>>
    ensures { IsNext result tokens.now at }
{
    if at < tokens.len() {
        Some(tokens[at])
    } else {
        None
    }
}
