//! The parts of a line: texts, names, operands and expressions.

ghost use Rattle.std.specs.Prelude.{◌≡◌, ◌≤◌, [], false, length, IfOk, IfErr, OnOk, Err, IsTrue, ◌<◌};
ghost use Rattle.kc_expr.specs.Form.{form_of, leaf_of};
ghost use Rattle.kc_language.specs.Expressions.{if_word, same_name, mention};
ghost use Rattle.kc_expr.specs.PartsOfExpressions.{is_tristate_constant};
ghost use Rattle.kc_expr.specs.Names.{IsNumber, Extends};
ghost use Rattle.kc_language.specs.declared.diagnostics.Cause.TheVariants.{Memory, Syntax};
ghost use Rattle.kc_language.specs.Statements as spec;
ghost use Rattle.kc_entries.specs.PartsOfStatements as spec_parts;
ghost use Rattle.kc_language.specs.Statements.{IsMore, ExpressionFault, WholeFault, ConditionFault};
ghost use Rattle.kc_expr.specs.When.{when_view};
ghost use Rattle.kc_read.specs.LineReads.{IsToken, IsFault, IsPart, IsFront, IsWholeForm, IsConditionForm, IsOperand, cause_of, expression_cause, unquoted_text, lexemes_from};

use crate::constants::Constants;
use crate::keywords::same_word;
use kc_diagnostics::Cause;
use kc_entries::statement::LineFault;
use kc_expr::expression::{Expr, Operand, SymId};
use kc_expr::names::{Names, are_name_bytes};
use kc_expr::parse::{ExprFault, parse};
use kc_expr::values::tristate_constant;
use kc_text::{Token, unescape_into};
use std::alloc::Global;
use std::rc::Rc;

// The most bytes of a symbol's name.
const LONGEST_NAME: usize = 255;

/// The token at a position, if there is one.
pub(crate) fn next<'a>(tokens: &[Token<'a>], at: usize) -> Option<Token<'a>>
    ensures { IsToken result tokens.now at }
{
    if at < tokens.len() {
        Some(tokens[at])
    } else {
        None
    }
}

/// Whether this word is at a position.
#[inline(always)]
pub(crate) fn begins_with(tokens: &[Token], at: usize, word: &[u8]) -> bool
    ensures word { result ≡ spec.begins_with word.now (lexemes_from tokens.now at) }
    ensures within { IsTrue result → at < length tokens.now }
{
    match next(tokens, at) {
        Some(Token::Word(found)) => same_word(found, word),
        _ => false,
    }
}

/// Whether a word is `if`.
pub(crate) fn is_if(word: &[u8]) -> bool
    ensures { result ≡ same_name word.now if_word }
{
    same_word(word, b"if")
}

/// Whether a word is n, m or y.
pub(crate) fn is_tristate_constant(word: &[u8]) -> bool
    ensures { result ≡ is_tristate_constant word.now }
{
    tristate_constant(word).is_some()
}

/// The fault of a line that is no statement.
pub(crate) fn syntax() -> LineFault<'static>
    ensures { cause_of result ≡ Syntax }
{
    Cause::Syntax
}

/// Checks that the line ends at a position.
pub(crate) fn end<'a>(tokens: &[Token<'a>], at: usize) -> Result<(), LineFault<'a>>
    ensures end { OnOk result (lexemes_from tokens.now at ≡ []) }
    ensures more { IfErr result (λ f. IsMore (lexemes_from tokens.now at) × (cause_of f ≡ Syntax)) }
{
    match next(tokens, at) {
        Some(_) => Err(syntax()),
        None => Ok(()),
    }
}

/// The word at a position.
pub(crate) fn word_at<'a>(tokens: &[Token<'a>], at: usize) -> Result<&'a [u8], LineFault<'a>>
    ensures part { IsPart (spec.word_of (lexemes_from tokens.now at)) (λ w. w.now) result }
    ensures within { OnOk result (at < length tokens.now) }
{
    match next(tokens, at) {
        Some(Token::Word(word)) => Ok(word),
        _ => Err(syntax()),
    }
}

/// The text at a position as it is written, and whether it is quoted.
pub(crate) fn raw_text<'a>(
    tokens: &[Token<'a>],
    at: usize,
) -> Result<(&'a [u8], bool), LineFault<'a>>
    ensures part { IsPart (spec.text_of (lexemes_from tokens.now at)) (λ t. unquoted_text t.1 t.0.now) result }
    ensures within { OnOk result (at < length tokens.now) }
{
    match next(tokens, at) {
        Some(Token::Word(word)) => {
            if is_if(word) {
                return Err(syntax());
            }
            Ok((word, false))
        }
        Some(Token::Quoted(text)) => Ok((text, true)),
        _ => Err(syntax()),
    }
}

/// The text at a position.
pub(crate) fn text_at<'a>(
    alloc: Global,
    tokens: &[Token<'a>],
    at: usize,
) -> Result<Vec<u8>, LineFault<'a>>
    ensures part { IsPart (spec.text_of (lexemes_from tokens.now at)) (λ t. t.items) result }
    ensures within { OnOk result (at < length tokens.now) }
{
    let (text, quoted) = raw_text(tokens, at)?;
    if !quoted {
        return Ok(Vec::from_slice(alloc, text)?);
    }
    let mut out = Vec::new(alloc);
    unescape_into(text, &mut out)?;
    Ok(out)
}

/// The name after `select` or `imply`.
pub(crate) fn target_at<'a>(tokens: &[Token<'a>], at: usize) -> Result<&'a [u8], LineFault<'a>>
    ensures part { IsPart (spec.named_target (lexemes_from tokens.now at)) (λ w. w.now) result }
    ensures within { OnOk result (at < length tokens.now) }
{
    match next(tokens, at) {
        Some(Token::Word(word)) => {
            if word == b"if".as_slice() || tristate_constant(word).is_some() {
                Err(syntax())
            } else {
                Ok(word)
            }
        }
        _ => Err(syntax()),
    }
}

/// The fault of a line whose expression is refused.
pub(crate) fn fault_of<'a>(fault: ExprFault) -> LineFault<'a>
    ensures { cause_of result ≡ expression_cause fault }
{
    match fault {
        ExprFault::Syntax => syntax(),
        ExprFault::TooDeep => Cause::TooDeep,
        ExprFault::Memory => Cause::Memory,
    }
}

/// The expression at a position, and the position after it.
#[inline(always)]
pub(crate) fn front<'a>(
    alloc: Global,
    tokens: &[Token<'a>],
    at: usize,
    condition: bool,
    names: &mut Names,
) -> Result<(Expr, usize), LineFault<'a>>
    requires { at ≤ length tokens.now }
    ensures front { IfOk result (λ r. IsFront condition names.old names.new (lexemes_from tokens.now at) (lexemes_from tokens.now r.1) (form_of r.0)) }
    ensures within { IfOk result (λ r. r.1 ≤ length tokens.now) }
    ensures fault { IfErr result (λ f. IsFault f (ExpressionFault (lexemes_from tokens.now at))) }
    ensures names { Extends names.old names.new }
{
    match parse(alloc, tokens, at, condition, names) {
        Ok((expr, end)) => Ok((expr, end)),
        Err(fault) => Err(fault_of(fault)),
    }
}

/// The value of a default at a position, and the position after it. The expression is shared.
#[inline(always)]
pub(crate) fn value_at<'a>(
    alloc: Global,
    constants: &Constants,
    tokens: &[Token<'a>],
    at: usize,
    names: &mut Names,
) -> Result<(Rc<Expr>, usize), LineFault<'a>>
    requires { at ≤ length tokens.now }
    ensures front { IfOk result (λ r. IsFront false names.old names.new (lexemes_from tokens.now at) (lexemes_from tokens.now r.1) (form_of r.0.value)) }
    ensures within { IfOk result (λ r. r.1 ≤ length tokens.now) }
    ensures fault { IfErr result (λ f. IsFault f (ExpressionFault (lexemes_from tokens.now at))) }
    ensures names { Extends names.old names.new }
{
    let (value, after) = front(alloc, tokens, at, false, names)?;
    let shared = constants.shared(alloc, value)?;
    Ok((shared, after))
}

/// A condition up to the end of the line. The expression is shared.
#[inline(always)]
pub(crate) fn whole<'a>(
    alloc: Global,
    tokens: &[Token<'a>],
    at: usize,
    names: &mut Names,
) -> Result<Rc<Expr>, LineFault<'a>>
    requires { at ≤ length tokens.now }
    ensures whole { IfOk result (λ e. IsWholeForm names.old names.new (lexemes_from tokens.now at) (form_of e.value)) }
    ensures fault { IfErr result (λ f. IsFault f (WholeFault (lexemes_from tokens.now at))) }
    ensures names { Extends names.old names.new }
{
    let (expr, after) = front(alloc, tokens, at, true, names)?;
    end(tokens, after)?;
    Ok(Rc::new(alloc, expr)?)
}

/// A condition: nothing, or `if` and an expression, up to the end of the line.
#[inline(always)]
pub(crate) fn condition<'a>(
    alloc: Global,
    tokens: &[Token<'a>],
    at: usize,
    names: &mut Names,
) -> Result<Option<Rc<Expr>>, LineFault<'a>>
    requires { at ≤ length tokens.now }
    ensures condition { IfOk result (λ e. IsConditionForm names.old names.new (lexemes_from tokens.now at) (when_view e)) }
    ensures fault { IfErr result (λ f. IsFault f (ConditionFault (lexemes_from tokens.now at))) }
    ensures names { Extends names.old names.new }
{
    if begins_with(tokens, at, b"if") {
        let when = whole(alloc, tokens, at + 1, names)?;
        return Ok(Some(when));
    }
    end(tokens, at)?;
    Ok(None)
}

/// The number of a name. A name keeps its number.
pub(crate) fn name_number<'a>(names: &mut Names, word: &[u8]) -> Result<SymId, LineFault<'a>>
    ensures number { IfOk result (λ id. IsNumber names.new word.now id) }
    ensures mentions { OnOk result (names.new ≡ mention names.old word.now) }
    ensures memory { IfErr result (λ f. f ≡ Memory) }
    ensures names { Extends names.old names.new }
{
    let id = names.id(word)?;
    Ok(id)
}

/// The operand at a position.
#[inline(always)]
pub(crate) fn operand_at<'a>(
    alloc: Global,
    tokens: &[Token<'a>],
    at: usize,
    names: &mut Names,
) -> Result<Operand, LineFault<'a>>
    ensures operand { IfOk result (λ o. IsOperand names.old names.new (spec.operand_of (lexemes_from tokens.now at)) (leaf_of o)) }
    ensures fault { IfErr result (λ f. IsFault f (λ c. spec.operand_of (lexemes_from tokens.now at) ≡ Err c)) }
    ensures within { OnOk result (at < length tokens.now) }
    ensures names { Extends names.old names.new }
{
    match next(tokens, at) {
        Some(Token::Word(word)) => {
            if is_if(word) {
                return Err(syntax());
            }
            if let Some(constant) = tristate_constant(word) {
                return Ok(Operand::TristateConstant(constant));
            }
            let id = name_number(names, word)?;
            Ok(Operand::Sym(id))
        }
        Some(Token::Quoted(text)) => {
            let mut bytes = Vec::new(alloc);
            unescape_into(text, &mut bytes)?;
            Ok(Operand::Const(Rc::new(alloc, bytes)?))
        }
        _ => Err(syntax()),
    }
}

/// Whether the name is allowed for a symbol.
pub(crate) fn is_good_name(word: &[u8]) -> bool
    ensures { result ≡ spec.is_good_name word.now }
{
    if is_if(word) || is_tristate_constant(word) {
        return false;
    }
    let length = word.len();
    1 <= length && length <= LONGEST_NAME && are_name_bytes(word)
}

/// Whether the text has a `*`, `?` or `[`.
pub(crate) fn is_pattern(text: &[u8]) -> bool
    ensures { result ≡ spec_parts.is_pattern text.now }
{
    text.iter().any(|b| *b == b'*' || *b == b'?' || *b == b'[')
}
