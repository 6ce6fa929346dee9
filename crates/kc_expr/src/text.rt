//! The text of an expression.

ghost use Rattle.std.specs.Prelude.{◌≡◌, ◌++◌, [], OnOk, codes, if◌then◌else◌};
ghost use Rattle.kc_language.specs.Symbols.{name_by};
ghost use Rattle.kc_expr.specs.Form.{form_of, leaf_of};
ghost use Rattle.kc_language.specs.ExpressionTexts.{MeaningsAreReadable, ReadsBack};
ghost use Rattle.kc_language.specs.ExpressionTexts as spec;
ghost use Rattle.kc_language.specs.Tokens.{relation_text};

use crate::expression::{Expr, Operand, SymId};
use crate::names::Names;
use crate::values::{tri_text, tristate_constant};
use kc_language::expressions::Connective;
use kc_text::{Op, escape_into};
use std::alloc::AllocError;

/// Appends the text of an expression. [`crate::parse::parse`] reads it as the same expression, and it has only the
/// parentheses that the grammar needs. The only error is that memory runs out. Then a part of the text may have been appended.
pub fn add_expression(e: &Expr, names: &Names, text: &mut Vec<u8>) -> Result<(), AllocError>
    ensures { OnOk result (text.new.items ≡ text.old.items ++ spec.expression_text names.now (form_of e.now)) }
{
    add_at(e, None, names, text)
}

// Appends the text of an expression that is alone, a part of a chain or (`And`) after a `!`.
fn add_at(
    e: &Expr,
    place: Option<Connective>,
    names: &Names,
    text: &mut Vec<u8>,
) -> Result<(), AllocError>
    ensures { OnOk result (text.new.items ≡ text.old.items ++ spec.text_at names.now place (form_of e.now)) }
{
    match e {
        Expr::One(o) => add_operand(o, names, text),
        Expr::Rel(op, operands) => {
            add_operand(&operands.left, names, text)?;
            add_relation(*op, text)?;
            add_operand(&operands.right, names, text)
        }
        Expr::NotOne(o) => {
            text.extend_from_slice(b"!")?;
            add_operand(o, names, text)
        }
        Expr::Not(e) => {
            text.extend_from_slice(b"!")?;
            add_at(e, Some(Connective::And), names, text)
        }
        Expr::Module => text.extend_from_slice(b"m"),
        Expr::All(parts) => {
            let needed = is_and(place);
            add_if(needed, b"(", text)?;
            add_at(&parts.first, Some(Connective::And), names, text)?;
            text.extend_from_slice(b" && ")?;
            add_at(&parts.second, Some(Connective::And), names, text)?;
            for part in parts.rest.iter() {
                text.extend_from_slice(b" && ")?;
                add_at(part, Some(Connective::And), names, text)?;
            }
            add_if(needed, b")", text)
        }
        Expr::Any(parts) => {
            let needed = place.is_some();
            add_if(needed, b"(", text)?;
            add_at(&parts.first, Some(Connective::Or), names, text)?;
            text.extend_from_slice(b" || ")?;
            add_at(&parts.second, Some(Connective::Or), names, text)?;
            for part in parts.rest.iter() {
                text.extend_from_slice(b" || ")?;
                add_at(part, Some(Connective::Or), names, text)?;
            }
            add_if(needed, b")", text)
        }
    }
}

// Whether a chain of `&&` needs parentheses in this position.
fn is_and(place: Option<Connective>) -> bool
    ensures { result ≡ spec.is_and place }
{
    matches!(place, Some(Connective::And))
}

// Appends a parenthesis, if it is needed.
fn add_if(needed: bool, parenthesis: &[u8], text: &mut Vec<u8>) -> Result<(), AllocError>
    ensures { OnOk result (text.new.items ≡ text.old.items ++ (if needed then parenthesis.now else [])) }
{
    if needed {
        text.extend_from_slice(parenthesis)
    } else {
        Ok(())
    }
}

/// Appends an operand: a constant n, m or y as it is, another constant in quotes, a symbol by its name. The only error is that
/// memory runs out. Then a part of the text may have been appended.
pub fn add_operand(o: &Operand, names: &Names, text: &mut Vec<u8>) -> Result<(), AllocError>
    ensures { OnOk result (text.new.items ≡ text.old.items ++ spec.operand_text names.now (leaf_of o.now)) }
{
    match o {
        Operand::Const(bytes) => {
            if tristate_constant(bytes).is_some() {
                text.extend_from_slice(bytes)
            } else {
                add_quoted(bytes, text)
            }
        }
        Operand::TristateConstant(t) => text.extend_from_slice(tri_text(*t)),
        Operand::Sym(id) => add_name(*id, names, text),
    }
}

// Appends a text in quotes.
fn add_quoted(bytes: &[u8], text: &mut Vec<u8>) -> Result<(), AllocError>
    ensures { OnOk result (text.new.items ≡ text.old.items ++ spec.quoted bytes.now) }
{
    text.extend_from_slice(b"\"")?;
    escape_into(bytes, text)?;
    text.extend_from_slice(b"\"")
}

// Appends the name of a symbol, if it has one.
fn add_name(id: SymId, names: &Names, text: &mut Vec<u8>) -> Result<(), AllocError>
    ensures { OnOk result (text.new.items ≡ text.old.items ++ name_by names.now id) }
{
    match names.get(id) {
        Some(name) => text.extend_from_slice(name),
        None => Ok(()),
    }
}

// Appends a relation with a space on each side.
fn add_relation(op: Op, text: &mut Vec<u8>) -> Result<(), AllocError>
    ensures { OnOk result (text.new.items ≡ text.old.items ++ (codes " " ++ relation_text op ++ codes " ")) }
{
    text.extend_from_slice(match op {
        Op::Eq => b" = ",
        Op::Ne => b" != ",
        Op::Lt => b" < ",
        Op::Gt => b" > ",
        Op::Le => b" <= ",
        Op::Ge => b" >= ",
        _ => b"  ",
    })
}

/// A law: parsing the text of an expression gives the same expression.
pub fn text_is_read_back()
    ensures { ReadsBack }
{}

/// A law: the expressions of a line can be read back from their texts, once its names have numbers.
pub fn meanings_are_readable()
    ensures { MeaningsAreReadable }
{}
