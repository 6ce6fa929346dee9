//! Relations: the values of their sides that make them hold.

use crate::costs::Costs;
use crate::facts::{Aim, Fact, Outcome};
use crate::memo::{IMPOSSIBLE, plus};
use crate::texts::{Hand, TextWay, Wanted, text_ways};
use kc_expr::expression::{Operand, Operands, SymId, SymbolType, Tri};
use kc_expr::values::tristate_constant;
use kc_text::Op;
use std::alloc::AllocError;

/// A side of a relation.
#[derive(Clone, Copy)]
pub(crate) enum Side {
    /// A bool or tristate symbol.
    Truth(SymId),
    /// N, m or y.
    Constant(Tri),
    /// A string, int or hex symbol.
    Text(SymId),
    /// Another constant, or a name that is not defined.
    Other,
}

/// What makes a relation hold.
#[derive(Clone, Copy)]
pub(crate) enum Making {
    /// The sides have these values.
    Values(Tri, Tri),
    /// This side gets a text in this way.
    Text(Hand, TextWay),
}

/// The side that an operand is.
pub(crate) fn side_of(outcome: &Outcome<'_>, operand: &Operand) -> Side {
    match operand {
        Operand::TristateConstant(value) => Side::Constant(*value),
        Operand::Const(text) => match tristate_constant(text) {
            Some(value) => Side::Constant(value),
            None => Side::Other,
        },
        Operand::Sym(id) => match outcome.type_of(*id) {
            SymbolType::Bool | SymbolType::Tristate => Side::Truth(*id),
            SymbolType::Str | SymbolType::Int | SymbolType::Hex => Side::Text(*id),
            SymbolType::Undefined => Side::Other,
        },
    }
}

// Whether a relation holds between two truth values.
fn relates(op: Op, a: Tri, b: Tri) -> bool {
    match op {
        Op::Eq => a == b,
        Op::Ne => a != b,
        Op::Lt => a < b,
        Op::Gt => a > b,
        Op::Le => a <= b,
        Op::Ge => a >= b,
        _ => false,
    }
}

/// The relation that holds where this one does not.
pub(crate) fn negated(op: Op) -> Op {
    match op {
        Op::Eq => Op::Ne,
        Op::Ne => Op::Eq,
        Op::Lt => Op::Ge,
        Op::Ge => Op::Lt,
        Op::Gt => Op::Le,
        Op::Le => Op::Gt,
        other => other,
    }
}

/// The facts that a side has a truth value, at most two.
pub(crate) fn facts_of(
    outcome: &Outcome<'_>,
    side: Side,
    value: Tri,
) -> (Option<Fact>, Option<Fact>) {
    let Side::Truth(id) = side else {
        return (None, None);
    };
    match value {
        Tri::N => (None, Some(outcome.truth(id, Aim::AtMostN))),
        Tri::M => (
            Some(outcome.truth(id, Aim::AtLeastM)),
            Some(outcome.truth(id, Aim::AtMostM)),
        ),
        Tri::Y => (Some(outcome.truth(id, Aim::AtLeastY)), None),
    }
}

// Whether a side may have a truth value.
fn may_be(outcome: &Outcome<'_>, side: Side, value: Tri) -> bool {
    match side {
        Side::Truth(id) => value != Tri::M || outcome.type_of(id) == SymbolType::Tristate,
        Side::Constant(constant) => constant == value,
        Side::Text(_) | Side::Other => false,
    }
}

/// A relation between two sides.
#[derive(Clone, Copy)]
pub(crate) struct Relation {
    pub op: Op,
    pub left: Side,
    pub right: Side,
}

impl Relation {
    /// The relation that shall hold so that the one with this operator will do.
    pub(crate) fn of(outcome: &Outcome<'_>, op: Op, operands: &Operands, aim: Aim) -> Relation {
        Relation {
            op: if aim.is_least() { op } else { negated(op) },
            left: side_of(outcome, &operands.left),
            right: side_of(outcome, &operands.right),
        }
    }

    // Whether the sides may have these values, with which the relation holds.
    fn allows(&self, outcome: &Outcome<'_>, left: Tri, right: Tri) -> bool {
        relates(self.op, left, right)
            && may_be(outcome, self.left, left)
            && may_be(outcome, self.right, right)
    }
}

impl<'a> Costs<'a> {
    // The cost of a side with this truth value.
    fn side(&mut self, side: Side, value: Tri) -> Result<u32, AllocError> {
        let (first, second) = facts_of(&self.prices.outcome, side, value);
        let cost = self.some_fact(first)?;
        let other = self.some_fact(second)?;
        Ok(plus(cost, other))
    }

    // The cheapest truth values of the sides of a relation, and what they cost.
    fn values(&mut self, relation: &Relation) -> Result<(u32, Making), AllocError> {
        let mut best = IMPOSSIBLE;
        let mut making = Making::Values(Tri::N, Tri::N);
        for left in [Tri::N, Tri::M, Tri::Y] {
            for right in [Tri::N, Tri::M, Tri::Y] {
                if relation.allows(&self.prices.outcome, left, right) {
                    let first = self.side(relation.left, left)?;
                    let second = self.side(relation.right, right)?;
                    let cost = plus(first, second);
                    if cost < best {
                        best = cost;
                        making = Making::Values(left, right);
                    }
                }
            }
        }
        Ok((best, making))
    }

    // The cheapest way to the text of a side of a relation, if it has a text and costs less than this.
    fn cheaper_text(
        &mut self,
        relation: &Relation,
        operands: &Operands,
        hand: Hand,
        most: u32,
    ) -> Result<Option<(u32, TextWay)>, AllocError> {
        let outcome = self.prices.outcome;
        let Some(wanted) = Wanted::beside(&outcome, relation, operands, hand) else {
            return Ok(None);
        };
        let mut least = most;
        let mut cheapest = None;
        let ways = text_ways(self.alloc, &outcome, &wanted)?;
        for way in &ways {
            let cost = self.text_way(wanted.symbol, way)?;
            if cost < least {
                least = cost;
                cheapest = Some((cost, *way));
            }
        }
        Ok(cheapest)
    }

    /// What makes a relation hold, and what it costs.
    pub(crate) fn making(
        &mut self,
        relation: &Relation,
        operands: &Operands,
    ) -> Result<(u32, Making), AllocError> {
        let (mut least, mut making) = self.values(relation)?;
        for hand in [Hand::Left, Hand::Right] {
            if let Some((cost, way)) = self.cheaper_text(relation, operands, hand, least)? {
                least = cost;
                making = Making::Text(hand, way);
            }
        }
        Ok((least, making))
    }
}
