//! What facts cost: the least cost of the ways to them.

use crate::facts::{Aim, Fact, Outcome};
use crate::memo::{IMPOSSIBLE, Memo, plus};
use crate::needs::{Give, Need, Part, Way, Ways};
use crate::penalties::{Blame, Step};
use crate::prices::Prices;
use crate::relations::Relation;
use crate::texts::{BY_TEXT_DEFAULT, TextSource, TextWay};
use crate::ways::ways_of;
use kc_expr::expression::{Expr, Operand, Operands, SymId, Tri};
use kc_expr::values::{eval, tristate_constant};
use std::alloc::{AllocError, Global};

// The cost of a value that never changes.
fn constant(value: Tri, aim: Aim) -> u32 {
    if aim.is_met(value) { 0 } else { IMPOSSIBLE }
}

/// The fact that an operand is so, or none if it is a constant.
pub(crate) fn operand_fact(outcome: &Outcome<'_>, o: &Operand, aim: Aim) -> Option<Fact> {
    match o {
        Operand::Sym(id) => Some(outcome.truth(*id, aim)),
        _ => None,
    }
}

/// The fact that a lone m of a condition is so, if that is not fixed: it is at most m, and the modules symbol is on.
pub(crate) fn module_fact(outcome: &Outcome<'_>, aim: Aim) -> Option<Fact> {
    let modules = outcome.layout.modules?;
    match aim {
        Aim::AtLeastM | Aim::AtMostN => Some(outcome.truth(modules, aim)),
        Aim::AtLeastY | Aim::AtMostM => None,
    }
}

/// Of two costs the sum if both are needed, otherwise the lesser one.
pub(crate) fn joined(are_needed: bool, a: u32, b: u32) -> u32 {
    if are_needed { plus(a, b) } else { a.min(b) }
}

/// Whether all parts of a chain shall be so: those of `&&` shall be at least so, or one at most; of `||` the other way round.
pub(crate) fn needs_all(e: &Expr, aim: Aim) -> bool {
    match e {
        Expr::All(_) => aim.is_least(),
        _ => !aim.is_least(),
    }
}

/// The prices, and the costs of facts that are known at them.
#[derive(Drop)]
pub(crate) struct Costs<'a> {
    pub alloc: Global,
    pub prices: Prices<'a>,
    pub memo: Memo,
}

impl<'a> Costs<'a> {
    /// The cost of a fact. Where it is not known yet it is asked for, and 0 stands for it.
    pub(crate) fn fact(&mut self, fact: Fact) -> Result<u32, AllocError> {
        let outcome = self.prices.outcome;
        self.memo.cost(&outcome, fact)
    }

    /// The cost of a fact, if there is one.
    pub(crate) fn some_fact(&mut self, fact: Option<Fact>) -> Result<u32, AllocError> {
        match fact {
            Some(fact) => self.fact(fact),
            None => Ok(0),
        }
    }

    // The cost of an operand that is no side of a relation.
    fn operand(&mut self, o: &Operand, aim: Aim) -> Result<u32, AllocError> {
        match o {
            Operand::Const(text) => Ok(constant(tristate_constant(text).unwrap_or(Tri::N), aim)),
            Operand::TristateConstant(value) => Ok(constant(*value, aim)),
            Operand::Sym(id) => {
                let fact = self.prices.outcome.truth(*id, aim);
                self.fact(fact)
            }
        }
    }

    // The cost of a lone m of a condition.
    fn module(&mut self, aim: Aim) -> Result<u32, AllocError> {
        let modules = match self.prices.outcome.layout.modules {
            Some(_) => Tri::M,
            None => Tri::N,
        };
        match module_fact(&self.prices.outcome, aim) {
            Some(fact) => self.fact(fact),
            None => Ok(constant(modules, aim)),
        }
    }

    // The cost of a relation.
    fn relation(
        &mut self,
        e: &Expr,
        operands: &Operands,
        relation: &Relation,
        aim: Aim,
    ) -> Result<u32, AllocError> {
        if aim.is_met(eval(e, self.prices.outcome.now)) {
            return Ok(0);
        }
        let (cost, _) = self.making(relation, operands)?;
        Ok(cost)
    }

    /// The cost of an expression that shall be so.
    pub(crate) fn expression(&mut self, e: &Expr, aim: Aim) -> Result<u32, AllocError> {
        match e {
            Expr::One(o) => self.operand(o, aim),
            Expr::NotOne(o) => self.operand(o, aim.opposite()),
            Expr::Not(e) => self.expression(e, aim.opposite()),
            Expr::Module => self.module(aim),
            Expr::Rel(op, operands) => {
                let relation = Relation::of(&self.prices.outcome, *op, operands, aim);
                self.relation(e, operands, &relation, aim)
            }
            Expr::All(parts) | Expr::Any(parts) => {
                let are_needed = needs_all(e, aim);
                let first = self.expression(&parts.first, aim)?;
                let second = self.expression(&parts.second, aim)?;
                let mut cost = joined(are_needed, first, second);
                for part in parts.rest.iter() {
                    let next = self.expression(part, aim)?;
                    cost = joined(are_needed, cost, next);
                }
                Ok(cost)
            }
        }
    }

    /// The cost of a part.
    pub(crate) fn part(&mut self, part: Part<'a>) -> Result<u32, AllocError> {
        match part {
            Part::Fact(fact) => self.fact(fact),
            Part::Expression(e, aim) => self.expression(e, aim),
        }
    }

    // The cost of what a way needs.
    fn need(&mut self, need: Need<'a>) -> Result<u32, AllocError> {
        let (guard, aim) = match need {
            Need::Part(part) => return self.part(part),
            Need::Guard(guard, aim) => (guard, aim),
        };
        let parts = guard.parts(&self.prices.outcome, aim);
        let mut cost = if aim.is_least() { 0 } else { IMPOSSIBLE };
        for part in parts.iter() {
            let next = self.part(*part)?;
            cost = joined(aim.is_least(), cost, next);
        }
        Ok(cost)
    }

    // How much more something costs, since it is to be avoided.
    fn penalty(&self, blame: Blame) -> u32 {
        self.memo.penalty(self.prices.penalties, blame)
    }

    // The cost of the line that a way needs.
    fn line(&self, give: Give) -> u32 {
        let more = match give {
            Give::Truth(id, _) => self.penalty(Blame::Line(id)),
            Give::Nothing | Give::GoalText => 0,
        };
        self.prices.line(give).saturating_add(more)
    }

    /// The cost of a way to a text of a symbol.
    pub(crate) fn text_way(&mut self, id: SymId, way: &TextWay) -> Result<u32, AllocError> {
        let mut cost = match way.source {
            TextSource::Line => plus(self.prices.text_line(id), self.penalty(Blame::Line(id))),
            TextSource::Default(_) => BY_TEXT_DEFAULT,
        };
        for fact in way.facts(id) {
            cost = plus(cost, self.some_fact(fact)?);
        }
        Ok(cost)
    }

    // The cost of a way to a fact, but for what is lost with the fact.
    fn way(&mut self, fact: Fact, ways: &Ways<'a>, way: &Way) -> Result<u32, AllocError> {
        let step = Step {
            fact,
            way: way.number,
        };
        let mut cost = plus(way.more, self.penalty(Blame::Step(step)));
        cost = plus(cost, self.line(way.give));
        for place in way.start..way.end {
            if let Some(need) = ways.need_at(place) {
                cost = plus(cost, self.need(need)?);
            }
        }
        Ok(cost)
    }

    // The cost of a fact, and the number of its cheapest way.
    fn cheapest_way(&mut self, fact: Fact, ways: &Ways<'a>) -> Result<(u32, usize), AllocError> {
        let mut least = IMPOSSIBLE;
        let mut number = 0;
        for way in ways.list.iter() {
            let cost = self.way(fact, ways, way)?;
            if cost < least {
                least = cost;
                number = way.number;
            }
        }
        Ok((plus(least, self.prices.loss(fact)), number))
    }

    // Finds the cost of an open fact, if that of all that its ways need is known. Otherwise these are open now.
    fn find_cost(&mut self, fact: Fact) -> Result<(), AllocError> {
        let before = self.memo.open.len();
        let ways = ways_of(self.alloc, &self.prices.outcome, fact)?;
        let (cost, number) = self.cheapest_way(fact, &ways)?;
        if self.memo.open.len() == before {
            self.memo.note(fact, cost, number);
        }
        Ok(())
    }

    /// Finds the costs of the open facts and of all that their ways need. No fact needs itself, so this ends.
    pub(crate) fn find(&mut self) -> Result<(), AllocError> {
        for _ in 0..u32::MAX {
            let Some(fact) = self.memo.last_open() else {
                break;
            };
            if self.memo.known(fact).is_some() {
                self.memo.open.pop();
            } else {
                self.find_cost(fact)?;
            }
        }
        Ok(())
    }
}
