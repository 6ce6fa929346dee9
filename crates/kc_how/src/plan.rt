//! The cheapest lines that are expected to give a goal.

ghost use Rattle.kc_how.specs.Questions.{IsQuestion};

use crate::costs::{Costs, module_fact, needs_all, operand_fact};
use crate::facts::{Aim, Fact, Outcome};
use crate::lines::Line;
use crate::memo::{IMPOSSIBLE, Memo, plus};
use crate::needs::{Give, Need, Part};
use crate::penalties::{Penalty, Step};
use crate::prices::Prices;
use crate::question::Question;
use crate::reached::add_dependencies;
use crate::relations::{Making, Relation, Side, facts_of};
use crate::texts::{TextSource, TextWay, Wanted};
use crate::ways::ways_of;
use kc_expr::expression::{Expr, Operands, Parts, SymId, Tri};
use kc_expr::values::{eval, greater};
use kc_solve::solved::Solved;
use kc_user::value::UserValue;
use std::alloc::{AllocError, Global};

/// Lines that are expected to give the goal, the steps by which they do so that may fail or be taken in another way, and what they cost.
#[derive(Drop)]
pub(crate) struct Plan {
    pub lines: Vec<Line>,
    pub steps: Vec<Step>,
    pub cost: u32,
}

// A plan under construction.
#[derive(Drop)]
struct Draft<'a> {
    alloc: Global,
    plan: Plan,
    costs: Costs<'a>,
    // The number of the line of each symbol plus 1, or 0.
    given: Vec<usize>,
    // The facts that are still to be had.
    todo: Vec<Fact>,
}

// The value of two lines.
fn raised(first: &UserValue, value: Tri) -> Tri {
    match first {
        UserValue::Tri(Tri::N) => Tri::N,
        UserValue::Tri(given) => match value {
            Tri::N => *given,
            _ => greater(*given, value),
        },
        UserValue::Text(_) => value,
    }
}

// The number of the cheapest part of a chain.
fn cheapest_part(costs: &mut Costs<'_>, parts: &Parts, aim: Aim) -> Result<usize, AllocError> {
    let mut least = costs.expression(&parts.first, aim)?;
    let mut chosen = 0;
    let second = costs.expression(&parts.second, aim)?;
    if second < least {
        least = second;
        chosen = 1;
    }
    let mut number = 2usize;
    for part in parts.rest.iter() {
        let cost = costs.expression(part, aim)?;
        if cost < least {
            least = cost;
            chosen = number;
        }
        number = number.saturating_add(1);
    }
    Ok(chosen)
}

// The number of the part of a chain that is needed, or none if all are.
fn needed_part(costs: &mut Costs<'_>, e: &Expr, aim: Aim) -> Result<Option<usize>, AllocError> {
    match e {
        Expr::All(parts) | Expr::Any(parts) if !needs_all(e, aim) => {
            Ok(Some(cheapest_part(costs, parts, aim)?))
        }
        _ => Ok(None),
    }
}

// Whether the part with this number is needed.
fn is_needed(part: Option<usize>, number: usize) -> bool {
    match part {
        Some(part) => part == number,
        None => true,
    }
}

// Whether a fact is about the value of a symbol, or the line that gives it. A condition with one way can't fail by itself.
fn is_value(fact: Fact) -> bool {
    match fact {
        Fact::Truth(_, _) | Fact::First(_, _, _) | Fact::GoalText => true,
        _ => false,
    }
}

impl<'a> Draft<'a> {
    // The line of a symbol, if it has one.
    fn line_of(&mut self, id: SymId) -> Option<&mut Line> {
        let number = *self.given.get(id.0)?;
        if number == 0 {
            return None;
        }
        self.plan.lines.get_mut(number - 1)
    }

    // Adds the first line of a symbol.
    fn add_line(&mut self, symbol: SymId, value: UserValue) -> Result<(), AllocError> {
        self.plan.lines.push(Line { symbol, value })?;
        let count = self.plan.lines.len();
        if let Some(number) = self.given.get_mut(symbol.0) {
            *number = count;
        }
        Ok(())
    }

    // Adds a line that gives a symbol a truth value. Of two that turn it on the greater one counts, otherwise the first one.
    fn give_truth(&mut self, id: SymId, value: Tri) -> Result<(), AllocError> {
        match self.line_of(id) {
            Some(line) => {
                line.value = UserValue::Tri(raised(&line.value, value));
                Ok(())
            }
            None => self.add_line(id, UserValue::Tri(value)),
        }
    }

    // Adds a line that gives a symbol a text, if it has none yet.
    fn give_text(&mut self, id: SymId, value: UserValue) -> Result<(), AllocError> {
        if self.line_of(id).is_some() {
            return Ok(());
        }
        self.add_line(id, value)
    }

    // Adds the line that a way needs.
    fn give(&mut self, give: Give) -> Result<(), AllocError> {
        let goal = self.costs.prices.outcome.goal;
        match (give, &goal.value) {
            (Give::Truth(id, value), _) => self.give_truth(id, value),
            (Give::GoalText, UserValue::Text(text)) => {
                let copy = Vec::from_slice(self.alloc, text)?;
                self.give_text(goal.symbol, UserValue::Text(copy))
            }
            _ => Ok(()),
        }
    }

    // Adds a fact that is still to be had, if there is one.
    fn need(&mut self, fact: Option<Fact>) -> Result<(), AllocError> {
        if let Some(fact) = fact {
            self.todo.push(fact)?;
        }
        Ok(())
    }

    // Adds that a side of a relation has a truth value.
    fn add_side(&mut self, side: Side, value: Tri) -> Result<(), AllocError> {
        let (first, second) = facts_of(&self.costs.prices.outcome, side, value);
        self.need(first)?;
        self.need(second)
    }

    // Adds what a way to a text needs, and its line.
    fn add_text(&mut self, wanted: &Wanted<'_>, way: &TextWay) -> Result<(), AllocError> {
        for fact in way.facts(wanted.symbol) {
            self.need(fact)?;
        }
        if way.source != TextSource::Line {
            return Ok(());
        }
        let outcome = self.costs.prices.outcome;
        match wanted.line_value(self.alloc, &outcome, way)? {
            Some(value) => self.give_text(wanted.symbol, value),
            None => Ok(()),
        }
    }

    // Adds what makes a relation hold.
    fn add_relation(&mut self, relation: &Relation, operands: &Operands) -> Result<(), AllocError> {
        let (_, making) = self.costs.making(relation, operands)?;
        match making {
            Making::Values(left, right) => {
                self.add_side(relation.left, left)?;
                self.add_side(relation.right, right)
            }
            Making::Text(hand, way) => {
                let outcome = self.costs.prices.outcome;
                match Wanted::beside(&outcome, relation, operands, hand) {
                    Some(wanted) => self.add_text(&wanted, &way),
                    None => Ok(()),
                }
            }
        }
    }

    // Adds the facts of the cheapest branch of an expression that shall be so.
    fn add_expression(&mut self, e: &Expr, aim: Aim) -> Result<(), AllocError> {
        let outcome = self.costs.prices.outcome;
        match e {
            Expr::One(o) => self.need(operand_fact(&outcome, o, aim)),
            Expr::NotOne(o) => self.need(operand_fact(&outcome, o, aim.opposite())),
            Expr::Not(e) => self.add_expression(e, aim.opposite()),
            Expr::Module => self.need(module_fact(&outcome, aim)),
            Expr::Rel(op, operands) => {
                if aim.is_met(eval(e, outcome.now)) {
                    return Ok(());
                }
                let relation = Relation::of(&outcome, *op, operands, aim);
                self.add_relation(&relation, operands)
            }
            Expr::All(parts) | Expr::Any(parts) => {
                let needed = needed_part(&mut self.costs, e, aim)?;
                if is_needed(needed, 0) {
                    self.add_expression(&parts.first, aim)?;
                }
                if is_needed(needed, 1) {
                    self.add_expression(&parts.second, aim)?;
                }
                let mut number = 2usize;
                for part in parts.rest.iter() {
                    if is_needed(needed, number) {
                        self.add_expression(part, aim)?;
                    }
                    number = number.saturating_add(1);
                }
                Ok(())
            }
        }
    }

    // Adds the facts of a part.
    fn add_part(&mut self, part: Part<'a>) -> Result<(), AllocError> {
        match part {
            Part::Fact(fact) => self.need(Some(fact)),
            Part::Expression(e, aim) => self.add_expression(e, aim),
        }
    }

    // Adds the facts of the cheapest part of the condition of a line.
    fn add_cheapest(&mut self, parts: &[Part<'a>; 5]) -> Result<(), AllocError> {
        let mut least = IMPOSSIBLE;
        let mut chosen = None;
        for part in parts.iter() {
            let cost = self.costs.part(*part)?;
            if cost < least {
                least = cost;
                chosen = Some(*part);
            }
        }
        match chosen {
            Some(part) => self.add_part(part),
            None => Ok(()),
        }
    }

    // Adds the facts of what a way needs.
    fn add_need(&mut self, need: Need<'a>) -> Result<(), AllocError> {
        let (guard, aim) = match need {
            Need::Part(part) => return self.add_part(part),
            Need::Guard(guard, aim) => (guard, aim),
        };
        let parts = guard.parts(&self.costs.prices.outcome, aim);
        if !aim.is_least() {
            return self.add_cheapest(&parts);
        }
        for part in parts.iter() {
            self.add_part(*part)?;
        }
        Ok(())
    }

    // Adds a way to a fact: its line, and what it needs.
    fn add_way(&mut self, step: Step) -> Result<(), AllocError> {
        let ways = ways_of(self.alloc, &self.costs.prices.outcome, step.fact)?;
        let Some(way) = ways.numbered(step.way) else {
            return Ok(());
        };
        if ways.list.len() > 1 || is_value(step.fact) {
            self.plan.steps.push(step)?;
        }
        self.give(way.give)?;
        for place in way.start..way.end {
            if let Some(need) = ways.need_at(place) {
                self.add_need(need)?;
            }
        }
        Ok(())
    }

    // Walks along the cheapest ways from the facts that are to be had. No fact needs itself, so this ends.
    fn walk(&mut self) -> Result<(), AllocError> {
        for _ in 0..u32::MAX {
            let Some(fact) = self.todo.pop() else {
                break;
            };
            if let Some(way) = self.costs.memo.planned_way(fact) {
                self.add_way(Step { fact, way })?;
            }
        }
        Ok(())
    }
}

// The facts that the goal is, and those that end conflicts.
fn goal_facts(alloc: Global, outcome: &Outcome<'_>) -> Result<Vec<Fact>, AllocError> {
    let id = outcome.goal.symbol;
    let mut facts = Vec::new(alloc);
    match outcome.goal.value {
        UserValue::Tri(Tri::N) => facts.push(outcome.truth(id, Aim::AtMostN))?,
        UserValue::Tri(Tri::Y) => facts.push(outcome.truth(id, Aim::AtLeastY))?,
        UserValue::Tri(Tri::M) => {
            facts.push(outcome.truth(id, Aim::AtLeastM))?;
            facts.push(outcome.truth(id, Aim::AtMostM))?;
            if let Some(modules) = outcome.layout.modules {
                facts.push(outcome.truth(modules, Aim::AtLeastM))?;
            }
        }
        UserValue::Text(_) => facts.push(Fact::GoalText)?,
    }
    add_dependencies(outcome, &mut facts)?;
    Ok(facts)
}

// The cost of all these facts.
fn cost_of_all(costs: &mut Costs<'_>, facts: &[Fact]) -> Result<u32, AllocError> {
    for fact in facts {
        costs.fact(*fact)?;
    }
    costs.find()?;
    let mut sum = 0;
    for fact in facts {
        sum = plus(sum, costs.memo.known(*fact).unwrap_or(IMPOSSIBLE));
    }
    Ok(sum)
}

// The cheapest plan at these prices.
fn plan_at(alloc: Global, prices: &Prices<'_>) -> Result<Option<Plan>, AllocError> {
    let layout = prices.outcome.layout;
    let todo = goal_facts(alloc, &prices.outcome)?;
    let mut costs = Costs {
        alloc,
        prices: *prices,
        memo: Memo::new(alloc, layout)?,
    };
    costs.memo.note_penalties(prices.penalties)?;
    let cost = cost_of_all(&mut costs, &todo)?;
    if cost >= IMPOSSIBLE {
        return Ok(None);
    }
    let mut draft = Draft {
        alloc,
        plan: Plan {
            lines: Vec::new(alloc),
            steps: Vec::new(alloc),
            cost,
        },
        costs,
        given: vec![in alloc; 0; layout.symbols().len()]?,
        todo,
    };
    draft.walk()?;
    Ok(Some(draft.plan))
}

/// The cheapest plan from the outcome `now`, or none if no plan gives the goal.
pub(crate) fn cheapest(
    alloc: Global,
    question: &Question<'_, '_, '_, '_>,
    now: &Solved<'_, '_>,
    penalties: &[Penalty],
) -> Result<Option<Plan>, AllocError>
    requires { IsQuestion question.now }
{
    let prices = Prices {
        outcome: Outcome::of(question, now),
        penalties,
    };
    plan_at(alloc, &prices)
}

/// Whether a step failed: its fact does not hold in the outcome `now`, although all holds that its way needs.
pub(crate) fn has_failed(
    alloc: Global,
    question: &Question<'_, '_, '_, '_>,
    now: &Solved<'_, '_>,
    step: Step,
) -> Result<bool, AllocError>
    requires { IsQuestion question.now }
{
    let outcome = Outcome::of(question, now);
    if outcome.holds(step.fact) {
        return Ok(false);
    }
    let ways = ways_of(alloc, &outcome, step.fact)?;
    match ways.numbered(step.way) {
        Some(way) => Ok(ways.is_met(&way)),
        None => Ok(false),
    }
}
