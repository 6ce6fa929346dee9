//! The search for lines that reach the goal. Nothing is promised of it but that it ends.
//!
//! It plans lines and solves the tree with them. If they do not reach the goal, it goes on from there, and also plans again without what
//! failed. If they do, it drops what is not needed, and plans in another way, since another fragment may cost the user less.

ghost use Rattle.kc_how.specs.Questions.{IsQuestion};

use crate::answer::Miss;
use crate::lines::{Line, are_same, copied, laid_over};
use crate::minimal::minimal;
use crate::penalties::{Penalty, Rise, add_plan, total};
use crate::plan::Plan;
use crate::question::Question;
use crate::rank::{LINE, lines_cost};
use crate::reached::is_reached;
use crate::tries::{Budget, Verdict, planned, settled, tried, worth};
use kc_expr::expression::SymId;
use kc_user::value::allowed;
use std::alloc::{AllocError, Global};

// How many rounds follow the first fragment that reaches the goal, and how many such fragments are enough.
const MORE_ROUNDS: usize = 8;

const ENOUGH: usize = 4;

// The greatest sum of penalties with which a plan is made.
const MOST_PENALTIES: u32 = 20000;

// What a plan costs more with each round, and by how much its lines may cost more than the best candidate.
const ROUND_COST: u32 = 30;

const MOST_ABOVE_BEST: u32 = 150;

// What costs more after a plan that gave lines that were tried already. It is doubled each time.
const REPEATED: u32 = 150;

// After a plan that missed the goal.
const MISSED: Rise = Rise {
    step: 120,
    line: 120,
    start: 300,
};

// The same, for the steps that failed.
const FAILED: Rise = Rise {
    step: 500,
    line: 0,
    start: 300,
};

// After a plan that reached the goal.
const REACHED: Rise = Rise {
    step: 60,
    line: 200,
    start: 200,
};

// Lines from which the search goes on, what it avoids, what it expects to pay, and how much more the same plan costs the next time.
#[derive(Drop)]
struct State {
    lines: Vec<Line>,
    penalties: Vec<Penalty>,
    cost: u32,
    repeated: u32,
}

// Lines that reach the goal, and none of which can be left out.
#[derive(Drop)]
struct Candidate {
    lines: Vec<Line>,
    score: u32,
}

// A search.
#[derive(Drop)]
struct Search {
    goal: SymId,
    // Where it may go on.
    queue: Vec<State>,
    // The lines that were tried.
    tried: Vec<Vec<Line>>,
    // The best candidate, and the number of candidates.
    best: Option<Candidate>,
    found: usize,
    rounds_left: usize,
    // Whether lines reached the goal that were more than the tries that were left.
    were_too_many: bool,
    // What a plan costs more in this round.
    surcharge: u32,
    budget: Budget,
}

// These lines, and over them those of a plan that the user may give.
fn with_plan(
    alloc: Global,
    question: &Question<'_, '_, '_, '_>,
    lines: &[Line],
    plan: &mut Plan,
) -> Result<Vec<Line>, AllocError> {
    let tree = question.laid.tree;
    plan.lines
        .retain(|line| allowed(tree, line.symbol, &line.value));
    laid_over(alloc, tree, lines, &plan.lines)
}

impl Search {
    // A search that begins without lines.
    fn start(alloc: Global, goal: SymId, steps: usize) -> Result<Search, AllocError> {
        let mut queue = Vec::new(alloc);
        queue.push(State {
            lines: Vec::new(alloc),
            penalties: Vec::new(alloc),
            cost: 0,
            repeated: REPEATED,
        })?;
        Ok(Search {
            goal,
            queue,
            tried: Vec::new(alloc),
            best: None,
            found: 0,
            rounds_left: steps,
            were_too_many: false,
            surcharge: 0,
            budget: Budget { left: steps },
        })
    }

    // Whether it has found enough, or may not go on.
    fn is_done(&self) -> bool {
        if self.rounds_left == 0 || self.budget.left == 0 {
            return true;
        }
        match &self.best {
            Some(best) => self.found >= ENOUGH || best.score <= LINE,
            None => false,
        }
    }

    // The number of the state that costs least, the first of several.
    fn cheapest_state(&self) -> usize {
        let mut place = 0;
        let mut cost = u32::MAX;
        for (i, state) in self.queue.iter().enumerate() {
            if state.cost < cost {
                place = i;
                cost = state.cost;
            }
        }
        place
    }

    // Begins a round, with the state that costs least.
    fn next(&mut self) -> Option<State> {
        let place = self.cheapest_state();
        if self.is_done() || place >= self.queue.len() {
            return None;
        }
        self.rounds_left = self.rounds_left.saturating_sub(1);
        self.surcharge = self.surcharge.saturating_add(ROUND_COST);
        Some(self.queue.remove(place))
    }

    // Whether these lines were tried.
    fn was_tried(&self, lines: &[Line]) -> bool {
        for other in &self.tried {
            if are_same(other, lines) {
                return true;
            }
        }
        false
    }

    // Whether lines cost so much that they are worse than the best candidate.
    fn is_too_much(&self, lines: &[Line]) -> bool {
        match &self.best {
            Some(best) => lines_cost(lines) >= best.score.saturating_add(MOST_ABOVE_BEST),
            None => false,
        }
    }

    // Takes a candidate.
    fn take(&mut self, lines: Vec<Line>, score: u32) {
        if self.found == 0 {
            self.rounds_left = self.rounds_left.min(MORE_ROUNDS);
        }
        self.found = self.found.saturating_add(1);
        match &self.best {
            Some(best) if best.score <= score => {}
            _ => self.best = Some(Candidate { lines, score }),
        }
    }

    // Drops what is not needed of lines that reach the goal, and takes the rest as a candidate if it is new and counts. Each line is
    // left out once at least, so of more lines than tries nothing can come.
    fn offer(
        &mut self,
        alloc: Global,
        question: &Question<'_, '_, '_, '_>,
        lines: &[Line],
    ) -> Result<(), AllocError>
        requires { IsQuestion question.now }
    {
        if lines.len() > 1 && lines.len() > self.budget.left {
            self.were_too_many = true;
            return Ok(());
        }
        let Some(needed) = minimal(alloc, question, lines, &mut self.budget)? else {
            return Ok(());
        };
        if needed.len() < lines.len() {
            if self.was_tried(&needed) {
                return Ok(());
            }
            self.tried.push(copied(alloc, &needed)?)?;
        }
        match worth(alloc, question, &needed)? {
            Some(score) => {
                self.take(needed, score);
                Ok(())
            }
            None => self.offer_settled(alloc, question, &needed),
        }
    }

    // The same for lines that do not count, with the values that their symbols get from them.
    fn offer_settled(
        &mut self,
        alloc: Global,
        question: &Question<'_, '_, '_, '_>,
        lines: &[Line],
    ) -> Result<(), AllocError>
        requires { IsQuestion question.now }
    {
        let Some(settled) = settled(alloc, question, lines, &mut self.budget)? else {
            return Ok(());
        };
        if self.was_tried(&settled) {
            return Ok(());
        }
        self.tried.push(copied(alloc, &settled)?)?;
        let Some(needed) = minimal(alloc, question, &settled, &mut self.budget)? else {
            return Ok(());
        };
        if let Some(score) = worth(alloc, question, &needed)? {
            self.take(needed, score);
        }
        Ok(())
    }

    // Goes on later from lines that missed the goal.
    fn go_on(
        &mut self,
        alloc: Global,
        lines: Vec<Line>,
        penalties: &[Penalty],
        plan: &Plan,
    ) -> Result<(), AllocError> {
        self.queue.push(State {
            lines,
            penalties: Vec::from_slice(alloc, penalties)?,
            cost: plan.cost.saturating_add(self.surcharge),
            repeated: REPEATED,
        })?;
        Ok(())
    }

    // Plans later again from the lines of a state, but avoids what this plan did.
    fn avoid(&mut self, state: State, plan: &Plan, rise: Rise) -> Result<(), AllocError> {
        let State {
            lines,
            mut penalties,
            cost: _,
            repeated,
        } = state;
        add_plan(&mut penalties, plan, self.goal, rise)?;
        if total(&penalties) < MOST_PENALTIES {
            let cost = plan
                .cost
                .saturating_add(self.surcharge)
                .saturating_add(rise.start);
            self.queue.push(State {
                lines,
                penalties,
                cost,
                repeated,
            })?;
        }
        Ok(())
    }

    // Tries the lines of a state with those of a plan.
    fn attempt(
        &mut self,
        alloc: Global,
        question: &Question<'_, '_, '_, '_>,
        mut state: State,
        mut plan: Plan,
    ) -> Result<(), AllocError>
        requires { IsQuestion question.now }
    {
        let lines = with_plan(alloc, question, &state.lines, &mut plan)?;
        if self.was_tried(&lines) {
            let again = Rise {
                step: state.repeated,
                line: 0,
                start: 300,
            };
            state.repeated = state.repeated.saturating_mul(2);
            return self.avoid(state, &plan, again);
        }
        self.tried.push(copied(alloc, &lines)?)?;
        match tried(alloc, question, &lines, &plan.steps, &mut self.budget)? {
            Verdict::Reached => {
                self.offer(alloc, question, &lines)?;
                self.avoid(state, &plan, REACHED)
            }
            Verdict::Missed(failed) => {
                self.go_on(alloc, lines, &state.penalties, &plan)?;
                if failed.is_empty() {
                    return self.avoid(state, &plan, MISSED);
                }
                plan.steps = failed;
                self.avoid(state, &plan, FAILED)
            }
            Verdict::Unknown => Ok(()),
        }
    }

    // Why it found nothing.
    fn miss(&self) -> Miss {
        if self.rounds_left == 0 || self.budget.left == 0 || self.were_too_many {
            Miss::NoTryLeft
        } else {
            Miss::NoPlanLeft
        }
    }

    // Tries the cheapest plan of a state.
    fn round(
        &mut self,
        alloc: Global,
        question: &Question<'_, '_, '_, '_>,
        state: State,
    ) -> Result<(), AllocError>
        requires { IsQuestion question.now }
    {
        let found = planned(
            alloc,
            question,
            &state.lines,
            &state.penalties,
            &mut self.budget,
        )?;
        match found {
            Some(plan) if !self.is_too_much(&plan.lines) => {
                self.attempt(alloc, question, state, plan)
            }
            _ => Ok(()),
        }
    }
}

/// The lines of the best fragment that the search finds, in the order of the tree, or why it found none.
pub(crate) fn best(
    alloc: Global,
    question: &Question<'_, '_, '_, '_>,
) -> Result<Result<Vec<Line>, Miss>, AllocError>
    requires { IsQuestion question.now }
{
    if is_reached(question, question.before) {
        return Ok(Ok(Vec::new(alloc)));
    }
    let mut search = Search::start(alloc, question.goal.symbol, question.steps)?;
    for _ in 0..question.steps {
        let Some(state) = search.next() else {
            break;
        };
        search.round(alloc, question, state)?;
    }
    match search.best.take() {
        Some(Candidate { lines, score: _ }) => Ok(Ok(lines)),
        None => Ok(Err(search.miss())),
    }
}
