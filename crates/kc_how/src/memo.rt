//! The least cost of each fact, once it is known.

use crate::facts::{Aim, Fact, Outcome};
use crate::penalties::{Blame, Penalty};
use crate::stated::{Kind, count};
use kc_expr::expression::{SymId, SymbolType};
use kc_tree::layout::Layout;
use std::alloc::{AllocError, Global};

/// The cost of what cannot be had. Every other cost is less.
pub(crate) const IMPOSSIBLE: u32 = 1_000_000_000;

// The cost of a fact that is not known yet: of one that was not asked for, and of one that does not hold yet.
const UNKNOWN: u32 = u32::MAX;

const ASKED: u32 = u32::MAX - 1;

// The number of the way to a fact that needs none: it holds, or there is no way.
const NO_WAY: usize = usize::MAX;

/// The sum of two costs.
pub(crate) fn plus(a: u32, b: u32) -> u32 {
    a.saturating_add(b).min(IMPOSSIBLE)
}

// The number of no penalty.
const NO_PENALTY: usize = usize::MAX;

// What is known of a fact: its cost, the number of the cheapest way to it, and the last penalty that is about it.
#[derive(Clone, Copy)]
struct Best {
    cost: u32,
    way: usize,
    penalty: usize,
}

// The places of the facts that none of the defaults of a symbol counts, and none of its ranges. Those of the lines follow.
#[derive(Clone, Copy)]
struct Firsts {
    default: usize,
    range: usize,
}

/// What is known of the facts about a tree, by number, and the facts whose cost is asked for.
#[derive(Drop)]
pub(crate) struct Memo {
    best: Vec<Best>,
    // The penalty before each penalty that is about the same fact.
    earlier: Vec<usize>,
    symbols: usize,
    places: usize,
    visibles: usize,
    choices: usize,
    firsts: Vec<Firsts>,
    /// The facts whose cost is not known yet.
    pub open: Vec<Fact>,
}

// Whether a symbol has a text.
fn has_text(symbol_type: SymbolType) -> bool {
    match symbol_type {
        SymbolType::Str | SymbolType::Int | SymbolType::Hex => true,
        SymbolType::Bool | SymbolType::Tristate | SymbolType::Undefined => false,
    }
}

// The places of the facts about the defaults and ranges of each symbol with a text, and the place behind them. The first is `start`.
fn firsts_from(
    alloc: Global,
    layout: &Layout,
    start: usize,
) -> Result<(Vec<Firsts>, usize), AllocError> {
    let mut end = start;
    let mut firsts = Vec::with_capacity(alloc, layout.symbols().len())?;
    for (number, row) in layout.symbols().iter().enumerate() {
        let mut place = Firsts {
            default: end,
            range: end,
        };
        if has_text(row.symbol_type) {
            let id = SymId(number);
            place.range = end
                .saturating_add(1)
                .saturating_add(count(layout, id, Kind::Default));
            end = place
                .range
                .saturating_add(1)
                .saturating_add(count(layout, id, Kind::Range));
        }
        firsts.push(place)?;
    }
    Ok((firsts, end))
}

impl Memo {
    /// Nothing is known yet.
    pub(crate) fn new(alloc: Global, layout: &Layout) -> Result<Memo, AllocError> {
        let symbols = layout.symbols().len();
        let places = layout.place_count();
        let visibles = layout.visible_count();
        let choices = layout.choices().len();
        let count = symbols
            .saturating_mul(6)
            .saturating_add(places)
            .saturating_add(visibles)
            .saturating_add(choices.saturating_mul(2))
            .saturating_add(1);
        let unknown = Best {
            cost: UNKNOWN,
            way: NO_WAY,
            penalty: NO_PENALTY,
        };
        let (firsts, end) = firsts_from(alloc, layout, count.saturating_mul(4))?;
        Ok(Memo {
            best: vec![in alloc; unknown; end]?,
            earlier: Vec::new(alloc),
            symbols,
            places,
            visibles,
            choices,
            firsts,
            open: Vec::new(alloc),
        })
    }

    // The place of the facts about what has this number among its kind, and of this aim. `before` is the number of what comes
    // before this kind.
    fn place_with(&self, before: usize, number: usize, aim: Aim) -> usize {
        before
            .saturating_add(number)
            .saturating_mul(4)
            .saturating_add(aim.number())
    }

    // The place of the fact that a line of a kind counts for a symbol, or behind all if there is no such symbol.
    fn first_place(&self, id: SymId, kind: Kind, number: usize) -> usize {
        let Some(places) = self.firsts.get(id.0) else {
            return usize::MAX;
        };
        match kind {
            Kind::Default => places.default.saturating_add(number),
            Kind::Range => places.range.saturating_add(number),
        }
    }

    // The place of a fact.
    fn place(&self, fact: Fact) -> usize {
        let symbols = self.symbols;
        let contexts = symbols.saturating_mul(6);
        let visibles = contexts.saturating_add(self.places);
        let dependencies = visibles.saturating_add(self.visibles);
        let modes = dependencies.saturating_add(self.choices);
        match fact {
            Fact::Truth(id, aim) => self.place_with(0, id.0, aim),
            Fact::Prompts(id, aim) => self.place_with(symbols, id.0, aim),
            Fact::Direct(id, aim) => self.place_with(symbols.saturating_mul(2), id.0, aim),
            Fact::Selected(id, aim) => self.place_with(symbols.saturating_mul(3), id.0, aim),
            Fact::Implied(id, aim) => self.place_with(symbols.saturating_mul(4), id.0, aim),
            Fact::Allowed(id, aim) => self.place_with(symbols.saturating_mul(5), id.0, aim),
            Fact::Context(at, aim) => self.place_with(contexts, at.0 as usize, aim),
            Fact::Visible(id, aim) => self.place_with(visibles, id.0 as usize, aim),
            Fact::Dependency(id, aim) => self.place_with(dependencies, id.0 as usize, aim),
            Fact::Mode(id, aim) => self.place_with(modes, id.0 as usize, aim),
            Fact::First(id, kind, number) => self.first_place(id, kind, number),
            Fact::GoalText => self.place_with(modes, self.choices, Aim::AtLeastM),
        }
    }

    // The place of the fact that a penalty is about. One for a line is about the value of its symbol.
    fn place_of(&self, blame: Blame) -> usize {
        match blame {
            Blame::Step(step) => self.place(step.fact),
            Blame::Line(id) => self.place(Fact::Truth(id, Aim::AtLeastM)),
        }
    }

    /// Notes which facts these penalties are about.
    pub(crate) fn note_penalties(&mut self, penalties: &[Penalty]) -> Result<(), AllocError> {
        for penalty in penalties {
            let number = self.earlier.len();
            let place = self.place_of(penalty.blame);
            let Some(best) = self.best.get_mut(place) else {
                return Ok(());
            };
            self.earlier.push(best.penalty)?;
            best.penalty = number;
        }
        Ok(())
    }

    /// How much more something costs, with the penalties that were noted.
    pub(crate) fn penalty(&self, penalties: &[Penalty], blame: Blame) -> u32 {
        let mut sum = 0u32;
        let mut number = match self.best.get(self.place_of(blame)) {
            Some(best) => best.penalty,
            None => NO_PENALTY,
        };
        for _ in 0..penalties.len() {
            let Some(penalty) = penalties.get(number) else {
                break;
            };
            if penalty.blame == blame {
                sum = sum.saturating_add(penalty.more);
            }
            number = match self.earlier.get(number) {
                Some(earlier) => *earlier,
                None => NO_PENALTY,
            };
        }
        sum
    }

    // What is noted as the cost of a fact.
    fn noted(&self, fact: Fact) -> u32 {
        match self.best.get(self.place(fact)) {
            Some(best) => best.cost,
            None => IMPOSSIBLE,
        }
    }

    /// The cost of a fact, if it is known.
    pub(crate) fn known(&self, fact: Fact) -> Option<u32> {
        match self.noted(fact) {
            UNKNOWN | ASKED => None,
            cost => Some(cost),
        }
    }

    /// Notes the cost of a fact and the number of the cheapest way to it.
    pub(crate) fn note(&mut self, fact: Fact, cost: u32, way: usize) {
        let place = self.place(fact);
        if let Some(best) = self.best.get_mut(place) {
            best.cost = cost;
            best.way = way;
        }
    }

    // Looks at a fact for the first time: whether it holds, or never does. Otherwise its cost is open.
    fn look(&mut self, outcome: &Outcome<'_>, fact: Fact) {
        if outcome.holds(fact) {
            self.note(fact, 0, NO_WAY);
        } else if outcome.is_excluded(fact) {
            self.note(fact, IMPOSSIBLE, NO_WAY);
        } else {
            self.note(fact, ASKED, NO_WAY);
        }
    }

    /// The cost of a fact. Where it is not known yet it is asked for, and 0 stands for it.
    pub(crate) fn cost(&mut self, outcome: &Outcome<'_>, fact: Fact) -> Result<u32, AllocError> {
        if self.noted(fact) == UNKNOWN {
            self.look(outcome, fact);
        }
        if let Some(cost) = self.known(fact) {
            return Ok(cost);
        }
        self.open.push(fact)?;
        Ok(0)
    }

    /// The last of the facts whose cost is not known yet.
    pub(crate) fn last_open(&self) -> Option<Fact> {
        match self.open.last() {
            Some(fact) => Some(*fact),
            None => None,
        }
    }

    /// The number of the way by which a plan gets to a fact, once: none if it holds already, or is in the plan.
    pub(crate) fn planned_way(&mut self, fact: Fact) -> Option<usize> {
        let place = self.place(fact);
        let best = self.best.get_mut(place)?;
        let way = best.way;
        best.way = NO_WAY;
        if way == NO_WAY { None } else { Some(way) }
    }
}
