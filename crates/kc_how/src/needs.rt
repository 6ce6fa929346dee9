//! Ways to a fact, and what they need.

use crate::facts::{Aim, Fact, Outcome};
use kc_expr::expression::{Expr, SymId, Tri};
use kc_expr::values::eval;
use kc_tree::rows::{EntryId, EntryPlace, VisibleId};
use std::alloc::{AllocError, Global};

/// A fact, or what an expression shall be.
#[derive(Clone, Copy)]
pub(crate) enum Part<'a> {
    Fact(Fact),
    Expression(&'a Expr, Aim),
}

/// What the condition of a line is the least of.
#[derive(Clone, Copy)]
pub(crate) struct Guard<'a> {
    /// The symbol that selects.
    pub source: Option<SymId>,
    /// What the line depends on.
    pub context: EntryId,
    /// What the menus around it ask for.
    pub visible: VisibleId,
    /// Its `if`.
    pub when: Option<&'a Expr>,
    /// The value of a default.
    pub value: Option<&'a Expr>,
}

/// What a way needs: one part, or that the condition of a line is so.
#[derive(Clone, Copy)]
pub(crate) enum Need<'a> {
    Part(Part<'a>),
    Guard(Guard<'a>, Aim),
}

/// The line that a way needs.
#[derive(Clone, Copy, PartialEq, Eq)]
pub(crate) enum Give {
    /// None.
    Nothing,
    /// One that gives a symbol this truth value.
    Truth(SymId, Tri),
    /// The one that gives the goal's symbol the goal's text.
    GoalText,
}

/// A way: its number among the ways to its fact in any outcome, what it costs besides what it needs, its line, and the places of
/// what it needs.
#[derive(Clone, Copy)]
pub(crate) struct Way {
    pub number: usize,
    pub more: u32,
    pub give: Give,
    pub start: usize,
    pub end: usize,
}

/// The ways to a fact.
#[derive(Drop)]
pub(crate) struct Ways<'a> {
    pub alloc: Global,
    /// The outcome that they start from.
    pub outcome: Outcome<'a>,
    /// The ways.
    pub list: Vec<Way>,
    /// What they need, way after way.
    pub needs: Vec<Need<'a>>,
}

// The value y, as a part: the top entry asks for nothing.
fn always(aim: Aim) -> Part<'static> {
    Part::Fact(Fact::Context(EntryId(0), aim))
}

impl<'a> Guard<'a> {
    /// What an entry with this place depends on, and an `if`.
    pub(crate) fn line(place: EntryPlace, when: Option<&'a Expr>) -> Guard<'a> {
        Guard {
            source: None,
            context: place.context,
            visible: VisibleId(0),
            when,
            value: None,
        }
    }

    /// The parts, and what they shall be.
    pub(crate) fn parts(&self, outcome: &Outcome<'a>, aim: Aim) -> [Part<'a>; 5] {
        [
            match self.source {
                Some(id) => Part::Fact(outcome.truth(id, aim)),
                None => always(aim),
            },
            Part::Fact(Fact::Context(self.context, aim)),
            Part::Fact(Fact::Visible(self.visible, aim)),
            match self.when {
                Some(e) => Part::Expression(e, aim),
                None => always(aim),
            },
            match self.value {
                Some(e) => Part::Expression(e, aim),
                None => always(aim),
            },
        ]
    }
}

impl<'a> Part<'a> {
    /// Whether it holds.
    pub(crate) fn holds(&self, outcome: &Outcome<'a>) -> bool {
        match self {
            Part::Fact(fact) => outcome.holds(*fact),
            Part::Expression(e, aim) => aim.is_met(eval(*e, outcome.now)),
        }
    }
}

impl<'a> Need<'a> {
    /// Whether it holds.
    pub(crate) fn holds(&self, outcome: &Outcome<'a>) -> bool {
        match self {
            Need::Part(part) => part.holds(outcome),
            Need::Guard(guard, aim) => {
                for part in guard.parts(outcome, *aim).iter() {
                    if part.holds(outcome) != aim.is_least() {
                        return !aim.is_least();
                    }
                }
                aim.is_least()
            }
        }
    }
}

/// A need of this fact.
pub(crate) fn fact<'a>(fact: Fact) -> Need<'a> {
    Need::Part(Part::Fact(fact))
}

impl<'a> Ways<'a> {
    /// No ways.
    pub(crate) fn new(alloc: Global, outcome: &Outcome<'a>) -> Ways<'a> {
        Ways {
            alloc,
            outcome: *outcome,
            list: Vec::new(alloc),
            needs: Vec::new(alloc),
        }
    }

    /// Adds what the next way needs.
    pub(crate) fn need(&mut self, need: Need<'a>) -> Result<(), AllocError> {
        self.needs.push(need)?;
        Ok(())
    }

    /// Adds these.
    pub(crate) fn need_all(&mut self, needs: &[Need<'a>]) -> Result<(), AllocError> {
        for need in needs {
            self.needs.push(*need)?;
        }
        Ok(())
    }

    /// Ends a way.
    pub(crate) fn end(&mut self, number: usize, more: u32, give: Give) -> Result<(), AllocError> {
        let start = match self.list.last() {
            Some(way) => way.end,
            None => 0,
        };
        self.list.push(Way {
            number,
            more,
            give,
            start,
            end: self.needs.len(),
        })?;
        Ok(())
    }

    /// Adds a fact that the next way needs.
    pub(crate) fn need_fact(&mut self, fact: Fact) -> Result<(), AllocError> {
        self.need(Need::Part(Part::Fact(fact)))
    }

    /// Adds one of several ways, or one of several things that the only way needs. Nothing is needed there that holds already.
    pub(crate) fn one_of(&mut self, need: Need<'a>, is_way: bool) -> Result<(), AllocError> {
        if is_way {
            self.need(need)?;
            let number = self.list.len();
            return self.end(number, 0, Give::Nothing);
        }
        if need.holds(&self.outcome) {
            return Ok(());
        }
        self.need(need)
    }

    /// Ends the only way, if these were no ways.
    pub(crate) fn end_all(&mut self, are_ways: bool) -> Result<(), AllocError> {
        if are_ways {
            return Ok(());
        }
        self.end(0, 0, Give::Nothing)
    }

    /// What a way needs, at one of its places.
    pub(crate) fn need_at(&self, place: usize) -> Option<Need<'a>> {
        match self.needs.get(place) {
            Some(need) => Some(*need),
            None => None,
        }
    }

    /// The way with a number.
    pub(crate) fn numbered(&self, number: usize) -> Option<Way> {
        for way in self.list.iter() {
            if way.number == number {
                return Some(*way);
            }
        }
        None
    }

    /// Whether all holds that a way needs.
    pub(crate) fn is_met(&self, way: &Way) -> bool {
        let outcome = &self.outcome;
        for place in way.start..way.end {
            if let Some(need) = self.needs.get(place) {
                if !need.holds(outcome) {
                    return false;
                }
            }
        }
        true
    }
}
