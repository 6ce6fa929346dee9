//! What lines and losses cost.

use crate::facts::{Aim, Fact, Outcome};
use crate::needs::Give;
use crate::penalties::Penalty;
use crate::rank::LINE;
use kc_expr::expression::{SymId, Tri};
use kc_expr::values::truth_of;
use kc_tree::rows::ChoiceId;
use kc_user::value::UserValue;
use kc_values::conditions::mode_of;

/// What sets the prices: an outcome, and what is to be avoided.
#[derive(Clone, Copy)]
pub(crate) struct Prices<'a> {
    pub outcome: Outcome<'a>,
    pub penalties: &'a [Penalty],
}

// The cost of a line that contradicts an earlier one, and of one that gives a text: the first or another one.
const CONTRADICTION: u32 = 3000;

const TEXT_LINE: u32 = 110;

const OTHER_TEXT: u32 = 150;

// What a line costs more: if it chooses another member than was on, or than the user chose, and if it raises a value of the user.
const OTHER_MEMBER: u32 = 200;

const OTHER_CHOSEN: u32 = 80;

const RAISED: u32 = 10;

// What is lost: the modules symbol, a value of the user, and any other value.
const LOST_MODULES: u32 = 5000;

const LOST_OWN: u32 = 150;

const LOST: u32 = 40;

impl<'a> Prices<'a> {
    // Whether the line so far for a symbol gives it this value; none if no line changes what the user gives it.
    fn agrees_with_line(&self, id: SymId, value: Tri) -> Option<bool> {
        let given = self.outcome.given(id);
        if given == self.given_before(id) {
            None
        } else {
            Some(given == Some(value))
        }
    }

    // What the user's input gives a symbol, as a truth value.
    fn given_before(&self, id: SymId) -> Option<Tri> {
        match self.outcome.before.user().symbols().get(id.0) {
            Some(UserValue::Tri(value)) => Some(*value),
            _ => None,
        }
    }

    // The value of a symbol for the user's input.
    fn before(&self, id: SymId) -> Tri {
        truth_of(id, self.outcome.before)
    }

    // Whether the user gave a symbol a value, which is in force.
    fn is_held(&self, id: SymId) -> bool {
        self.given_before(id) == Some(self.before(id))
            && self.outcome.before.visibility(id) != Tri::N
    }

    // What it costs to choose another member than before.
    fn member_cost(&self, choice: ChoiceId, id: SymId) -> u32 {
        let before = self.outcome.before;
        let mut cost = 0u32;
        if self.before(id) == Tri::N && mode_of(before.table(), choice) != Tri::N {
            cost = OTHER_MEMBER;
        }
        match before.user().choices().get(choice.0 as usize) {
            Some(Some(chosen)) if chosen.0 != id.0 => cost.saturating_add(OTHER_CHOSEN),
            _ => cost,
        }
    }

    // What a line costs that gives a symbol a value, besides that it is a line.
    fn change_cost(&self, id: SymId, value: Tri) -> u32 {
        if let Some(row) = self.outcome.layout.symbol(id) {
            if let Some(choice) = row.choice.get() {
                return self.member_cost(choice, id);
            }
        }
        let is_given = self.outcome.before.user().symbols().get(id.0).is_some();
        if is_given && self.before(id) < value {
            RAISED
        } else {
            0
        }
    }

    // The cost of a line that gives a symbol a truth value.
    fn truth_line(&self, id: SymId, value: Tri) -> u32 {
        match self.agrees_with_line(id, value) {
            Some(true) => 0,
            Some(false) => CONTRADICTION,
            None if id.0 == self.outcome.goal.symbol.0 => LINE,
            None => LINE.saturating_add(self.change_cost(id, value)),
        }
    }

    /// The cost of a line that gives a symbol a text.
    pub(crate) fn text_line(&self, id: SymId) -> u32 {
        if self.outcome.is_given(id) {
            OTHER_TEXT
        } else {
            TEXT_LINE
        }
    }

    /// The cost of the line that a way needs.
    pub(crate) fn line(&self, give: Give) -> u32 {
        match give {
            Give::Nothing => 0,
            Give::Truth(id, value) => self.truth_line(id, value),
            Give::GoalText => LINE,
        }
    }

    // What is lost if a symbol is at most m, or is n.
    fn loss_of(&self, id: SymId, aim: Aim) -> u32 {
        if id.0 == self.outcome.goal.symbol.0 || aim.is_met(self.before(id)) {
            return 0;
        }
        match self.outcome.layout.modules {
            Some(modules) if modules.0 == id.0 => LOST_MODULES,
            _ if aim == Aim::AtMostN && self.is_held(id) => LOST_OWN,
            _ => LOST,
        }
    }

    /// What is lost with a fact, on any way.
    pub(crate) fn loss(&self, fact: Fact) -> u32 {
        match fact {
            Fact::Truth(id, aim) if !aim.is_least() => self.loss_of(id, aim),
            _ => 0,
        }
    }
}
