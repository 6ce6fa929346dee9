//! What a goal needs: facts about the values of symbols and conditions.

use crate::goal::Goal;
use crate::question::Question;
use crate::stated::Kind;
use kc_expr::expression::{SymId, SymbolType, Tri};
use kc_expr::values::{Values, greater, lesser, truth_of};
use kc_possible::bounds::Bounds;
use kc_possible::possible::Possible;
use kc_solve::solved::Solved;
use kc_tree::layout::Layout;
use kc_tree::rows::{ChoiceId, EntryId, Selector, SelectorId, VisibleId};
use kc_user::value::UserValue;
use kc_values::conditions::{choice_dependency, context, guarded, mode_of, visible_context};
use kc_values::truths::direct;

/// What a truth value shall be.
#[derive(Clone, Copy, Debug, PartialEq, Eq)]
pub(crate) enum Aim {
    /// m or y.
    AtLeastM,
    /// y.
    AtLeastY,
    /// n or m.
    AtMostM,
    /// n.
    AtMostN,
}

impl Aim {
    /// Whether this value will do.
    pub(crate) fn is_met(self, value: Tri) -> bool {
        match self {
            Aim::AtLeastM => value != Tri::N,
            Aim::AtLeastY => value == Tri::Y,
            Aim::AtMostM => value != Tri::Y,
            Aim::AtMostN => value == Tri::N,
        }
    }

    /// Whether a greater value will do if this one does.
    pub(crate) fn is_least(self) -> bool {
        match self {
            Aim::AtLeastM | Aim::AtLeastY => true,
            Aim::AtMostM | Aim::AtMostN => false,
        }
    }

    /// What a value shall be so that `!` of it will do.
    pub(crate) fn opposite(self) -> Aim {
        match self {
            Aim::AtLeastM => Aim::AtMostM,
            Aim::AtLeastY => Aim::AtMostN,
            Aim::AtMostM => Aim::AtLeastM,
            Aim::AtMostN => Aim::AtLeastY,
        }
    }

    /// The same for a value that is never m.
    pub(crate) fn without_m(self) -> Aim {
        match self {
            Aim::AtLeastM | Aim::AtLeastY => Aim::AtLeastY,
            Aim::AtMostM | Aim::AtMostN => Aim::AtMostN,
        }
    }

    /// Whether a value between these may do.
    pub(crate) fn may_be_met(self, bounds: Bounds) -> bool {
        self.is_met(if self.is_least() {
            bounds.high
        } else {
            bounds.low
        })
    }

    /// Its number among the four.
    pub(crate) fn number(self) -> usize {
        match self {
            Aim::AtLeastM => 0,
            Aim::AtLeastY => 1,
            Aim::AtMostM => 2,
            Aim::AtMostN => 3,
        }
    }
}

/// A fact that may hold or not.
#[derive(Clone, Copy, Debug, PartialEq, Eq)]
pub(crate) enum Fact {
    /// The truth value of a bool or tristate symbol.
    Truth(SymId, Aim),
    /// The greatest condition of its prompts, as written.
    Prompts(SymId, Aim),
    /// The greatest of what its definitions depend on.
    Direct(SymId, Aim),
    /// What it is selected to.
    Selected(SymId, Aim),
    /// What it is implied to.
    Implied(SymId, Aim),
    /// It is not selected, or the greatest of what its definitions depend on is so.
    Allowed(SymId, Aim),
    /// What an entry asks of what is in it, with what is around it.
    Context(EntryId, Aim),
    /// What a menu and the menus around it ask of what is visible.
    Visible(VisibleId, Aim),
    /// What a choice depends on itself.
    Dependency(ChoiceId, Aim),
    /// The mode of a choice.
    Mode(ChoiceId, Aim),
    /// Of the lines of a kind the one with this number counts for a symbol: from 1 on, or 0 for none.
    First(SymId, Kind, usize),
    /// The goal's symbol has the goal's text.
    GoalText,
}

/// An outcome of a tree, beside the question.
#[derive(Clone, Copy)]
pub(crate) struct Outcome<'a> {
    /// The layout of the tree.
    pub layout: &'a Layout,
    /// What its symbols may be.
    pub possible: &'a Possible<'a>,
    /// What shall hold.
    pub goal: &'a Goal,
    /// The solution for the user's input.
    pub before: &'a Solved<'a, 'a>,
    /// The solution with further lines.
    pub now: &'a Solved<'a, 'a>,
}

impl<'a> Outcome<'a> {
    /// The outcome `now`, beside the question.
    pub(crate) fn of(question: &Question<'a, 'a, 'a, 'a>, now: &'a Solved<'a, 'a>) -> Outcome<'a> {
        Outcome {
            layout: question.laid.layout,
            possible: question.possible,
            goal: question.goal,
            before: question.before,
            now,
        }
    }

    /// The type of a symbol.
    pub(crate) fn type_of(&self, id: SymId) -> SymbolType {
        match self.layout.symbol(id) {
            Some(row) => row.symbol_type,
            None => SymbolType::Undefined,
        }
    }

    /// The fact about the truth value of a symbol. A bool is never m.
    pub(crate) fn truth(&self, id: SymId, aim: Aim) -> Fact {
        match self.type_of(id) {
            SymbolType::Tristate => Fact::Truth(id, aim),
            _ => Fact::Truth(id, aim.without_m()),
        }
    }

    /// Whether a symbol can be m now: it is a tristate, and the modules symbol is on.
    pub(crate) fn is_tristate(&self, id: SymId) -> bool {
        match self.layout.modules {
            Some(modules) => {
                self.type_of(id) == SymbolType::Tristate && truth_of(modules, self.now) != Tri::N
            }
            None => false,
        }
    }

    /// What the user gives a symbol in this outcome, as a truth value.
    pub(crate) fn given(&self, id: SymId) -> Option<Tri> {
        match self.now.user().symbols().get(id.0) {
            Some(UserValue::Tri(value)) => Some(*value),
            _ => None,
        }
    }

    /// Whether the user gives a symbol a value in this outcome.
    pub(crate) fn is_given(&self, id: SymId) -> bool {
        self.now.user().symbols().get(id.0).is_some()
    }

    /// The user's member of a choice in this outcome.
    pub(crate) fn chosen(&self, choice: ChoiceId) -> Option<SymId> {
        match self.now.user().choices().get(choice.0 as usize) {
            Some(member) => *member,
            None => None,
        }
    }

    // What the definitions of a symbol depend on: the greatest of them.
    fn direct(&self, id: SymId) -> Tri {
        let table = self.now.table();
        match table.layout.symbol(id) {
            Some(row) => direct(table, id, row),
            None => Tri::N,
        }
    }

    // What a line selects or implies its target to.
    fn selects(&self, line: &Selector) -> Tri {
        let Some(source) = self.layout.symbol_of(line.entry) else {
            return Tri::N;
        };
        let Some(target) = self.layout.target(line) else {
            return Tri::N;
        };
        let within = self.layout.place(line.entry).context;
        let table = self.now.table();
        let first = lesser(truth_of(source, self.now), context(table, within));
        guarded(first, target.when, table)
    }

    // The greatest of that, from the last line on.
    fn greatest_selected(&self, last: SelectorId) -> Tri {
        let mut greatest = Tri::N;
        let mut at = last;
        for _ in 0..self.layout.selectors.len() {
            let Some(line) = self.layout.selector(at) else {
                break;
            };
            greatest = greater(greatest, self.selects(line));
            at = line.next;
        }
        greatest
    }

    // What a symbol is selected to.
    fn selected(&self, id: SymId) -> Tri {
        match self.layout.symbol(id) {
            Some(row) => self.greatest_selected(row.last_select),
            None => Tri::N,
        }
    }

    // What it is implied to.
    fn implied(&self, id: SymId) -> Tri {
        match self.layout.symbol(id) {
            Some(row) => self.greatest_selected(row.last_imply),
            None => Tri::N,
        }
    }

    // Whether the goal's symbol has the goal's text.
    fn has_goal_text(&self) -> bool {
        match &self.goal.value {
            UserValue::Text(text) => self.now.text(self.goal.symbol) == text.as_slice(),
            UserValue::Tri(_) => false,
        }
    }

    /// Whether a fact holds.
    pub(crate) fn holds(&self, fact: Fact) -> bool {
        let table = self.now.table();
        match fact {
            Fact::Truth(id, aim) => aim.is_met(truth_of(id, self.now)),
            Fact::Prompts(id, aim) => aim.is_met(self.now.prompts_condition(id)),
            Fact::Direct(id, aim) => aim.is_met(self.direct(id)),
            Fact::Selected(id, aim) => aim.is_met(self.selected(id)),
            Fact::Implied(id, aim) => aim.is_met(self.implied(id)),
            Fact::Allowed(id, aim) => { aim.is_met(self.direct(id)) || self.selected(id) == Tri::N }
            Fact::Context(at, aim) => aim.is_met(context(table, at)),
            Fact::Visible(id, aim) => aim.is_met(visible_context(table, id)),
            Fact::Dependency(id, aim) => aim.is_met(choice_dependency(table, id)),
            Fact::Mode(id, aim) => aim.is_met(mode_of(table, id)),
            Fact::First(id, kind, number) => self.first_met(id, kind) == number,
            Fact::GoalText => self.has_goal_text(),
        }
    }

    /// Whether no input makes a fact hold, as far as the bounds show it.
    pub(crate) fn is_excluded(&self, fact: Fact) -> bool {
        let possible = self.possible;
        match fact {
            Fact::Truth(id, aim) => is_out_of(possible.symbols.get(id.0), aim),
            Fact::Context(at, aim) => is_out_of(possible.contexts.get(at.0 as usize), aim),
            Fact::Visible(id, aim) => is_out_of(possible.visibles.get(id.0 as usize), aim),
            Fact::Dependency(id, aim) => is_out_of(possible.dependencies.get(id.0 as usize), aim),
            Fact::Mode(id, aim) => is_out_of(possible.modes.get(id.0 as usize), aim),
            _ => false,
        }
    }
}

// Whether no value between these will do.
fn is_out_of(bounds: Option<&Bounds>, aim: Aim) -> bool {
    match bounds {
        Some(bounds) => !aim.may_be_met(*bounds),
        None => false,
    }
}
