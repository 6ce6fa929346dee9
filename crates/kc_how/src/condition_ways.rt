//! The ways to facts about conditions.

use crate::facts::{Aim, Fact};
use crate::needs::{Give, Guard, Need, Part, Ways, fact};
use kc_entries::statement::Head;
use kc_expr::expression::{Expr, SymId};
use kc_tree::attributes::{condition, depends_of, visible_of};
use kc_tree::layout::Layout;
use kc_tree::rows::{ChoiceId, EntryId, Selector, SelectorId, VisibleId};
use std::alloc::AllocError;

// What it costs more that nothing selects a symbol, so that it may be without what it depends on.
const NOT_SELECTED: u32 = 400;

// A need of what an expression shall be.
fn expression<'a>(e: &'a Expr, aim: Aim) -> Need<'a> {
    Need::Part(Part::Expression(e, aim))
}

// What a line that selects or implies is the least of.
fn selector_guard<'a>(layout: &'a Layout, line: &Selector) -> Option<Guard<'a>> {
    let target = layout.target(line)?;
    let mut guard = Guard::line(layout.place(line.entry), condition(target.when));
    guard.source = layout.symbol_of(line.entry);
    Some(guard)
}

// What the condition of a choice's prompt shall be. M counts as y.
fn prompt_aim(aim: Aim) -> Aim {
    if aim.is_least() {
        Aim::AtLeastM
    } else {
        Aim::AtMostN
    }
}

impl<'a> Ways<'a> {
    /// One prompt of a symbol is so, or all are.
    pub(crate) fn prompt_ways(&mut self, id: SymId, aim: Aim) -> Result<(), AllocError> {
        let layout = self.outcome.layout;
        let Some(row) = layout.symbol(id) else {
            return Ok(());
        };
        let mut at = row.first;
        for _ in 0..layout.place_count() {
            if !at.is_some() {
                break;
            }
            let place = layout.place(at);
            if let Some(prompt) = layout.prompt(place) {
                let mut guard = Guard::line(place, condition(&prompt.when));
                guard.visible = place.visible;
                self.one_of(Need::Guard(guard, aim), aim.is_least())?;
            }
            at = place.next;
        }
        self.end_all(aim.is_least())
    }

    /// One definition of a symbol depends on what is so, or all do.
    pub(crate) fn direct_ways(&mut self, id: SymId, aim: Aim) -> Result<(), AllocError> {
        let layout = self.outcome.layout;
        let Some(row) = layout.symbol(id) else {
            return Ok(());
        };
        let mut at = row.first;
        for _ in 0..layout.place_count() {
            if !at.is_some() {
                break;
            }
            let place = layout.place(at);
            let need = fact(Fact::Context(place.context, aim));
            self.one_of(need, aim.is_least())?;
            at = place.next;
        }
        self.end_all(aim.is_least())
    }

    // Adds one such line. To turn off what the selecting symbol depends on is left to the ways to turn that symbol off.
    fn selector_way(&mut self, line: &Selector, aim: Aim) -> Result<(), AllocError> {
        let Some(mut guard) = selector_guard(self.outcome.layout, line) else {
            return Ok(());
        };
        if aim.is_least() {
            return self.one_of(Need::Guard(guard, aim), true);
        }
        if Need::Guard(guard, aim).holds(&self.outcome) {
            return Ok(());
        }
        guard.context = EntryId::top();
        self.need(Need::Guard(guard, aim))
    }

    /// One line that selects, or implies, is so, from the last one on, or all are.
    pub(crate) fn selector_ways(&mut self, last: SelectorId, aim: Aim) -> Result<(), AllocError> {
        let layout = self.outcome.layout;
        let mut at = last;
        for _ in 0..layout.selectors.len() {
            let Some(line) = layout.selector(at) else {
                break;
            };
            self.selector_way(line, aim)?;
            at = line.next;
        }
        self.end_all(aim.is_least())
    }

    /// What a symbol depends on is so, or nothing selects it.
    pub(crate) fn allowed_ways(&mut self, id: SymId, aim: Aim) -> Result<(), AllocError> {
        self.need_fact(Fact::Direct(id, aim))?;
        self.end(0, 0, Give::Nothing)?;
        self.need_fact(Fact::Selected(id, Aim::AtMostN))?;
        self.end(1, NOT_SELECTED, Give::Nothing)
    }

    // Adds the `depends on` lines of an entry.
    fn depends_ways(&mut self, at: EntryId, aim: Aim) -> Result<(), AllocError> {
        for line in self.outcome.layout.attributes(at) {
            if let Some(e) = depends_of(&line.attribute) {
                self.one_of(expression(e, aim), !aim.is_least())?;
            }
        }
        Ok(())
    }

    /// What an entry asks for and what is around it, or one of them.
    pub(crate) fn context_ways(&mut self, at: EntryId, aim: Aim) -> Result<(), AllocError> {
        let layout = self.outcome.layout;
        let are_ways = !aim.is_least();
        let around = Fact::Context(layout.outer_context(at), aim);
        self.one_of(fact(around), are_ways)?;
        match layout.head(at) {
            Some(Head::Choice) => {
                if let Some(id) = layout.choice_of(at) {
                    self.one_of(fact(Fact::Mode(id, aim.without_m())), are_ways)?;
                }
            }
            Some(Head::If(e)) => self.one_of(expression(e, aim), are_ways)?,
            _ => self.depends_ways(at, aim)?,
        }
        self.end_all(are_ways)
    }

    /// What a menu asks of what is visible and the menus around it, or one of them.
    pub(crate) fn visible_ways(&mut self, id: VisibleId, aim: Aim) -> Result<(), AllocError> {
        let layout = self.outcome.layout;
        let are_ways = !aim.is_least();
        let menu = layout.visible_menu(id);
        let around = Fact::Visible(layout.outer_visible(menu), aim);
        self.one_of(fact(around), are_ways)?;
        for line in layout.attributes(menu) {
            if let Some(e) = visible_of(&line.attribute) {
                self.one_of(expression(e, aim), are_ways)?;
            }
        }
        self.end_all(are_ways)
    }

    /// What a choice depends on itself: what its lines ask for and what is around it, or one of them.
    pub(crate) fn dependency_ways(&mut self, id: ChoiceId, aim: Aim) -> Result<(), AllocError> {
        let layout = self.outcome.layout;
        let Some(choice) = layout.choice(id) else {
            return Ok(());
        };
        let around = Fact::Context(layout.outer_context(choice.entry), aim);
        self.one_of(fact(around), !aim.is_least())?;
        self.depends_ways(choice.entry, aim)?;
        self.end_all(!aim.is_least())
    }

    /// The mode of a choice: that of its prompt. It is n without one.
    pub(crate) fn mode_ways(&mut self, id: ChoiceId, aim: Aim) -> Result<(), AllocError> {
        let layout = self.outcome.layout;
        let Some(choice) = layout.choice(id) else {
            return Ok(());
        };
        let place = layout.place(choice.entry);
        let Some(prompt) = layout.prompt(place) else {
            return Ok(());
        };
        let are_ways = !aim.is_least();
        let aim = prompt_aim(aim);
        self.one_of(fact(Fact::Dependency(id, aim)), are_ways)?;
        self.one_of(fact(Fact::Visible(place.visible, aim)), are_ways)?;
        if let Some(e) = condition(&prompt.when) {
            self.one_of(expression(e, aim), are_ways)?;
        }
        self.end_all(are_ways)
    }
}
