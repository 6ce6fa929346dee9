//! The ways to facts about the value of a symbol.

use crate::facts::{Aim, Fact, Outcome};
use crate::needs::{Give, Guard, Need, Ways, fact};
use kc_entries::entries::AttributeLine;
use kc_expr::expression::{SymId, Tri};
use kc_tree::attributes::{condition, stated_default};
use kc_tree::rows::{ChoiceId, EntryPlace, Symbol};
use kc_user::value::UserValue;
use std::alloc::{AllocError, Global};

// The numbers of the ways of a symbol, each of two kinds: those up without and with the modules symbol turned off, those down without
// and with it turned on.
const USER: usize = 0;

const SELECTED: usize = 2;

const SELECTED_AGAINST: usize = 4;

const IMPLIED: usize = 6;

const CAPPED: usize = 8;

const NO_DEFAULT: usize = 10;

const NO_DEPENDENCY: usize = 12;

const FIRST_DEFAULT: usize = 14;

// The numbers of the ways down of a member of a choice.
const MODE_OFF: usize = 0;

const HIDDEN: usize = 1;

const FIRST_MEMBER: usize = 2;

// What a way costs besides what it needs: by a line that selects, also against what the symbol depends on, by one that implies,
// by a default, and if the modules symbol is turned off for it.
const BY_SELECT: u32 = 40;

const AGAINST_DEPENDENCY: u32 = 1500;

const BY_IMPLY: u32 = 60;

const BY_DEFAULT: u32 = 30;

const WITHOUT_MODULES: u32 = 500;

// The same for ways down: without the user's value, by prompts that allow at most m, and by a hidden member.
const UNASKED: u32 = 60;

const BY_CAP: u32 = 50;

const BY_HIDING: u32 = 50;

// How many defaults that are met now may be turned off, and how many other members are looked at.
const MOST_DEFAULTS: usize = 16;

const MOST_MEMBERS: usize = 64;

// A symbol outside a choice, and what its value shall be.
#[derive(Drop)]
struct Subject<'a> {
    id: SymId,
    row: &'a Symbol,
    aim: Aim,
    has_prompt: bool,
    // Its defaults, in order.
    defaults: Vec<Guard<'a>>,
}

// What the conditions shall be on a way up.
#[derive(Clone, Copy)]
struct Reach {
    aim: Aim,
    // Whether the modules symbol shall be off, so that m becomes y.
    is_lifted: bool,
    more: u32,
}

// The number of a way up.
fn numbered(way: usize, reach: Reach) -> usize {
    if reach.is_lifted {
        way.saturating_add(1)
    } else {
        way
    }
}

// The number of a way down.
fn numbered_down(way: usize, aim: Aim) -> usize {
    if aim == Aim::AtMostM {
        way.saturating_add(1)
    } else {
        way
    }
}

// Adds the defaults of a definition.
fn defaults_into<'a>(
    lines: &'a [AttributeLine],
    place: EntryPlace,
    defaults: &mut Vec<Guard<'a>>,
) -> Result<(), AllocError> {
    for line in lines {
        if let Some(default) = stated_default(&line.attribute) {
            let mut guard = Guard::line(place, condition(&default.when));
            guard.value = Some(&default.value);
            defaults.push(guard)?;
        }
    }
    Ok(())
}

impl<'a> Subject<'a> {
    // The symbol with this row.
    fn of(
        alloc: Global,
        outcome: &Outcome<'a>,
        id: SymId,
        row: &'a Symbol,
        aim: Aim,
    ) -> Result<Subject<'a>, AllocError> {
        let layout = outcome.layout;
        let mut defaults = Vec::new(alloc);
        let mut has_prompt = false;
        let mut at = row.first;
        for _ in 0..layout.place_count() {
            if !at.is_some() {
                break;
            }
            let place = layout.place(at);
            has_prompt = has_prompt || layout.prompt(place).is_some();
            defaults_into(layout.attributes(at), place, &mut defaults)?;
            at = place.next;
        }
        Ok(Subject {
            id,
            row,
            aim,
            has_prompt,
            defaults,
        })
    }

    // This cost, if the symbol has a prompt.
    fn if_prompt(&self, cost: u32) -> u32 {
        if self.has_prompt { cost } else { 0 }
    }
}

// The condition of a default.
fn condition_of<'a>(default: &Guard<'a>) -> Guard<'a> {
    let mut guard = *default;
    guard.value = None;
    guard
}

impl<'a> Ways<'a> {
    // The user's line that gives the symbol this value, unless the value that it has from the user will do. The goal's symbol gets
    // the goal's value.
    fn line(&self, subject: &Subject<'a>, aim: Aim, value: Tri) -> Give {
        let goal = self.outcome.goal;
        match (self.outcome.given(subject.id), &goal.value) {
            (Some(given), _) if aim.is_met(given) => Give::Nothing,
            (_, UserValue::Tri(asked)) if goal.symbol.0 == subject.id.0 => {
                Give::Truth(subject.id, *asked)
            }
            _ => Give::Truth(subject.id, value),
        }
    }

    // Adds that no user value counts.
    fn need_hidden(&mut self, subject: &Subject<'a>) -> Result<(), AllocError> {
        if subject.has_prompt && self.outcome.is_given(subject.id) {
            self.need_fact(Fact::Prompts(subject.id, Aim::AtMostN))?;
        }
        Ok(())
    }

    // ---- up

    // Adds that the modules symbol is off, if it shall be.
    fn need_lift(&mut self, reach: Reach) -> Result<(), AllocError> {
        if let (true, Some(modules)) = (reach.is_lifted, self.outcome.layout.modules) {
            let fact = self.outcome.truth(modules, Aim::AtMostN);
            self.need_fact(fact)?;
        }
        Ok(())
    }

    // The line of the user that raises a symbol.
    fn raising_line(&self, subject: &Subject<'a>, reach: Reach) -> Give {
        let value = match subject.aim {
            Aim::AtLeastM => Tri::M,
            _ => Tri::Y,
        };
        self.line(subject, reach.aim, value)
    }

    // Adds the way by the user's value.
    fn user_up(&mut self, subject: &Subject<'a>, reach: Reach) -> Result<(), AllocError> {
        if !subject.has_prompt {
            return Ok(());
        }
        self.need_fact(Fact::Prompts(subject.id, reach.aim))?;
        self.need_lift(reach)?;
        let give = self.raising_line(subject, reach);
        self.end(numbered(USER, reach), reach.more, give)
    }

    // Adds the ways by a line that selects: within what the symbol depends on, and against it.
    fn selected_up(&mut self, subject: &Subject<'a>, reach: Reach) -> Result<(), AllocError> {
        if !subject.row.last_select.is_some() {
            return Ok(());
        }
        let more = reach.more.saturating_add(subject.if_prompt(BY_SELECT));
        let selected = fact(Fact::Selected(subject.id, reach.aim));
        self.need(selected)?;
        self.need_fact(Fact::Direct(subject.id, reach.aim))?;
        self.need_lift(reach)?;
        self.end(numbered(SELECTED, reach), more, Give::Nothing)?;
        self.need(selected)?;
        self.need_lift(reach)?;
        let against = more.saturating_add(AGAINST_DEPENDENCY);
        self.end(numbered(SELECTED_AGAINST, reach), against, Give::Nothing)
    }

    // Adds the way by a line that implies.
    fn implied_up(&mut self, subject: &Subject<'a>, reach: Reach) -> Result<(), AllocError> {
        if !subject.row.last_imply.is_some() {
            return Ok(());
        }
        self.need_fact(Fact::Implied(subject.id, reach.aim))?;
        self.need_fact(Fact::Direct(subject.id, reach.aim))?;
        self.need_lift(reach)?;
        self.need_hidden(subject)?;
        let more = reach.more.saturating_add(BY_IMPLY);
        self.end(numbered(IMPLIED, reach), more, Give::Nothing)
    }

    // Adds the ways by a default: those before it are off.
    fn defaults_up(&mut self, subject: &Subject<'a>, reach: Reach) -> Result<(), AllocError> {
        let more = reach.more.saturating_add(subject.if_prompt(BY_DEFAULT));
        let mut earlier = Vec::new(self.alloc);
        let mut number = numbered(FIRST_DEFAULT, reach);
        for default in subject.defaults.iter() {
            self.need_all(&earlier)?;
            self.need(Need::Guard(*default, reach.aim))?;
            self.need_lift(reach)?;
            self.need_hidden(subject)?;
            self.end(number, more, Give::Nothing)?;
            number = number.saturating_add(2);
            if !self.add_earlier(default, &mut earlier)? {
                break;
            }
        }
        Ok(())
    }

    // Adds that a default is not met, if it is met now. Whether there are still few of them.
    fn add_earlier(
        &self,
        default: &Guard<'a>,
        earlier: &mut Vec<Need<'a>>,
    ) -> Result<bool, AllocError> {
        let guard = condition_of(default);
        if Need::Guard(guard, Aim::AtLeastM).holds(&self.outcome) {
            earlier.push(Need::Guard(guard, Aim::AtMostN))?;
        }
        Ok(earlier.len() < MOST_DEFAULTS)
    }

    // Adds the ways up with these conditions.
    fn ways_up_by(&mut self, subject: &Subject<'a>, reach: Reach) -> Result<(), AllocError> {
        self.user_up(subject, reach)?;
        self.selected_up(subject, reach)?;
        self.implied_up(subject, reach)?;
        self.defaults_up(subject, reach)
    }

    // Adds the ways up.
    fn ways_up(&mut self, subject: &Subject<'a>) -> Result<(), AllocError> {
        let is_tristate = self.outcome.is_tristate(subject.id);
        let reach = Reach {
            aim: if is_tristate {
                subject.aim
            } else {
                Aim::AtLeastM
            },
            is_lifted: false,
            more: 0,
        };
        self.ways_up_by(subject, reach)?;
        if !is_tristate || subject.aim != Aim::AtLeastY {
            return Ok(());
        }
        let lifted = Reach {
            aim: Aim::AtLeastM,
            is_lifted: true,
            more: WITHOUT_MODULES,
        };
        self.ways_up_by(subject, lifted)
    }

    // ---- down

    // The line of the user that lowers a symbol.
    fn lowering_line(&self, subject: &Subject<'a>, aim: Aim) -> Give {
        let value = match aim {
            Aim::AtMostM => Tri::M,
            _ => Tri::N,
        };
        self.line(subject, aim, value)
    }

    // Adds what each way down needs: no line selects the symbol to more, and m is a value if it may be m.
    fn need_for_down(&mut self, subject: &Subject<'a>, aim: Aim) -> Result<(), AllocError> {
        if subject.row.last_select.is_some() {
            self.need_fact(Fact::Selected(subject.id, aim))?;
        }
        if let (Aim::AtMostM, Some(modules)) = (aim, self.outcome.layout.modules) {
            let fact = self.outcome.truth(modules, Aim::AtLeastM);
            self.need_fact(fact)?;
        }
        Ok(())
    }

    // Adds the ways by the user's value, or by the condition of the prompts.
    fn user_down(&mut self, subject: &Subject<'a>, aim: Aim) -> Result<(), AllocError> {
        if !subject.has_prompt {
            return Ok(());
        }
        self.need_for_down(subject, aim)?;
        self.need_fact(Fact::Prompts(subject.id, Aim::AtLeastM))?;
        let give = self.lowering_line(subject, aim);
        self.end(numbered_down(USER, aim), 0, give)?;
        if aim == Aim::AtMostM {
            self.need_for_down(subject, aim)?;
            self.need_fact(Fact::Prompts(subject.id, aim))?;
            self.end(CAPPED, BY_CAP, Give::Nothing)?;
        }
        Ok(())
    }

    // Adds that no user value counts, and that no line implies the symbol to more.
    fn need_quiet(&mut self, subject: &Subject<'a>, aim: Aim) -> Result<(), AllocError> {
        self.need_for_down(subject, aim)?;
        self.need_hidden(subject)?;
        if subject.row.last_imply.is_some() {
            self.need_fact(Fact::Implied(subject.id, aim))?;
        }
        Ok(())
    }

    // Adds the ways by a default that is low, or by none.
    fn defaults_down(&mut self, subject: &Subject<'a>, aim: Aim) -> Result<(), AllocError> {
        let more = subject.if_prompt(UNASKED);
        let mut earlier = Vec::new(self.alloc);
        let mut number = numbered_down(FIRST_DEFAULT, aim);
        for default in subject.defaults.iter() {
            self.need_all(&earlier)?;
            self.need(Need::Guard(condition_of(default), Aim::AtLeastM))?;
            self.need(Need::Guard(*default, aim))?;
            self.need_quiet(subject, aim)?;
            self.end(number, more, Give::Nothing)?;
            number = number.saturating_add(2);
            if !self.add_earlier(default, &mut earlier)? {
                return Ok(());
            }
        }
        self.need_all(&earlier)?;
        self.need_quiet(subject, aim)?;
        self.end(numbered_down(NO_DEFAULT, aim), more, Give::Nothing)
    }

    // Adds the ways down to what shall be.
    fn ways_down_to(&mut self, subject: &Subject<'a>, aim: Aim) -> Result<(), AllocError> {
        self.user_down(subject, aim)?;
        self.defaults_down(subject, aim)?;
        self.need_for_down(subject, aim)?;
        self.need_fact(Fact::Direct(subject.id, aim))?;
        let number = numbered_down(NO_DEPENDENCY, aim);
        self.end(number, subject.if_prompt(UNASKED), Give::Nothing)
    }

    // Adds the ways down. While modules are off a tristate can be m only if they are turned on.
    fn ways_down(&mut self, subject: &Subject<'a>) -> Result<(), AllocError> {
        let may_be_m = subject.aim == Aim::AtMostM && self.outcome.layout.modules.is_some();
        if !may_be_m || !self.outcome.is_tristate(subject.id) {
            self.ways_down_to(subject, Aim::AtMostN)?;
        }
        if may_be_m {
            self.ways_down_to(subject, Aim::AtMostM)?;
        }
        Ok(())
    }

    // ---- members

    // The line that chooses a member.
    fn choosing_line(&self, choice: ChoiceId, member: SymId) -> Give {
        match self.outcome.chosen(choice) {
            Some(chosen) if chosen.0 == member.0 => Give::Nothing,
            _ => Give::Truth(member, Tri::Y),
        }
    }

    // Adds the way by choosing a member.
    fn way_by_member(
        &mut self,
        choice: ChoiceId,
        member: SymId,
        number: usize,
    ) -> Result<(), AllocError> {
        self.need_fact(Fact::Prompts(member, Aim::AtLeastM))?;
        self.end(number, 0, self.choosing_line(choice, member))
    }

    // Adds the ways down of a member: the mode is n, another member is chosen, or it is hidden.
    fn member_down(&mut self, choice: ChoiceId, id: SymId) -> Result<(), AllocError> {
        self.need_fact(Fact::Mode(choice, Aim::AtMostN))?;
        self.end(MODE_OFF, 0, Give::Nothing)?;
        self.need_fact(Fact::Prompts(id, Aim::AtMostN))?;
        self.end(HIDDEN, BY_HIDING, Give::Nothing)?;
        let Some(row) = self.outcome.layout.choice(choice) else {
            return Ok(());
        };
        let mut number = FIRST_MEMBER;
        for member in row.members.iter() {
            if member.0 != id.0 {
                self.way_by_member(choice, *member, number)?;
            }
            number = number.saturating_add(1);
            if number > MOST_MEMBERS {
                break;
            }
        }
        Ok(())
    }

    // ---- all

    /// Adds the ways to the truth value of a symbol.
    pub(crate) fn truth_ways(&mut self, id: SymId, aim: Aim) -> Result<(), AllocError> {
        let Some(row) = self.outcome.layout.symbol(id) else {
            return Ok(());
        };
        if let Some(choice) = row.choice.get() {
            return if aim.is_least() {
                self.way_by_member(choice, id, USER)
            } else {
                self.member_down(choice, id)
            };
        }
        if !aim.is_least() {
            let subject = Subject::of(self.alloc, &self.outcome, id, row, aim)?;
            return self.ways_down(&subject);
        }
        let aim = if self.outcome.is_tristate(id) {
            aim
        } else {
            aim.without_m()
        };
        let subject = Subject::of(self.alloc, &self.outcome, id, row, aim)?;
        self.ways_up(&subject)
    }
}
