//! The defaults and the ranges of a symbol, by number. Of each kind the first line counts whose condition is met.

use crate::facts::{Aim, Outcome};
use crate::needs::{Give, Guard, Need, Ways};
use kc_entries::entries::AttributeLine;
use kc_entries::statement::Attribute;
use kc_expr::expression::{Expr, SymId, Tri};
use kc_tree::attributes::{condition, range_of, stated_default};
use kc_tree::layout::Layout;
use kc_tree::rows::EntryPlace;
use kc_values::conditions::{context, guarded};
use std::alloc::AllocError;
use std::rc::Rc;

/// A kind of lines of which the first counts whose condition is met.
#[derive(Clone, Copy, Debug, PartialEq, Eq)]
pub(crate) enum Kind {
    Default,
    Range,
}

// The `if` of a line, if it is of this kind.
fn when_of(kind: Kind, attribute: &Attribute) -> Option<&Option<Rc<Expr>>> {
    match kind {
        Kind::Default => Some(&stated_default(attribute)?.when),
        Kind::Range => Some(&range_of(attribute)?.when),
    }
}

// How many of these lines are of a kind.
fn count_in(kind: Kind, lines: &[AttributeLine]) -> usize {
    let mut count = 0usize;
    for line in lines {
        if when_of(kind, &line.attribute).is_some() {
            count = count.saturating_add(1);
        }
    }
    count
}

/// How many lines of a kind a symbol has.
pub(crate) fn count(layout: &Layout, id: SymId, kind: Kind) -> usize {
    let Some(row) = layout.symbol(id) else {
        return 0;
    };
    let mut count = 0usize;
    let mut at = row.first;
    for _ in 0..layout.place_count() {
        if !at.is_some() {
            break;
        }
        count = count.saturating_add(count_in(kind, layout.attributes(at)));
        at = layout.next(at);
    }
    count
}

impl<'a> Outcome<'a> {
    // The number of the first of these lines whose condition is met, or 0.
    fn first_met_in(&self, kind: Kind, lines: &[AttributeLine], place: EntryPlace) -> usize {
        let table = self.now.table();
        let around = context(table, place.context);
        let mut number = 0usize;
        for line in lines {
            if let Some(when) = when_of(kind, &line.attribute) {
                number = number.saturating_add(1);
                if guarded(around, when, table) != Tri::N {
                    return number;
                }
            }
        }
        0
    }

    /// The number of the line of a kind that counts for a symbol: from 1 on, or 0 for none.
    pub(crate) fn first_met(&self, id: SymId, kind: Kind) -> usize {
        let layout = self.layout;
        let Some(row) = layout.symbol(id) else {
            return 0;
        };
        let mut before = 0usize;
        let mut at = row.first;
        for _ in 0..layout.place_count() {
            if !at.is_some() {
                break;
            }
            let place = layout.place(at);
            let lines = layout.attributes(at);
            let number = self.first_met_in(kind, lines, place);
            if number > 0 {
                return before.saturating_add(number);
            }
            before = before.saturating_add(count_in(kind, lines));
            at = place.next;
        }
        0
    }
}

impl<'a> Ways<'a> {
    // Adds what these lines shall be, `before` of which come before them, so that the line with this number counts.
    fn need_first_in(
        &mut self,
        kind: Kind,
        lines: &'a [AttributeLine],
        place: EntryPlace,
        before: usize,
        number: usize,
    ) -> Result<(), AllocError> {
        let mut at = before;
        for line in lines {
            if let Some(when) = when_of(kind, &line.attribute) {
                let guard = Guard::line(place, condition(when));
                at = at.saturating_add(1);
                let is_met = Need::Guard(guard, Aim::AtLeastM);
                if at == number {
                    return self.need(is_met);
                }
                if is_met.holds(&self.outcome) {
                    self.need(Need::Guard(guard, Aim::AtMostN))?;
                }
            }
        }
        Ok(())
    }

    /// The line of a kind with this number counts: its condition is met, and that of none before it. Number 0 is none of them.
    pub(crate) fn first_ways(
        &mut self,
        id: SymId,
        kind: Kind,
        number: usize,
    ) -> Result<(), AllocError> {
        let layout = self.outcome.layout;
        let Some(row) = layout.symbol(id) else {
            return Ok(());
        };
        let mut before = 0usize;
        let mut at = row.first;
        for _ in 0..layout.place_count() {
            if !at.is_some() || number > 0 && before >= number {
                break;
            }
            let place = layout.place(at);
            let lines = layout.attributes(at);
            self.need_first_in(kind, lines, place, before, number)?;
            before = before.saturating_add(count_in(kind, lines));
            at = place.next;
        }
        self.end(0, 0, Give::Nothing)
    }
}
