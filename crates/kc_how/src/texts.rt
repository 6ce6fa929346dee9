//! The ways to a text of a string or number: a line of the user, or a default, and the range that counts.

use crate::facts::{Aim, Fact, Outcome};
use crate::needs::{Give, Ways};
use crate::relations::{Relation, Side, side_of};
use crate::stated::Kind;
use kc_entries::entries::AttributeLine;
use kc_expr::expression::{Operand, Operands, SymId, SymbolType, Tri};
use kc_expr::values::{text, tristate_constant};
use kc_text::{Op, has_hex_prefix, read_hex, read_int};
use kc_tree::attributes::{range_of, stated_default};
use kc_user::value::{UserValue, allowed};
use kc_values::numbers::{Interval, bounds_of, is_within_range, number_text};
use kc_values::texts::single_text;
use std::alloc::{AllocError, Global};
use std::cmp::Ordering;

// How many defaults and ranges of a symbol are looked at, and how many ways to a text.
const MOST_DEFAULTS: usize = 1000;

const MOST_RANGES: usize = 16;

const MOST_WAYS: usize = 64;

// What a default costs that gives a text, besides what it needs.
pub(crate) const BY_TEXT_DEFAULT: u32 = 20;

// The number of the way to the goal's text that leaves the range to the check, and what it costs more.
const IN_ANY_RANGE: usize = usize::MAX - 1;

const ANY_RANGE: u32 = 600;

// The greatest number of a symbol, without its sign.
const MOST: u128 = 0xffff_ffff_ffff_ffff;

// How many texts are tried for a line.
const CANDIDATES: usize = 4;

/// A side of a relation that has a text: the left one, or the right one.
#[derive(Clone, Copy, PartialEq, Eq)]
pub(crate) enum Hand {
    Left,
    Right,
}

/// What the text of a symbol shall be: in this relation to another text, or that text itself.
#[derive(Clone, Copy)]
pub(crate) struct Wanted<'a> {
    pub symbol: SymId,
    symbol_type: SymbolType,
    op: Op,
    other: &'a [u8],
    // The number of the other text, if numbers are compared.
    number: Option<i128>,
    is_exact: bool,
}

/// Where a text comes from: a line of the user, or the default that counts, by number (0 for none).
#[derive(Clone, Copy, PartialEq, Eq)]
pub(crate) enum TextSource {
    Line,
    Default(usize),
}

/// A way to a text.
#[derive(Clone, Copy)]
pub(crate) struct TextWay {
    pub source: TextSource,
    // The number of the range that counts, for a number.
    range: Option<usize>,
    // Its bounds.
    bounds: Option<Interval>,
    // Whether the user's value must not count.
    is_hidden: bool,
}

// The texts of the defaults of a symbol and the bounds of its ranges, as they are now.
#[derive(Drop)]
struct Stated<'a> {
    defaults: Vec<&'a [u8]>,
    ranges: Vec<Interval>,
}

// A text as the value of a symbol of this type in a comparison.
fn number_by(symbol_type: SymbolType, text: &[u8]) -> Option<i128> {
    match symbol_type {
        SymbolType::Int => read_int(text),
        SymbolType::Hex => read_hex(text),
        _ if has_hex_prefix(text) => read_hex(text),
        _ => read_int(text),
    }
}

// An operand as a number, if it is one.
fn operand_number(outcome: &Outcome<'_>, o: &Operand) -> Option<i128> {
    let text = text(o, outcome.now);
    match side_of(outcome, o) {
        Side::Text(id) => number_by(outcome.type_of(id), text),
        Side::Truth(_) | Side::Constant(_) => match tristate_constant(text) {
            Some(Tri::N) => Some(0),
            Some(Tri::M) => Some(1),
            Some(Tri::Y) => Some(2),
            None => None,
        },
        Side::Other => number_by(SymbolType::Str, text),
    }
}

// Whether a relation holds for two sides that compare so.
fn holds(op: Op, order: Ordering) -> bool {
    match op {
        Op::Eq => order == Ordering::Equal,
        Op::Ne => order != Ordering::Equal,
        Op::Lt => order == Ordering::Less,
        Op::Gt => order == Ordering::Greater,
        Op::Le => order != Ordering::Greater,
        Op::Ge => order != Ordering::Less,
        _ => false,
    }
}

// A number in this relation to another one.
fn beside(op: Op, number: i128) -> i128 {
    match op {
        Op::Lt => number.saturating_sub(1),
        Op::Gt | Op::Ne => number.saturating_add(1),
        _ => number,
    }
}

// The nearest number inside a range.
fn moved_inside(bounds: Option<Interval>, number: i128) -> i128 {
    match bounds {
        Some(bounds) => number.min(bounds.high).max(bounds.low),
        None => number,
    }
}

// The text of a number, or an empty one if it is too great.
fn text_of(alloc: Global, symbol_type: SymbolType, number: i128) -> Result<Vec<u8>, AllocError> {
    if number.unsigned_abs() > MOST {
        return Ok(Vec::new(alloc));
    }
    number_text(alloc, symbol_type, number)
}

// A text in this relation to another one.
fn text_beside(alloc: Global, op: Op, text: &[u8]) -> Result<Vec<u8>, AllocError> {
    match op {
        Op::Gt => {
            let mut longer = Vec::from_slice(alloc, text)?;
            longer.push(b'0')?;
            Ok(longer)
        }
        Op::Ne if text.is_empty() => Ok(Vec::from_slice(alloc, b"y")?),
        Op::Ne | Op::Lt => Ok(Vec::new(alloc)),
        _ => Ok(Vec::from_slice(alloc, text)?),
    }
}

// The value of a number whose default has this text: it is inside the range.
fn default_value(
    alloc: Global,
    symbol_type: SymbolType,
    bounds: Option<Interval>,
    text: &[u8],
) -> Result<Vec<u8>, AllocError> {
    if is_within_range(symbol_type, bounds, text) {
        return Vec::from_slice(alloc, text);
    }
    let number = number_by(symbol_type, text).unwrap_or(0);
    match bounds {
        Some(bounds) if number < bounds.low => text_of(alloc, symbol_type, bounds.low),
        Some(bounds) => text_of(alloc, symbol_type, bounds.high),
        None => Vec::from_slice(alloc, text),
    }
}

impl<'a> Wanted<'a> {
    /// The text of a symbol itself.
    pub(crate) fn exactly(outcome: &Outcome<'_>, symbol: SymId, text: &'a [u8]) -> Wanted<'a> {
        Wanted {
            symbol,
            symbol_type: outcome.type_of(symbol),
            op: Op::Eq,
            other: text,
            number: None,
            is_exact: true,
        }
    }

    /// What the text of one side of a relation shall be, if it has one.
    pub(crate) fn beside(
        outcome: &Outcome<'a>,
        relation: &Relation,
        operands: &'a Operands,
        hand: Hand,
    ) -> Option<Wanted<'a>> {
        let (own, other, op) = match hand {
            Hand::Left => (relation.left, &operands.right, relation.op),
            Hand::Right => (relation.right, &operands.left, swapped(relation.op)),
        };
        let Side::Text(symbol) = own else {
            return None;
        };
        let symbol_type = outcome.type_of(symbol);
        let number = match side_of(outcome, other) {
            Side::Text(id)
                if symbol_type == SymbolType::Str && outcome.type_of(id) == SymbolType::Str => None,
            _ => operand_number(outcome, other),
        };
        Some(Wanted {
            symbol,
            symbol_type,
            op,
            other: text(other, outcome.now),
            number,
            is_exact: false,
        })
    }

    // Whether this text will do.
    fn is_met(&self, text: &[u8]) -> bool {
        if self.is_exact {
            return text == self.other;
        }
        let order = match (number_by(self.symbol_type, text), self.number) {
            (Some(own), Some(other)) => own.cmp(&other),
            _ => text.cmp(self.other),
        };
        holds(self.op, order)
    }

    // Whether it is the text of a number.
    fn is_number(&self) -> bool {
        match self.symbol_type {
            SymbolType::Int | SymbolType::Hex => true,
            _ => false,
        }
    }

    // A text that may do inside a range.
    fn candidate(
        &self,
        alloc: Global,
        bounds: Option<Interval>,
        at: usize,
    ) -> Result<Vec<u8>, AllocError> {
        if self.is_exact || !self.is_number() || at == 0 && self.op == Op::Eq {
            return text_beside(alloc, self.op, self.other);
        }
        let other = self.number.unwrap_or(0);
        let number = match at {
            1 => beside(self.op, other),
            2 => other.saturating_sub(1),
            _ => 0,
        };
        text_of(alloc, self.symbol_type, moved_inside(bounds, number))
    }

    /// The value of a line that gives a text that will do, inside a range. None if no such text is found.
    pub(crate) fn line_value(
        &self,
        alloc: Global,
        outcome: &Outcome<'_>,
        way: &TextWay,
    ) -> Result<Option<UserValue>, AllocError> {
        for at in 0..CANDIDATES {
            let text = self.candidate(alloc, way.bounds, at)?;
            if self.is_met(&text) && is_within_range(self.symbol_type, way.bounds, &text) {
                let value = UserValue::Text(text);
                if allowed(outcome.now.tree(), self.symbol, &value) {
                    return Ok(Some(value));
                }
            }
        }
        Ok(None)
    }
}

// The relation with its sides swapped.
fn swapped(op: Op) -> Op {
    match op {
        Op::Lt => Op::Gt,
        Op::Gt => Op::Lt,
        Op::Le => Op::Ge,
        Op::Ge => Op::Le,
        other => other,
    }
}

impl TextWay {
    /// Its number among the ways to the text, in any outcome.
    pub(crate) fn number(&self) -> usize {
        let source = match self.source {
            TextSource::Line => 0,
            TextSource::Default(number) => number.saturating_add(1),
        };
        source
            .saturating_mul(MOST_RANGES + 1)
            .saturating_add(self.range.unwrap_or(0))
    }

    /// What it needs of the symbol: that its prompt is visible, or not, the default, and the range.
    pub(crate) fn facts(&self, id: SymId) -> [Option<Fact>; 3] {
        let range = match self.range {
            Some(number) => Some(Fact::First(id, Kind::Range, number)),
            None => None,
        };
        match self.source {
            TextSource::Line => [Some(Fact::Prompts(id, Aim::AtLeastM)), None, range],
            TextSource::Default(number) => [
                if self.is_hidden {
                    Some(Fact::Prompts(id, Aim::AtMostN))
                } else {
                    None
                },
                Some(Fact::First(id, Kind::Default, number)),
                range,
            ],
        }
    }
}

// A search for ways to a text.
#[derive(Drop)]
struct Finder<'w, 'a> {
    alloc: Global,
    outcome: &'w Outcome<'a>,
    wanted: &'w Wanted<'w>,
    stated: Stated<'a>,
    found: Vec<TextWay>,
}

impl<'w, 'a> Finder<'w, 'a> {
    // Adds the defaults and ranges among these lines.
    fn add_lines(&mut self, lines: &'a [AttributeLine]) -> Result<(), AllocError> {
        let table = self.outcome.now.table();
        for line in lines {
            if let Some(default) = stated_default(&line.attribute) {
                if self.stated.defaults.len() < MOST_DEFAULTS {
                    let text = single_text(&default.value, self.outcome.now);
                    self.stated.defaults.push(text)?;
                }
            }
            if let Some(range) = range_of(&line.attribute) {
                if self.wanted.is_number() && self.stated.ranges.len() < MOST_RANGES {
                    let bounds = bounds_of(table, self.wanted.symbol_type, range);
                    self.stated.ranges.push(bounds)?;
                }
            }
        }
        Ok(())
    }

    // Looks at all definitions of the symbol.
    fn look(&mut self) -> Result<(), AllocError> {
        let layout = self.outcome.layout;
        let Some(row) = layout.symbol(self.wanted.symbol) else {
            return Ok(());
        };
        let mut at = row.first;
        for _ in 0..layout.place_count() {
            if !at.is_some() {
                break;
            }
            self.add_lines(layout.attributes(at))?;
            at = layout.next(at);
        }
        Ok(())
    }

    // Whether the user gives a text that counts inside these bounds, if a prompt is visible.
    fn is_held(&self, bounds: Option<Interval>) -> bool {
        match self.outcome.now.user().symbols().get(self.wanted.symbol.0) {
            Some(UserValue::Text(text)) => is_within_range(self.wanted.symbol_type, bounds, text),
            _ => false,
        }
    }

    // Adds a way by a default with this text, if it will do.
    fn add_default(&mut self, way: TextWay, text: &[u8]) -> Result<(), AllocError> {
        let value = default_value(self.alloc, self.wanted.symbol_type, way.bounds, text)?;
        if self.found.len() < MOST_WAYS && self.wanted.is_met(&value) {
            self.found.push(way)?;
        }
        Ok(())
    }

    // Adds the ways with this range, or without one.
    fn add_ways(
        &mut self,
        range: Option<usize>,
        bounds: Option<Interval>,
    ) -> Result<(), AllocError> {
        let mut way = TextWay {
            source: TextSource::Line,
            range,
            bounds,
            is_hidden: false,
        };
        let value = self.wanted.line_value(self.alloc, self.outcome, &way)?;
        if value.is_some() {
            self.found.push(way)?;
        }
        way.is_hidden = self.is_held(bounds);
        way.source = TextSource::Default(0);
        self.add_default(way, b"")?;
        for i in 0..self.stated.defaults.len() {
            if let Some(text) = self.stated.defaults.get(i) {
                let text = *text;
                way.source = TextSource::Default(i.saturating_add(1));
                self.add_default(way, text)?;
            }
        }
        Ok(())
    }
}

/// The ways to a text that is wanted, as far as the values now show them.
pub(crate) fn text_ways(
    alloc: Global,
    outcome: &Outcome<'_>,
    wanted: &Wanted<'_>,
) -> Result<Vec<TextWay>, AllocError> {
    let mut finder = Finder {
        alloc,
        outcome,
        wanted,
        stated: Stated {
            defaults: Vec::new(alloc),
            ranges: Vec::new(alloc),
        },
        found: Vec::new(alloc),
    };
    finder.look()?;
    if !wanted.is_number() {
        finder.add_ways(None, None)?;
        return Ok(finder.found);
    }
    finder.add_ways(Some(0), None)?;
    for i in 0..finder.stated.ranges.len() {
        let bounds = match finder.stated.ranges.get(i) {
            Some(bounds) => Some(*bounds),
            None => None,
        };
        finder.add_ways(Some(i.saturating_add(1)), bounds)?;
    }
    Ok(finder.found)
}

impl<'a> Ways<'a> {
    /// Adds the ways to the goal's text, and one that leaves it to the check whether a range allows it.
    pub(crate) fn goal_text_ways(&mut self) -> Result<(), AllocError> {
        let outcome = self.outcome;
        let id = outcome.goal.symbol;
        let UserValue::Text(text) = &outcome.goal.value else {
            return Ok(());
        };
        let wanted = Wanted::exactly(&outcome, id, text);
        let ways = text_ways(self.alloc, &outcome, &wanted)?;
        for way in &ways {
            for fact in way.facts(id) {
                if let Some(fact) = fact {
                    self.need_fact(fact)?;
                }
            }
            match way.source {
                TextSource::Line => self.end(way.number(), 0, Give::GoalText)?,
                TextSource::Default(_) => {
                    self.end(way.number(), BY_TEXT_DEFAULT, Give::Nothing)?;
                }
            }
        }
        self.need_fact(Fact::Prompts(id, Aim::AtLeastM))?;
        self.end(IN_ANY_RANGE, ANY_RANGE, Give::GoalText)
    }
}
