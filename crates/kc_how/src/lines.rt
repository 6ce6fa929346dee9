//! The lines of a fragment, and the user's values with them.
//!
//! The lines are kept in the order of the tree, and each symbol has at most one.

ghost use Rattle.std.specs.Prelude.{IfOk};
ghost use Rattle.kc_language.specs.ConfigFile.{ArePlacesOf};
ghost use Rattle.kc_how.specs.Questions.{IsQuestion};

use crate::merged::{copied_value, merged};
use crate::question::Question;
use crate::shown::type_of;
use kc_expr::expression::{SymId, Tri};
use kc_input::shown::{add_value, is_same, shown_given};
use kc_input::text::add_parts;
use kc_tree::rows::ChoiceId;
use kc_tree::tree::Tree;
use kc_user::user::User;
use kc_user::value::UserValue;
use kc_values::table::name;
use std::alloc::{AllocError, Global};

/// A line of a fragment: it gives a symbol a value.
#[derive(Debug, Drop)]
pub(crate) struct Line {
    pub symbol: SymId,
    pub value: UserValue,
}

// ---- copies

// A copy of a line.
fn copied_line(alloc: Global, line: &Line) -> Result<Line, AllocError> {
    let value = copied_value(alloc, &line.value)?;
    Ok(Line {
        symbol: line.symbol,
        value,
    })
}

/// A copy of the lines.
pub(crate) fn copied(alloc: Global, lines: &[Line]) -> Result<Vec<Line>, AllocError> {
    let mut copy = Vec::with_capacity(alloc, lines.len())?;
    for line in lines {
        copy.push(copied_line(alloc, line)?)?;
    }
    Ok(copy)
}

/// A copy of the lines but that of this symbol.
pub(crate) fn copied_without(
    alloc: Global,
    lines: &[Line],
    symbol: SymId,
) -> Result<Vec<Line>, AllocError> {
    let mut copy = Vec::with_capacity(alloc, lines.len())?;
    for line in lines {
        if line.symbol != symbol {
            copy.push(copied_line(alloc, line)?)?;
        }
    }
    Ok(copy)
}

/// Whether both are the same lines.
pub(crate) fn are_same(lines: &[Line], others: &[Line]) -> bool {
    if lines.len() != others.len() {
        return false;
    }
    for (line, other) in lines.iter().zip(others.iter()) {
        let is_same_value = is_same(shown_given(&line.value), shown_given(&other.value));
        if line.symbol != other.symbol || !is_same_value {
            return false;
        }
    }
    true
}

// The choice that a symbol is a member of.
fn choice_of(tree: &Tree, symbol: SymId) -> Option<ChoiceId> {
    match tree.facts(symbol) {
        Some(row) => row.choice.get(),
        None => None,
    }
}

// The choice in which a line selects its symbol.
fn selects_in(tree: &Tree, line: &Line) -> Option<ChoiceId> {
    match line.value {
        UserValue::Tri(Tri::Y) => choice_of(tree, line.symbol),
        UserValue::Tri(Tri::N | Tri::M) | UserValue::Text(_) => None,
    }
}

// ---- lines over others

// The last line of each symbol, and the last member that lines select in each choice.
#[derive(Drop)]
struct Last<'l> {
    lines: Vec<Option<&'l Line>>,
    members: Vec<Option<SymId>>,
}

impl<'l> Last<'l> {
    // Puts lines over those that are there.
    fn put(&mut self, tree: &Tree, lines: &'l [Line]) {
        for line in lines {
            if let Some(last) = self.lines.get_mut(line.symbol.0) {
                *last = Some(line);
            }
            if let Some(choice) = selects_in(tree, line) {
                if let Some(member) = self.members.get_mut(choice.0 as usize) {
                    *member = Some(line.symbol);
                }
            }
        }
    }

    // Whether a line selects a member, and a later one selects another member of the same choice.
    fn is_overruled(&self, tree: &Tree, line: &Line) -> bool {
        let Some(choice) = selects_in(tree, line) else {
            return false;
        };
        match self.members.get(choice.0 as usize) {
            Some(Some(member)) => *member != line.symbol,
            _ => false,
        }
    }
}

/// The lines `old`, and over them `new`. A line takes the place of one for the same symbol, and of one that selects in the same choice.
pub(crate) fn laid_over<'l>(
    alloc: Global,
    tree: &Tree,
    old: &'l [Line],
    new: &'l [Line],
) -> Result<Vec<Line>, AllocError> {
    let layout = tree.layout();
    let mut last = Last {
        lines: vec![in alloc; None; layout.symbols().len()]?,
        members: vec![in alloc; None; layout.choices().len()]?,
    };
    last.put(tree, old);
    last.put(tree, new);
    let mut all = Vec::new(alloc);
    for id in layout.defined() {
        if let Some(Some(line)) = last.lines.get(id.0) {
            if !last.is_overruled(tree, line) {
                all.push(copied_line(alloc, line)?)?;
            }
        }
    }
    Ok(all)
}

// ---- the text of a line

// Adds the text of a line that gives the symbol of this name n.
fn add_unset<'a>(prefix: &'a [u8], name: &'a [u8], text: &mut Vec<u8>) -> Result<(), AllocError> {
    add_parts(&[b"# ", prefix, name, b" is not set"], text)
}

// Adds the text of a line as far as its `=`.
fn add_set<'a>(prefix: &'a [u8], name: &'a [u8], text: &mut Vec<u8>) -> Result<(), AllocError> {
    add_parts(&[prefix, name, b"="], text)
}

/// A line as a `.config` has it, without its line end.
pub(crate) fn line_text(
    alloc: Global,
    question: &Question<'_, '_, '_, '_>,
    line: &Line,
) -> Result<Vec<u8>, AllocError> {
    let tree = question.laid.tree;
    let prefix = question.prefix.as_bytes();
    let name = name(tree, line.symbol);
    let mut text = Vec::new(alloc);
    match line.value {
        UserValue::Tri(Tri::N) => add_unset(prefix, name, &mut text)?,
        _ => {
            add_set(prefix, name, &mut text)?;
            let is_raw = question.prefix.is_raw();
            let symbol_type = type_of(tree, line.symbol);
            add_value(is_raw, symbol_type, shown_given(&line.value), &mut text)?;
        }
    }
    Ok(text)
}

// ---- the user's values with lines

// Gives the symbol of a line its value. A member that is set to y becomes the user's member of its choice.
fn give(alloc: Global, tree: &Tree, line: &Line, user: &mut User) -> Result<(), AllocError>
    requires { ArePlacesOf tree.now user.old }
    ensures { ArePlacesOf tree.now user.new }
{
    let value = copied_value(alloc, &line.value)?;
    if line.symbol.0 < user.symbols().len() {
        user.set(line.symbol, value)?;
    }
    match selects_in(tree, line) {
        Some(choice) if (choice.0 as usize) < user.choices().len() => {
            user.select(choice, line.symbol);
        }
        _ => {}
    }
    Ok(())
}

/// What the user's input files give, and over it these lines.
pub(crate) fn with_lines(
    alloc: Global,
    question: &Question<'_, '_, '_, '_>,
    lines: &[Line],
) -> Result<User, AllocError>
    requires { IsQuestion question.now }
    ensures { IfOk result (λ user. ArePlacesOf question.now.laid.now.tree.now user) }
{
    let tree = question.laid.tree;
    let nothing = User::new(alloc, tree)?;
    let mut user = merged(alloc, tree, question.input.user(), &nothing)?;
    for line in lines {
        give(alloc, tree, line, &mut user)?;
    }
    Ok(user)
}
