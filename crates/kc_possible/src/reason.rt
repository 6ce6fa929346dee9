//! Why a symbol is hidden or off: the symbols in its conditions that are n whatever the user gives. What an entry or a menu asks
//! of all that stands in it is looked at once, so that the reasons of all symbols take a time that grows with the tree alone.

ghost use Rattle.std.specs.Prelude.{All, IfOk, OnOk};
ghost use Rattle.kc_possible.specs.PartsOfPossible.{AreOff};
ghost use Rattle.kc_possible.specs.Possible.{IsOff, IsSound};

use crate::conditions::{context, visible};
use crate::dead::has_prompt;
use crate::expression::{expression, symbol};
use crate::possible::Possible;
use crate::shared::SharedReasons;
use kc_entries::statement::{Head, Prompt};
use kc_expr::expression::{Expr, Operand, SymId, SymbolType, Tri};
use kc_tree::attributes::{depends_of, stated_default, visible_of};
use kc_tree::rows::{EntryId, EntryPlace, Selector, SelectorId, Symbol, VisibleId};
use std::alloc::AllocError;
use std::rc::Rc;

// How many reasons are listed, and how many of the blocks around a line are looked at.
const MOST: usize = 8;

const BLOCKS: usize = 64;

// Whether this symbol is among these.
fn is_among(found: &[SymId], id: SymId) -> bool {
    for symbol in found {
        if symbol.0 == id.0 {
            return true;
        }
    }
    false
}

// Adds a symbol that is always n, unless it is there or there are enough. Returns whether it is always n.
fn add(p: &Possible<'_>, id: SymId, found: &mut Vec<SymId>) -> Result<bool, AllocError>
    requires { AreOff p.now found.old.items }
    ensures { OnOk result (AreOff p.now found.new.items) }
{
    if symbol(p, id).high != Tri::N {
        return Ok(false);
    }
    if found.len() < MOST && !is_among(found, id) {
        found.push(id)?;
    }
    Ok(true)
}

// Adds the symbols that stand in the way of an expression that is always n; none of another expression. Returns whether it is
// always n.
#[tactic(auto, using(crate::proofs::ReasonLemmas::off_taken))]
fn add_expression(p: &Possible<'_>, e: &Expr, found: &mut Vec<SymId>) -> Result<bool, AllocError>
    requires { AreOff p.now found.old.items }
    ensures { OnOk result (AreOff p.now found.new.items) }
{
    match e {
        Expr::One(Operand::Sym(id)) => add(p, *id, found),
        Expr::All(parts) => {
            let first = add_expression(p, &parts.first, found)?;
            let second = add_expression(p, &parts.second, found)?;
            let mut is_off = first || second;
            for part in parts.rest.iter() {
                let own = add_expression(p, part, found)?;
                is_off = is_off || own;
            }
            Ok(is_off)
        }
        Expr::Any(parts) => {
            let before = found.len();
            let first = add_expression(p, &parts.first, found)?;
            let second = add_expression(p, &parts.second, found)?;
            let mut is_off = first && second;
            for part in parts.rest.iter() {
                let own = add_expression(p, part, found)?;
                is_off = is_off && own;
            }
            if !is_off {
                found.truncate(before);
            }
            Ok(is_off)
        }
        _ => Ok(expression(p, e).high == Tri::N),
    }
}

// The same for an `if`.
fn add_if(
    p: &Possible<'_>,
    when: &Option<Rc<Expr>>,
    found: &mut Vec<SymId>,
) -> Result<(), AllocError>
    requires { AreOff p.now found.old.items }
    ensures { OnOk result (AreOff p.now found.new.items) }
{
    if let Some(e) = when {
        add_expression(p, e, found)?;
    }
    Ok(())
}

// The same for what an entry asks of what stands in it. A choice asks that its prompt is visible.
fn add_entry(p: &Possible<'_>, at: EntryId, found: &mut Vec<SymId>) -> Result<(), AllocError>
    requires { AreOff p.now found.old.items }
    ensures { OnOk result (AreOff p.now found.new.items) }
{
    let layout = p.laid.layout;
    for line in layout.attributes(at) {
        if let Some(e) = depends_of(&line.attribute) {
            add_expression(p, e, found)?;
        }
    }
    match layout.head(at) {
        Some(Head::If(e)) => {
            add_expression(p, e, found)?;
            Ok(())
        }
        Some(Head::Choice) => match layout.prompt(layout.place(at)) {
            Some(prompt) => add_if(p, &prompt.when, found),
            None => Ok(()),
        },
        _ => Ok(()),
    }
}

// The same for the `visible if` lines of a menu.
fn add_menu(p: &Possible<'_>, menu: EntryId, found: &mut Vec<SymId>) -> Result<(), AllocError>
    requires { AreOff p.now found.old.items }
    ensures { OnOk result (AreOff p.now found.new.items) }
{
    for line in p.laid.layout.attributes(menu) {
        if let Some(e) = visible_of(&line.attribute) {
            add_expression(p, e, found)?;
        }
    }
    Ok(())
}

// ---- what many symbols share

// Adds those of these symbols that are always n.
fn add_all(p: &Possible<'_>, symbols: &[SymId], found: &mut Vec<SymId>) -> Result<(), AllocError>
    requires { AreOff p.now found.old.items }
    ensures { OnOk result (AreOff p.now found.new.items) }
{
    for id in symbols {
        add(p, *id, found)?;
    }
    Ok(())
}

// Adds the symbols that stand in the way of what an entry asks, and keeps them.
fn add_shared_entry(
    p: &Possible<'_>,
    shared: &mut SharedReasons,
    at: EntryId,
    found: &mut Vec<SymId>,
) -> Result<(), AllocError>
    requires { AreOff p.now found.old.items }
    ensures { OnOk result (AreOff p.now found.new.items) }
{
    let index = at.0 as usize;
    if !shared.entries.has(index) {
        let mut own = Vec::new(shared.alloc);
        add_entry(p, at, &mut own)?;
        shared.entries.keep(index, &own)?;
    }
    add_all(p, shared.entries.kept(index), found)
}

// The same for a menu.
fn add_shared_menu(
    p: &Possible<'_>,
    shared: &mut SharedReasons,
    id: VisibleId,
    found: &mut Vec<SymId>,
) -> Result<(), AllocError>
    requires { AreOff p.now found.old.items }
    ensures { OnOk result (AreOff p.now found.new.items) }
{
    let index = id.0 as usize;
    if !shared.menus.has(index) {
        let mut own = Vec::new(shared.alloc);
        add_menu(p, p.laid.layout.visible_menu(id), &mut own)?;
        shared.menus.keep(index, &own)?;
    }
    add_all(p, shared.menus.kept(index), found)
}

// The same for a context, from the innermost of its entries on.
fn add_context(
    p: &Possible<'_>,
    shared: &mut SharedReasons,
    within: EntryId,
    found: &mut Vec<SymId>,
) -> Result<(), AllocError>
    requires { AreOff p.now found.old.items }
    ensures { OnOk result (AreOff p.now found.new.items) }
{
    let mut at = within;
    'around: for _ in 0..BLOCKS {
        if context(p, at).high != Tri::N || found.len() >= MOST {
            break;
        }
        add_shared_entry(p, shared, at, found)?;
        at = p.laid.layout.outer_context(at);
    }
    Ok(())
}

// The same for the `visible if` lines of a menu and the menus around it.
fn add_visible(
    p: &Possible<'_>,
    shared: &mut SharedReasons,
    innermost: VisibleId,
    found: &mut Vec<SymId>,
) -> Result<(), AllocError>
    requires { AreOff p.now found.old.items }
    ensures { OnOk result (AreOff p.now found.new.items) }
{
    let mut id = innermost;
    'around: for _ in 0..BLOCKS {
        if visible(p, id).high != Tri::N || found.len() >= MOST {
            break;
        }
        add_shared_menu(p, shared, id, found)?;
        id = p.laid.layout.outer_visible(p.laid.layout.visible_menu(id));
    }
    Ok(())
}

// ---- prompts

// Adds the symbols that stand in the way of the prompt of a definition with this place.
fn add_prompt(
    p: &Possible<'_>,
    shared: &mut SharedReasons,
    place: EntryPlace,
    prompt: &Prompt,
    found: &mut Vec<SymId>,
) -> Result<(), AllocError>
    requires { AreOff p.now found.old.items }
    ensures { OnOk result (AreOff p.now found.new.items) }
{
    add_context(p, shared, place.context, found)?;
    add_visible(p, shared, place.visible, found)?;
    add_if(p, &prompt.when, found)
}

// The same for all prompts of a symbol.
fn add_prompts(
    p: &Possible<'_>,
    shared: &mut SharedReasons,
    row: &Symbol,
    found: &mut Vec<SymId>,
) -> Result<(), AllocError>
    requires { AreOff p.now found.old.items }
    ensures { OnOk result (AreOff p.now found.new.items) }
{
    let mut at = row.first;
    'definitions: for _ in 0..p.laid.layout.place_count() {
        if !at.is_some() || found.len() >= MOST {
            break;
        }
        let place = p.laid.layout.place(at);
        if let Some(prompt) = p.laid.layout.prompt(place) {
            add_prompt(p, shared, place, prompt, found)?;
        }
        at = place.next;
    }
    Ok(())
}

// ---- what gives a symbol a value that has no prompt

// Adds the symbol with this `select` or `imply` line, and the symbols that stand in the way of the line.
fn add_selector(
    p: &Possible<'_>,
    shared: &mut SharedReasons,
    line: &Selector,
    found: &mut Vec<SymId>,
) -> Result<(), AllocError>
    requires { AreOff p.now found.old.items }
    ensures { OnOk result (AreOff p.now found.new.items) }
{
    if let Some(source) = p.laid.layout.symbol_of(line.entry) {
        add(p, source, found)?;
    }
    add_context(p, shared, p.laid.layout.place(line.entry).context, found)?;
    match p.laid.layout.target(line) {
        Some(target) => add_if(p, target.when, found),
        None => Ok(()),
    }
}

// The same for this line and those before it.
fn add_selectors(
    p: &Possible<'_>,
    shared: &mut SharedReasons,
    last: SelectorId,
    found: &mut Vec<SymId>,
) -> Result<(), AllocError>
    requires { AreOff p.now found.old.items }
    ensures { OnOk result (AreOff p.now found.new.items) }
{
    let mut at = last;
    'lines: for _ in 0..last.0 {
        let Some(line) = p.laid.layout.selector(at) else {
            break;
        };
        if found.len() >= MOST {
            break;
        }
        add_selector(p, shared, line, found)?;
        at = line.next;
    }
    Ok(())
}

// Adds the symbols that stand in the way of the defaults of a definition. The value of one counts for a bool and a tristate.
fn add_defaults(
    p: &Possible<'_>,
    shared: &mut SharedReasons,
    at: EntryId,
    is_truth: bool,
    found: &mut Vec<SymId>,
) -> Result<(), AllocError>
    requires { AreOff p.now found.old.items }
    ensures { OnOk result (AreOff p.now found.new.items) }
{
    let place = p.laid.layout.place(at);
    if place.has_default {
        add_context(p, shared, place.context, found)?;
    }
    for line in p.laid.layout.attributes(at) {
        if let Some(default) = stated_default(&line.attribute) {
            if is_truth {
                add_expression(p, &default.value, found)?;
            }
            add_if(p, &default.when, found)?;
        }
    }
    Ok(())
}

// The same for all lines that give a symbol a value.
fn add_lines(
    p: &Possible<'_>,
    shared: &mut SharedReasons,
    row: &Symbol,
    found: &mut Vec<SymId>,
) -> Result<(), AllocError>
    requires { AreOff p.now found.old.items }
    ensures { OnOk result (AreOff p.now found.new.items) }
{
    add_selectors(p, shared, row.last_select, found)?;
    add_selectors(p, shared, row.last_imply, found)?;
    let is_truth = matches!(row.symbol_type, SymbolType::Bool | SymbolType::Tristate);
    let mut at = row.first;
    'definitions: for _ in 0..p.laid.layout.place_count() {
        if !at.is_some() || found.len() >= MOST {
            break;
        }
        add_defaults(p, shared, at, is_truth, found)?;
        at = p.laid.layout.next(at);
    }
    Ok(())
}

/// Lists symbols that stand in the way of a symbol, and that are n whatever the user gives (our own): at most eight, each once, in
/// the order in which the conditions name them. They are those that keep its prompts hidden: first those that it depends on, its own
/// lines and then the blocks around from the innermost on, then those of `visible if`, then that of the prompt's own `if`. Of a
/// symbol without prompts they are those that keep it from being selected, implied or set by a default. Of the blocks around
/// only the 64 innermost are looked at. The only error is that memory runs out.
///
/// `shared` keeps what many symbols share, from one call to the next: with the same one, the reasons of all symbols take a time that
/// grows with the size of the tree.
pub fn shared_reasons(
    p: &Possible<'_>,
    id: SymId,
    shared: &mut SharedReasons,
) -> Result<Vec<SymId>, AllocError>
    requires { IsSound p.now }
    ensures { IfOk result (λ found. All (IsOff p.now.laid.tree.now) found.items) }
{
    let mut found = Vec::new(shared.alloc);
    if let Some(row) = p.laid.layout.symbol(id) {
        if has_prompt(p, id, row) {
            add_prompts(p, shared, row, &mut found)?;
        } else {
            add_lines(p, shared, row, &mut found)?;
        }
    }
    Ok(found)
}
