//! The bounds of all symbols of a tree, from the tree alone.

ghost use Rattle.std.specs.Prelude.{◌≡◌, IfOk, OnOk};
ghost use Rattle.kc_possible.specs.Possible.{IsSound};
ghost use Rattle.kc_possible.specs.PartsOfPossible.{IsOfType};

use crate::bounds::Bounds;
use crate::conditions::{context_bounds, dependency_bounds, mode_bounds, visible_bounds};
use crate::truths::symbol_bounds;
use kc_expr::expression::{SymId, SymbolType, Tri};
use kc_tree::laid_tree::LaidTree;
use kc_tree::rows::{ChoiceId, EntryId, VisibleId};
use kc_values::nodes::{Node, node_of};
use std::alloc::{AllocError, Global};

/// Bounds of what the symbols of a tree and the conditions that many of them share may be, whatever the user gives (our own).
/// The value of a symbol that is no bool or tristate counts as n.
#[derive(Drop)]
pub struct Possible<'t> {
    /// The tree.
    pub laid: LaidTree<'t>,
    /// The bounds of each symbol, by number.
    pub symbols: Vec<Bounds>,
    /// Those of what each entry asks of what is in it, with what is around it.
    pub contexts: Vec<Bounds>,
    /// Those of what each menu and the menus around it ask of what is visible.
    pub visibles: Vec<Bounds>,
    /// Those of what each choice depends on itself.
    pub dependencies: Vec<Bounds>,
    /// Those of the mode of each choice.
    pub modes: Vec<Bounds>,
}

// What the value of a symbol of this type may be.
fn of_type(symbol_type: SymbolType) -> Bounds
    ensures { IsOfType symbol_type result }
{
    match symbol_type {
        SymbolType::Bool | SymbolType::Tristate => Bounds::any(),
        _ => Bounds::exactly(Tri::N),
    }
}

// Nothing is known but that a symbol that is no bool or tristate counts as n, and that the top asks for nothing.
fn unknown<'t>(alloc: Global, laid: &LaidTree<'t>) -> Result<Possible<'t>, AllocError>
    ensures laid { IfOk result (λ p. p.laid ≡ laid.now) }
    ensures sound { IfOk result IsSound }
{
    let layout = laid.layout;
    let mut symbols = Vec::with_capacity(alloc, laid.tree.name_count())?;
    for row in layout.symbols() {
        symbols.push(of_type(row.symbol_type))?;
    }
    let mut contexts = vec![in alloc; Bounds::any(); layout.place_count()]?;
    contexts[0] = Bounds::exactly(Tri::Y);
    let mut visibles = vec![in alloc; Bounds::any(); layout.visible_count()]?;
    visibles[0] = Bounds::exactly(Tri::Y);
    Ok(Possible {
        laid: *laid,
        symbols,
        contexts,
        visibles,
        dependencies: vec![in alloc; Bounds::any(); layout.choices().len()]?,
        modes: vec![in alloc; Bounds::any(); layout.choices().len()]?,
    })
}

// Puts the bounds of a symbol in their place.
fn set_symbol(p: &mut Possible<'_>, id: SymId)
    requires { IsSound p.old }
    ensures laid { p.new.laid ≡ p.old.laid }
    ensures sound { IsSound p.new }
{
    let bounds = symbol_bounds(p, id);
    if let Some(place) = p.symbols.get_mut(id.0) {
        *place = bounds;
    }
}

// The same for what a menu asks of what is visible.
fn set_visible(p: &mut Possible<'_>, id: VisibleId)
    requires { IsSound p.old }
    ensures laid { p.new.laid ≡ p.old.laid }
    ensures sound { IsSound p.new }
{
    let bounds = visible_bounds(p, id);
    if let Some(place) = p.visibles.get_mut(id.0 as usize) {
        *place = bounds;
    }
}

// The same for what an entry asks of what is in it.
fn set_context(p: &mut Possible<'_>, at: EntryId)
    requires { IsSound p.old }
    ensures laid { p.new.laid ≡ p.old.laid }
    ensures sound { IsSound p.new }
{
    let bounds = context_bounds(p, at);
    if let Some(place) = p.contexts.get_mut(at.0 as usize) {
        *place = bounds;
    }
}

// The same for what a choice depends on itself, and for its mode.
fn set_dependency(p: &mut Possible<'_>, id: ChoiceId)
    requires { IsSound p.old }
    ensures laid { p.new.laid ≡ p.old.laid }
    ensures sound { IsSound p.new }
{
    let bounds = dependency_bounds(p, id);
    if let Some(place) = p.dependencies.get_mut(id.0 as usize) {
        *place = bounds;
    }
}

fn set_mode(p: &mut Possible<'_>, id: ChoiceId)
    requires { IsSound p.old }
    ensures laid { p.new.laid ≡ p.old.laid }
    ensures sound { IsSound p.new }
{
    let bounds = mode_bounds(p, id);
    if let Some(place) = p.modes.get_mut(id.0 as usize) {
        *place = bounds;
    }
}

// Puts the bounds of a node in their place.
fn set(p: &mut Possible<'_>, node: Node)
    requires { IsSound p.old }
    ensures laid { p.new.laid ≡ p.old.laid }
    ensures sound { IsSound p.new }
{
    match node {
        Node::Symbol(id) => set_symbol(p, id),
        Node::Visible(id) => set_visible(p, id),
        Node::Context(at) => set_context(p, at),
        Node::Dependency(id) => {
            set_dependency(p, id);
            set_mode(p, id);
        }
        Node::Choice(id) => set_mode(p, id),
    }
}

impl<'t> Possible<'t> {
    /// Computes what the symbols of a tree may be, each once. The bounds are close if the nodes are in an order of evaluation,
    /// and hold in any order. The only error is that memory runs out.
    pub fn of(alloc: Global, laid: &LaidTree<'t>, nodes: &[u32]) -> Result<Possible<'t>, AllocError>
        ensures laid { IfOk result (λ p. p.laid ≡ laid.now) }
        ensures sound { IfOk result IsSound }
    {
        let mut possible = unknown(alloc, laid)?;
        for node in nodes {
            let node = node_of(laid.layout, *node);
            set(&mut possible, node);
        }
        Ok(possible)
    }
}
