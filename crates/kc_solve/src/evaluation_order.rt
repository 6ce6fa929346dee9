//! An order of a tree's symbols, or the reported dependency loop.

ghost use Rattle.std.specs.Prelude.{◌≡◌, ◌≢◌, ◌<◌, ◌++◌, filter, length, map, All, IfOk, IfErr, OnOk};
ghost use Rattle.kc_language.specs.Needs.{needs_in, arrows, loop_text, needs, IsAccepted};
ghost use Rattle.kc_order.specs.Needs.{SomeUnordered};
ghost use Rattle.kc_read.specs.RefusalView.{IsMemory, refusal_view};
ghost use Rattle.kc_language.specs.declared.diagnostics.Cause.TheVariants.{Memory};
ghost use Rattle.kc_solve.specs.Orders.{IsNodeOrder, IsOrderOf};
ghost use Rattle.kc_solve.specs.Busy as busy;
ghost use Rattle.kc_language.specs.Needs as refused;
ghost use Rattle.kc_solve.specs.Refused.{NamesLoop};
ghost use Rattle.kc_solve.specs.LoopFaults.{NamesTheLoop};

use kc_diagnostics::Cause;
use kc_expr::expression::SymId;
use kc_order::{NoOrder, alike_needs, order_of};
use kc_read::refusal::Refusal;
use kc_tree::laid_tree::LaidTree;
use kc_tree::layout::Layout;
use kc_tree::tree::Tree;
use kc_values::laws::needs_are_symbols;
use kc_values::needs::tree_needs;
use kc_values::nodes::{Node, node_of};
use kc_values::table::name;
use std::alloc::{AllocError, Global};
use std::marker::Model;

/// All defined symbols of a tree in an order in which what each needs stands before it, with the contexts and choices between
/// them for which something is computed: a list of nodes, by number (our own; the kernel's kconfig-language document asks of a
/// tree that its dependencies don't recur).
#[derive(Drop)]
pub struct EvaluationOrder {
    nodes: Vec<u32>,
}

impl Model for EvaluationOrder {
    ghost use Rattle.std.specs.Prelude.{ℕ, List};

    ghost Value = { List ℕ };

    ghost view = { λ o. o.nodes.items };
}

impl EvaluationOrder {
    /// Computes an order of the tree's symbols.
    ///
    /// # Errors
    ///
    /// `Loop` if and only if some symbol is in a dependency loop or needs one (is unordered): a walk along its needs
    /// never ends. The refusal has no location. Its cause is the reported loop: the names of the loop's symbols and the
    /// first one again, joined by ` -> `. The walk starts at the first unordered symbol, and always goes on to the
    /// first unordered symbol that is needed. The first of several symbols is the one that is defined first (our own
    /// rule). `Memory` if there is not enough memory.
    pub fn of(alloc: Global, laid: &LaidTree<'_>) -> Result<EvaluationOrder, Refusal>
        ensures order { IfOk result (IsOrderOf laid.now) }
        ensures accepted { OnOk result (IsAccepted laid.now.tree.now) }
        ensures unordered { IfErr result (λ r. r.cause ≢ Memory → SomeUnordered (length (needs laid.now.tree.now)) (needs_in (needs laid.now.tree.now))) }
        ensures refused { IfErr result (NamesLoop laid.now.tree.now) }
        ensures memory { IfErr result IsMemory }
    {
        match tree_order(alloc, laid) {
            Ok(nodes) => Ok(EvaluationOrder { nodes }),
            Err(LoopFault::Loop(text)) => Err(loop_refusal(text)),
            Err(LoopFault::Memory) => Err(Refusal::out_of_memory()),
        }
    }

    /// The nodes in order, by number.
    pub fn nodes(&self) -> &[u32]
        ensures { result.now ≡ self.now }
    {
        &self.nodes
    }
}

// The refusal for a loop.
fn loop_refusal(text: Vec<u8>) -> Refusal
    ensures { refusal_view result ≡ refused.loop_refused text.items }
{
    Refusal {
        cause: Cause::Loop(text),
        location: None,
    }
}

// Why a tree has no order.
#[derive(Debug, Drop)]
enum LoopFault {
    // Some symbol is unordered. Holds the names of the reported loop and its first one again, joined by ` -> `.
    Loop(Vec<u8>),
    // There was not enough memory.
    Memory,
}

impl From<AllocError> for LoopFault {
    ghost use Rattle.std.specs.Prelude.{◌≡◌};
    ghost use Rattle.kc_solve.specs.declared.evaluation_order.LoopFault.TheVariants.{Memory};

    ghost from_gives = { λ _ e. e ≡ Memory };

    fn from(_e: AllocError) -> LoopFault {
        LoopFault::Memory
    }
}

// Appends ` -> NAME` to the text for each symbol.
fn arrows_into(tree: &Tree, symbols: &[u32], text: &mut Vec<u8>) -> Result<(), AllocError>
    ensures { OnOk result (text.new.items ≡ text.old.items ++ arrows tree.now symbols.now) }
{
    for symbol in symbols {
        text.extend_from_slice(b" -> ")?;
        text.extend_from_slice(name(tree, SymId(*symbol as usize)))?;
    }
    Ok(())
}

// The names of a loop and its first one again.
fn loop_text(alloc: Global, tree: &Tree, symbols: &[u32]) -> Result<Vec<u8>, AllocError>
    ensures { IfOk result (λ v. v.items ≡ loop_text tree.now symbols.now) }
{
    let [first, rest @ ..] = symbols else {
        let empty = Vec::new(alloc);
        return Ok(empty);
    };
    let mut text = Vec::from_slice(alloc, name(tree, SymId(*first as usize)))?;
    arrows_into(tree, rest, &mut text)?;
    arrows_into(tree, &[*first], &mut text)?;
    Ok(text)
}

// The numbers of the defined symbols, in the order of their first definitions.
fn first_numbers(alloc: Global, layout: &Layout) -> Result<Vec<u32>, AllocError>
    requires { All (λ s. s.0 < length layout.now.symbols.items) layout.now.defined.items }
    ensures { IfOk result (λ v. v.items ≡ map (λ s. s.0) layout.now.defined.items) }
{
    let defined = layout.defined();
    let mut numbers = Vec::with_capacity(alloc, defined.len())?;
    for id in defined {
        numbers.push(id.0 as u32)?;
    }
    Ok(numbers)
}

// Whether a symbol is defined.
fn is_defined(layout: &Layout, id: SymId) -> bool
    ensures { result ≡ busy.is_defined layout.now id.0 }
{
    match layout.symbol(id) {
        Some(symbol) => symbol.first.is_some(),
        None => false,
    }
}

// Whether anything is computed for a node: not for a name that is not defined, the top, or an entry that asks for nothing.
fn is_busy(layout: &Layout, node: u32) -> bool
    ensures { result ≡ busy.is_busy layout.now node }
{
    match node_of(layout, node) {
        Node::Symbol(id) => is_defined(layout, id),
        Node::Visible(id) => id.is_some(),
        Node::Context(at) => at.is_some() && layout.place(at).context.0 == at.0,
        Node::Dependency(_) | Node::Choice(_) => true,
    }
}

// The nodes for which something is computed.
fn busy_nodes(alloc: Global, layout: &Layout, nodes: &[u32]) -> Result<Vec<u32>, AllocError>
    ensures { IfOk result (λ v. v.items ≡ filter (busy.is_busy layout.now) nodes.now) }
{
    let mut busy = Vec::with_capacity(alloc, layout.defined().len())?;
    for node in nodes {
        if is_busy(layout, *node) {
            busy.push(*node)?;
        }
    }
    Ok(busy)
}

// An order of the symbols of a tree in which what each needs stands before it. Fails where some symbol is unordered, with
// the text of the loop that is named, and for being out of memory.
fn tree_order(alloc: Global, laid: &LaidTree<'_>) -> Result<Vec<u32>, LoopFault>
    ensures order { IfOk result (λ v. IsNodeOrder laid.now.tree.now laid.now.layout.now v.items) }
    ensures accepted { OnOk result (IsAccepted laid.now.tree.now) }
    ensures refused { IfErr result (NamesTheLoop laid.now.tree.now) }
{
    needs_are_symbols();
    alike_needs();
    let _count = laid.tree.name_count();
    let all = tree_needs(alloc, laid)?;
    let sequence = first_numbers(alloc, laid.layout)?;
    match order_of(alloc, all, &sequence) {
        Ok(order) => Ok(busy_nodes(alloc, laid.layout, order.nodes())?),
        Err(NoOrder::Loop(symbols)) => {
            let text = loop_text(alloc, laid.tree, &symbols)?;
            Err(LoopFault::Loop(text))
        }
        Err(NoOrder::Memory) => Err(LoopFault::Memory),
    }
}
