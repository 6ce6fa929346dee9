//! An order of the nodes, each after what it needs, or the reported loop.

ghost use Rattle.std.specs.Prelude.{◌≡◌, ℕ, ◌<◌, ◌^◌, length, All, Contains, IfOk, IfErr, OnOk};
ghost use Rattle.kc_order.specs.Graph.{IsGraph, needs_of};
ghost use Rattle.kc_order.specs.Loop.{HoldsNeeding};
ghost use Rattle.kc_language.specs.Needs.{needs_in};
ghost use Rattle.kc_order.specs.PartsOfNeeds.{AreAccepted as IsAccepted};
ghost use Rattle.kc_order.specs.Order.{Orders};
ghost use Rattle.kc_order.specs.Reason.{IsReason};

use crate::graph::Graph;
use crate::named_loop::named_loop;
use crate::search::{Search, first_unordered, search_all};
use std::alloc::{AllocError, Global};
use std::marker::Model;

/// Why there is no order.
#[derive(Debug, Drop)]
pub enum NoOrder {
    /// Some symbol is unordered. These are the symbols of the reported loop: each needs the next, and the last needs the first.
    Loop(Vec<u32>),
    /// Memory ran out.
    Memory,
}

impl From<AllocError> for NoOrder {
    ghost use Rattle.std.specs.Prelude.{◌≡◌};
    ghost use Rattle.kc_order.specs.declared.order.NoOrder.TheVariants.{Memory};

    ghost from_gives = { λ _ e. e ≡ Memory };

    fn from(_e: AllocError) -> NoOrder {
        NoOrder::Memory
    }
}

/// All nodes in an order in which each comes after what it needs, and the graph that the order belongs to.
#[derive(Drop)]
pub struct Order {
    graph: Graph,
    nodes: Vec<u32>,
}

impl Model for Order {
    ghost use Rattle.kc_order.specs.Graph.{Nodes};
    ghost use Rattle.kc_order.specs.Order.{Orders};

    ghost Value = { Nodes };

    ghost view = { λ o. o.graph };

    ghost invariant = { λ o. Orders o.graph.rows o.nodes.items };
}

impl Order {
    /// The nodes in order, each after what it needs: symbols and groups.
    pub fn nodes(&self) -> &[u32]
        ensures { Orders self.now.rows result.now }
    {
        &self.nodes
    }
}

// Returns the nodes in order, or the reported loop.
fn order_or_loop(alloc: Global, graph: &Graph, sequence: &[u32]) -> Result<Vec<u32>, NoOrder>
    requires graph { IsGraph graph.now }
    requires few { length graph.now.rows < 2 ^ 32 }
    requires sequence { All (λ s. s < graph.now.symbols) sequence.now }
    requires needing { HoldsNeeding sequence.now (needs_of graph.now) }
    ensures order { IfOk result (λ v. Orders graph.now.rows v.items) }
    ensures refused { IfErr result (IsReason sequence.now (needs_of graph.now)) }
{
    let Search { states, order, .. } = search_all(alloc, &graph.rows)?;
    match first_unordered(&states, sequence) {
        None => Ok(order),
        Some(first) => {
            let found = named_loop(alloc, &graph.rows, graph.symbols, sequence, &states, first)?;
            Err(NoOrder::Loop(found))
        }
    }
}

/// Returns an order for this graph, if no symbol is unordered. The time is linear in the stored rows and in the sequence,
/// also if there is no order.
///
/// Returns `Loop` exactly if some symbol is unordered, and `Memory` only if memory runs out. After an error the graph is
/// freed. Which symbols are unordered, and which loop is reported, is our own rule over what symbols need, also through
/// groups: a walk goes from the first unordered symbol always to the first unordered symbol that the last one needs. The loop
/// is the part of the walk from the symbol that it meets twice. The first of several symbols is the one that comes first in
/// `sequence`, which must have each symbol whose row is not empty.
pub fn order_of(alloc: Global, graph: Graph, sequence: &[u32]) -> Result<Order, NoOrder>
    requires graph { IsGraph graph }
    requires few { length graph.rows < 2 ^ 32 }
    requires sequence { All (λ s. s < graph.symbols) sequence.now }
    requires needing { (s : ℕ) → s < graph.symbols → 0 < length (needs_in graph.rows s) → Contains sequence.now s }
    ensures same { IfOk result (λ o. o ≡ graph) }
    ensures accepted { OnOk result (IsAccepted (needs_of graph)) }
    ensures refused { IfErr result (IsReason sequence.now (needs_of graph)) }
{
    let nodes = order_or_loop(alloc, &graph, sequence)?;
    Ok(Order { graph, nodes })
}
