//! What each symbol needs, directly or through groups.

ghost use Rattle.std.specs.Prelude.{◌≡◌, ◌<◌, [], ◌∷◌, ◌++◌, ◌↔◌, length, IfOk, OnOk, OnErr, IsTrue};
ghost use Rattle.kc_language.specs.Needs.{needs_in};
ghost use Rattle.kc_order.specs.Graph.{IsGraph};

use crate::rows::Rows;
use std::alloc::{AllocError, Global};
use std::marker::Model;

/// What symbols need. A node is a symbol or a group. Each node has a row of the nodes that it needs. Nodes are numbered from 0
/// in the order in which they are added, symbols first. A group holds what several nodes need alike: a node that needs the group
/// needs what its row holds. A group needs only groups before it, so that this ends.
#[derive(Drop)]
pub struct Graph {
    pub(crate) symbols: usize,
    pub(crate) rows: Rows,
}

impl Model for Graph {
    ghost use Rattle.kc_order.specs.Graph.{Nodes};

    ghost Value = { Nodes };

    ghost view = { λ g. record { symbols = g.symbols; rows = g.rows } };
}

impl Graph {
    /// Returns a graph without nodes, of which the first `symbols` will be symbols. It has room for `nodes` nodes, so that no list
    /// is copied as it grows. Fails only if memory runs out.
    pub fn with_room(alloc: Global, symbols: usize, nodes: usize) -> Result<Graph, AllocError>
        ensures { IfOk result (λ g. g ≡ record { symbols = symbols; rows = [] }) }
    {
        let rows = Rows::with_room(alloc, nodes)?;
        Ok(Graph { symbols, rows })
    }

    /// The number of nodes.
    pub fn count(&self) -> usize
        ensures { result ≡ length self.now.rows }
    {
        self.rows.count()
    }

    /// The number of nodes that are symbols.
    pub fn symbols(&self) -> usize
        ensures { result ≡ self.now.symbols }
    {
        self.symbols
    }

    /// The nodes that a node needs.
    pub fn row(&self, node: usize) -> &[u32]
        requires { node < length self.now.rows }
        ensures { result.now ≡ needs_in self.now.rows node }
    {
        self.rows.row(node)
    }

    /// Whether each node of a row exists, all symbols exist, and a group needs only groups before it.
    pub fn is_within(&self) -> bool
        ensures { IsTrue result ↔ IsGraph self.now }
    {
        let count = self.rows.count();
        if count < self.symbols {
            return false;
        }
        if !self.rows.are_below(count) {
            return false;
        }
        self.rows.go_down(self.symbols)
    }

    /// Adds a node that needs these nodes, which may be added later. If memory runs out, nothing changes.
    pub fn add(&mut self, row: &[u32]) -> Result<(), AllocError>
        ensures added { OnOk result (self.new ≡ record self.old { rows = self.old.rows ++ row.now ∷ [] }) }
        ensures unchanged { OnErr result (self.new ≡ self.old) }
    {
        self.rows.push(row)
    }
}
