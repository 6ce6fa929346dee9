//! In which order the nodes of a tree are renewed, and which nodes read each node.

ghost use Rattle.std.specs.Prelude.{◌≡◌, ◌<◌, ◌↔◌, ◌||◌, ◌^◌, [], length, get_or, nat_lt, slice_index_or, true, false, All, IfOk, IfSome, IsTrue, OnOk};
ghost use Rattle.kc_order.specs.Graph.{IsGraph};
ghost use Rattle.kc_solve.specs.Again.{AreReaders, IsOrderedBy, IsPlanOf};
ghost use Rattle.kc_solve.specs.Orders.{IsOrderOf};
ghost use Rattle.kc_solve.specs.Renewing.{AreMarked, HaveReader};

use crate::evaluation_order::EvaluationOrder;
use kc_order::Graph;
use kc_tree::laid_tree::LaidTree;
use kc_user::lists::Lists;
use kc_values::needs::tree_needs;
use std::alloc::{AllocError, Global};

/// The nodes of a tree in an order of evaluation, and for each node the nodes that read it (our own).
#[derive(Drop)]
pub struct Plan {
    pub(crate) nodes: Vec<u32>,
    readers: Lists<u32>,
}

// Whether a node is a symbol, or done.
fn is_ready(node: u32, symbols: usize, done: &[bool]) -> bool
    ensures { result ≡ (nat_lt node symbols || slice_index_or done.now node false) }
{
    let place = node as usize;
    place < symbols || (place < done.len() && done[place])
}

// Whether the groups among these nodes are done.
fn are_ready(row: &[u32], symbols: usize, done: &[bool]) -> bool
    ensures { IsTrue result ↔ All (λ t. IsTrue (nat_lt t symbols || slice_index_or done.now t false)) row.now }
{
    row.iter().all(|node| is_ready(*node, symbols, done))
}

// Whether each node comes after the groups in its row.
fn is_ordered(alloc: Global, needs: &Graph, nodes: &[u32]) -> Result<bool, AllocError>
    requires { All (λ n. n < length needs.now.rows) nodes.now }
    ensures { IfOk result (λ ordered. ordered ≡ true → IsOrderedBy needs.now nodes.now) }
{
    let symbols = needs.symbols();
    let mut done = vec![in alloc; false; needs.count()]?;
    for node in nodes {
        let place = *node as usize;
        if !are_ready(needs.row(place), symbols, &done) {
            return Ok(false);
        }
        done[place] = true;
    }
    Ok(true)
}

// Adds a node to the lists of the nodes in its row.
fn add_reader(readers: &mut Lists<u32>, row: &[u32], node: u32) -> Result<(), AllocError>
    requires { All (λ t. t < length readers.old) row.now }
    ensures { OnOk result (HaveReader row.now node readers.old readers.new) }
{
    for read in row {
        readers.add(*read as usize, node)?;
    }
    Ok(())
}

// For each node the nodes in whose rows it is.
fn readers_of(alloc: Global, needs: &Graph) -> Result<Lists<u32>, AllocError>
    requires graph { IsGraph needs.now }
    requires few { length needs.now.rows < 2 ^ 32 }
    ensures { IfOk result (AreReaders needs.now) }
{
    let mut readers = Lists::new(alloc, needs.count())?;
    for node in 0..needs.count() {
        add_reader(&mut readers, needs.row(node), node as u32)?;
    }
    Ok(readers)
}

// Marks these nodes.
fn mark(nodes: &[u32], marks: &mut [bool])
    ensures { AreMarked nodes.now marks.old marks.new }
{
    for node in nodes {
        let place = *node as usize;
        if place < marks.len() {
            marks[place] = true;
        }
    }
}

impl Plan {
    /// Makes the plan of a tree from an order of its nodes. Returns `None` if the order puts a node before a group in its
    /// row. Fails only if there is not enough memory.
    pub(crate) fn of(
        alloc: Global,
        laid: &LaidTree<'_>,
        order: &EvaluationOrder,
    ) -> Result<Option<Plan>, AllocError>
        requires { IsOrderOf laid.now order.now }
        ensures { IfOk result (λ plan. IfSome plan (IsPlanOf laid.now)) }
    {
        let needs = tree_needs(alloc, laid)?;
        if !is_ordered(alloc, &needs, order.nodes())? {
            return Ok(None);
        }
        let readers = readers_of(alloc, &needs)?;
        let nodes = Vec::from_slice(alloc, order.nodes())?;
        Ok(Some(Plan { nodes, readers }))
    }

    /// How many nodes there are, also those for which nothing is computed.
    pub(crate) fn count(&self) -> usize
        ensures { result ≡ length self.now.readers }
    {
        self.readers.len()
    }

    /// Marks the nodes that read a node.
    pub(crate) fn mark_readers(&self, node: u32, marks: &mut [bool])
        ensures { AreMarked (get_or self.now.readers node []) marks.old marks.new }
    {
        mark(self.readers.get(node as usize), marks);
    }
}
