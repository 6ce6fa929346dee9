//! A depth-first search for an order, with its own stack. It does not stop at an unordered node, so that it finds all of them.

ghost use Rattle.std.specs.Prelude.{◌≡◌, ℕ, ◌<◌, ◌≤◌, ◌↔◌, length, slice_index, IfOk, IsTrue, OnOk, All, position, slice_index_or, take, vec_len, replicate, map, ◌≢◌, ◌^◌, ◌++◌, ◌∷◌, [], ◌-◌};
ghost use Rattle.kc_order.specs.FirstUnordered.{is_unordered_at};
ghost use Rattle.kc_order.specs.Rows.{RowsBelow};
ghost use Rattle.kc_order.specs.Search.{IsSound, IsTop, IsFinished, KeepsVisited, Opens, Closes, GivesUp, work, state_of, is_unordered};

use crate::rows::Rows;
use std::alloc::{AllocError, Global};

/// The state of a node.
#[derive(Clone, Copy, Debug, Drop)]
pub(crate) enum NodeState {
    /// Not visited yet.
    New,
    /// Some of its needs have not been examined yet.
    Open,
    /// All of its needs are done.
    Done,
    /// It is unordered.
    Unordered,
}

/// The search so far.
#[derive(Drop)]
pub(crate) struct Search {
    /// The state of each node.
    pub states: Vec<NodeState>,
    // How many needs of each node have not been examined yet.
    left: Vec<usize>,
    // The open nodes. Each needs the next.
    path: Vec<u32>,
    /// The done nodes, in order.
    pub order: Vec<u32>,
}

// Whether a node is done.
fn is_done(mark: NodeState) -> bool
    ensures { IsTrue result ↔ mark ≡ NodeState.Done }
{
    matches!(mark, NodeState::Done)
}

// Opens a node.
fn open(search: &mut Search, node: u32) -> Result<(), AllocError>
    requires { node < length search.old.states.items }
    ensures { OnOk result (Opens search.old search.new node) }
{
    search.states[node as usize] = NodeState::Open;
    search.path.push(node)?;
    Ok(())
}

// Closes the last open node.
fn close(search: &mut Search, node: u32) -> Result<(), AllocError>
    requires there { node < length search.old.states.items }
    requires last { search.old.path.items ≡ take (vec_len search.old.path - 1) search.old.path.items ++ node ∷ [] }
    ensures { OnOk result (Closes search.old search.new node) }
{
    search.path.pop();
    search.states[node as usize] = NodeState::Done;
    search.order.push(node)?;
    Ok(())
}

// Marks the last open node as unordered.
fn give_up(search: &mut Search, node: u32)
    requires there { node < length search.old.states.items }
    requires last { search.old.path.items ≡ take (vec_len search.old.path - 1) search.old.path.items ++ node ∷ [] }
    ensures { GivesUp search.old search.new node }
{
    search.path.pop();
    search.states[node as usize] = NodeState::Unordered;
}

// How many of the first `count` needs of a row are left without those at their end that are done.
fn pass_done(row: &[u32], states: &[NodeState], count: usize) -> usize
    requires count { count ≤ length row.now }
    requires row { All (λ t. t < length states.now) row.now }
    ensures fewer { result ≤ count }
    ensures done { (k : ℕ) → result ≤ k → k < count → slice_index_or states.now (slice_index row.now k) NodeState.New ≡ NodeState.Done }
{
    let mut left = count;
    while left > 0 && is_done(states[row[left - 1] as usize]) {
        left -= 1;
    }
    left
}

// Examines the next needs of the last open node, up to one that is not done, or closes the node. The node is unordered if that need is unordered, or
// is open, so that the path comes back to it.
fn advance(rows: &Rows, search: &mut Search, top: u32) -> Result<(), AllocError>
    requires rows_below { RowsBelow (length rows.now) rows.now }
    requires sound { IsSound rows.now search.old }
    requires top { IsTop (length rows.now) search.old top }
    ensures sound { OnOk result (IsSound rows.now search.new) }
    ensures less { OnOk result (work search.new < work search.old) }
    ensures visited { OnOk result (KeepsVisited search.old search.new) }
{
    let left = search.left[top as usize];
    if left == 0 {
        close(search, top)?;
        return Ok(());
    }
    let row = rows.row(top as usize);
    let need = row[left - 1];
    match search.states[need as usize] {
        NodeState::Done => search.left[top as usize] = pass_done(row, &search.states, left - 1),
        NodeState::New => open(search, need)?,
        NodeState::Open => give_up(search, top),
        NodeState::Unordered => give_up(search, top),
    }
    Ok(())
}

// Visits all nodes that a node needs, and the node itself, unless it was visited.
fn visit(rows: &Rows, search: &mut Search, root: u32) -> Result<(), AllocError>
    requires rows_below { RowsBelow (length rows.now) rows.now }
    requires sound { IsSound rows.now search.old }
    requires below { root < length rows.now }
    requires idle { length search.old.path.items ≡ 0 }
    ensures sound { OnOk result (IsSound rows.now search.new × (length search.new.path.items ≡ 0)) }
    ensures visited { OnOk result (KeepsVisited search.old search.new × (state_of search.new root ≢ NodeState.New)) }
{
    match search.states[root as usize] {
        NodeState::New => {}
        _ => return Ok(()),
    }
    open(search, root)?;
    while let Some(top) = search.path.last() {
        let top = *top;
        advance(rows, search, top)?;
    }
    Ok(())
}

// The states of nodes that have not been visited.
fn new_states(alloc: Global, count: usize) -> Result<Vec<NodeState>, AllocError>
    ensures { IfOk result (λ v. v.items ≡ replicate count NodeState.New) }
{
    let states = vec![in alloc; NodeState::New; count]?;
    Ok(states)
}

// The number of needs of each node.
fn need_counts(alloc: Global, rows: &Rows) -> Result<Vec<usize>, AllocError>
    ensures { IfOk result (λ v. v.items ≡ map length rows.now) }
{
    let mut counts = Vec::with_capacity(alloc, rows.count())?;
    for row in 0..rows.count() {
        counts.push(rows.row(row).len())?;
    }
    Ok(counts)
}

/// Searches all nodes: which are unordered, and an order of the others.
pub(crate) fn search_all(alloc: Global, rows: &Rows) -> Result<Search, AllocError>
    requires rows_below { RowsBelow (length rows.now) rows.now }
    requires few { length rows.now < 2 ^ 32 }
    ensures { IfOk result (IsFinished rows.now) }
{
    let count = rows.count();
    let mut search = Search {
        states: new_states(alloc, count)?,
        left: need_counts(alloc, rows)?,
        path: Vec::new(alloc),
        order: Vec::with_capacity(alloc, count)?,
    };
    for root in 0..count {
        visit(rows, &mut search, root as u32)?;
    }
    Ok(search)
}

/// Whether a node is unordered.
pub(crate) fn is_unordered(mark: NodeState) -> bool
    ensures { result ≡ is_unordered mark }
{
    matches!(mark, NodeState::Unordered)
}

/// The position of the first unordered node of a sequence.
pub(crate) fn first_unordered(states: &[NodeState], sequence: &[u32]) -> Option<usize>
    requires { All (λ s. s < length states.now) sequence.now }
    ensures { result ≡ position (is_unordered_at states.now) sequence.now }
{
    sequence
        .iter()
        .position(|node| is_unordered(states[*node as usize]))
}
