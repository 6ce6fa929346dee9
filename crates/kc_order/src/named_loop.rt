//! The loop that is reported if some symbol is unordered.

ghost use Rattle.std.specs.Prelude.{◌≡◌, ◌<◌, ◌≢◌, length, slice_index, slice_index_or, All, IfOk, MatchOption, true, fold};
ghost use Rattle.kc_order.specs.FirstUnordered.{lesser_of, ArePlaces, AreFirsts, TellsUnordered};
ghost use Rattle.kc_order.specs.Graph.{IsGraph, needs_of};
ghost use Rattle.kc_order.specs.Loop.{HoldsNeeding};
ghost use Rattle.kc_order.specs.PartsOfNeeds.{IsFirstUnordered, IsNext};
ghost use Rattle.kc_language.specs.Needs.{IsNamedLoop, needs_in, unordered_after};

use crate::rows::Rows;
use crate::search::{NodeState, is_unordered};
use std::alloc::{AllocError, Global};

// The lesser of two positions, if there are any.
fn lesser(a: Option<usize>, b: Option<usize>) -> Option<usize>
    ensures { result ≡ lesser_of a b }
{
    match (a, b) {
        (Some(s), Some(t)) => Some(s.min(t)),
        (Some(s), None) => Some(s),
        (None, other) => other,
    }
}

// The position of each unordered symbol in the sequence: the first one, if the symbol is in it twice.
fn unordered_places(
    alloc: Global,
    sequence: &[u32],
    states: &[NodeState],
) -> Result<Vec<Option<usize>>, AllocError>
    requires { All (λ s. s < length states.now) sequence.now }
    ensures { IfOk result (λ v. ArePlaces sequence.now states.now v.items) }
{
    let mut places = vec![in alloc; None; states.len()]?;
    for (place, symbol) in sequence.iter().enumerate() {
        let symbol = *symbol as usize;
        let found = is_unordered(states[symbol]).then_some(place);
        places[symbol] = places[symbol].or(found);
    }
    Ok(places)
}

// The position of the first unordered symbol among those that the nodes of a row have.
fn first_in_row(row: &[u32], firsts: &[Option<usize>]) -> Option<usize>
    requires { All (λ t. t < length firsts.now) row.now }
    ensures { result ≡ fold (λ first t. lesser_of first (slice_index_or firsts.now t None)) None row.now }
{
    let mut first = None;
    for node in row {
        first = lesser(first, firsts[*node as usize]);
    }
    first
}

// For each node the position of its first unordered symbol. A symbol has itself, and a group has the symbols that it needs.
fn find_firsts(
    alloc: Global,
    rows: &Rows,
    symbols: usize,
    sequence: &[u32],
    states: &[NodeState],
) -> Result<Vec<Option<usize>>, AllocError>
    requires graph { IsGraph (record { symbols = symbols; rows = rows.now }) }
    requires sequence { All (λ s. s < symbols) sequence.now }
    requires states { TellsUnordered rows.now states.now }
    ensures { IfOk result (λ v. AreFirsts sequence.now (record { symbols = symbols; rows = rows.now }) (length rows.now) v.items) }
{
    let mut firsts = unordered_places(alloc, sequence, states)?;
    for group in symbols..rows.count() {
        firsts[group] = first_in_row(rows.row(group), &firsts);
    }
    Ok(firsts)
}

// The first unordered symbol that an unordered symbol needs.
fn next_unordered(
    rows: &Rows,
    symbols: usize,
    sequence: &[u32],
    firsts: &[Option<usize>],
    symbol: u32,
) -> u32
    requires graph { IsGraph (record { symbols = symbols; rows = rows.now }) }
    requires needing { HoldsNeeding sequence.now (needs_of (record { symbols = symbols; rows = rows.now })) }
    requires firsts { AreFirsts sequence.now (record { symbols = symbols; rows = rows.now }) (length rows.now) firsts.now }
    requires symbol { symbol < symbols }
    requires is_unordered { unordered_after (needs_in (needs_of (record { symbols = symbols; rows = rows.now }))) symbols symbol ≡ true }
    ensures { IsNext sequence.now symbols (needs_in (needs_of (record { symbols = symbols; rows = rows.now }))) symbol result }
{
    match first_in_row(rows.row(symbol as usize), firsts) {
        Some(place) => sequence[place],
        None => unreachable!(),
    }
}

// The position of a symbol on a walk.
fn position_of(walk: &[u32], symbol: u32) -> Option<usize>
    ensures { MatchOption result (All (λ s. s ≢ symbol) walk.now) (λ i. (i < length walk.now) × (slice_index walk.now i ≡ symbol)) }
{
    walk.iter().position(|visited| *visited == symbol)
}

/// Returns the loop in which the walk along unordered symbols ends. The walk begins at a position of the sequence.
pub(crate) fn named_loop(
    alloc: Global,
    rows: &Rows,
    symbols: usize,
    sequence: &[u32],
    states: &[NodeState],
    first: usize,
) -> Result<Vec<u32>, AllocError>
    requires graph { IsGraph (record { symbols = symbols; rows = rows.now }) }
    requires sequence { All (λ s. s < symbols) sequence.now × (first < length sequence.now) }
    requires needing { HoldsNeeding sequence.now (needs_of (record { symbols = symbols; rows = rows.now })) }
    requires states { TellsUnordered rows.now states.now }
    requires first { IsFirstUnordered sequence.now symbols (needs_in (needs_of (record { symbols = symbols; rows = rows.now }))) (slice_index sequence.now first) }
    ensures { IfOk result (λ v. IsNamedLoop sequence.now symbols (needs_in (needs_of (record { symbols = symbols; rows = rows.now }))) v.items) }
{
    let firsts = find_firsts(alloc, rows, symbols, sequence, states)?;
    let mut visited = vec![in alloc; false; symbols]?;
    let mut walk = Vec::new(alloc);
    let mut at = sequence[first];
    while !visited[at as usize] {
        visited[at as usize] = true;
        walk.push(at)?;
        at = next_unordered(rows, symbols, sequence, &firsts, at);
    }
    match position_of(&walk, at) {
        None => unreachable!(),
        Some(start) => {
            let found = Vec::from_slice(alloc, &walk[start..])?;
            Ok(found)
        }
    }
}
