//! Orders and loops of graphs (kc_order): which loop is reported, and the laws at a type.

ghost use Rattle.std.specs.Prelude.{◌≡◌, ◌<◌, ◌^◌, map, IfOk};
ghost use Rattle.std.specs.List.{range_with_len};

use kc_order::{
    Graph, NoOrder, Order, accepted_have_one_solution, computing_solves, cycles_are_unordered,
    iterations_solve, minimal_has_nothing_to_spare, minimal_restores, named_loop_is_closed,
    named_loop_is_within, one_named_loop, order_of, ordered_are_accepted, solutions_agree,
};
use std::alloc::{AllocError, Global};

// The numbers below this one.
fn numbers(alloc: Global, count: usize) -> Result<Vec<u32>, AllocError>
    requires { count < 2 ^ 32 }
    ensures { IfOk result (λ v. v.items ≡ map (λ i. i) (range_with_len 0 count)) }
{
    let mut numbers = Vec::new(alloc);
    for i in 0..count {
        numbers.push(i as u32)?;
    }
    Ok(numbers)
}

// An order of a graph, if a graph of this size is allowed. Symbols are ordered by number.
fn order_if_within(alloc: Global, graph: Graph) -> Result<Order, NoOrder> {
    if graph.is_within() {
        if graph.count() < 1_000_000 {
            let sequence = numbers(alloc, graph.symbols())?;
            return order_of(alloc, graph, &sequence);
        }
    }
    Err(NoOrder::Memory)
}

// The same for a graph of two symbols, the second of which comes first.
fn order_of_two(alloc: Global, graph: Graph) -> Result<Order, NoOrder> {
    if graph.is_within() {
        if graph.count() < 1_000_000 && graph.symbols() == 2 {
            return order_of(alloc, graph, &[1, 0]);
        }
    }
    Err(NoOrder::Memory)
}

// The reported loop; empty if there is an order.
fn loop_of(alloc: Global, order: Result<Order, NoOrder>) -> Result<Vec<u32>, AllocError> {
    match order {
        Ok(_order) => Ok(Vec::new(alloc)),
        Err(reason) => match reason {
            NoOrder::Loop(symbols) => Ok(symbols),
            NoOrder::Memory => Err(AllocError),
        },
    }
}

// A graph with these rows. The first ones are symbols.
fn graph_from(alloc: Global, symbols: usize, rows: &[&[u32]]) -> Result<Graph, AllocError> {
    let mut graph = Graph::with_room(alloc, symbols, rows.len())?;
    for row in rows {
        graph.add(row)?;
    }
    Ok(graph)
}

// A graph whose first nodes are symbols, the needs of each node, and the reported loop; empty if there is an order.
struct LoopCase {
    name: &'static str,
    symbols: usize,
    needs: &'static [&'static [u32]],
    named: &'static [u32],
}

const LOOPS: &[LoopCase] = &[
    LoopCase {
        name: "the path to a loop is left out: 0 has 1 as its default, 1 has 2 and 2 has 1",
        symbols: 3,
        needs: &[&[1], &[2], &[1]],
        named: &[1, 2],
    },
    LoopCase {
        name: "a symbol needs itself",
        symbols: 1,
        needs: &[&[0]],
        named: &[0],
    },
    LoopCase {
        name: "the first of two loops: 0 is free; 1 needs 4 and 2, which lie on two",
        symbols: 6,
        needs: &[&[], &[4, 0, 2], &[3], &[2], &[5], &[4]],
        named: &[2, 3],
    },
    LoopCase {
        name: "two paths lead to a loop: 0 and 4 need what goes round 2 and 3; 1 is free",
        symbols: 5,
        needs: &[&[1, 3], &[], &[3], &[2], &[1, 0]],
        named: &[3, 2],
    },
    LoopCase {
        name: "two members of a choice, the first with a prompt under the second",
        symbols: 2,
        needs: &[&[2], &[2], &[1]],
        named: &[1],
    },
    LoopCase {
        name: "a loop through groups names symbols: 0 needs what 2 and 1 are in a group within another; 2 needs 0",
        symbols: 3,
        needs: &[&[4], &[], &[0], &[2], &[1, 3]],
        named: &[0, 2],
    },
    LoopCase {
        name: "a group beside a loop is passed: it asks for 1, which is free, and for 2, which needs itself",
        symbols: 3,
        needs: &[&[3], &[], &[2], &[2, 1]],
        named: &[2],
    },
];

fn has_loop(alloc: Global, order: Result<Order, NoOrder>, named: &[u32]) -> bool {
    match loop_of(alloc, order) {
        Ok(found) => found.as_slice() == named,
        Err(_) => false,
    }
}

fn has_named_loop(alloc: Global, case: &LoopCase) -> bool {
    match graph_from(alloc, case.symbols, case.needs) {
        Ok(graph) => has_loop(alloc, order_if_within(alloc, graph), case.named),
        Err(_) => false,
    }
}

#[test]
fn the_first_loop_is_named(rt: HostRuntime) {
    for case in LOOPS {
        assert!(rt; has_named_loop(rt.alloc(), case), "{}", case.name);
    }
}

// Two symbols that need themselves.
fn names_the_second(alloc: Global) -> bool {
    match graph_from(alloc, 2, &[&[0], &[1]]) {
        Ok(graph) => has_loop(alloc, order_of_two(alloc, graph), &[1]),
        Err(_) => false,
    }
}

#[test]
fn the_sequence_says_which_loop_is_the_first(rt: HostRuntime) {
    assert!(rt; names_the_second(rt.alloc()));
}

fn has_counts(alloc: Global, symbols: usize, needs: &[&[u32]]) -> bool {
    match graph_from(alloc, symbols, needs) {
        Ok(graph) => graph.count() == needs.len() && graph.symbols() == symbols,
        Err(_) => false,
    }
}

#[test]
fn symbols_and_groups_are_counted(rt: HostRuntime) {
    assert!(rt; has_counts(rt.alloc(), 2, &[&[2], &[2], &[1]]));
}

fn is_ordered_as(alloc: Global, symbols: usize, needs: &[&[u32]], nodes: &[u32]) -> bool {
    match graph_from(alloc, symbols, needs) {
        Ok(graph) => match order_if_within(alloc, graph) {
            Ok(order) => order.nodes() == nodes,
            Err(_) => false,
        },
        Err(_) => false,
    }
}

#[test]
fn groups_stand_after_what_they_need(rt: HostRuntime) {
    assert!(rt; is_ordered_as(rt.alloc(), 2, &[&[3], &[], &[1], &[2]], &[1, 2, 3, 0]));
}

fn is_within(alloc: Global, symbols: usize, needs: &[&[u32]]) -> Option<bool> {
    match graph_from(alloc, symbols, needs) {
        Ok(graph) => Some(graph.is_within()),
        Err(_) => None,
    }
}

#[test]
fn a_group_does_not_need_a_later_one(rt: HostRuntime) {
    assert!(rt; is_within(rt.alloc(), 1, &[&[1], &[2], &[0]]) == Some(false));
    assert!(rt; is_within(rt.alloc(), 1, &[&[1], &[0], &[1]]) == Some(true));
}

#[test]
fn laws_hold_of_bytes(_rt: HostRuntime) {
    ordered_are_accepted();
    cycles_are_unordered();
    named_loop_is_closed();
    named_loop_is_within();
    one_named_loop();
    accepted_have_one_solution::<u8>();
    solutions_agree::<u8>();
    computing_solves::<u8>();
    iterations_solve::<u8>();
    minimal_restores::<u8, usize, u8>();
    minimal_has_nothing_to_spare::<u8, usize, u8>();
}
