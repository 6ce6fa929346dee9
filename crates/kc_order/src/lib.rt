#![tactic(auto)]
//! Which symbols need which: an order for them, the loop that is reported if there is no order, and laws of equations over
//! them.
//!
//! - [`Graph`]: what each symbol needs, directly or through groups that several symbols share.
//! - [`order_of`] gives an [`Order`] in which each symbol comes after what it needs, or [`NoOrder`] with the reported loop.
//!
//! The laws hold for any type of values: an accepted graph has one solution, the reported loop is
//! unique and closed, and a minimal set of user values restores the solution.

mod graph;
mod laws;
mod named_loop;
mod order;
mod rows;
mod search;

pub use graph::Graph;
pub use laws::{
    accepted_have_one_solution, alike_needs, computing_solves, cycles_are_unordered,
    groups_stand_for_symbols, iterations_solve, minimal_has_nothing_to_spare, minimal_restores,
    named_loop_is_closed, named_loop_is_within, one_named_loop, ordered_are_accepted,
    solutions_agree, unordered_have_a_loop,
};
pub use order::{NoOrder, Order, order_of};
