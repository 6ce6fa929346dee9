#![tactic(auto)]
//! The solver: an order of the symbols of a tree, and the one solution of its equations for the user values.
//!
//! - [`EvaluationOrder`]: an order in which each value comes after those that it needs, or the dependency loop.
//! - [`solve`]: the values, each computed once in that order.
//! - [`Solved`]: the solution, and what follows from it: which symbols are written, which differ, and the warnings.

pub mod again;
mod asked;
mod compute;
pub mod evaluation_order;
mod flags;
mod plan;
mod renewing;
mod slots;
pub mod solve;
pub mod solved;
mod sources;

pub use evaluation_order::EvaluationOrder;
pub use solved::Solved;
