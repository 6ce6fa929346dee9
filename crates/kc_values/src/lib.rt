#![tactic(auto)]
//! The values of the symbols of a tree: one equation for each symbol, and the laws of these equations.
//!
//! - [`equation`]: the equation of any symbol. By type: [`truths`] (bool and tristate), [`texts`] (string) and
//!   [`numbers`] (int and hex). [`choices`] has those of choices and their members.
//! - [`conditions`]: conditions under the values that are known so far.
//! - [`table`]: the values that are known so far.
//! - [`needs`] and [`nodes`]: the graph of the values that each equation needs.
//! - [`written`] and [`differs`]: which symbols a file shows, and which ones a minimal file needs.
//! - [`answers`]: which symbols would change if the user answered.
//! - [`sources`]: where a value comes from.
//! - [`warnings`]: the warnings about values.
//! - [`laws`]: laws of the equations of every tree.

pub mod answers;
pub mod choices;
pub mod conditions;
pub mod differs;
pub mod equation;
pub mod laws;
pub mod needs;
pub mod nodes;
pub mod numbers;
pub mod sources;
pub mod table;
pub mod texts;
pub mod truths;
pub mod value_list;
pub mod warnings;
pub mod written;
