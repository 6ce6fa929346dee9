#![tactic(auto)]
//! Why a symbol has its value, and how it is defined.
//!
//! - [`Teller`]: what explanations are made from.
//! - [`add_explanation`], [`add_symbol_lines`], [`add_value_words`]: append the lines that explain a symbol, or a part of them.
//! - [`held`]: what holds a symbol down.
//! - [`add_fixed`]: appends the facts about a symbol that no line can change.
//! - [`add_range_lines`]: appends the ranges of a symbol that stand in the way of a number.
//! - [`DefinitionReader`]: gives the definitions of symbols as they are written.
//! - [`Seen`]: symbols in the order in which they were seen.
//! - [`asked_symbol`], [`near_text`]: the symbol of a name, and names that differ from one by one letter ([`differs_by_one`]).

mod always;
mod choice_facts;
pub mod excerpt;
mod fact;
mod fact_text;
mod facts;
pub mod fixed;
mod holders;
pub mod laws;
mod lines;
mod menus;
pub mod names;
mod parts;
mod places;
mod raises;
pub mod range_lines;
mod seen;
mod source_lines;
mod stated;
mod statement_lines;
pub mod teller;
pub mod text;

pub use excerpt::DefinitionReader;
pub use fixed::add_fixed;
pub use holders::held;
pub use names::{asked_symbol, differs_by_one, near_text};
pub use range_lines::add_range_lines;
pub use seen::Seen;
pub use teller::Teller;
pub use text::{add_explanation, add_symbol_lines, add_value_words};
