//! The Kconfig language: all definitions that must be trusted, and the enums that they use. The crate has no functions.
//!
//! The chapters are the files of `specs/`. Read them in this order: `Text`, `Lines`, `Tokens`, `Expressions`, `Statements`,
//! `Expansion`, `Symbols`, `Values`, `Needs`, `ConfigFile`, `Texts`, `ExpressionTexts`, `Sources`, `Files`. Two more stand in
//! the crate `kc_outcome`: `Explanations` and `Outcome`.
#![tactic(auto)]

pub mod diagnostics;
pub mod expressions;
pub mod files;
pub mod sources;
pub mod statements;
pub mod symbols;
pub mod tokens;
pub mod values;
