//! The outcome of a run: the last two chapters of definitions that must be trusted, and the enums and structs that they
//! use. The crate has no functions.
//!
//! The chapters are the files of `specs/`. Read `Explanations` and then `Outcome`, after those of `kc_language`.
#![tactic(auto)]

pub mod outcome;
