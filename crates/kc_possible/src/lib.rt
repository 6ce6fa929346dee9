#![tactic(auto)]
//! What the symbols of a tree may be, whatever the user gives: bounds for each symbol, from the tree alone.
//!
//! - [`bounds`]: the truth values between a lowest and a highest one.
//! - [`possible`]: the bounds of all symbols and of the conditions that many of them share; one pass in the order of needs.
//! - [`expression`]: the bounds of an expression, [`conditions`] of what a line depends on.
//! - [`truths`]: the bounds of a bool or tristate symbol, from those of what it needs.
//! - [`texts`]: the texts that no input changes; [`ranges`]: the texts that the ranges of a number exclude.
//! - [`dead`]: the prompts that no input can make visible, and the values that no input can give.
//! - [`reason`]: the symbols that stand in the way of a dead prompt; [`shared`] keeps those that many prompts share.

pub mod bounds;
pub mod conditions;
pub mod dead;
pub mod expression;
pub mod possible;
mod ranges;
pub mod reason;
pub mod shared;
pub mod texts;
pub mod truths;
