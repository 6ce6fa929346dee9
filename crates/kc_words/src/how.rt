//! The question what must be set so that a symbol has a value.

ghost use Rattle.std.specs.Prelude.{◌≡◌, IfErr, IfOk, Some, option_map};
ghost use Rattle.kc_words.specs.CommandLine.{goal_in, if_named};
ghost use Rattle.kc_words.specs.Inputs.{goal_view};
ghost use Rattle.kc_words.specs.Refusals.{IsNoGoal};

use crate::each::Each;
use crate::usage::UsageError;
use kc_options::Options;
use std::alloc::{AllocError, Global};

/// The question what must be set so that a symbol has a value (our own). The options explain only this symbol, to standard
/// output.
#[derive(Drop)]
pub struct HowQuestion {
    /// The symbol and the inputs.
    pub options: Options,
    /// The value that the symbol shall have.
    pub value: String,
    /// The most fragments to try.
    pub steps: usize,
}

/// The same question for each of many configurations of one tree (our own). Each answer goes to standard output.
#[derive(Drop)]
pub struct EachQuestion {
    /// The symbol and the configurations.
    pub each: Each,
    /// The value that the symbol shall have.
    pub value: String,
    /// The most fragments to try, for each.
    pub steps: usize,
}

// The symbol and the value of a question.
#[derive(Drop)]
pub(crate) struct Goal {
    pub(crate) name: String,
    pub(crate) value: String,
}

// The name and the value, if the name is not empty.
fn if_named<'t>(name: &'t str, value: &'t str) -> Option<(&'t str, &'t str)>
    ensures { option_map (λ goal. (goal.0.now, goal.1.now)) result ≡ if_named name.now value.now }
{
    if name.is_empty() {
        return None;
    }
    Some((name, value))
}

// The name and the value in `NAME=VALUE`, if there are both. A name is not empty.
fn goal_in(text: &str) -> Option<(&str, &str)>
    ensures { option_map (λ goal. (goal.0.now, goal.1.now)) result ≡ goal_in text.now }
{
    match text.split_once('=') {
        Some((name, value)) => if_named(name, value),
        None => None,
    }
}

// Copies of the name and the value.
fn goal_of(alloc: Global, name: &str, value: &str) -> Result<Goal, AllocError>
    ensures { IfOk result (λ goal. goal_view goal ≡ (name.now, value.now)) }
{
    Ok(Goal {
        name: String::from_str(alloc, name)?,
        value: String::from_str(alloc, value)?,
    })
}

/// Reads the symbol and the value of a question.
pub(crate) fn checked_goal(alloc: Global, text: &str) -> Result<Goal, UsageError>
    ensures ok { IfOk result (λ goal. Some (goal_view goal) ≡ goal_in text.now) }
    ensures err { IfErr result (IsNoGoal text.now) }
{
    match goal_in(text) {
        Some((name, value)) => Ok(goal_of(alloc, name, value)?),
        None => Err(UsageError::Bad(format!(in alloc;
            "error: invalid value '{text}' for '--how <NAME=VALUE>': NAME=VALUE is expected\n\nFor more information, try '--help'.\n"
        )?)),
    }
}
