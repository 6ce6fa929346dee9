//! What is asked: a goal, of a tree and the input that was read.

ghost use Rattle.kc_how.specs.Questions.{IsQuestion};

use crate::goal::Goal;
use kc_input::prefix::Prefix;
use kc_input::user_input::UserInput;
use kc_possible::possible::Possible;
use kc_solve::evaluation_order::EvaluationOrder;
use kc_solve::solved::Solved;
use kc_tree::laid_tree::LaidTree;

/// What must be set so that the goal is reached? The input is what the input files gave, and `before` is its solution (our own).
#[derive(Clone, Copy)]
pub struct Question<'q, 't, 'i, 's> {
    /// The tree.
    pub laid: &'q LaidTree<'t>,
    /// The order in which its symbols are evaluated.
    pub order: &'q EvaluationOrder,
    /// What its symbols may be.
    pub possible: &'q Possible<'t>,
    /// The notation of names and strings.
    pub prefix: &'q Prefix,
    /// What the input files gave.
    pub input: &'q UserInput<'i>,
    /// The solution for it.
    pub before: &'q Solved<'s, 's>,
    /// What shall hold.
    pub goal: &'q Goal,
    /// The number of fragments that may be tried.
    pub steps: usize,
    /// Whether only an answer counts that loses no value of the user but those that its own lines change.
    pub is_strict: bool,
}
