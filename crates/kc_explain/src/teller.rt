//! What explanations are made from.

ghost use Rattle.std.specs.Prelude.{◌≡◌};
ghost use Rattle.kc_tree.specs.LaidTrees.{layout-prop};
ghost use Rattle.kc_tree.specs.Layouts.{IsLayoutOf};

use kc_input::user_input::UserInput;
use kc_solve::solved::Solved;
use kc_tree::layout::Layout;

/// What explanations are made from: the layout of a tree, its solution, and what the input files gave; and whether strings are
/// printed raw, without escapes.
#[derive(Drop)]
pub struct Teller<'t, 's, 'i> {
    pub layout: &'t Layout,
    pub solved: &'t Solved<'s, 's>,
    pub input: &'t UserInput<'i>,
    pub is_raw: bool,
    ghost laid: { IsLayoutOf solved.now.tree layout.now } by { layout-prop solved.now.tree layout.now },
}

impl<'t, 's, 'i> Teller<'t, 's, 'i> {
    /// Returns what the explanations of a solution are made from.
    pub fn new(solved: &'t Solved<'s, 's>, input: &'t UserInput<'i>, is_raw: bool) -> Self
        ensures solved { result.solved.now ≡ solved.now }
        ensures input { result.input.now ≡ input.now }
        ensures is_raw { result.is_raw ≡ is_raw }
    {
        let layout = solved.tree().layout();
        Teller {
            layout,
            solved,
            input,
            is_raw,
        }
    }
}
