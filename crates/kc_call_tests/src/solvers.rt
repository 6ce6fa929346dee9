//! The solver compared with the plain slow one (kc_solve): they agree on each tree.

ghost use Rattle.kc_solve.specs.Orders.{IsOrderOf};
ghost use Rattle.kc_language.specs.ConfigFile.{ArePlacesOf};
ghost use Rattle.kc_language.specs.Needs.{IsAccepted};

use crate::slow::slow_table;
use crate::trees::{CHOICES, LIMITS, Setup, TEXTS, TRUTHS};
use crate::trial::{Claim, give_all, is_true_of};
use crate::{slow_lines, solved};
use kc_solve::evaluation_order::EvaluationOrder;
use kc_solve::solve::solve;
use kc_tree::laid_tree::LaidTree;
use kc_tree::tree::Tree;
use kc_user::user::User;
use std::alloc::Global;

// Adds the results of the solver for the tree and these user values. Returns whether there is a solution.
fn solved_into(
    alloc: Global,
    laid: &LaidTree<'_>,
    order: &EvaluationOrder,
    user: &User,
    out: &mut Vec<u8>,
) -> bool
    requires order { IsOrderOf laid.now order.now }
    requires user { ArePlacesOf laid.now.tree.now user.now }
{
    match solve(alloc, laid, order, user) {
        Ok(solution) => solved::lines_into(&solution, out).is_ok(),
        Err(_) => false,
    }
}

// Adds the results of the plain slow solver. Returns whether there is a solution.
fn slowly_solved_into(alloc: Global, laid: &LaidTree<'_>, user: &User, out: &mut Vec<u8>) -> bool
    requires accepted { IsAccepted laid.now.tree.now }
    requires user { ArePlacesOf laid.now.tree.now user.now }
{
    let mut warnings = Vec::new(alloc);
    match slow_table(alloc, laid, user) {
        Ok(table) => slow_lines::lines_into(alloc, &table, user, out, &mut warnings).is_ok(),
        Err(_) => false,
    }
}

// Whether both have the same results.
fn agree_along(alloc: Global, laid: &LaidTree<'_>, order: &EvaluationOrder, user: &User) -> bool
    requires order { IsOrderOf laid.now order.now }
    requires user { ArePlacesOf laid.now.tree.now user.now }
{
    let mut found = Vec::new(alloc);
    let mut slowly = Vec::new(alloc);
    solved_into(alloc, laid, order, user, &mut found)
        && slowly_solved_into(alloc, laid, user, &mut slowly)
        && found.as_slice() == slowly.as_slice()
}

// Whether the tree has no dependency loop, and both have the same results.
fn agree(alloc: Global, tree: &Tree, user: &User) -> bool
    requires { ArePlacesOf tree.now user.now }
{
    let laid = tree.laid();
    match EvaluationOrder::of(alloc, &laid) {
        Ok(order) => agree_along(alloc, &laid, &order, user),
        Err(_) => false,
    }
}

impl Claim for Setup {
    fn holds_of(&self, alloc: Global, tree: &Tree) -> bool {
        match User::new(alloc, tree) {
            Ok(mut user) => {
                give_all(alloc, tree, &mut user, self.given) && agree(alloc, tree, &user)
            }
            Err(_) => false,
        }
    }
}

#[test]
fn both_solvers_agree_on_truth_values(rt: HostRuntime) {
    for setup in TRUTHS {
        assert!(rt;
            is_true_of(rt.alloc(), setup.kconfig, setup),
            "{}",
            setup.name
        );
    }
}

#[test]
fn both_solvers_agree_on_limits(rt: HostRuntime) {
    for setup in LIMITS {
        assert!(rt;
            is_true_of(rt.alloc(), setup.kconfig, setup),
            "{}",
            setup.name
        );
    }
}

#[test]
fn both_solvers_agree_on_texts_and_numbers(rt: HostRuntime) {
    for setup in TEXTS {
        assert!(rt;
            is_true_of(rt.alloc(), setup.kconfig, setup),
            "{}",
            setup.name
        );
    }
}

#[test]
fn both_solvers_agree_on_choices(rt: HostRuntime) {
    for setup in CHOICES {
        assert!(rt;
            is_true_of(rt.alloc(), setup.kconfig, setup),
            "{}",
            setup.name
        );
    }
}
