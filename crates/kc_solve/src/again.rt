//! The solution for a further configuration of the same tree: only what may be another than before is computed again.

ghost use Rattle.std.specs.Prelude.{◌≡◌, IfOk};
ghost use Rattle.kc_language.specs.ConfigFile.{ArePlacesOf, place_at};
ghost use Rattle.kc_language.specs.Texts.{IsSolutionFor};
ghost use Rattle.kc_solve.specs.Again.{AreSlotsOf, IsAgainOf, IsPlanOf, IsStageFor, IsStageOf};
ghost use Rattle.kc_solve.specs.Computing.{IsSolvedTable};
ghost use Rattle.kc_solve.specs.Orders.{IsOrderOf};
ghost use Rattle.kc_solve.specs.SolvedLaws.{IsMinimal, IdempotentWhere};
ghost use Rattle.kc_tree.specs.declared.laid_tree.LaidTree.{LaidTree};

use crate::asked::copied;
use crate::evaluation_order::EvaluationOrder;
use crate::plan::Plan;
use crate::renewing::{Kept, renewed};
use crate::slots::KeptSlots;
use crate::solve::{full_table, solved_of};
use crate::solved::Solved;
use kc_tree::laid_tree::LaidTree;
use kc_user::user::User;
use kc_values::table::Table;
use std::alloc::{AllocError, Global};
use std::mem;

// What is kept of the last solution.
#[derive(Drop)]
enum Stage {
    // Nothing is.
    Nothing,
    // The caller has the solution with its values. The rest is here.
    Lent(KeptSlots),
    // All that the next solution needs.
    Whole(Kept),
}

/// What is kept of the last solution for a tree, so that the next one takes only as many steps as it differs (our own).
#[derive(Drop)]
pub struct Again {
    // Without a plan nothing is kept.
    plan: Option<Plan>,
    stage: Stage,
}

// What is kept of a solution: nothing if there is not enough memory for it.
fn kept_of(alloc: Global, solved: Solved<'_, '_>, slots: KeptSlots) -> Stage
    ensures { (laid : LaidTree) → laid.tree.now ≡ solved.entry.tree → AreSlotsOf laid solved.entry slots → IsStageOf laid result }
{
    let Solved { table, user, .. } = solved;
    let Table { tree, values, .. } = table;
    match copied(alloc, tree, user) {
        Ok(user) => Stage::Whole(Kept {
            values,
            slots,
            user,
        }),
        Err(_) => Stage::Nothing,
    }
}

// The table for these user values: that of the solution before renewed, if it is kept.
fn next_table<'t>(
    alloc: Global,
    laid: &LaidTree<'t>,
    order: &EvaluationOrder,
    plan: &Plan,
    stage: Stage,
    user: &User,
) -> Result<Table<'t>, AllocError>
    requires order { IsOrderOf laid.now order.now }
    requires plan { IsPlanOf laid.now plan.now }
    requires stage { IsStageOf laid.now stage }
    requires user { ArePlacesOf laid.now.tree.now user.now }
    ensures solved { IfOk result (IsSolvedTable laid.now.tree.now (place_at user.now) user.now.choices) }
    ensures layout { IfOk result (λ table. table.layout.now ≡ laid.now.layout.now) }
{
    match stage {
        Stage::Whole(kept) => renewed(alloc, laid, plan, kept, user),
        _ => full_table(alloc, laid, order, user),
    }
}

impl Again {
    /// Keeps nothing for a further solution, for a tree with few configurations. A solution then keeps which symbols are written.
    pub fn never() -> Again
        ensures { (laid : LaidTree) → IsAgainOf laid result }
    {
        Again {
            plan: None,
            stage: Stage::Nothing,
        }
    }

    /// Before the first solution for a tree, with an order of it. Fails only if there is not enough memory.
    pub fn of(
        alloc: Global,
        laid: &LaidTree<'_>,
        order: &EvaluationOrder,
    ) -> Result<Again, AllocError>
        requires { IsOrderOf laid.now order.now }
        ensures { IfOk result (IsAgainOf laid.now) }
    {
        let plan = Plan::of(alloc, laid, order)?;
        Ok(Again {
            plan,
            stage: Stage::Nothing,
        })
    }

    /// Solves a tree for the user values like [`solve`](crate::solve::solve), in fewer steps if the solution before is kept. It is
    /// not kept any more. The caller must pass an order and user values of that tree. Fails only if there is not enough memory.
    pub fn solve<'t, 'u>(
        &mut self,
        alloc: Global,
        laid: &LaidTree<'t>,
        order: &EvaluationOrder,
        user: &'u User,
    ) -> Result<Solved<'t, 'u>, AllocError>
        requires again { IsAgainOf laid.now self.old }
        requires order { IsOrderOf laid.now order.now }
        requires user { ArePlacesOf laid.now.tree.now user.now }
        ensures again { IsAgainOf laid.now self.new }
        ensures stage { IfOk result (IsStageFor laid.now self.new) }
        ensures solution { IfOk result (IsSolutionFor laid.now.tree.now user.now) }
        ensures minimal { IfOk result IsMinimal }
        ensures idempotent { IfOk result IdempotentWhere }
    {
        let Some(plan) = &self.plan else {
            self.stage = Stage::Nothing;
            let table = full_table(alloc, laid, order, user)?;
            return solved_of(alloc, table, user, true);
        };
        let stage = mem::replace(&mut self.stage, Stage::Nothing);
        let table = next_table(alloc, laid, order, plan, stage, user)?;
        let slots = KeptSlots::of(alloc, &table)?;
        let solved = solved_of(alloc, table, user, false)?;
        self.stage = Stage::Lent(slots);
        Ok(solved)
    }

    /// Keeps of the solution that was returned last what the next one needs, unless nothing is to be kept, or there is not enough
    /// memory for it.
    pub fn keep(&mut self, alloc: Global, solved: Solved<'_, '_>)
        ensures { (laid : LaidTree) → laid.tree.now ≡ solved.entry.tree → IsStageFor laid self.old solved.entry → IsAgainOf laid self.old → IsAgainOf laid self.new }
    {
        self.stage = match mem::replace(&mut self.stage, Stage::Nothing) {
            Stage::Lent(slots) => kept_of(alloc, solved, slots),
            _ => Stage::Nothing,
        };
    }
}
