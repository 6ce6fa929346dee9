//! The one valuation that solves the equations of a tree.

ghost use Rattle.std.specs.Prelude.{◌≡◌, IfOk};
ghost use Rattle.kc_language.specs.Needs.{IsAccepted};
ghost use Rattle.kc_solve.specs.Orders.{IsOrderOf};
ghost use Rattle.kc_solve.specs.Computing.{IsSolvedTable};
ghost use Rattle.kc_language.specs.Texts.{IsSolutionFor};
ghost use Rattle.kc_solve.specs.SolvedLaws.{IsMinimal, IdempotentWhere};
ghost use Rattle.kc_solve.specs.Tables.{IsTableOf};
ghost use Rattle.kc_language.specs.ConfigFile.{ArePlacesOf, place_at};

use crate::compute::compute;
use crate::evaluation_order::EvaluationOrder;
use crate::flags::{differing_of, selections, warnings_of, written_if};
use crate::solved::Solved;
use kc_tree::laid_tree::LaidTree;
use kc_user::user::User;
use kc_values::laws::accepted_have_one_solution;
use kc_values::table::Table;
use std::alloc::{AllocError, Global};

/// Computes the values of the symbols of a tree for the user values, in order, each once.
pub(crate) fn full_table<'t>(
    alloc: Global,
    laid: &LaidTree<'t>,
    order: &EvaluationOrder,
    user: &User,
) -> Result<Table<'t>, AllocError>
    requires order { IsOrderOf laid.now order.now }
    requires user { ArePlacesOf laid.now.tree.now user.now }
    ensures solved { IfOk result (IsSolvedTable laid.now.tree.now (place_at user.now) user.now.choices) }
    ensures layout { IfOk result (λ t. t.layout.now ≡ laid.now.layout.now) }
{
    let given = user.symbols();
    let chosen = user.choices();
    let table = compute(alloc, laid, order.nodes(), given, chosen)?;
    Ok(table)
}

/// The solution of a full table that solves. It may keep which symbols are written.
pub(crate) fn solved_of<'t, 'u>(
    alloc: Global,
    table: Table<'t>,
    user: &'u User,
    keeps_written: bool,
) -> Result<Solved<'t, 'u>, AllocError>
    requires accepted { IsAccepted table.tree.now }
    requires user { ArePlacesOf table.tree.now user.now }
    requires table { IsSolvedTable table.tree.now (place_at user.now) user.now.choices table }
    ensures solution { IfOk result (IsSolutionFor table.entry.tree.now user.now) }
    ensures table { IfOk result (λ solved. IsTableOf solved table.entry) }
    ensures minimal { IfOk result IsMinimal }
    ensures idempotent { IfOk result IdempotentWhere }
{
    accepted_have_one_solution();
    let selections = selections(alloc, &table, user)?;
    let differing = differing_of(alloc, &table, user, &selections)?;
    let written = written_if(alloc, &table, keeps_written)?;
    let warnings = warnings_of(alloc, &table, user)?;
    let solved = Solved {
        table,
        user,
        selections,
        differing,
        written,
        warnings,
    };
    solved.is_solution();
    solved.is_minimal();
    solved.is_idempotent_where();
    Ok(solved)
}

/// Solves a tree for the user values: returns the one solution of the equations of its symbols (the kernel's
/// kconfig-language document; where that is vague, kconfiglib's documented rules). Computes each value once, in the
/// given order. The caller must pass an order and user values of that tree. Fails only if there is not enough memory.
pub fn solve<'t, 'u>(
    alloc: Global,
    laid: &LaidTree<'t>,
    order: &EvaluationOrder,
    user: &'u User,
) -> Result<Solved<'t, 'u>, AllocError>
    requires order { IsOrderOf laid.now order.now }
    requires user { ArePlacesOf laid.now.tree.now user.now }
    ensures solution { IfOk result (IsSolutionFor laid.now.tree.now user.now) }
    ensures minimal { IfOk result IsMinimal }
    ensures idempotent { IfOk result IdempotentWhere }
{
    let table = full_table(alloc, laid, order, user)?;
    solved_of(alloc, table, user, false)
}
