//! The facts about the lines that select or imply a symbol.

ghost use Rattle.std.specs.Prelude.{◌≡◌, ◌<◌, length, map, IfOk, OnOk};
ghost use Rattle.kc_language.specs.Expressions.{truth_of_value};
ghost use Rattle.kc_language.specs.Texts.{known};
ghost use Rattle.kc_explain.specs.FactLists as told;
ghost use Rattle.kc_explain.specs.FactLists.{Adds};
ghost use Rattle.kc_explain.specs.LineViews.{target_view};
ghost use Rattle.kc_explain.specs.RaiseFacts as spec;

use crate::fact::Fact;
use crate::lines::{TargetAt, targets};
use crate::parts::{dependency_value, is_n, value_under};
use crate::teller::Teller;
use kc_expr::expression::{SymId, Tri};
use kc_expr::values::{lesser, truth_of};
use kc_language::symbols::SelectOrImply;
use kc_solve::solved::Solved;
use kc_tree::attributes::condition;
use kc_tree::rows::EntryId;
use std::alloc::{AllocError, Global};

/// An entry, and the value of what it depends on (our own).
#[derive(Clone, Copy)]
pub(crate) struct EntryValue {
    pub entry: EntryId,
    pub value: Tri,
}

// The value of what an entry depends on. It is computed only if it is not that of the last entry.
fn value_at(t: &Teller<'_, '_, '_>, entry: EntryId, last: EntryValue) -> EntryValue
    requires { spec.IsValueOf t.now last }
    ensures same { result.entry.0 ≡ entry.0 }
    ensures value { spec.IsValueOf t.now result }
{
    if entry.0 == last.entry.0 {
        return last;
    }
    let value = dependency_value(t, entry);
    EntryValue { entry, value }
}

/// The value of a symbol as a truth value.
pub(crate) fn symbol_value(solved: &Solved<'_, '_>, id: SymId) -> Tri
    ensures { result ≡ truth_of_value (known solved.now id) }
{
    solved.tells_known();
    truth_of(id, solved)
}

// The value up to which a line raises, given that of its symbol. What its entry depends on is asked only if the symbol is not n.
fn raised_to(
    t: &Teller<'_, '_, '_>,
    target: &TargetAt<'_>,
    by_value: Tri,
    last: &mut EntryValue,
) -> Tri
    requires { spec.IsValueOf t.now last.old }
    ensures last { spec.IsValueOf t.now last.new }
    ensures value { result ≡ spec.raised_to t.now by_value (target_view t.now.layout.now target.now) }
{
    if is_n(by_value) {
        return Tri::N;
    }
    *last = value_at(t, target.entry, *last);
    lesser(
        by_value,
        value_under(t.solved, last.value, condition(target.when)),
    )
}

// Appends the fact about a line that raises. Returns how many lines do not: 0 or 1.
fn add_raised<'t>(
    t: &Teller<'t, '_, '_>,
    word: SelectOrImply,
    target: &TargetAt<'t>,
    last: &mut EntryValue,
    facts: &mut Vec<Fact<'t>>,
) -> Result<usize, AllocError>
    requires { spec.IsValueOf t.now last.old }
    ensures last { OnOk result (spec.IsValueOf t.now last.new) }
    ensures count { IfOk result (λ n. n ≡ length (spec.not_raised t.now (target_view t.now.layout.now target.now))) }
    ensures facts { OnOk result (Adds t.now facts.old.items facts.new.items
        (spec.raised_told t.now word (target_view t.now.layout.now target.now))) }
{
    let by_value = symbol_value(t.solved, target.by);
    let value = raised_to(t, target, by_value, last);
    if is_n(value) {
        return Ok(1);
    }
    facts.push(Fact::Raised {
        word,
        by: target.by,
        by_value,
        line: target.line,
        when: target.when,
        value,
    })?;
    Ok(0)
}

// Appends the facts about these lines that raise. Returns how many do not.
fn add_all_raised<'t>(
    t: &Teller<'t, '_, '_>,
    word: SelectOrImply,
    targets: &[TargetAt<'t>],
    facts: &mut Vec<Fact<'t>>,
) -> Result<usize, AllocError>
    ensures facts { OnOk result (Adds t.now facts.old.items facts.new.items
        (spec.all_raised t.now word (map (target_view t.now.layout.now) targets.now))) }
    ensures count { IfOk result (λ n. n ≡ length (spec.not_raising t.now (map (target_view t.now.layout.now) targets.now))) }
{
    let mut last = EntryValue {
        entry: EntryId::top(),
        value: Tri::Y,
    };
    let mut count = 0;
    for target in targets {
        count += add_raised(t, word, target, &mut last, facts)?;
    }
    Ok(count)
}

/// Appends the facts about the lines that select or imply a symbol. The only error is that memory runs out.
pub(crate) fn add_raises<'t>(
    alloc: Global,
    t: &Teller<'t, '_, '_>,
    word: SelectOrImply,
    id: SymId,
    facts: &mut Vec<Fact<'t>>,
) -> Result<(), AllocError>
    requires { id.0 < length t.now.layout.now.symbols.items }
    ensures { OnOk result (Adds t.now facts.old.items facts.new.items (told.raises_of t.now word id)) }
{
    let lines = targets(alloc, t.layout, word, id)?;
    let count = add_all_raised(t, word, &lines, facts)?;
    if count > 0 {
        facts.push(Fact::NotRaised { word, count })?;
        Ok(())
    } else {
        Ok(())
    }
}
