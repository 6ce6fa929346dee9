//! What a table has computed besides the values of symbols, kept for the next table.

ghost use Rattle.std.specs.Prelude.{◌≡◌, ◌<◌, None, Some, false, length, slice_index_or, true, IfOk, IfSome};
ghost use Rattle.kc_user.specs.PartsOfConfigFile.{member_place};
ghost use Rattle.kc_values.specs.AtTable as at;
ghost use Rattle.kc_solve.specs.Computing.{slots_of, IsComputedContext, IsComputedDependency, IsComputedSelection, IsComputedVisible};
ghost use Rattle.kc_solve.specs.Renewing.{HoldsAt, IsSameAt, kept_slots};

use crate::asked::is_member_alike;
use crate::compute::{compute_context, compute_dependency, compute_selection, compute_visible};
use kc_expr::expression::{SymId, Tri};
use kc_tree::rows::{ChoiceId, EntryId, VisibleId};
use kc_values::table::Table;
use std::alloc::{AllocError, Global};

/// What entries, menus and choices are worth, by number, as a table has computed it (our own).
#[derive(Drop)]
pub struct KeptSlots {
    pub(crate) contexts: Vec<Option<Tri>>,
    pub(crate) visibles: Vec<Option<Tri>>,
    pub(crate) dependencies: Vec<Option<Tri>>,
    pub(crate) selections: Vec<Option<Option<SymId>>>,
}

// What is kept in a place, unless the place is marked.
fn unmarked<T: Copy>(kept: &[Option<T>], place: usize, is_marked: bool) -> Option<T>
    ensures { IfSome result (λ x. (is_marked ≡ false) × (slice_index_or kept.now place None ≡ Some x)) }
{
    match kept.get(place) {
        Some(value) if !is_marked => *value,
        _ => None,
    }
}

// Whether a place holds what is kept for it.
fn is_same_at(kept: &[Option<Tri>], now: &[Option<Tri>], place: usize) -> bool
    ensures { result ≡ true → IsSameAt place kept.now now.now }
{
    match (kept.get(place), now.get(place)) {
        (Some(Some(a)), Some(Some(b))) => *a == *b,
        _ => false,
    }
}

// Whether the place of a choice holds the selection that is kept for it.
fn is_same_selection(
    kept: &[Option<Option<SymId>>],
    now: &[Option<Option<SymId>>],
    place: usize,
) -> bool
    ensures { result ≡ true → IsSameAt place kept.now now.now }
{
    match (kept.get(place), now.get(place)) {
        (Some(Some(a)), Some(Some(b))) => is_member_alike(*a, *b),
        _ => false,
    }
}

// The member chosen for a choice in the configuration before, and those chosen for all choices in this one.
#[derive(Clone, Copy)]
pub(crate) struct ChosenMembers<'u> {
    pub before: Option<SymId>,
    pub members: &'u [Option<SymId>],
}

impl KeptSlots {
    /// Copies what a table has computed. Fails only if memory runs out.
    pub(crate) fn of(alloc: Global, table: &Table<'_>) -> Result<KeptSlots, AllocError>
        ensures { IfOk result (λ kept. kept_slots kept ≡ slots_of table.now) }
    {
        Ok(KeptSlots {
            contexts: Vec::from_slice(alloc, &table.contexts)?,
            visibles: Vec::from_slice(alloc, &table.visibles)?,
            dependencies: Vec::from_slice(alloc, &table.dependencies)?,
            selections: Vec::from_slice(alloc, &table.selections)?,
        })
    }

    /// Renews what a menu asks of what is visible: keeps it, if the menu is not marked. Returns whether it may be another than
    /// before.
    pub(crate) fn renew_visible(
        &self,
        table: &mut Table<'_>,
        id: VisibleId,
        is_marked: bool,
    ) -> bool
        requires there { id.0 < length table.old.visibles.items }
        requires kept { is_marked ≡ false → HoldsAt id.0 self.now.visibles.items (at.visible_context table.old id.0) }
        ensures computed { IsComputedVisible id.0 table.old table.new }
        ensures same { result ≡ false → IsSameAt id.0 self.now.visibles.items table.new.visibles.items }
    {
        let place = id.0 as usize;
        if let Some(value) = unmarked(&self.visibles, place, is_marked) {
            table.visibles[place] = Some(value);
            return false;
        }
        compute_visible(table, id);
        !is_same_at(&self.visibles, &table.visibles, place)
    }

    /// Renews what an entry depends on in the same way.
    pub(crate) fn renew_context(&self, table: &mut Table<'_>, id: EntryId, is_marked: bool) -> bool
        requires there { id.0 < length table.old.contexts.items }
        requires kept { is_marked ≡ false → HoldsAt id.0 self.now.contexts.items (at.context table.old id.0) }
        ensures computed { IsComputedContext id.0 table.old table.new }
        ensures same { result ≡ false → IsSameAt id.0 self.now.contexts.items table.new.contexts.items }
    {
        let place = id.0 as usize;
        if let Some(value) = unmarked(&self.contexts, place, is_marked) {
            table.contexts[place] = Some(value);
            return false;
        }
        compute_context(table, id);
        !is_same_at(&self.contexts, &table.contexts, place)
    }

    /// Renews what a choice depends on itself in the same way.
    pub(crate) fn renew_dependency(
        &self,
        table: &mut Table<'_>,
        id: ChoiceId,
        is_marked: bool,
    ) -> bool
        requires there { id.0 < length table.old.dependencies.items }
        requires kept { is_marked ≡ false → HoldsAt id.0 self.now.dependencies.items (at.choice_dependency table.old id.0) }
        ensures computed { IsComputedDependency id.0 table.old table.new }
        ensures same { result ≡ false → IsSameAt id.0 self.now.dependencies.items table.new.dependencies.items }
    {
        let place = id.0 as usize;
        if let Some(value) = unmarked(&self.dependencies, place, is_marked) {
            table.dependencies[place] = Some(value);
            return false;
        }
        compute_dependency(table, id);
        !is_same_at(&self.dependencies, &table.dependencies, place)
    }

    /// Renews what a choice selects in the same way. With another member chosen it may select another one.
    pub(crate) fn renew_selection(
        &self,
        table: &mut Table<'_>,
        id: ChoiceId,
        chosen: &ChosenMembers<'_>,
        is_marked: bool,
    ) -> bool
        requires there { id.0 < length table.old.selections.items }
        requires chosen { id.0 < length chosen.now.members.now }
        requires kept { is_marked ≡ false → chosen.now.before ≡ slice_index_or chosen.now.members.now id.0 None → HoldsAt id.0 self.now.selections.items (at.selected table.old id.0 (member_place chosen.now.before)) }
        ensures computed { IsComputedSelection chosen.now.members.now id.0 table.old table.new }
        ensures same { result ≡ false → (chosen.now.before ≡ slice_index_or chosen.now.members.now id.0 None) × IsSameAt id.0 self.now.selections.items table.new.selections.items }
    {
        let place = id.0 as usize;
        if !is_member_alike(chosen.before, chosen.members[place]) {
            compute_selection(table, id, chosen.members);
            return true;
        }
        if let Some(selection) = unmarked(&self.selections, place, is_marked) {
            table.selections[place] = Some(selection);
            return false;
        }
        compute_selection(table, id, chosen.members);
        !is_same_selection(&self.selections, &table.selections, place)
    }
}
